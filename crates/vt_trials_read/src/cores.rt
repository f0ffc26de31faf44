use std::alloc::{AllocError, Global};
use vt_dec::NodeId;
use vt_lex::Span;
use vt_syntax::{Core, CoreDefs, CoreProgram, Form, Lit, replace_leaf};
use vt_type::ConstId;

const WHOLE: Span = Span { start: 0, end: 8 };

// The program `1 + true`. The numbers are 1 to 5.
fn sum(alloc: Global) -> Result<CoreProgram, AllocError> {
    let sign = Span { start: 2, end: 3 };
    let sign = Core::leaf(alloc, NodeId(1), sign, Form::Const(ConstId::ADD))?;
    let one = Span { start: 0, end: 1 };
    let one = Core::leaf(alloc, NodeId(2), one, Form::Literal(Lit::Number(1)))?;
    let half = Core::app(alloc, NodeId(3), WHOLE, sign, one)?;
    let truth = Span { start: 4, end: 8 };
    let truth = Core::leaf(alloc, NodeId(4), truth, Form::Literal(Lit::Truth(true)))?;
    let main = Core::app(alloc, NodeId(5), WHOLE, half, truth)?;
    Ok(CoreProgram {
        defs: CoreDefs::new(Vec::new(alloc)),
        main: main.into_inner(),
    })
}

// `1 + _`, with the numbers 1 to 5.
fn is_holed_sum(core: &Core) -> bool {
    match &core.form {
        Form::App(half, hole) => {
            core.node == NodeId(5) && is_half(half.get()) && is_hole(hole.get())
        }
        _ => false,
    }
}

fn is_half(core: &Core) -> bool {
    match &core.form {
        Form::App(sign, one) => core.node == NodeId(3) && is_sign(sign.get()) && is_one(one.get()),
        _ => false,
    }
}

fn is_sign(core: &Core) -> bool {
    match &core.form {
        Form::Const(id) => core.node == NodeId(1) && *id == ConstId::ADD,
        _ => false,
    }
}

fn is_one(core: &Core) -> bool {
    match &core.form {
        Form::Literal(literal) => core.node == NodeId(2) && *literal == Lit::Number(1),
        _ => false,
    }
}

fn is_hole(core: &Core) -> bool {
    core.node == NodeId(4) && matches!(core.form, Form::Hole)
}

fn is_holed(alloc: Global) -> Result<bool, AllocError> {
    let program = sum(alloc)?;
    let found = replace_leaf(alloc, &program, NodeId(4));
    drop(program);
    let found = found?;
    let answer = is_holed_sum(&found.main);
    drop(found);
    Ok(answer)
}

#[test]
fn one_leaf_becomes_a_hole(rt: HostRuntime) {
    assert!(rt; matches!(is_holed(rt.alloc()), Ok(true)));
}
