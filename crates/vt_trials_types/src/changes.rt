ghost use Rattle.std.specs.Prelude.{◌≡◌, ◌≢◌, ◌^◌, ◌<◌, [], ◌∷◌, ◌++◌, IfOk, OnOk};
ghost use Rattle.vt_change.specs.Ranking.{CanBeCounted};
ghost use Rattle.vt_syntax.specs.Leaves.{leaf};
ghost use Rattle.vt_syntax.specs.declared.leaf.Class.TheVariants as class;
ghost use Rattle.vt_type.specs.Plain.{plain_nodes};

use std::alloc::{AllocError, Global};
use std::test::Fail;
use vt_change::{rank, vary_leaves};
use vt_dec::{Dim, NodeId};
use vt_lex::Span;
use vt_syntax::{Class, Core, CoreDefs, CoreProgram, Form, Leaf, Leaves, Lit};
use vt_type::{ChangeLine, ConstId, Plain};

const NOWHERE: Span = Span { start: 0, end: 0 };

// One more change, of which the wanted type is small.
fn add(
    lines: &mut Vec<ChangeLine>,
    leaf: u32,
    class: Class,
    wanted: Plain,
) -> Result<(), AllocError>
    requires lines { CanBeCounted lines.old.items }
    requires wanted { plain_nodes wanted < 2 ^ 32 }
    ensures { OnOk result (CanBeCounted lines.new.items) }
{
    lines.push(ChangeLine {
        leaf,
        class: class.number(),
        wanted,
        result: Plain::int(),
    })?;
    Ok(())
}

// The leaves of changes in the order in which these are listed.
fn ranked(alloc: Global) -> Result<Vec<u32>, AllocError> {
    let mut lines = Vec::new(alloc);
    add(&mut lines, 0, Class::Constant, Plain::bool())?;
    add(&mut lines, 4, Class::Literal, Plain::int())?;
    add(&mut lines, 1, Class::Parameter, Plain::string())?;
    add(&mut lines, 3, Class::Literal, Plain::bool())?;
    rank(&mut lines)?;
    let mut leaves = Vec::new(alloc);
    for line in lines.as_slice() {
        leaves.push(line.leaf)?;
    }
    drop(lines);
    Ok(leaves)
}

#[test]
fn changes_go_by_class_and_then_by_place(rt: HostRuntime) -> Result<(), Fail> {
    let leaves = ranked(rt.alloc())?;
    assert_eq!(rt; leaves.as_slice(), [3, 4, 1, 0].as_slice());
    Ok(())
}

// The program `1 + true`, and its leaves by their place.
fn sum(alloc: Global) -> Result<CoreProgram, AllocError> {
    let sign = Core::leaf(alloc, NodeId(1), NOWHERE, Form::Const(ConstId::ADD))?;
    let one = Core::leaf(alloc, NodeId(2), NOWHERE, Form::Literal(Lit::Number(1)))?;
    let half = Core::app(alloc, NodeId(3), NOWHERE, sign, one)?;
    let truth = Core::leaf(alloc, NodeId(4), NOWHERE, Form::Literal(Lit::Truth(true)))?;
    let main = Core::app(alloc, NodeId(5), NOWHERE, half, truth)?;
    let defs = CoreDefs::new(Vec::new(alloc));
    Ok(CoreProgram {
        defs,
        main: main.into_inner(),
    })
}

fn truth_alone(alloc: Global) -> Result<Leaves, AllocError>
    ensures { IfOk result (λ leaves. leaves ≡ leaf (record { start = 0; end = 0 }) class.Literal 4 ∷ []) }
{
    let mut leaves = Vec::new(alloc);
    leaves.push(Leaf {
        span: NOWHERE,
        class: Class::Literal.number(),
        node: NodeId(4),
    })?;
    Ok(Leaves::new(leaves))
}

// What the argument of `1 + true` is once `true` is varied.
fn varied_argument(alloc: Global) -> Result<Option<(Dim, bool)>, AllocError> {
    let program = sum(alloc)?;
    let leaves = truth_alone(alloc)?;
    let varied = vary_leaves(alloc, &program, &leaves);
    drop(leaves);
    drop(program);
    let varied = varied?;
    let found = choice_of_argument(&varied.main);
    drop(varied);
    Ok(found)
}

// The dimension of a choice as an argument, and whether its right side is a hole.
fn choice_of_argument(expr: &Core) -> Option<(Dim, bool)> {
    let Form::App(_, argument) = &expr.form else {
        return None;
    };
    let Form::Choice(dim, _, right) = &argument.get().form else {
        return None;
    };
    Some((*dim, is_hole(right.get())))
}

fn is_hole(expr: &Core) -> bool {
    match &expr.form {
        Form::Hole => true,
        _ => false,
    }
}

#[test]
fn a_leaf_is_a_choice_between_itself_and_a_hole(rt: HostRuntime) -> Result<(), Fail> {
    assert_eq!(rt; varied_argument(rt.alloc())?, Some((Dim(0), true)));
    Ok(())
}
