//! A leaf replaced by a hole.
ghost use Rattle.std.specs.Prelude.{◌≡◌, nat_eq, map, IfOk};
ghost use Rattle.vt_syntax.specs.declared.core_expr.Form.{Hole};
ghost use Rattle.vt_syntax.specs.CoreTrees.{core};
ghost use Rattle.vt_syntax.specs.Holes.{where_same, core_with_hole, def_with_hole, program_with_hole};

use crate::{Core, CoreDef, CoreDefs, CoreProgram, Form};
use sqlite_items::Boxed;
use std::alloc::{AllocError, Global};
use vt_dec::NodeId;
use vt_lex::Span;

/// The program with the literal, the name or the constant of this number replaced by a hole of the
/// same number and span. Where no such leaf has the number, this is a copy.
pub fn replace_leaf(
    alloc: Global,
    program: &CoreProgram,
    node: NodeId,
) -> Result<CoreProgram, AllocError>
    ensures { IfOk result (λ p. p ≡ program_with_hole node program.now) }
{
    let defs = holed_defs(alloc, program.defs.as_slice(), node)?;
    let main = holed(&program.main, alloc, node)?;
    Ok(CoreProgram {
        defs: CoreDefs::new(defs),
        main: main.into_inner(),
    })
}

fn holed_defs(alloc: Global, defs: &[CoreDef], leaf: NodeId) -> Result<Vec<CoreDef>, AllocError>
    ensures { IfOk result (λ made. made.items ≡ map (def_with_hole leaf) defs.now) }
{
    let mut made = Vec::new(alloc);
    for def in defs {
        made.push(holed_def(alloc, def, leaf)?)?;
    }
    Ok(made)
}

fn holed_def(alloc: Global, def: &CoreDef, leaf: NodeId) -> Result<CoreDef, AllocError>
    ensures { IfOk result (λ made. made ≡ def_with_hole leaf def.now) }
{
    let name = def.name.copied(alloc)?;
    let body = holed(&def.body, alloc, leaf)?;
    Ok(CoreDef {
        name,
        name_span: def.name_span,
        node: def.node,
        recursive: def.recursive,
        body: body.into_inner(),
    })
}

// The tree stands first: the recursion goes down in it.
fn holed(expr: &Core, alloc: Global, leaf: NodeId) -> Result<Boxed<Core>, AllocError>
    ensures { IfOk result (λ made. made ≡ core_with_hole leaf expr.now) }
{
    let node = expr.node;
    let at = expr.span;
    match &expr.form {
        Form::Literal(literal) => kept_or_hole(alloc, node, at, Form::Literal(*literal), leaf),
        Form::Name(distance) => kept_or_hole(alloc, node, at, Form::Name(*distance), leaf),
        Form::Const(id) => kept_or_hole(alloc, node, at, Form::Const(*id), leaf),
        Form::Hole => Core::leaf(alloc, node, at, Form::Hole),
        Form::Fun(body) => {
            let body = holed(body.get(), alloc, leaf)?;
            Core::fun(alloc, node, at, body)
        }
        Form::App(function, argument) => {
            let function = holed(function.get(), alloc, leaf)?;
            let argument = holed(argument.get(), alloc, leaf)?;
            Core::app(alloc, node, at, function, argument)
        }
        Form::Let(bound, body) => {
            let bound = holed(bound.get(), alloc, leaf)?;
            let body = holed(body.get(), alloc, leaf)?;
            Core::let_in(alloc, node, at, bound, body)
        }
        Form::LetRec(name, name_at, bound, body) => {
            let name = name.copied(alloc)?;
            let bound = holed(bound.get(), alloc, leaf)?;
            let body = holed(body.get(), alloc, leaf)?;
            Core::let_rec(alloc, node, at, name, *name_at, bound, body)
        }
        Form::Choice(dim, left, right) => {
            let left = holed(left.get(), alloc, leaf)?;
            let right = holed(right.get(), alloc, leaf)?;
            Core::choice(alloc, node, at, *dim, left, right)
        }
    }
}

// A form without parts, or a hole where its number is that of the leaf.
fn kept_or_hole(
    alloc: Global,
    node: NodeId,
    at: Span,
    form: Form,
    leaf: NodeId,
) -> Result<Boxed<Core>, AllocError>
    ensures { IfOk result (λ made. made ≡ where_same (nat_eq node leaf) (core node at Hole) (core node at form)) }
{
    if node == leaf {
        drop(form);
        Core::leaf(alloc, node, at, Form::Hole)
    } else {
        Core::leaf(alloc, node, at, form)
    }
}
