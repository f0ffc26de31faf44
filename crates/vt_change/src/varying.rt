//! A program of which each leaf is a choice between itself and a hole.
ghost use Rattle.std.specs.Prelude.{◌≡◌, ℕ, ◌≤◌, List, length, map, slice_get, Some, IfOk};
ghost use Rattle.vt_dec.specs.declared.side.Side.{Side};
ghost use Rattle.vt_syntax.specs.declared.leaf.Leaf.{Leaf};
ghost use Rattle.vt_syntax.specs.CoreTrees.{core};
ghost use Rattle.vt_syntax.specs.Leaves.{HaveDifferentNumbers};
ghost use Rattle.vt_syntax.specs.Holes.{program_with_hole};
ghost use Rattle.vt_syntax.specs.Programs.{whole};
ghost use Rattle.vt_syntax.specs.Selection.{selected_core_program, IsPlainForm};
ghost use Rattle.vt_syntax.specs.Varying.{leaf_index, or_hole, core_varied, def_varied, program_varied, TakesNone, TakesOne};
ghost use Rattle.vt_change.specs.Numbering.{IsNumbering};

use crate::leaf_numbers::LeafNumbers;
use sqlite_items::Boxed;
use std::alloc::{AllocError, Global};
use vt_dec::NodeId;
use vt_lex::Span;
use vt_syntax::{Core, CoreDef, CoreDefs, CoreProgram, Form, Leaves};

/// The program with each leaf i made a choice of dimension i between the leaf and a hole. The choice,
/// the leaf and the hole have the leaf's number and span.
pub fn vary_leaves(
    alloc: Global,
    core: &CoreProgram,
    leaves: &Leaves,
) -> Result<CoreProgram, AllocError>
    requires different { HaveDifferentNumbers leaves.now }
    requires few { length leaves.now ≤ 2048 }
    ensures varied { IfOk result (λ p. p ≡ program_varied leaves.now core.now) }

    // In a program without choices: what is selected where each leaf is left, and where one alone is not.
    ensures none { IfOk result (λ p. IsPlainForm (whole core.now).form → (decision : List Side) → TakesNone (length leaves.now) decision
        → selected_core_program (slice_get decision) p ≡ core.now) }
    ensures one { IfOk result (λ p. IsPlainForm (whole core.now).form → (decision : List Side) (number : ℕ) (leaf : Leaf) → slice_get leaves.now number ≡ Some leaf → TakesOne (length leaves.now) number decision
        → selected_core_program (slice_get decision) p ≡ program_with_hole leaf.node core.now) }
{
    let numbers = LeafNumbers::of(alloc, leaves.as_slice())?;
    let varied = program(core, alloc, &numbers);
    drop(numbers);
    varied
}

fn program(
    core: &CoreProgram,
    alloc: Global,
    numbers: &LeafNumbers,
) -> Result<CoreProgram, AllocError>
    requires { length numbers.now ≤ 2048 }
    ensures { (leaves : List Leaf) → IsNumbering leaves numbers.now → IfOk result (λ p. p ≡ program_varied leaves core.now) }
{
    let defs = defs(core.defs.as_slice(), alloc, numbers)?;
    match varied(&core.main, alloc, numbers) {
        Ok(main) => Ok(CoreProgram {
            defs: CoreDefs::new(defs),
            main: main.into_inner(),
        }),
        Err(fault) => {
            drop(defs);
            Err(fault)
        }
    }
}

fn defs(defs: &[CoreDef], alloc: Global, numbers: &LeafNumbers) -> Result<Vec<CoreDef>, AllocError>
    requires { length numbers.now ≤ 2048 }
    ensures { (leaves : List Leaf) → IsNumbering leaves numbers.now → IfOk result (λ made. made.items ≡ map (def_varied leaves) defs.now) }
{
    let mut made = Vec::new(alloc);
    for def in defs {
        made.push(varied_def(def, alloc, numbers)?)?;
    }
    Ok(made)
}

fn varied_def(def: &CoreDef, alloc: Global, numbers: &LeafNumbers) -> Result<CoreDef, AllocError>
    requires { length numbers.now ≤ 2048 }
    ensures { (leaves : List Leaf) → IsNumbering leaves numbers.now → IfOk result (λ made. made ≡ def_varied leaves def.now) }
{
    let name = def.name.copied(alloc)?;
    let body = varied(&def.body, alloc, numbers)?;
    Ok(CoreDef {
        name,
        name_span: def.name_span,
        node: def.node,
        recursive: def.recursive,
        body: body.into_inner(),
    })
}

// The tree stands first: the recursion goes down in it.
fn varied(expr: &Core, alloc: Global, numbers: &LeafNumbers) -> Result<Boxed<Core>, AllocError>
    requires { length numbers.now ≤ 2048 }
    ensures { (leaves : List Leaf) → IsNumbering leaves numbers.now → IfOk result (λ made. made ≡ core_varied leaves expr.now) }
{
    let node = expr.node;
    let at = expr.span;
    match &expr.form {
        Form::Literal(literal) => leaf_or_choice(alloc, node, at, Form::Literal(*literal), numbers),
        Form::Name(distance) => leaf_or_choice(alloc, node, at, Form::Name(*distance), numbers),
        Form::Const(id) => leaf_or_choice(alloc, node, at, Form::Const(*id), numbers),
        Form::Hole => Core::leaf(alloc, node, at, Form::Hole),
        Form::Fun(body) => {
            let body = varied(body.get(), alloc, numbers)?;
            Core::fun(alloc, node, at, body)
        }
        Form::App(function, argument) => {
            let function = varied(function.get(), alloc, numbers)?;
            let argument = varied(argument.get(), alloc, numbers)?;
            Core::app(alloc, node, at, function, argument)
        }
        Form::Let(bound, body) => {
            let bound = varied(bound.get(), alloc, numbers)?;
            let body = varied(body.get(), alloc, numbers)?;
            Core::let_in(alloc, node, at, bound, body)
        }
        Form::LetRec(name, name_at, bound, body) => {
            let name = name.copied(alloc)?;
            let bound = varied(bound.get(), alloc, numbers)?;
            let body = varied(body.get(), alloc, numbers)?;
            Core::let_rec(alloc, node, at, name, *name_at, bound, body)
        }
        Form::Choice(dim, left, right) => {
            let left = varied(left.get(), alloc, numbers)?;
            let right = varied(right.get(), alloc, numbers)?;
            Core::choice(alloc, node, at, *dim, left, right)
        }
    }
}

// A form without parts, or where its number is that of a leaf the choice between it and a hole.
fn leaf_or_choice(
    alloc: Global,
    node: NodeId,
    at: Span,
    form: Form,
    numbers: &LeafNumbers,
) -> Result<Boxed<Core>, AllocError>
    requires { length numbers.now ≤ 2048 }
    ensures { (leaves : List Leaf) → IsNumbering leaves numbers.now → IfOk result (λ made. made ≡ or_hole (leaf_index leaves node) (core node at form)) }
{
    let dim = numbers.dim(node);
    let kept = Core::leaf(alloc, node, at, form)?;
    let Some(dim) = dim else {
        return Ok(kept);
    };
    match Core::leaf(alloc, node, at, Form::Hole) {
        Ok(hole) => Core::choice(alloc, node, at, dim, kept, hole),
        Err(fault) => {
            drop(kept);
            Err(fault)
        }
    }
}
