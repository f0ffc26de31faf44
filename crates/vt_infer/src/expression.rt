//! The types of an expression.
ghost use Rattle.std.specs.Prelude.{ℕ, ◌≡◌, List, IfOk};
ghost use Rattle.vt_lex.specs.declared.span.Span.{Span};
ghost use Rattle.vt_syntax.specs.declared.core_expr.Form.{Hole};
ghost use Rattle.vt_type.specs.Constants.{Constant, IsTable};
ghost use Rattle.vt_syntax.specs.CoreTrees.{core, fun_form, app_form, let_form, let_rec_form, choice_form};
ghost use Rattle.vt_infer.specs.Inferring.{IsReady};
ghost use Rattle.vt_infer.specs.Meetings.{IsLookedAt};

use crate::constant::constant_cell;
use crate::environment::Entry;
use crate::holes::Holes;
use crate::joining::{applied, equate};
use crate::naming::{generalise, named};
use crate::steps::{choice_cell, function_cell, literal_cell, open_cell};
use crate::work::Work;
use std::alloc::AllocError;
use vt_dec::{Context, Dim, NodeId, Side};
use vt_store::CellId;
use vt_syntax::{Core, Form};
use vt_type::Constants;

/// A cell for an expression, in a context. At each decision the cell has exactly the types of what the
/// decision selects; a decision at which that has none is dead from now on, with the node that fails first.
/// After an error nothing is known of what was passed, and it is to be given up.
pub(crate) fn expression<const N: usize>(
    core: &Core,
    constants: &Constants,
    work: &mut Work<N>,
    holes: &mut Holes<N>,
    within: &Context<N>,
) -> Result<CellId, AllocError>
    requires { IsReady N constants.now within.now core.now.form work.old }
    ensures { IfOk result (λ cell. IsLookedAt N constants.now within.now core.now cell work.old work.new holes.old holes.new) }
{
    typed::<(), N>(core, constants, work, holes, within)
}

// `P` stands for nothing. The prover takes a condition of functions that call one another only where a type
// is among their parameters; a number alone does not do.
#[cycle(typed)]
fn typed<P, const N: usize>(
    core: &Core,
    constants: &Constants,
    work: &mut Work<N>,
    holes: &mut Holes<N>,
    within: &Context<N>,
) -> Result<CellId, AllocError>
    requires { IsReady N constants.now within.now core.now.form work.old }
    ensures { IfOk result (λ cell. IsLookedAt N constants.now within.now core.now cell work.old work.new holes.old holes.new) }
{
    let node = core.node;
    match &core.form {
        Form::Literal(literal) => literal_cell(&mut work.store, *literal),
        Form::Name(distance) => named(work, within, *distance, node),
        Form::Const(id) => constant_cell(constants, &mut work.store, *id),
        Form::Hole => hole(work, holes, within, node),
        Form::Fun(body) => function::<P, N>(body.get(), constants, work, holes, within),
        Form::App(function, argument) => application::<P, N>(
            function.get(),
            argument.get(),
            node,
            constants,
            work,
            holes,
            within,
        ),
        Form::Let(bound, body) => let_in::<P, N>(
            bound.get(),
            body.get(),
            constants,
            work,
            holes,
            within,
        ),
        Form::LetRec(_, _, bound, body) => {
            let_rec::<P, N>(
                bound.get(),
                body.get(),
                node,
                constants,
                work,
                holes,
                within,
            )
        }
        Form::Choice(dim, left, right) => {
            let dim = *dim;
            alternatives::<P, N>(dim, left.get(), right.get(), constants, work, holes, within)
        }
    }
}

// A hole has any type. It is noted, since somebody may ask for its type.
fn hole<const N: usize>(
    work: &mut Work<N>,
    holes: &mut Holes<N>,
    within: &Context<N>,
    node: NodeId,
) -> Result<CellId, AllocError>
    ensures { (K : List Constant) (at : Span) → IsTable K → IfOk result (λ cell. IsLookedAt N K within.now (core node at Hole) cell work.old work.new holes.old holes.new) }
{
    let cell = open_cell(&mut work.store)?;
    holes.note(node, within, cell)?;
    Ok(cell)
}

// `fun`: its parameter is a new cell.
#[cycle(typed)]
fn function<P, const N: usize>(
    body: &Core,
    constants: &Constants,
    work: &mut Work<N>,
    holes: &mut Holes<N>,
    within: &Context<N>,
) -> Result<CellId, AllocError>
    requires { IsReady N constants.now within.now (fun_form body.now) work.old }
    ensures { (node : ℕ) (at : Span) → IfOk result (λ cell. IsLookedAt N constants.now within.now (core node at (fun_form body.now)) cell work.old work.new holes.old holes.new) }
{
    let parameter = open_cell(&mut work.store)?;
    work.environment.push(Entry::Mono(parameter))?;
    let to = typed::<P, N>(body, constants, work, holes, within)?;
    work.environment.pop();
    function_cell(&mut work.store, parameter, to)
}

// An application of a function to an argument.
#[cycle(typed)]
fn application<P, const N: usize>(
    function: &Core,
    argument: &Core,
    node: NodeId,
    constants: &Constants,
    work: &mut Work<N>,
    holes: &mut Holes<N>,
    within: &Context<N>,
) -> Result<CellId, AllocError>
    requires { IsReady N constants.now within.now (app_form function.now argument.now) work.old }
    ensures { (at : Span) → IfOk result (λ cell. IsLookedAt N constants.now within.now (core node at (app_form function.now argument.now)) cell work.old work.new holes.old holes.new) }
{
    let one = typed::<P, N>(function, constants, work, holes, within)?;
    let other = typed::<P, N>(argument, constants, work, holes, within)?;
    applied(work, within, one, other, node)
}

// `let`: the bound name takes every type that its expression has.
#[cycle(typed)]
fn let_in<P, const N: usize>(
    bound: &Core,
    body: &Core,
    constants: &Constants,
    work: &mut Work<N>,
    holes: &mut Holes<N>,
    within: &Context<N>,
) -> Result<CellId, AllocError>
    requires { IsReady N constants.now within.now (let_form bound.now body.now) work.old }
    ensures { (node : ℕ) (at : Span) → IfOk result (λ cell. IsLookedAt N constants.now within.now (core node at (let_form bound.now body.now)) cell work.old work.new holes.old holes.new) }
{
    let root = typed::<P, N>(bound, constants, work, holes, within)?;
    generalise(work, root)?;
    let cell = typed::<P, N>(body, constants, work, holes, within)?;
    work.environment.pop();
    Ok(cell)
}

// `let rec`: within its own expression the bound name has one type.
#[cycle(typed)]
fn let_rec<P, const N: usize>(
    bound: &Core,
    body: &Core,
    node: NodeId,
    constants: &Constants,
    work: &mut Work<N>,
    holes: &mut Holes<N>,
    within: &Context<N>,
) -> Result<CellId, AllocError>
    requires { (name : List ℕ) (name_at : Span) → IsReady N constants.now within.now (let_rec_form name name_at bound.now body.now) work.old }
    ensures { (name : List ℕ) (name_at : Span) (at : Span) → IfOk result (λ cell. IsLookedAt N constants.now within.now (core node at (let_rec_form name name_at bound.now body.now)) cell work.old work.new holes.old holes.new) }
{
    let parameter = open_cell(&mut work.store)?;
    work.environment.push(Entry::Mono(parameter))?;
    let own = typed::<P, N>(bound, constants, work, holes, within)?;
    work.environment.pop();
    equate(work, within, own, parameter, node)?;
    generalise(work, parameter)?;
    let cell = typed::<P, N>(body, constants, work, holes, within)?;
    work.environment.pop();
    Ok(cell)
}

// A choice: each alternative where the decision takes its side.
#[cycle(typed)]
fn alternatives<P, const N: usize>(
    dim: Dim,
    left: &Core,
    right: &Core,
    constants: &Constants,
    work: &mut Work<N>,
    holes: &mut Holes<N>,
    within: &Context<N>,
) -> Result<CellId, AllocError>
    requires { IsReady N constants.now within.now (choice_form dim left.now right.now) work.old }
    ensures { (node : ℕ) (at : Span) → IfOk result (λ cell. IsLookedAt N constants.now within.now (core node at (choice_form dim left.now right.now)) cell work.old work.new holes.old holes.new) }
{
    let Some(on_left) = within.with(dim, Side::Left) else {
        return typed::<P, N>(right, constants, work, holes, within);
    };
    let one = typed::<P, N>(left, constants, work, holes, &on_left)?;
    let Some(on_right) = within.with(dim, Side::Right) else {
        return Ok(one);
    };
    let other = typed::<P, N>(right, constants, work, holes, &on_right)?;
    choice_cell(&mut work.store, dim, one, other)
}
