ghost use Rattle.std.specs.Prelude.{◌≡◌, ◌<◌, IfOk};
ghost use Rattle.vt_dec.specs.declared.side.Space.TheVariants.{All};
ghost use Rattle.vt_rules.specs.Examples.{alone, wrong_sum};
ghost use Rattle.vt_store.specs.Stores.{cell_count};
ghost use Rattle.vt_type.specs.Plain.{arity};

use std::alloc::{AllocError, Global};
use vt_dec::{Context, Decision, Fate, NodeId, Space};
use vt_infer::{Typed, infer};
use vt_lex::Span;
use vt_store::{CellId, Pattern, Store};
use vt_syntax::{Core, CoreDefs, CoreProgram, Form, Leaves, Lit, replace_leaf};
use vt_type::{ConstId, Constants, Head};
use vt_unify::unify;

const NOWHERE: Span = Span { start: 0, end: 0 };

// The program `1 + true`.
fn sum(alloc: Global) -> Result<CoreProgram, AllocError>
    ensures { IfOk result (λ program. program ≡ alone wrong_sum) }
{
    let sign = Core::leaf(alloc, NodeId(1), NOWHERE, Form::Const(ConstId::ADD))?;
    let one = Core::leaf(alloc, NodeId(2), NOWHERE, Form::Literal(Lit::Number(1)))?;
    let half = Core::app(alloc, NodeId(3), NOWHERE, sign, one)?;
    let truth = Core::leaf(alloc, NodeId(4), NOWHERE, Form::Literal(Lit::Truth(true)))?;
    let main = Core::app(alloc, NodeId(5), NOWHERE, half, truth)?;
    let defs = CoreDefs::new(Vec::new(alloc));
    Ok(CoreProgram {
        defs,
        main: main.into_inner(),
    })
}

// The types of `1 + _`.
fn holed_sum(alloc: Global) -> Result<Typed<1>, AllocError>
    ensures store { IfOk result (λ typed. typed.store.space ≡ All) }
    ensures pattern { IfOk result (λ typed. typed.pattern.space ≡ All) }
    ensures main { IfOk result (λ typed. typed.main < cell_count typed.store) }
{
    let constants = Constants::core(alloc)?;
    let program = sum(alloc)?;
    let program = replace_leaf(alloc, &program, NodeId(4))?;
    let leaves = Leaves::new(Vec::new(alloc));
    let typed = infer(alloc, &program, &constants, &leaves, Space::All)?;
    Ok(typed)
}

// Whether the cell can have a type without parts, where every dimension is Left.
fn can_be(
    store: &mut Store<1>,
    pattern: &mut Pattern<1>,
    cell: CellId,
    head: Head,
) -> Result<bool, AllocError>
    requires head { arity head ≡ 0 }
    requires cell { cell < cell_count store.old }
    requires store { store.old.space ≡ All }
    requires pattern { pattern.old.space ≡ All }
{
    let other = store.con(head, &[])?;
    let whole = Context::whole(Space::All);
    unify(store, pattern, &whole, cell, other, NodeId(6))?;
    Ok(is_alive(pattern))
}

fn is_alive(pattern: &Pattern<1>) -> bool
    requires { pattern.now.space ≡ All }
{
    let left = Decision::all_left();
    pattern.fate(&left) == Fate::Alive
}

// Whether the main expression of `1 + _` can have the type.
fn sum_can_be(alloc: Global, head: Head) -> Result<bool, AllocError>
    requires { arity head ≡ 0 }
{
    let mut typed = holed_sum(alloc)?;
    let answer = can_be(&mut typed.store, &mut typed.pattern, typed.main, head);
    drop(typed);
    answer
}

#[test]
fn a_sum_with_a_hole_is_an_integer(rt: HostRuntime) {
    assert!(rt; matches!(sum_can_be(rt.alloc(), Head::Int), Ok(true)));
    assert!(rt; matches!(sum_can_be(rt.alloc(), Head::Bool), Ok(false)));
}
