//! The normal form of what a cell reads as, built from the root down.
ghost use Rattle.std.specs.Prelude.{◌≡◌, ◌+◌, ◌-◌, ◌<◌, ◌≤◌, ◌++◌, ◌∷◌, [], ℕ, List, Some, None, IfOk, OnOk, IsErrOf};
ghost use Rattle.vt_dec.specs.declared.side.Side.{Side};
ghost use Rattle.vt_dec.specs.declared.side.Space.TheVariants.{All};
ghost use Rattle.vt_dec.specs.Decisions.{Agrees};
ghost use Rattle.vt_type.specs.Plain.{arity};
ghost use Rattle.vt_type.specs.Variational.{nodes, vkids_nodes, vkid_count};
ghost use Rattle.vt_store.specs.Stores.{cell_count};
ghost use Rattle.vt_norm.specs.declared.root.Top.TheVariants.{Made};
ghost use Rattle.vt_norm.specs.Diagrams.{least, first};
ghost use Rattle.vt_norm.specs.Fronts.{HaveCells};
ghost use Rattle.vt_norm.specs.Names.{IsTopTree};
ghost use Rattle.vt_norm.specs.Readings.{ArePlaces, AreMade, AreMet, KidsAreMet, IsOnlyForm, AreOnlyForms, IsBeyond, KidsAreBeyond};

use crate::diagram::Diagram;
use crate::fault::OutFault;
use crate::front::Front;
use crate::names::Met;
use crate::part::Part;
use crate::places::{below, note, tops};
use crate::root::Top;
use std::alloc::{AllocError, Global};
use vt_dec::{Dim, Side};
use vt_store::Store;
use vt_type::{Head, VKids, VType};

/// The normal form of what stands at a place, at the decisions of a part. `way` is the path of the
/// place, and `met` has the open cells that stand before it. Each node that is built takes one from
/// `spare`.
#[cycle(reading)]
pub(crate) fn build(
    front: &Front,
    alloc: Global,
    store: &Store<1>,
    part: &Part,
    way: &mut Vec<u8>,
    met: &mut Vec<Met>,
    spare: &mut u64,
) -> Result<VType, OutFault>
    requires cells { HaveCells (cell_count store.now) front.now }
    requires space { store.now.space ≡ All }
    requires places { ArePlaces store.now part.now front.now }
    ensures way { OnOk result (way.new.items ≡ way.old.items) }
    ensures met { OnOk result (AreMet store.now part.now front.now way.old.items met.old.items met.new.items) }
    ensures built { IfOk result (IsOnlyForm store.now part.now front.now way.old.items met.old.items) }
    ensures spare { IfOk result (λ v. spare.new + nodes v ≡ spare.old) }
    ensures too_big { IsErrOf result OutFault.TooBig → IsBeyond store.now part.now front.now way.old.items met.old.items spare.old }
{
    if *spare == 0 {
        return Err(OutFault::TooBig);
    }
    *spare -= 1;
    let tree = tops(front, alloc, met, way, part)?;
    let least = match tree.least(alloc) {
        Ok(least) => least,
        Err(fault) => {
            drop(tree);
            return Err(OutFault::from(fault));
        }
    };
    match least {
        Some(dim) => {
            let built = split(front, alloc, store, part, way, met, spare, &tree, dim);
            drop(tree);
            built
        }
        None => match tree.first() {
            Top::Made(head) => {
                let head = *head;
                drop(tree);
                let count = head.arity();
                let kids = build_kids(front, alloc, store, part, way, met, spare, head, count)?;
                Ok(VType::Con(head, kids))
            }
            Top::Named(name) => {
                let name = name.copied(alloc);
                drop(tree);
                let name = name?;
                note(front, alloc, met, way, part)?;
                Ok(VType::Var(name))
            }
            Top::Wrong => {
                drop(tree);
                Ok(VType::Err)
            }
        },
    }
}

// A choice between the two sides of a dimension. Its own node is taken already.
#[cycle(reading)]
fn split(
    front: &Front,
    alloc: Global,
    store: &Store<1>,
    part: &Part,
    way: &mut Vec<u8>,
    met: &mut Vec<Met>,
    spare: &mut u64,
    tree: &Diagram,
    dim: Dim,
) -> Result<VType, OutFault>
    requires cells { HaveCells (cell_count store.now) front.now }
    requires space { store.now.space ≡ All }
    requires places { ArePlaces store.now part.now front.now }
    requires tree { IsTopTree part.now met.old.items way.old.items front.now tree.now }
    requires least { least tree.now ≡ Some dim }
    ensures way { OnOk result (way.new.items ≡ way.old.items) }
    ensures met { OnOk result (AreMet store.now part.now front.now way.old.items met.old.items met.new.items) }
    ensures built { IfOk result (IsOnlyForm store.now part.now front.now way.old.items met.old.items) }
    ensures spare { IfOk result (λ v. spare.new + nodes v ≡ spare.old + 1) }
    ensures too_big { IsErrOf result OutFault.TooBig → IsBeyond store.now part.now front.now way.old.items met.old.items (spare.old + 1) }
{
    let on_left = part.with(dim, Side::Left);
    let left = build(front, alloc, store, &on_left, way, met, spare)?;
    let on_right = part.with(dim, Side::Right);
    let right = match build(front, alloc, store, &on_right, way, met, spare) {
        Ok(right) => right,
        Err(fault) => {
            drop(left);
            return Err(fault);
        }
    };
    Ok(VType::choice(alloc, dim, left, right)?)
}

// The last `count` children below a head.
#[cycle(reading)]
fn build_kids(
    front: &Front,
    alloc: Global,
    store: &Store<1>,
    part: &Part,
    way: &mut Vec<u8>,
    met: &mut Vec<Met>,
    spare: &mut u64,
    head: Head,
    count: u8,
) -> Result<VKids, OutFault>
    requires cells { HaveCells (cell_count store.now) front.now }
    requires space { store.now.space ≡ All }
    requires places { ArePlaces store.now part.now front.now }
    requires made { AreMade part.now head front.now }
    requires within { count ≤ arity head }
    ensures way { OnOk result (way.new.items ≡ way.old.items) }
    ensures met { OnOk result (KidsAreMet store.now part.now front.now (arity head - count) way.old.items met.old.items met.new.items) }
    ensures built { IfOk result (AreOnlyForms store.now part.now front.now (arity head - count) count way.old.items met.old.items) }
    ensures spare { IfOk result (λ kids. spare.new + vkids_nodes kids ≡ spare.old) }
    ensures too_big { IsErrOf result OutFault.TooBig → KidsAreBeyond store.now part.now front.now (arity head - count) count way.old.items met.old.items spare.old }
{
    if count == 0 {
        return Ok(VKids::Nil);
    }
    let number = head.arity() - count;
    enter(way, number)?;
    let child = below(front, alloc, store, number, part)?;
    let first = build(&child, alloc, store, part, way, met, spare);
    drop(child);
    let first = first?;
    way.pop();
    let others = match build_kids(front, alloc, store, part, way, met, spare, head, count - 1) {
        Ok(others) => others,
        Err(fault) => {
            drop(first);
            return Err(fault);
        }
    };
    Ok(VKids::more(alloc, first, others)?)
}

/// Goes down to the child of this number.
pub(crate) fn enter(way: &mut Vec<u8>, number: u8) -> Result<(), AllocError>
    ensures { OnOk result (way.new.items ≡ way.old.items ++ number ∷ []) }
{
    way.push(number)?;
    Ok(())
}
