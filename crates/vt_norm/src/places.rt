//! A place of a type, its children and its root.
ghost use Rattle.std.specs.Prelude.{◌≡◌, ◌++◌, ℕ, List, Some, IfOk, OnOk, slice_get};
ghost use Rattle.vt_dec.specs.declared.side.Side.{Side};
ghost use Rattle.vt_dec.specs.declared.side.Space.TheVariants.{All};
ghost use Rattle.vt_dec.specs.Decisions.{Agrees};
ghost use Rattle.vt_store.specs.Stores.{cell_count};
ghost use Rattle.vt_norm.specs.declared.front.Front.{Leaf};
ghost use Rattle.vt_norm.specs.Fronts.{HasCells, HaveCells};
ghost use Rattle.vt_norm.specs.Names.{IsNoted, IsTopTree};
ghost use Rattle.vt_norm.specs.Resolving.{IsBelow};

use crate::diagram::{Diagram, joined};
use crate::front::{Front, Spot};
use crate::names::{Met, named};
use crate::part::Part;
use crate::resolving::resolved;
use crate::root::Top;
use std::alloc::{AllocError, Global};
use vt_dec::Side;
use vt_store::{CellId, Store};
use vt_type::Path;

/// The child of this number, where heads stand that have it.
pub(crate) fn below(
    front: &Front,
    alloc: Global,
    store: &Store<1>,
    number: u8,
    part: &Part,
) -> Result<Front, AllocError>
    requires cells { HaveCells (cell_count store.now) front.now }
    requires space { store.now.space ≡ All }
    ensures { IfOk result (IsBelow store.now part.now number front.now) }
{
    match front {
        Front::Leaf(spot) => spot_below(spot, alloc, store, number, part),
        Front::Node(dim, left, right) => {
            let dim = *dim;
            match part.side(dim) {
                Some(Side::Left) => below(left.get(), alloc, store, number, part),
                Some(Side::Right) => below(right.get(), alloc, store, number, part),
                None => {
                    let on_left = part.with(dim, Side::Left);
                    let left = below(left.get(), alloc, store, number, &on_left)?;
                    let on_right = part.with(dim, Side::Right);
                    let right = below(right.get(), alloc, store, number, &on_right)?;
                    Front::joined(alloc, dim, left, right)
                }
            }
        }
    }
}

// The child of this number of a head that has it.
fn spot_below(
    spot: &Spot,
    alloc: Global,
    store: &Store<1>,
    number: u8,
    part: &Part,
) -> Result<Front, AllocError>
    requires cells { HasCells (cell_count store.now) spot.now }
    requires space { store.now.space ≡ All }
    ensures { IfOk result (IsBelow store.now part.now number (Leaf spot.now)) }
{
    match spot {
        Spot::Made(_, kids) => match kid_of(kids.as_slice(), number) {
            Some(kid) => resolved(store, alloc, kid, part),
            None => Ok(Front::Leaf(Spot::Wrong)),
        },
        Spot::Open(_) => Ok(Front::Leaf(Spot::Wrong)),
        Spot::Wrong => Ok(Front::Leaf(Spot::Wrong)),
    }
}

fn kid_of(kids: &[CellId], number: u8) -> Option<CellId>
    ensures { result ≡ slice_get kids.now number }
{
    if (number as usize) < kids.len() {
        Some(kids[number as usize])
    } else {
        None
    }
}

/// The root of the type at each decision of the part, where an open cell has the name by which it is
/// known, or else the present path.
pub(crate) fn tops(
    front: &Front,
    alloc: Global,
    met: &[Met],
    here: &[u8],
    part: &Part,
) -> Result<Diagram, AllocError>
    ensures { IfOk result (IsTopTree part.now met.now here.now front.now) }
{
    match front {
        Front::Leaf(spot) => spot_tops(spot, alloc, met, here, part),
        Front::Node(dim, left, right) => {
            let dim = *dim;
            match part.side(dim) {
                Some(Side::Left) => tops(left.get(), alloc, met, here, part),
                Some(Side::Right) => tops(right.get(), alloc, met, here, part),
                None => {
                    let on_left = part.with(dim, Side::Left);
                    let left = tops(left.get(), alloc, met, here, &on_left)?;
                    let on_right = part.with(dim, Side::Right);
                    let right = tops(right.get(), alloc, met, here, &on_right)?;
                    joined(alloc, dim, left, right)
                }
            }
        }
    }
}

fn spot_tops(
    spot: &Spot,
    alloc: Global,
    met: &[Met],
    here: &[u8],
    part: &Part,
) -> Result<Diagram, AllocError>
    ensures { IfOk result (IsTopTree part.now met.now here.now (Leaf spot.now)) }
{
    match spot {
        Spot::Made(head, _) => Ok(Diagram::Leaf(Top::Made(*head))),
        Spot::Open(cell) => named(met, alloc, *cell, here, part),
        Spot::Wrong => Ok(Diagram::Leaf(Top::Wrong)),
    }
}

/// Keeps where open cells were met.
pub(crate) fn note(
    front: &Front,
    alloc: Global,
    met: &mut Vec<Met>,
    here: &[u8],
    part: &Part,
) -> Result<(), AllocError>
    ensures { OnOk result (IsNoted part.now here.now front.now met.old.items met.new.items) }
{
    match front {
        Front::Leaf(spot) => note_spot(spot, alloc, met, here, part),
        Front::Node(dim, left, right) => {
            let dim = *dim;
            match part.side(dim) {
                Some(Side::Left) => note(left.get(), alloc, met, here, part),
                Some(Side::Right) => note(right.get(), alloc, met, here, part),
                None => {
                    let on_left = part.with(dim, Side::Left);
                    note(left.get(), alloc, met, here, &on_left)?;
                    let on_right = part.with(dim, Side::Right);
                    note(right.get(), alloc, met, here, &on_right)
                }
            }
        }
    }
}

fn note_spot(
    spot: &Spot,
    alloc: Global,
    met: &mut Vec<Met>,
    here: &[u8],
    part: &Part,
) -> Result<(), AllocError>
    ensures { OnOk result (IsNoted part.now here.now (Leaf spot.now) met.old.items met.new.items) }
{
    match spot {
        Spot::Open(cell) => {
            let path = Path::new(Vec::from_slice(alloc, here)?);
            met.push(Met {
                cell: *cell,
                path,
                part: *part,
            })?;
            Ok(())
        }
        Spot::Made(_, _) => Ok(()),
        Spot::Wrong => Ok(()),
    }
}
