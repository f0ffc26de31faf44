//! What a cell is at the decisions of a part, once its links are followed.
ghost use Rattle.std.specs.Prelude.{◌≡◌, ◌<◌, ℕ, List, Some, None, IfOk, slice_get};
ghost use Rattle.vt_dec.specs.declared.side.Side.{Side};
ghost use Rattle.vt_dec.specs.declared.side.Space.TheVariants.{All};
ghost use Rattle.vt_dec.specs.Decisions.{Agrees};
ghost use Rattle.vt_store.specs.Stores.{cell_count, ends_at};
ghost use Rattle.vt_norm.specs.Fronts.{spot_at, HaveCells, IsSpotOf};
ghost use Rattle.vt_norm.specs.Resolving.{IsTurn, IsResolved};

use crate::front::{Front, Spot};
use crate::part::Part;
use crate::sole::sole;
use std::alloc::{AllocError, Global};
use vt_dec::{Dim, Side};
use vt_store::{CellId, CellList, End, Store};

/// How far the links of a cell can be followed at once.
#[derive(Drop)]
pub(crate) enum Turn {
    /// To a cell whose own diagram asks for the side of a dimension.
    Split(CellId, Dim),
    /// To the end.
    There(Spot),
}

// Follows the links of a cell as long as they are the same at all decisions of the part.
fn follow(store: &Store<1>, alloc: Global, cell: CellId, part: &Part) -> Result<Turn, AllocError>
    requires cell { cell < cell_count store.now }
    requires space { store.now.space ≡ All }
    ensures { IfOk result (IsTurn store.now part.now cell) }
{
    // Each next cell is one of the store.
    store.acyclic();
    let within = part.context();
    let mut last = cell;
    // No cell contains itself, so the bound is never met: no store has that many cells.
    'links: for _ in 0..u64::MAX {
        match store.splits(last, &within) {
            Some(dim) => {
                let next = sole(store, alloc, last, part)?;
                if next == last {
                    return Ok(Turn::Split(last, dim));
                }
                last = next;
                continue 'links;
            }
            None => {}
        }
        match store.end(last, &part.least()) {
            End::Open => return Ok(Turn::There(Spot::Open(last))),
            End::Con(head, kids) => {
                let kids = CellList::new(Vec::from_slice(alloc, kids)?);
                return Ok(Turn::There(Spot::Made(head, kids)));
            }
            End::Link(next) => last = next,
        }
    }
    Err(AllocError)
}

/// What a cell is at each decision of the part.
pub(crate) fn resolved(
    store: &Store<1>,
    alloc: Global,
    cell: CellId,
    part: &Part,
) -> Result<Front, AllocError>
    requires cell { cell < cell_count store.now }
    requires space { store.now.space ≡ All }
    ensures { IfOk result (IsResolved store.now part.now cell) }
{
    match follow(store, alloc, cell, part)? {
        Turn::There(spot) => Ok(Front::Leaf(spot)),
        Turn::Split(last, dim) => {
            let left = resolved(store, alloc, last, &part.with(dim, Side::Left))?;
            let right = resolved(store, alloc, last, &part.with(dim, Side::Right))?;
            Front::joined(alloc, dim, left, right)
        }
    }
}
