//! The cell through which every way of links goes.
ghost use Rattle.std.specs.Prelude.{◌≡◌, ◌<◌, ◌↔◌, ℕ, IsTrue, Some, is_some, IfOk, OnOk};
ghost use Rattle.std.specs.BTreeMap.{get, Updates};
ghost use Rattle.std.specs.List.{All};
ghost use Rattle.std.specs.Ordering.{nat_cmp};
ghost use Rattle.vt_store.specs.Stores.{cell_count};
ghost use Rattle.vt_unify.specs.Soles.{ahead_in, AreSoles, IsAgreed};
ghost use Rattle.vt_unify.specs.Walks.{LeadsTo};

use crate::named::linked;
use std::alloc::{AllocError, Global};
use std::collections::BTreeMap;
use vt_dec::Context;
use vt_store::{CellId, Store};

// A cell that is to be looked at: for the first time, or again once the cells that its links lead to
// have been looked at.
#[derive(Clone, Copy, Debug, Drop)]
struct Visit {
    cell: CellId,
    again: bool,
}

/// A cell through which every way of links from the given one goes, as far down as one is found. No
/// cell is followed twice, so a chain of choices that come together again costs no more than its cells.
pub(crate) fn sole<const N: usize>(
    store: &Store<N>,
    within: &Context<N>,
    cell: CellId,
) -> Result<CellId, AllocError>
    requires cell { cell < cell_count store.now }
    requires space { within.now.space ≡ store.now.space }
    ensures { IfOk result (LeadsTo store.now within.now cell) }
{
    let mut known = BTreeMap::new(store.allocator());
    let mut pending = Vec::new(store.allocator());
    pending.push(Visit { cell, again: false })?;
    // What the table says is right at any time, so the bound makes no answer wrong; no store comes near it.
    'turns: for _ in 0..u64::MAX {
        let Some(next) = pending.pop() else { break };
        settle(store, within, next, &mut known, &mut pending)?;
    }
    Ok(ahead(&known, cell))
}

// Finds where the links of a cell lead, after those cells of which this has to be known before. Until
// then the cell stands for itself, which ends a walk in a circle through several decisions.
fn settle<const N: usize>(
    store: &Store<N>,
    within: &Context<N>,
    next: Visit,
    known: &mut BTreeMap<usize, CellId>,
    pending: &mut Vec<Visit>,
) -> Result<(), AllocError>
    requires cell { next.cell < cell_count store.now }
    requires space { within.now.space ≡ store.now.space }
    requires known { AreSoles store.now within.now known.old }
    requires pending { All (λ own. own.cell < cell_count store.now) pending.old.items }
    ensures known { OnOk result (AreSoles store.now within.now known.new) }
    ensures pending { OnOk result (All (λ own. own.cell < cell_count store.now) pending.new.items) }
{
    // The next cells are cells.
    store.acyclic();
    let _sized = within.space();
    let cell = next.cell;
    if !next.again && is_known(known, cell) {
        return Ok(());
    }
    let Some(cells) = linked(store, within, cell)? else {
        return know(known, cell, cell);
    };
    if next.again {
        let last = agreed(known, cell, &cells);
        return know(known, cell, last);
    }
    pending.push(Visit { cell, again: true })?;
    put(pending, &cells)?;
    know(known, cell, cell)
}

// The cells are to be looked at for the first time.
fn put(pending: &mut Vec<Visit>, cells: &[CellId]) -> Result<(), AllocError>
    ensures { (count : ℕ) → All (λ own. own.cell < count) pending.old.items → All (λ own. own < count) cells.now → OnOk result (All (λ own. own.cell < count) pending.new.items) }
{
    for cell in cells {
        pending.push(Visit {
            cell: *cell,
            again: false,
        })?;
    }
    Ok(())
}

fn is_known(known: &BTreeMap<usize, CellId>, cell: CellId) -> bool
    ensures { result ≡ is_some (get nat_cmp known.now cell) }
{
    known.contains_key(&cell.0)
}

// Where the links of a cell lead, as far as is known.
fn ahead(known: &BTreeMap<usize, CellId>, cell: CellId) -> CellId
    ensures { result ≡ ahead_in known.now cell }
{
    known.get(&cell.0).copied().unwrap_or(cell)
}

fn know(known: &mut BTreeMap<usize, CellId>, cell: CellId, last: CellId) -> Result<(), AllocError>
    ensures { OnOk result (Updates nat_cmp known.old known.new cell (Some last)) }
{
    known.insert(cell.0, last)?;
    Ok(())
}

// The cell to which all of these lead, as far as is known, or else the one before them.
fn agreed(known: &BTreeMap<usize, CellId>, cell: CellId, next: &[CellId]) -> CellId
    ensures { IsAgreed known.now cell next.now result }
{
    let Some(first) = next.first() else {
        return cell;
    };
    let last = ahead(known, *first);
    if all_lead(known, next, last) {
        last
    } else {
        cell
    }
}

fn all_lead(known: &BTreeMap<usize, CellId>, cells: &[CellId], last: CellId) -> bool
    ensures { IsTrue result ↔ All (λ cell. ahead_in known.now cell ≡ last) cells.now }
{
    for cell in cells {
        if ahead(known, *cell) != last {
            return false;
        }
    }
    true
}
