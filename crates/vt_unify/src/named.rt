//! The cells that come next on a walk.
ghost use Rattle.std.specs.Prelude.{◌≡◌, ◌++◌, ◌<◌, IfOk, IfSome, OnOk};
ghost use Rattle.vt_store.specs.Stores.{cell_count};
ghost use Rattle.vt_store.specs.Views.{seen};
ghost use Rattle.vt_unify.specs.Walks.{AreNamed, AreLinked, cells_of};

use crate::samples::{few_samples, samples};
use std::alloc::AllocError;
use vt_dec::Context;
use vt_store::{CellId, End, Store};

/// Each cell that an end of the cell names at some decision of the context.
pub(crate) fn named<const N: usize>(
    store: &Store<N>,
    within: &Context<N>,
    cell: CellId,
) -> Result<Vec<CellId>, AllocError>
    requires cell { cell < cell_count store.now }
    requires space { within.now.space ≡ store.now.space }
    ensures { IfOk result (λ cells. AreNamed store.now within.now cell cells.items) }
{
    let _space = within.space();
    let mut cells = Vec::new(store.allocator());
    let found = samples(store, within, cell)?;
    for sample in &found {
        push_cells(&mut cells, store.end(cell, sample))?;
    }
    Ok(cells)
}

// Adds the cells that an end names.
fn push_cells(cells: &mut Vec<CellId>, end: End<'_>) -> Result<(), AllocError>
    ensures { OnOk result (cells.new.items ≡ cells.old.items ++ cells_of (seen end.entry)) }
{
    match end {
        End::Open => Ok(()),
        End::Link(next) => {
            cells.push(next)?;
            Ok(())
        }
        End::Con(_, kids) => cells.extend_from_slice(kids),
    }
}

/// Each cell that the cell is linked to at some decision of the context, if it is a link at all of them,
/// and in few parts of the context.
pub(crate) fn linked<const N: usize>(
    store: &Store<N>,
    within: &Context<N>,
    cell: CellId,
) -> Result<Option<Vec<CellId>>, AllocError>
    requires cell { cell < cell_count store.now }
    requires space { within.now.space ≡ store.now.space }
    ensures { IfOk result (λ found. IfSome found (λ cells. AreLinked store.now within.now cell cells.items)) }
{
    let _space = within.space();
    let Some(found) = few_samples(store, within, cell)? else {
        return Ok(None);
    };
    let mut cells = Vec::new(store.allocator());
    for sample in &found {
        match store.end(cell, sample) {
            End::Link(next) => cells.push(next)?,
            _ => return Ok(None),
        }
    }
    Ok(Some(cells))
}
