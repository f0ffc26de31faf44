//! Whether a cell contains another one.
ghost use Rattle.std.specs.Prelude.{◌≡◌, ◌<◌, IfOk};
ghost use Rattle.vt_store.specs.Stores.{cell_count};
ghost use Rattle.vt_unify.specs.Walks.{IsReachOf, reach_by};

use crate::answers::Reach;
use crate::named::named;
use crate::search::{Search, Visit};
use std::alloc::AllocError;
use vt_dec::{Context, Dim};
use vt_store::{CellId, Store};

/// A search from the outer cell down to the inner one, in which no cell is looked at twice. A dimension
/// splits only where cells on the way differ by it.
pub(crate) fn reaches<const N: usize>(
    store: &Store<N>,
    within: &Context<N>,
    outer: CellId,
    inner: CellId,
) -> Result<Reach, AllocError>
    requires outer { outer < cell_count store.now }
    requires inner { inner < cell_count store.now }
    requires space { within.now.space ≡ store.now.space }
    ensures { IfOk result (IsReachOf N store.now within.now outer inner) }
{
    // What the search rests on.
    store.acyclic();
    let _sized = within.space();
    let mut search = Search::new(store.allocator());
    search.see(&[outer], &None)?;
    'cells: while let Some(visit) = search.pending.pop() {
        let Visit { cell, split } = visit;
        if cell == inner {
            return Ok(reached(split));
        }
        let split = split.or(store.splits(cell, within));
        search.see(&named(store, within, cell)?, &split)?;
    }
    Ok(Reach::Never)
}

// What a way shows that differs by the dimension or by none.
fn reached(split: Option<Dim>) -> Reach
    ensures { result ≡ reach_by split }
{
    match split {
        None => Reach::Yes,
        Some(dim) => Reach::Split(dim),
    }
}
