//! Where a cell's links lead.
ghost use Rattle.std.specs.Prelude.{◌≡◌, ◌<◌, IfOk};
ghost use Rattle.vt_store.specs.Stores.{cell_count};
ghost use Rattle.vt_unify.specs.Walks.{IsRootOf};

use crate::answers::Root;
use crate::sole::sole;
use std::alloc::AllocError;
use vt_dec::Context;
use vt_store::{CellId, End, Store};

/// The cell that the links lead to at every decision of the context. A cell whose links part is passed
/// where they come together again.
pub(crate) fn root<const N: usize>(
    store: &Store<N>,
    within: &Context<N>,
    cell: CellId,
) -> Result<Root, AllocError>
    requires cell { cell < cell_count store.now }
    requires space { within.now.space ≡ store.now.space }
    ensures { IfOk result (IsRootOf N store.now within.now cell) }
{
    store.acyclic();
    let _sized = within.space();
    let least = within.least();
    let mut last = cell;
    'links: loop {
        match store.splits(last, within) {
            None => match store.end(last, &least) {
                End::Link(next) => last = next,
                _ => return Ok(Root::At(last)),
            },
            Some(dim) => {
                let next = sole(store, within, last)?;
                if next == last {
                    return Ok(Root::Split(dim));
                }
                last = next;
            }
        }
    }
}
