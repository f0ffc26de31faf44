//! Decisions by which each end of a cell in a context is known.
ghost use Rattle.std.specs.Prelude.{◌≡◌, ◌<◌, IfOk, IfSome, OnOk};
ghost use Rattle.vt_store.specs.Stores.{cell_count};
ghost use Rattle.vt_unify.specs.Samplings.{AreSamples, IsTurn};

use std::alloc::AllocError;
use vt_dec::{Context, Decision, Side};
use vt_store::{CellId, Store};

// How many parts of a context are looked at where a short answer is wanted.
const FEW: usize = 16;

/// One decision for each part of the context in which the cell's own diagram does not split. Only the
/// dimensions of this one diagram are looked at.
pub(crate) fn samples<const N: usize>(
    store: &Store<N>,
    within: &Context<N>,
    cell: CellId,
) -> Result<Vec<Decision<N>>, AllocError>
    requires cell { cell < cell_count store.now }
    requires space { within.now.space ≡ store.now.space }
    ensures { IfOk result (λ found. AreSamples store.now within.now cell found.items) }
{
    let _space = within.space();
    let mut found = Vec::new(store.allocator());
    let mut parts = Vec::new(store.allocator());
    parts.push(*within)?;
    'parts: while let Some(part) = parts.pop() {
        turn(store, cell, &part, &mut parts, &mut found)?;
    }
    Ok(found)
}

/// `samples`, where there are only a few.
pub(crate) fn few_samples<const N: usize>(
    store: &Store<N>,
    within: &Context<N>,
    cell: CellId,
) -> Result<Option<Vec<Decision<N>>>, AllocError>
    requires cell { cell < cell_count store.now }
    requires space { within.now.space ≡ store.now.space }
    ensures { IfOk result (λ found. IfSome found (λ own. AreSamples store.now within.now cell own.items)) }
{
    let _space = within.space();
    let mut found = Vec::new(store.allocator());
    let mut parts = Vec::new(store.allocator());
    parts.push(*within)?;
    'parts: for _ in 0..FEW {
        let Some(part) = parts.pop() else {
            return Ok(Some(found));
        };
        turn(store, cell, &part, &mut parts, &mut found)?;
    }
    Ok(None)
}

// Looks at a part: its least decision is found, or its halves are parts to be looked at.
fn turn<const N: usize>(
    store: &Store<N>,
    cell: CellId,
    part: &Context<N>,
    parts: &mut Vec<Context<N>>,
    found: &mut Vec<Decision<N>>,
) -> Result<(), AllocError>
    requires cell { cell < cell_count store.now }
    requires space { part.now.space ≡ store.now.space }
    ensures { OnOk result (IsTurn N store.now cell part.now parts.old.items parts.new.items found.old.items found.new.items) }
{
    match store.splits(cell, part) {
        None => {
            found.push(part.least())?;
            Ok(())
        }
        Some(dim) => {
            parts.push(part.half(dim, Side::Right))?;
            parts.push(part.half(dim, Side::Left))?;
            Ok(())
        }
    }
}
