//! Two cells made equal.
ghost use Rattle.std.specs.Prelude.{◌≡◌, ◌<◌, OnOk};
ghost use Rattle.vt_store.specs.Stores.{cell_count};
ghost use Rattle.vt_unify.specs.Unified.{IsUnified};

use crate::next_binding::next_binding;
use crate::pairs::{Pair, Pairs};
use std::alloc::AllocError;
use vt_dec::{Context, NodeId};
use vt_store::laws::most_general_solution;
use vt_store::{CellId, Pattern, Store};

/// Makes two cells equal at each decision of the context that is alive; where they cannot be, the
/// decision is dead with the node from now on. That a decision dies is no error. After an error
/// nothing is known of the store and the pattern, and both are to be given up.
pub fn unify<const N: usize>(
    store: &mut Store<N>,
    pattern: &mut Pattern<N>,
    within: &Context<N>,
    x: CellId,
    y: CellId,
    node: NodeId,
) -> Result<(), AllocError>
    requires x { x < cell_count store.old }
    requires y { y < cell_count store.old }
    requires space { within.now.space ≡ store.old.space }
    requires pattern { pattern.old.space ≡ store.old.space }
    ensures ok { OnOk result (IsUnified N within.now x y node store.old store.new pattern.old pattern.new) }
{
    most_general_solution();
    store.acyclic();
    let _sized = within.space();
    let mut pairs = Pairs::new(store.allocator());
    pairs.push(&Pair {
        context: None,
        left: x,
        right: y,
    })?;
    while let Some(pair) = next_binding(store, pattern, within, &mut pairs, node)? {
        store.bind(pair.left, pairs.context(within, &pair), pair.right)?;
    }
    store.acyclic();
    Ok(())
}
