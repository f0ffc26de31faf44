//! What takes the place of a pair.
ghost use Rattle.std.specs.Prelude.{◌≡◌, ◌++◌, OnOk};
ghost use Rattle.vt_unify.specs.Turns.{IsSplit};
ghost use Rattle.vt_unify.specs.Pairs.{IsKnown, AreKnown, IsMore, equation_of, equations_in, pairs_of, region_of};
ghost use Rattle.vt_unify.specs.Walks.{CanSplit};

use crate::pairs::{Pair, Pairs};
use std::alloc::AllocError;
use vt_dec::{Context, Dim, Side};
use vt_store::CellId;

/// Adds the pair on either side of the dimension.
pub(crate) fn push_halves<const N: usize>(
    pairs: &mut Pairs<N>,
    whole: &Context<N>,
    pair: &Pair,
    dim: Dim,
) -> Result<(), AllocError>
    requires known { IsKnown pairs.old.narrowed.items pair.now }
    requires all_known { AreKnown pairs.old }
    requires can_split { CanSplit N (region_of whole.now pairs.old.narrowed.items pair.now.context) dim }
    ensures known { OnOk result (AreKnown pairs.new) }
    ensures grows { OnOk result (IsMore pairs.old.narrowed.items pairs.new.narrowed.items) }
    ensures split { OnOk result (IsSplit N (equation_of whole.now pairs.old.narrowed.items pair.now) dim (equations_in whole.now pairs.old) (equations_in whole.now pairs.new)) }
{
    let within = pairs.context(whole, pair);
    let right = within.half(dim, Side::Right);
    let left = within.half(dim, Side::Left);
    pairs.push_narrowed(pair, &right)?;
    pairs.push_narrowed(pair, &left)?;
    Ok(())
}

/// Adds a pair for each cell of the first list and that of the second at its place.
pub(crate) fn push_parts<const N: usize>(
    pairs: &mut Pairs<N>,
    context: Option<usize>,
    lefts: &[CellId],
    rights: &[CellId],
) -> Result<(), AllocError>
    ensures narrowed { pairs.new.narrowed.items ≡ pairs.old.narrowed.items }
    ensures list { OnOk result (pairs.new.list.items ≡ pairs.old.list.items ++ pairs_of context lefts.now rights.now) }
{
    for (left, right) in lefts.iter().zip(rights) {
        pairs.push(&Pair {
            context,
            left: *left,
            right: *right,
        })?;
    }
    Ok(())
}
