//! What two cells are to each other.
ghost use Rattle.std.specs.Prelude.{◌≡◌, ◌<◌, IfOk, MatchOption};
ghost use Rattle.vt_store.specs.Ends.{Free, Made};
ghost use Rattle.vt_store.specs.Stores.{cell_count};
ghost use Rattle.vt_unify.specs.Comparisons.{IsComparison, IsEverywhere};
ghost use Rattle.vt_unify.specs.Walks.{IsRoot};

use crate::answers::{Reach, Root};
use crate::reaches::reaches;
use crate::root::root;
use std::alloc::AllocError;
use vt_dec::{Context, Dim};
use vt_store::{CellId, End, Store};
use vt_type::Head;

/// What two cells are to each other at the decisions of a context.
#[derive(Clone, Copy, Debug)]
pub(crate) enum Comparison<'a> {
    /// It may depend on the side of this dimension.
    Split(Dim),
    /// Equal in every solution.
    Equal,
    /// Equal in none.
    Differ,
    /// Equal where the first of these cells, which is open, is equal to the second.
    Open(CellId, CellId),
    /// Equal where the cells of the first list are equal to those of the second.
    Parts(&'a [CellId], &'a [CellId]),
}

pub(crate) fn compare<'a, const N: usize>(
    store: &'a Store<N>,
    within: &Context<N>,
    left: CellId,
    right: CellId,
) -> Result<Comparison<'a>, AllocError>
    requires left { left < cell_count store.now }
    requires right { right < cell_count store.now }
    requires space { within.now.space ≡ store.now.space }
    ensures { IfOk result (IsComparison N store.now within.now left right) }
{
    store.acyclic();
    let _sized = within.space();
    let one = match root(store, within, left)? {
        Root::Split(dim) => return Ok(Comparison::Split(dim)),
        Root::At(one) => one,
    };
    let other = match root(store, within, right)? {
        Root::Split(dim) => return Ok(Comparison::Split(dim)),
        Root::At(other) => other,
    };
    if one == other {
        return Ok(Comparison::Equal);
    }
    compare_roots(store, within, one, other)
}

// `compare` at two cells that are their own roots.
fn compare_roots<'a, const N: usize>(
    store: &'a Store<N>,
    within: &Context<N>,
    one: CellId,
    other: CellId,
) -> Result<Comparison<'a>, AllocError>
    requires one { IsRoot store.now within.now one one }
    requires other { IsRoot store.now within.now other other }
    requires differ { one ≡ other → ⊥ }
    requires space { within.now.space ≡ store.now.space }
    ensures { IfOk result (IsComparison N store.now within.now one other) }
{
    let Some((head, lefts)) = made(store, within, one) else {
        // Of two open cells the later one is bound, so that one cell comes to stand for others at every
        // decision, and contexts need not be split for what stands for them.
        if one < other {
            if let None = made(store, within, other) {
                return compare_open(store, within, other, one);
            }
        }
        return compare_open(store, within, one, other);
    };
    let Some((own, rights)) = made(store, within, other) else {
        return compare_open(store, within, other, one);
    };
    if head.is_same(own) {
        Ok(Comparison::Parts(lefts, rights))
    } else {
        Ok(Comparison::Differ)
    }
}

// The head and the cells under it, if a cell that is no link is bound.
fn made<'a, const N: usize>(
    store: &'a Store<N>,
    within: &Context<N>,
    cell: CellId,
) -> Option<(Head, &'a [CellId])>
    requires root { IsRoot store.now within.now cell cell }
    requires space { within.now.space ≡ store.now.space }
    ensures { MatchOption result (IsEverywhere store.now within.now cell Free) (λ made. IsEverywhere store.now within.now cell (Made made.0 made.1.now)) }
{
    let _sized = within.space();
    let least = within.least();
    match store.end(cell, &least) {
        End::Open => None,
        End::Con(head, kids) => Some((head, kids)),
        End::Link(_) => unreachable!(),
    }
}

// `compare` at an open cell and another one that is no link.
fn compare_open<'a, const N: usize>(
    store: &Store<N>,
    within: &Context<N>,
    cell: CellId,
    other: CellId,
) -> Result<Comparison<'a>, AllocError>
    requires cell { cell < cell_count store.now }
    requires other { IsRoot store.now within.now other other }
    requires differ { other ≡ cell → ⊥ }
    requires free { IsEverywhere store.now within.now cell Free }
    requires space { within.now.space ≡ store.now.space }
    ensures found { IfOk result (IsComparison N store.now within.now cell other) }
    ensures turned_round { IfOk result (IsComparison N store.now within.now other cell) }
{
    store.acyclic();
    let _sized = within.space();
    match reaches(store, within, other, cell)? {
        Reach::Split(dim) => Ok(Comparison::Split(dim)),
        Reach::Yes => Ok(Comparison::Differ),
        Reach::Never => Ok(Comparison::Open(cell, other)),
    }
}
