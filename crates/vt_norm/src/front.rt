//! What stands at a place of a type that a cell reads as, at each decision.
ghost use Rattle.std.specs.Prelude.{◌≡◌, ℕ, IfOk, IsTrue};
ghost use Rattle.vt_dec.specs.declared.side.Side.{Side};
ghost use Rattle.vt_norm.specs.Fronts.{node, spot_at, by_sides, HaveCells, IsJoinedFront};

use sqlite_items::Boxed;
use std::alloc::{AllocError, Global};
use vt_dec::Dim;
use vt_store::{CellId, CellList};
use vt_type::Head;

/// What stands there at one decision.
#[derive(Drop)]
pub(crate) enum Spot {
    /// A head over the cells of its children.
    Made(Head, CellList),
    /// An open cell, which is a variable.
    Open(CellId),
    /// The error.
    Wrong,
}

/// A node asks for the side of a dimension.
#[derive(Drop)]
pub(crate) enum Front {
    Leaf(Spot),
    Node(Dim, Boxed<Front>, Boxed<Front>),
}

impl Spot {
    fn is_same(&self, other: &Spot) -> bool
        ensures { IsTrue result → self.now ≡ other.now }
    {
        match self {
            Spot::Made(head, kids) => match other {
                Spot::Made(own, others) => {
                    head.is_same(*own) && are_same_cells(kids.as_slice(), others.as_slice())
                }
                Spot::Open(_) => false,
                Spot::Wrong => false,
            },
            Spot::Open(cell) => match other {
                Spot::Open(own) => cell == own,
                Spot::Made(_, _) => false,
                Spot::Wrong => false,
            },
            Spot::Wrong => match other {
                Spot::Wrong => true,
                Spot::Made(_, _) => false,
                Spot::Open(_) => false,
            },
        }
    }
}

fn are_same_cells(cells: &[CellId], others: &[CellId]) -> bool
    ensures { IsTrue result → cells.now ≡ others.now }
{
    match cells.split_first() {
        None => others.is_empty(),
        Some((cell, rest)) => match others.split_first() {
            None => false,
            Some((own, more)) => cell == own && are_same_cells(rest, more),
        },
    }
}

impl Front {
    fn node(alloc: Global, dim: Dim, left: Front, right: Front) -> Result<Front, AllocError>
        ensures { IfOk result (λ front. front ≡ node dim left right) }
    {
        let left = Boxed::new(alloc, left)?;
        let right = Boxed::new(alloc, right)?;
        Ok(Front::Node(dim, left, right))
    }

    // The two are one tree.
    fn is_same(&self, other: &Front) -> bool
        ensures { IsTrue result → self.now ≡ other.now }
    {
        match self {
            Front::Leaf(spot) => match other {
                Front::Leaf(own) => spot.is_same(own),
                Front::Node(_, _, _) => false,
            },
            Front::Node(dim, left, right) => match other {
                Front::Leaf(_) => false,
                Front::Node(own, first, second) => {
                    dim == own
                        && left.get().is_same(first.get())
                        && right.get().is_same(second.get())
                }
            },
        }
    }

    /// One of two by the side of a dimension, or one of them where they are the same.
    pub(crate) fn joined(
        alloc: Global,
        dim: Dim,
        left: Front,
        right: Front,
    ) -> Result<Front, AllocError>
        ensures { IfOk result (IsJoinedFront dim left right) }
    {
        if left.is_same(&right) {
            return Ok(left);
        }
        Front::node(alloc, dim, left, right)
    }
}
