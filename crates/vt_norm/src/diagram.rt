//! The root of a type as a tree of decisions.
ghost use Rattle.std.specs.Prelude.{◌≡◌, IfOk};
ghost use Rattle.vt_norm.specs.Diagrams.{node, taking, has_other, differ, lesser, is_below, least, first, are_one_leaf, joined, guarded};

use crate::root::Top;
use sqlite_items::Boxed;
use std::alloc::{AllocError, Global};
use vt_dec::{Dim, Side};

/// A node asks for the side of a dimension, a leaf has the root. No way down asks for a dimension
/// twice; the dimensions stand in no order.
#[derive(Drop)]
pub(crate) enum Diagram {
    Leaf(Top),
    Node(Dim, Boxed<Diagram>, Boxed<Diagram>),
}

impl Diagram {
    pub(crate) fn node(
        alloc: Global,
        dim: Dim,
        left: Diagram,
        right: Diagram,
    ) -> Result<Diagram, AllocError>
        ensures { IfOk result (λ tree. tree ≡ node dim left right) }
    {
        let left = Boxed::new(alloc, left)?;
        let right = Boxed::new(alloc, right)?;
        Ok(Diagram::Node(dim, left, right))
    }

    /// The diagram where the dimension takes this side.
    pub(crate) fn taking(&self, alloc: Global, dim: Dim, side: Side) -> Result<Diagram, AllocError>
        ensures { IfOk result (λ tree. tree ≡ taking dim side self.now) }
    {
        match self {
            Diagram::Leaf(top) => Ok(Diagram::Leaf(top.copied(alloc)?)),
            Diagram::Node(other, left, right) => {
                let other = *other;
                if other == dim {
                    return match side {
                        Side::Left => left.get().taking(alloc, dim, side),
                        Side::Right => right.get().taking(alloc, dim, side),
                    };
                }
                let left = left.get().taking(alloc, dim, side)?;
                let right = right.get().taking(alloc, dim, side)?;
                Diagram::node(alloc, other, left, right)
            }
        }
    }

    fn has_other(&self, top: &Top) -> bool
        ensures { result ≡ has_other top.now self.now }
    {
        match self {
            Diagram::Leaf(other) => !top.is_same(other),
            Diagram::Node(_, left, right) => {
                left.get().has_other(top) || right.get().has_other(top)
            }
        }
    }

    // Whether the two come to different roots somewhere.
    fn differs_from(&self, alloc: Global, other: &Diagram) -> Result<bool, AllocError>
        ensures { IfOk result (λ apart. apart ≡ differ self.now other.now) }
    {
        match self {
            Diagram::Leaf(top) => Ok(other.has_other(top)),
            Diagram::Node(dim, left, right) => {
                let dim = *dim;
                let on_left = other.taking(alloc, dim, Side::Left)?;
                if left.get().differs_from(alloc, &on_left)? {
                    return Ok(true);
                }
                let on_right = other.taking(alloc, dim, Side::Right)?;
                right.get().differs_from(alloc, &on_right)
            }
        }
    }

    /// The least dimension on which the root depends.
    pub(crate) fn least(&self, alloc: Global) -> Result<Option<Dim>, AllocError>
        ensures { IfOk result (λ dim. dim ≡ least self.now) }
    {
        match self {
            Diagram::Leaf(_) => Ok(None),
            Diagram::Node(dim, left, right) => {
                let dim = *dim;
                let on_left = left.get().least(alloc)?;
                let on_right = right.get().least(alloc)?;
                let below = lesser(on_left, on_right);
                if is_below(below, dim) || !left.get().differs_from(alloc, right.get())? {
                    Ok(below)
                } else {
                    Ok(Some(dim))
                }
            }
        }
    }

    /// The leaf on the left.
    pub(crate) fn first(&self) -> &Top
        ensures { result.now ≡ first self.now }
    {
        match self {
            Diagram::Leaf(top) => top,
            Diagram::Node(_, left, _) => left.get().first(),
        }
    }

    /// The error where this diagram has it, the other diagram elsewhere.
    pub(crate) fn guarded(&self, alloc: Global, rest: Diagram) -> Result<Diagram, AllocError>
        ensures { IfOk result (λ tree. tree ≡ guarded self.now rest) }
    {
        match self {
            Diagram::Leaf(top) => Ok(match top {
                Top::Wrong => Diagram::Leaf(Top::Wrong),
                Top::Made(_) => rest,
                Top::Named(_) => rest,
            }),
            Diagram::Node(dim, left, right) => {
                let dim = *dim;
                let on_left = rest.taking(alloc, dim, Side::Left)?;
                let left = left.get().guarded(alloc, on_left)?;
                let on_right = rest.taking(alloc, dim, Side::Right)?;
                let right = right.get().guarded(alloc, on_right)?;
                joined(alloc, dim, left, right)
            }
        }
    }
}

// The lesser of two dimensions, where there are any.
fn lesser(one: Option<Dim>, other: Option<Dim>) -> Option<Dim>
    ensures { result ≡ lesser one other }
{
    match one {
        None => other,
        Some(one) => match other {
            None => Some(one),
            Some(other) => Some(if one.0 <= other.0 { one } else { other }),
        },
    }
}

// Whether there is a dimension, and it is less than the other.
fn is_below(one: Option<Dim>, other: Dim) -> bool
    ensures { result ≡ is_below one other }
{
    match one {
        None => false,
        Some(one) => one.0 < other.0,
    }
}

// A node, unless both sides are one leaf.
pub(crate) fn joined(
    alloc: Global,
    dim: Dim,
    left: Diagram,
    right: Diagram,
) -> Result<Diagram, AllocError>
    ensures { IfOk result (λ tree. tree ≡ joined dim left right) }
{
    if are_one_leaf(&left, &right) {
        return Ok(left);
    }
    Diagram::node(alloc, dim, left, right)
}

fn are_one_leaf(left: &Diagram, right: &Diagram) -> bool
    ensures { result ≡ are_one_leaf left.now right.now }
{
    match left {
        Diagram::Leaf(one) => match right {
            Diagram::Leaf(other) => one.is_same(other),
            Diagram::Node(_, _, _) => false,
        },
        Diagram::Node(_, _, _) => false,
    }
}
