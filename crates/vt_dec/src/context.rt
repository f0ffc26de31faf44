ghost use Rattle.std.specs.Prelude.{◌≡◌, ◌*◌, ◌<◌, ◌↔◌, IsTrue, Some, None, IfSome, length, replicate};
ghost use Rattle.vt_dec.specs.Contexts.{IsSpentIn};
ghost use Rattle.vt_dec.specs.Decisions.{Admits, Meet, IsKept, IsLeast, IsNarrowed, IsNextDecided, IsSideOf, Narrows};

use crate::dim_set::DimSet;
use crate::{Decision, Dim, Side, Space};
use std::marker::Model;

/// The decisions of a space that agree with what is decided. There always is one.
///
/// Copying it is a plain copy. `with`, `half`, `side` and `next_decided` look at one word or at each word
/// once, whatever the number of dimensions.
#[derive(Clone, Copy, Debug)]
pub struct Context<const N: usize> {
    // The dimensions that the context decides itself.
    decided: DimSet<N>,
    // The least decision: the sides that are decided, and else `Left`.
    least: Decision<N>,
    // How many more may be `Right`, where the space has a budget.
    left: u32,
    space: Space,
}

impl<const N: usize> Model for Context<N> {
    ghost use Rattle.std.specs.Prelude.{◌-◌, ◌*◌, map, is_some};
    ghost use Rattle.vt_dec.specs.Decisions.{Region, rights};
    ghost use Rattle.vt_dec.specs.Contexts.{kept, least_of, budget_of, IsHeld};
    ghost use Rattle.vt_dec.specs.Inverse.{decided_back, left_back};

    ghost Value = { Region };

    ghost view = { λ c. record { sides = kept c.decided c.least; space = c.space } };

    ghost invariant = { λ c. IsHeld (64 * N) c.decided c.least c.left c.space };

    ghost inverse = { λ r. record {
      decided = map is_some r.sides;
      least = least_of r.sides;
      left = budget_of r.space - rights (least_of r.sides);
      space = r.space;
    } };

    ghost inverse_ok = { λ c held. λ i. record {
      decided = decided_back held i;
      least = held.parts.only i;
      left = left_back held i;
      space = c.space;
    } };
}

impl<const N: usize> Context<N> {
    /// Every decision of the space.
    pub fn whole(space: Space) -> Context<N>
        ensures all { result ≡ record { sides = replicate (64 * N) None; space = space } }
        ensures kept { IsKept result }
    {
        Context {
            decided: DimSet::empty(),
            least: Decision::all_left(),
            left: space.budget(),
            space,
        }
    }

    /// Does nothing. A proof calls it that rests on what holds of each context.
    pub fn sized(&self)
        ensures sized { length self.now.sides ≡ 64 * N }
        ensures kept { IsKept self.now }
    {
        let _ = &self.space;
    }

    /// The space whose decisions the context narrows down.
    pub fn space(&self) -> Space
        ensures space { result ≡ self.now.space }
        ensures sized { length self.now.sides ≡ 64 * N }
        ensures kept { IsKept self.now }
    {
        self.space
    }

    /// The one side of the dimension, or nothing where admitted decisions take either.
    pub fn side(&self, dim: Dim) -> Option<Side>
        requires { dim < 64 * N }
        ensures side { IsSideOf self.now dim result }
        ensures kept { IsKept self.now }
    {
        if self.decided.contains(dim) {
            Some(self.least.side(dim))
        } else if self.is_spent() {
            Some(Side::Left)
        } else {
            None
        }
    }

    // The budget is used up, so that one decision is left.
    fn is_spent(&self) -> bool
        ensures { IsTrue result ↔ IsSpentIn self.now.space self.now.sides }
    {
        match self.space {
            Space::All => false,
            Space::AtMost(_) => self.left == 0,
        }
    }

    /// The admitted decisions with that side, if there are any.
    pub fn with(&self, dim: Dim, side: Side) -> Option<Context<N>>
        requires { dim < 64 * N }
        ensures narrowed { IsNarrowed self.now dim side result }
        ensures kept { IfSome result IsKept }
    {
        match self.side(dim) {
            None => Some(self.half(dim, side)),
            Some(taken) if taken == side => Some(*self),
            Some(_) => None,
        }
    }

    /// Half of the decisions, that with this side: `with` at a dimension of which admitted decisions
    /// take either side.
    pub fn half(&self, dim: Dim, side: Side) -> Context<N>
        requires within { dim < 64 * N }
        requires either { IsSideOf self.now dim None }
        ensures narrows { Narrows self.now dim side result }
        ensures kept { IsKept result }
    {
        let mut decided = self.decided;
        decided.insert(dim);
        let mut least = self.least;
        least.set(dim, side);
        if let Space::All = self.space {
            return Context {
                decided,
                least,
                ..*self
            };
        }
        let left = self.left - side.cost();
        if left == 0 {
            // The Lefts follow, so they are not kept.
            return Context {
                decided: least.rights,
                least,
                left,
                ..*self
            };
        }
        Context {
            decided,
            least,
            left,
            ..*self
        }
    }

    /// The decision is one of the context's.
    pub fn admits(&self, decision: &Decision<N>) -> bool
        ensures admits { IsTrue result ↔ Admits self.now decision.now }
        ensures kept { IsKept self.now }
    {
        let least = &self.least;
        self.decided.cuts(&decision.rights, &least.rights) && decision.in_space(self.space)
    }

    /// Some decision is admitted by both. Their spaces may differ.
    pub fn meets(&self, other: &Context<N>) -> bool
        ensures meets { IsTrue result ↔ Meet self.now other.now }
        ensures kept { IsKept self.now }
        ensures other_kept { IsKept other.now }
    {
        let joined = self.least.join(&other.least);
        self.admits(&joined) && other.admits(&joined)
    }

    /// The admitted decision in which every dimension that is not decided is `Left`.
    pub fn least(&self) -> Decision<N>
        ensures least { IsLeast self.now result }
        ensures kept { IsKept self.now }
    {
        let Context { least, .. } = self;
        *least
    }

    /// The first dimension from `from` on that the context decides itself, with its side.
    pub fn next_decided(&self, from: Dim) -> Option<(Dim, Side)>
        ensures next { IsNextDecided self.now from result }
        ensures kept { IsKept self.now }
    {
        match self.decided.next(from) {
            None => None,
            Some(dim) => Some((dim, self.least.side(dim))),
        }
    }
}
