//! A diagram of fates: what became of each decision.
ghost use Rattle.std.specs.Prelude.{◌≡◌, ◌⊎◌, ℕ, ◌*◌, ◌<◌, ◌≤◌, length, List, Some, None, IfSome, IfOk, IsTrue};
ghost use Rattle.vt_dec.specs.declared.fate.Fate.{Fate};
ghost use Rattle.vt_dec.specs.declared.side.Side.{Side};
ghost use Rattle.vt_dec.specs.Decisions.{Admits, IsSideOf, IsKept};
ghost use Rattle.vt_store.specs.Branches.{IsLeastBranch};
ghost use Rattle.vt_store.specs.Writes.{IsWrite, IsBefore, IsGapTo};
ghost use Rattle.vt_store.specs.Fates.{AreOneFate, AreJoined, fate_in, AreOrdered, AreBehind, killed, fates_choice, PassesFates};

use crate::walk::{after, next_before, side_in};
use sqlite_items::Boxed;
use std::alloc::{AllocError, Global};
use vt_dec::{Context, Decision, Dim, Fate, NodeId, Side};

/// The fates by the sides that a decision takes. Dimensions rise on every way down.
#[derive(Debug, Drop)]
pub(crate) enum Fates {
    All(Fate),
    Choice(Dim, Boxed<Fates>, Boxed<Fates>),
}

impl Fates {
    fn choice(alloc: Global, dim: Dim, left: Fates, right: Fates) -> Result<Fates, AllocError>
        ensures { IfOk result (λ fates. fates ≡ fates_choice dim left right) }
    {
        let left = Boxed::new(alloc, left)?;
        let right = Boxed::new(alloc, right)?;
        Ok(Fates::Choice(dim, left, right))
    }

    // A choice between two sides, or one of them where both are one fate.
    fn joined(alloc: Global, dim: Dim, left: Fates, right: Fates) -> Result<Fates, AllocError>
        ensures { IfOk result (AreJoined dim left right) }
    {
        if left.is_fate_of(&right) {
            return Ok(left);
        }
        Fates::choice(alloc, dim, left, right)
    }

    // Both are one fate.
    fn is_fate_of(&self, other: &Fates) -> bool
        ensures { IsTrue result → AreOneFate self.now other.now }
    {
        match self {
            Fates::All(fate) => match other {
                Fates::All(own) => are_one(*fate, *own),
                Fates::Choice(_, _, _) => false,
            },
            Fates::Choice(_, _, _) => false,
        }
    }

    // The same fates again.
    fn copied(&self, alloc: Global) -> Result<Fates, AllocError>
        ensures { IfOk result (λ fates. fates ≡ self.now) }
    {
        match self {
            Fates::All(fate) => Ok(Fates::All(*fate)),
            Fates::Choice(dim, left, right) => {
                let dim = *dim;
                let left = left.get().copied(alloc)?;
                let right = right.get().copied(alloc)?;
                Fates::choice(alloc, dim, left, right)
            }
        }
    }

    /// The fate at a decision.
    pub(crate) fn at<const N: usize>(&self, decision: &Decision<N>) -> Fate
        requires { AreOrdered (64 * N) 0 self.now }
        ensures { result ≡ fate_in decision.now self.now }
    {
        let mut part = self;
        loop {
            match part {
                Fates::All(fate) => return *fate,
                Fates::Choice(dim, left, right) => {
                    part = match decision.side(*dim) {
                        Side::Left => left.get(),
                        Side::Right => right.get(),
                    };
                }
            }
        }
    }

    /// The first dimension of which admitted decisions come by a choice on either side.
    pub(crate) fn branch<const N: usize>(&self, within: &Context<N>) -> Option<Dim>
        requires { AreOrdered (64 * N) 0 self.now }
        ensures least { IsLeastBranch within.now (PassesFates self.now) result }
        ensures both { IfSome result (λ dim. (dim < 64 * N) × IsSideOf within.now dim None) }
        ensures alike { result ≡ None → (one other : List Side) → Admits within.now one → Admits within.now other → fate_in one self.now ≡ fate_in other self.now }
    {
        let mut part = self;
        loop {
            match part {
                Fates::All(_) => return None,
                Fates::Choice(dim, left, right) => match within.side(*dim) {
                    None => return Some(*dim),
                    Some(side) => {
                        part = match side {
                            Side::Left => left.get(),
                            Side::Right => right.get(),
                        };
                    }
                },
            }
        }
    }

    // A choice for each dimension that the context decides from `from` on and before `below`, the
    // dimension of the root: what is written on its side, and these fates on the other.
    fn guarded<const N: usize>(
        &self,
        alloc: Global,
        within: &Context<N>,
        from: Dim,
        below: &Option<Dim>,
        written: Fates,
    ) -> Result<Fates, AllocError>
        ensures ordered { length within.now.sides ≡ 64 * N → (IsBefore from below.now ⊎ (below.now ≡ Some from)) → AreBehind (64 * N) below.now self.now → AreBehind (64 * N) below.now written → IfOk result (AreOrdered (64 * N) from) }
        ensures writes { IfOk result (λ fates. (change : Fate → Fate) → length within.now.sides ≡ 64 * N → ((stop : ℕ) → from ≤ stop → IsGapTo within.now stop below.now → IsWrite N within.now stop change (λ d. fate_in d self.now) (λ d. fate_in d written)) → IsWrite N within.now from change (λ d. fate_in d self.now) (λ d. fate_in d fates)) }
    {
        match next_before(within, from, *below) {
            None => Ok(written),
            Some(decided) => {
                let (dim, side) = decided;
                let next = after(dim)?;
                let written = self.guarded(alloc, within, next, below, written)?;
                let kept = self.copied(alloc)?;
                match side {
                    Side::Left => Fates::choice(alloc, dim, written, kept),
                    Side::Right => Fates::choice(alloc, dim, kept, written),
                }
            }
        }
    }

    /// The fates where each admitted decision that was alive is dead with the node. `from` is a
    /// dimension below which every decision that is looked at agrees with the context.
    pub(crate) fn masked<const N: usize>(
        &self,
        alloc: Global,
        within: &Context<N>,
        from: Dim,
        node: NodeId,
    ) -> Result<Fates, AllocError>
        ensures { IsKept within.now → length within.now.sides ≡ 64 * N → AreOrdered (64 * N) from self.now → IfOk result (λ fates. AreOrdered (64 * N) from fates × IsWrite N within.now from (killed node) (λ d. fate_in d self.now) (λ d. fate_in d fates)) }
    {
        match self {
            Fates::All(fate) => {
                let written = Fates::All(killed(*fate, node));
                self.guarded(alloc, within, from, &None, written)
            }
            Fates::Choice(dim, left, right) => {
                let dim = *dim;
                let next = after(dim)?;
                let left = left.get();
                let right = right.get();
                let written = match side_in(within, dim) {
                    None => {
                        let left = left.masked(alloc, within, next, node)?;
                        let right = right.masked(alloc, within, next, node)?;
                        Fates::joined(alloc, dim, left, right)?
                    }
                    Some(Side::Left) => {
                        let left = left.masked(alloc, within, next, node)?;
                        Fates::joined(alloc, dim, left, right.copied(alloc)?)?
                    }
                    Some(Side::Right) => {
                        let right = right.masked(alloc, within, next, node)?;
                        Fates::joined(alloc, dim, left.copied(alloc)?, right)?
                    }
                };
                self.guarded(alloc, within, from, &Some(dim), written)
            }
        }
    }
}

// The same fate twice.
fn are_one(one: Fate, other: Fate) -> bool
    ensures { IsTrue result → one ≡ other }
{
    match one {
        Fate::Alive => match other {
            Fate::Alive => true,
            Fate::Dead(_) => false,
        },
        Fate::Dead(node) => match other {
            Fate::Alive => false,
            Fate::Dead(own) => node == own,
        },
    }
}

// What is alive is dead with the node, and what is dead stays.
fn killed(fate: Fate, node: NodeId) -> Fate
    ensures { result ≡ killed node fate }
{
    match fate {
        Fate::Alive => Fate::Dead(node),
        Fate::Dead(own) => Fate::Dead(own),
    }
}
