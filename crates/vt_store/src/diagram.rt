//! A diagram of ends: what a cell is bound to at each decision.
ghost use Rattle.std.specs.Prelude.{◌≡◌, ◌⊎◌, ℕ, ◌*◌, ◌<◌, ◌≤◌, length, List, Some, None, IfSome, IfOk, IsTrue};
ghost use Rattle.vt_dec.specs.declared.side.Side.{Side};
ghost use Rattle.vt_dec.specs.Decisions.{Admits, IsSideOf, IsKept};
ghost use Rattle.vt_store.specs.Branches.{IsLeastBranch};
ghost use Rattle.vt_store.specs.Writes.{IsWrite, IsBefore, IsGapTo};
ghost use Rattle.vt_store.specs.Ends.{CellEnd, Same};
ghost use Rattle.vt_store.specs.declared.diagram.Diagram.{Link};
ghost use Rattle.vt_store.specs.Diagrams.{choice, end_in, IsOrdered, IsBehind, HasCells, HasRoom, Passes, raised, AreOneLeaf, IsJoined};
ghost use Rattle.vt_store.specs.Parts.{IsMoved};
ghost use Rattle.vt_store.specs.Sharing.{AreAlike, IsRepresented};
ghost use Rattle.vt_store.specs.Views.{seen};

use crate::found::Found;
use crate::sharing::representative;
use crate::walk::{after, next_before, side_in};
use crate::{CellId, CellList, End};
use sqlite_items::Boxed;
use std::alloc::{AllocError, Global};
use std::hash::{FoldHasher, Hasher};
use vt_dec::{Context, Decision, Dim, Side};
use vt_type::Head;

/// The ends by the sides that a decision takes. Dimensions rise on every way down.
#[derive(Debug, Drop)]
pub(crate) enum Diagram {
    Open,
    Link(CellId),
    Con(Head, CellList),
    Choice(Dim, Boxed<Diagram>, Boxed<Diagram>),
}

impl Diagram {
    pub(crate) fn choice(
        alloc: Global,
        dim: Dim,
        left: Diagram,
        right: Diagram,
    ) -> Result<Diagram, AllocError>
        ensures { IfOk result (λ diagram. diagram ≡ choice dim left right) }
    {
        let left = Boxed::new(alloc, left)?;
        let right = Boxed::new(alloc, right)?;
        Ok(Diagram::Choice(dim, left, right))
    }

    // A choice between two sides, or one of them where both are links to one cell.
    fn joined(alloc: Global, dim: Dim, left: Diagram, right: Diagram) -> Result<Diagram, AllocError>
        ensures { IfOk result (IsJoined dim left right) }
    {
        if left.is_link_of(&right) {
            return Ok(left);
        }
        Diagram::choice(alloc, dim, left, right)
    }

    // Both are links to one cell.
    fn is_link_of(&self, other: &Diagram) -> bool
        ensures { IsTrue result → AreOneLeaf self.now other.now }
    {
        match self {
            Diagram::Link(cell) => match other {
                Diagram::Link(own) => cell == own,
                _ => false,
            },
            _ => false,
        }
    }

    /// The same diagram again.
    pub(crate) fn copied(&self, alloc: Global) -> Result<Diagram, AllocError>
        ensures { IfOk result (λ diagram. diagram ≡ self.now) }
    {
        match self {
            Diagram::Open => Ok(Diagram::Open),
            Diagram::Link(cell) => Ok(Diagram::Link(*cell)),
            Diagram::Con(head, kids) => {
                let head = *head;
                Ok(Diagram::Con(head, kids.copied(alloc)?))
            }
            Diagram::Choice(dim, left, right) => {
                let dim = *dim;
                let left = left.get().copied(alloc)?;
                let right = right.get().copied(alloc)?;
                Diagram::choice(alloc, dim, left, right)
            }
        }
    }

    /// The same diagram with every cell's number raised.
    pub(crate) fn raised(&self, alloc: Global, by: usize) -> Result<Diagram, AllocError>
        requires { HasRoom by self.now }
        ensures { IfOk result (λ diagram. diagram ≡ raised by self.now) }
    {
        match self {
            Diagram::Open => Ok(Diagram::Open),
            Diagram::Link(cell) => Ok(Diagram::Link(CellId(cell.0 + by))),
            Diagram::Con(head, kids) => {
                let head = *head;
                Ok(Diagram::Con(head, kids.raised(alloc, by)?))
            }
            Diagram::Choice(dim, left, right) => {
                let dim = *dim;
                let left = left.get().raised(alloc, by)?;
                let right = right.get().raised(alloc, by)?;
                Diagram::choice(alloc, dim, left, right)
            }
        }
    }

    /// The same diagram, with cells written by their places among those that were found. Cells that
    /// it names for the first time are found now.
    pub(crate) fn moved(&self, alloc: Global, found: &mut Found) -> Result<Diagram, AllocError>
        ensures { (count : ℕ) → HasCells count self.now → IfOk result (IsMoved count found.old found.new self.now) }
    {
        match self {
            Diagram::Open => Ok(Diagram::Open),
            Diagram::Link(cell) => Ok(Diagram::Link(found.enter(*cell)?)),
            Diagram::Con(head, kids) => {
                let head = *head;
                Ok(Diagram::Con(head, found.enter_all(alloc, kids.as_slice())?))
            }
            Diagram::Choice(dim, left, right) => {
                let dim = *dim;
                let left = left.get().moved(alloc, found)?;
                let right = right.get().moved(alloc, found)?;
                Diagram::choice(alloc, dim, left, right)
            }
        }
    }

    /// Where a link at every decision leads.
    pub(crate) fn target(&self) -> Option<CellId>
        ensures link { IfSome result (λ cell. self.now ≡ Link cell) }
        ensures none { result ≡ None → (cell : ℕ) → self.now ≡ Link cell → ⊥ }
    {
        match self {
            Diagram::Link(cell) => Some(*cell),
            _ => None,
        }
    }

    /// Both are nowhere open, and one once each cell is replaced by its representative.
    pub(crate) fn is_alike(&self, other: &Diagram, names: &[CellId]) -> bool
        ensures { IsTrue result → AreAlike names.now self.now other.now }
    {
        match self {
            Diagram::Open => false,
            Diagram::Link(cell) => match other {
                Diagram::Link(own) => representative(names, *cell) == representative(names, *own),
                _ => false,
            },
            Diagram::Con(head, kids) => match other {
                Diagram::Con(own, others) => head.is_same(*own) && kids.is_alike(others, names),
                _ => false,
            },
            Diagram::Choice(dim, left, right) => match other {
                Diagram::Choice(own, one, other) => {
                    if dim != own {
                        return false;
                    }
                    if !left.get().is_alike(one.get(), names) {
                        return false;
                    }
                    right.get().is_alike(other.get(), names)
                }
                _ => false,
            },
        }
    }

    /// Feeds a hasher with what `is_alike` compares.
    pub(crate) fn feed(&self, names: &[CellId], state: &mut FoldHasher) {
        match self {
            Diagram::Open => state.write_u8(0),
            Diagram::Link(cell) => {
                state.write_u8(1);
                state.write_usize(representative(names, *cell).0);
            }
            Diagram::Con(head, kids) => {
                feed_head(*head, state);
                kids.feed(names, state);
            }
            Diagram::Choice(dim, left, right) => {
                state.write_u8(2);
                state.write_u32(dim.0);
                left.get().feed(names, state);
                right.get().feed(names, state);
            }
        }
    }

    /// The same ends, with each cell replaced by its representative. A choice between two links that
    /// have become one is that link.
    pub(crate) fn represented(&self, alloc: Global, names: &[CellId]) -> Result<Diagram, AllocError>
        ensures { IfOk result (IsRepresented names.now self.now) }
    {
        match self {
            Diagram::Open => Ok(Diagram::Open),
            Diagram::Link(cell) => Ok(Diagram::Link(representative(names, *cell))),
            Diagram::Con(head, kids) => {
                let head = *head;
                Ok(Diagram::Con(head, kids.represented(alloc, names)?))
            }
            Diagram::Choice(dim, left, right) => {
                let dim = *dim;
                let left = left.get().represented(alloc, names)?;
                let right = right.get().represented(alloc, names)?;
                Diagram::joined(alloc, dim, left, right)
            }
        }
    }

    /// The end at a decision.
    pub(crate) fn at<const N: usize>(&self, decision: &Decision<N>) -> End<'_>
        requires { IsOrdered (64 * N) 0 self.now }
        ensures { seen result ≡ end_in decision.now self.now }
    {
        let mut part = self;
        loop {
            match part {
                Diagram::Open => return End::Open,
                Diagram::Link(cell) => return End::Link(*cell),
                Diagram::Con(head, kids) => return End::Con(*head, kids.as_slice()),
                Diagram::Choice(dim, left, right) => {
                    part = match decision.side(*dim) {
                        Side::Left => left.get(),
                        Side::Right => right.get(),
                    };
                }
            }
        }
    }

    /// The first dimension of which admitted decisions come by a choice on either side.
    pub(crate) fn branch<const N: usize>(&self, within: &Context<N>) -> Option<Dim>
        requires { IsOrdered (64 * N) 0 self.now }
        ensures least { IsLeastBranch within.now (Passes self.now) result }
        ensures both { IfSome result (λ dim. (dim < 64 * N) × IsSideOf within.now dim None) }
        ensures alike { result ≡ None → (one other : List Side) → Admits within.now one → Admits within.now other → end_in one self.now ≡ end_in other self.now }
    {
        let mut part = self;
        loop {
            match part {
                Diagram::Choice(dim, left, right) => match within.side(*dim) {
                    None => return Some(*dim),
                    Some(side) => {
                        part = match side {
                            Side::Left => left.get(),
                            Side::Right => right.get(),
                        };
                    }
                },
                _ => return None,
            }
        }
    }

    // A choice for each dimension that the context decides from `from` on and before `below`, the
    // dimension of the root: what is written on its side, and this diagram on the other.
    fn guarded<const N: usize>(
        &self,
        alloc: Global,
        within: &Context<N>,
        from: Dim,
        below: &Option<Dim>,
        written: Diagram,
    ) -> Result<Diagram, AllocError>
        ensures ordered { length within.now.sides ≡ 64 * N → (IsBefore from below.now ⊎ (below.now ≡ Some from)) → IsBehind (64 * N) below.now self.now → IsBehind (64 * N) below.now written → IfOk result (IsOrdered (64 * N) from) }
        ensures cells { (count : ℕ) → HasCells count self.now → HasCells count written → IfOk result (HasCells count) }
        ensures writes { IfOk result (λ diagram. (change : CellEnd → CellEnd) → length within.now.sides ≡ 64 * N → ((stop : ℕ) → from ≤ stop → IsGapTo within.now stop below.now → IsWrite N within.now stop change (λ d. end_in d self.now) (λ d. end_in d written)) → IsWrite N within.now from change (λ d. end_in d self.now) (λ d. end_in d diagram)) }
    {
        match next_before(within, from, *below) {
            None => Ok(written),
            Some(decided) => {
                let (dim, side) = decided;
                let next = after(dim)?;
                let written = self.guarded(alloc, within, next, below, written)?;
                let kept = self.copied(alloc)?;
                match side {
                    Side::Left => Diagram::choice(alloc, dim, written, kept),
                    Side::Right => Diagram::choice(alloc, dim, kept, written),
                }
            }
        }
    }

    /// The diagram that is a link at each admitted decision, and what it was elsewhere. `from` is a
    /// dimension below which every decision that is looked at agrees with the context.
    pub(crate) fn bound<const N: usize>(
        &self,
        alloc: Global,
        within: &Context<N>,
        from: Dim,
        to: CellId,
    ) -> Result<Diagram, AllocError>
        ensures cells { (count : ℕ) → to < count → HasCells count self.now → IfOk result (HasCells count) }
        ensures writes { IsKept within.now → length within.now.sides ≡ 64 * N → IsOrdered (64 * N) from self.now → IfOk result (λ diagram. IsOrdered (64 * N) from diagram × IsWrite N within.now from (λ _. Same to) (λ d. end_in d self.now) (λ d. end_in d diagram)) }
    {
        match self {
            Diagram::Choice(dim, left, right) => {
                let dim = *dim;
                let next = after(dim)?;
                let left = left.get();
                let right = right.get();
                let written = match side_in(within, dim) {
                    None => {
                        let left = left.bound(alloc, within, next, to)?;
                        let right = right.bound(alloc, within, next, to)?;
                        Diagram::joined(alloc, dim, left, right)?
                    }
                    Some(Side::Left) => {
                        let left = left.bound(alloc, within, next, to)?;
                        Diagram::joined(alloc, dim, left, right.copied(alloc)?)?
                    }
                    Some(Side::Right) => {
                        let right = right.bound(alloc, within, next, to)?;
                        Diagram::joined(alloc, dim, left.copied(alloc)?, right)?
                    }
                };
                self.guarded(alloc, within, from, &Some(dim), written)
            }
            _ => self.guarded(alloc, within, from, &None, Diagram::Link(to)),
        }
    }
}

// Feeds a hasher with a head, apart from all other heads and from what else `Diagram::feed` begins with.
fn feed_head(head: Head, state: &mut FoldHasher) {
    match head {
        Head::Int => state.write_u8(3),
        Head::Bool => state.write_u8(4),
        Head::Text => state.write_u8(5),
        Head::List => state.write_u8(6),
        Head::Pair => state.write_u8(7),
        Head::Fun => state.write_u8(8),
        Head::Data { number, .. } => {
            state.write_u8(9);
            state.write_u32(number);
        }
    }
}
