ghost use Rattle.std.specs.Prelude.{ℕ, List, Option, Some, IsTrue, ◌↔◌, ◌≡◌, ◌+◌, ◌*◌, ◌<◌, [], ◌∷◌, IfOk, length};
ghost use Rattle.vt_dec.specs.declared.side.Side.{Side};
ghost use Rattle.vt_dec.specs.Decisions.{IsIn};
ghost use Rattle.vt_diagram.specs.declared.entry.Entry.TheVariants.{Leaf};
ghost use Rattle.vt_diagram.specs.Budgets.{IsWithin};
ghost use Rattle.vt_diagram.specs.Rights.{fewest_in, IsWitness};
ghost use Rattle.vt_diagram.specs.Regions.{IsMember};
ghost use Rattle.vt_diagram.specs.Tables.{value_at, tree_at, tree_of, Holds, IsEntry, IsTop, IsJoined, Grows, StandsFor};
ghost use Rattle.vt_diagram.specs.Trees.{Tip, IsOrdered, Agree};

use crate::counts::{fewer, none_at_zero, one_more};
use crate::{DiagramId, Entry};
use std::alloc::{AllocError, Global};
use std::collections::BTreeMap;
use std::marker::Model;
use vt_dec::{Decision, Dim, Side, Space};

/// What stands under each number of a table, each once. Contracts see it as a list, which begins with
/// the value 0 under number 0.
#[derive(Debug, Drop)]
pub(crate) struct Entries<const N: usize> {
    // What stands under the numbers from 1 on.
    entries: Vec<Entry>,
    // Under which number each of these stands.
    numbers: BTreeMap<Entry, DiagramId>,
    // How few dimensions a decision can take `Right` where each of these is not 0.
    counts: Vec<Option<u32>>,
}

impl<const N: usize> Model for Entries<N> {
    ghost use Rattle.std.specs.Prelude.{List, None, ◌*◌, ◌∷◌};
    ghost use Rattle.vt_diagram.specs.declared.entry.Entry.{Entry};
    ghost use Rattle.vt_diagram.specs.declared.entry.Entry.TheVariants.{Leaf};
    ghost use Rattle.vt_diagram.specs.Tables.{AreEntries};

    ghost Value = { List Entry };

    ghost view = { λ e. Leaf 0 ∷ e.entries.items };

    ghost invariant = { λ e. AreEntries (64 * N) (Leaf 0 ∷ e.entries.items) e.numbers (None ∷ e.counts.items) };
}

impl<const N: usize> Entries<N> {
    pub(crate) fn new(alloc: Global) -> Entries<N>
        ensures { result ≡ Leaf 0 ∷ [] }
    {
        Entries {
            entries: Vec::new(alloc),
            numbers: BTreeMap::new(alloc),
            counts: Vec::new(alloc),
        }
    }

    /// How many numbers there are, with number 0.
    pub(crate) fn size(&self) -> usize
        ensures { result ≡ length self.now }
    {
        self.entries.len() + 1
    }

    /// The diagram that is 0 at every decision.
    pub(crate) fn zero(&self) -> DiagramId
        ensures number { result ≡ 0 }
        ensures is { Holds self.now result × (tree_at self.now result ≡ Tip 0) }
    {
        let _entries = &self.entries;
        DiagramId(0)
    }

    pub(crate) fn top(&self, id: DiagramId) -> Entry
        requires { Holds self.now id }
        ensures { IsTop (64 * N) self.now id result }
    {
        let entries = &self.entries;
        if id.0 == 0 {
            return Entry::Leaf(0);
        }
        entries[id.0 - 1]
    }

    /// How few dimensions a decision can take `Right` where the diagram is not 0.
    pub(crate) fn fewest(&self, id: DiagramId) -> Option<u32>
        requires { Holds self.now id }
        ensures is { result ≡ fewest_in (tree_at self.now id) }
        ensures ordered { IsOrdered (64 * N) 0 (tree_at self.now id) }
    {
        let counts = &self.counts;
        if id.0 == 0 {
            return None;
        }
        counts[id.0 - 1]
    }

    // The same of an entry that is to be added.
    fn fewest_of(&self, entry: Entry) -> Result<Option<u32>, AllocError>
        requires { IsEntry (64 * N) self.now (length self.now) entry }
        ensures { IfOk result (λ count. count ≡ fewest_in (tree_of (tree_at self.now) (Some entry))) }
    {
        match entry {
            Entry::Leaf(value) => Ok(none_at_zero(value)),
            Entry::Choice(_, left, right) => {
                let more = one_more(self.fewest(right))?;
                Ok(fewer(self.fewest(left), more))
            }
        }
    }

    // The number of an entry, which is added where it is not there.
    fn entered(&mut self, entry: Entry) -> Result<DiagramId, AllocError>
        requires { IsEntry (64 * N) self.old (length self.old) entry }
        ensures grows { Grows self.old self.new }
        ensures stands { IfOk result (λ id. StandsFor self.new id entry) }
    {
        if let Some(id) = self.numbers.get(&entry) {
            return Ok(*id);
        }
        let count = self.fewest_of(entry)?;
        self.entries.reserve(1)?;
        self.counts.reserve(1)?;
        let id = DiagramId(self.entries.len() + 1);
        self.numbers.insert(entry, id)?;
        self.entries.push(entry)?;
        self.counts.push(count)?;
        Ok(id)
    }

    /// The diagram that has one value at every decision.
    pub(crate) fn leaf(&mut self, value: u32) -> Result<DiagramId, AllocError>
        ensures grows { Grows self.old self.new }
        ensures is { IfOk result (λ id. Holds self.new id × (tree_at self.new id ≡ Tip value)) }
    {
        let _entries = &self.entries;
        if value == 0 {
            return Ok(DiagramId(0));
        }
        self.entered(Entry::Leaf(value))
    }

    /// The diagram that is one of two, by a dimension.
    pub(crate) fn choice(
        &mut self,
        dim: Dim,
        left: DiagramId,
        right: DiagramId,
    ) -> Result<DiagramId, AllocError>
        requires below { dim < 64 * N }
        requires left { Holds self.old left × IsOrdered (64 * N) (dim + 1) (tree_at self.old left) }
        requires right { Holds self.old right × IsOrdered (64 * N) (dim + 1) (tree_at self.old right) }
        ensures grows { Grows self.old self.new }
        ensures is { IfOk result (IsJoined (64 * N) self.new dim left right) }
    {
        if left == right {
            return Ok(left);
        }
        self.entered(Entry::Choice(dim, left, right))
    }

    pub(crate) fn value(&self, id: DiagramId, decision: &Decision<N>) -> u32
        requires { Holds self.now id }
        ensures { result ≡ value_at self.now id decision.now }
    {
        let mut part = id;
        loop {
            match self.top(part) {
                Entry::Leaf(value) => return value,
                Entry::Choice(dim, left, right) => {
                    part = match decision.side(dim) {
                        Side::Left => left,
                        Side::Right => right,
                    };
                }
            }
        }
    }

    /// The value at the decision that takes every dimension `Left`.
    pub(crate) fn first(&self, id: DiagramId) -> u32
        requires { Holds self.now id }
        ensures { (decision : List Side) → IsWithin (Some 0) decision → value_at self.now id decision ≡ result }
    {
        let mut part = id;
        loop {
            match self.top(part) {
                Entry::Leaf(value) => return value,
                Entry::Choice(_, left, _) => part = left,
            }
        }
    }

    /// The diagram is 0 at each decision of the space.
    pub(crate) fn is_empty(&self, id: DiagramId, space: Space) -> bool
        requires { Holds self.now id }
        ensures { IsTrue result ↔ ((decision : List Side) → length decision ≡ 64 * N → IsIn space decision → value_at self.now id decision ≡ 0) }
    {
        match self.fewest(id) {
            None => true,
            Some(count) => match space {
                Space::All => false,
                Space::AtMost(budget) => budget < count,
            },
        }
    }

    /// The diagram is 0 at each decision within the budget.
    pub(crate) fn is_nothing(&self, id: DiagramId, budget: Option<u32>) -> bool
        requires { Holds self.now id }
        ensures { IsTrue result → (decision : List Side) → IsWithin budget decision → value_at self.now id decision ≡ 0 }
    {
        match self.fewest(id) {
            None => true,
            Some(count) => match budget {
                None => false,
                Some(budget) => budget < count,
            },
        }
    }

    /// A decision of the space at which the diagram is not 0, with as few `Right`s as there can be.
    pub(crate) fn member(&self, id: DiagramId, space: Space) -> Option<Decision<N>>
        requires { Holds self.now id }
        ensures { IsMember N space self.now id result }
    {
        let Some(count) = self.fewest(id) else {
            return None;
        };
        if let Space::AtMost(budget) = space {
            if budget < count {
                return None;
            }
        }
        Some(self.witness(id))
    }

    // A decision at which the diagram is not 0, with as few `Right`s as there can be.
    fn witness(&self, id: DiagramId) -> Decision<N>
        requires { Holds self.now id }
        ensures { (from count : ℕ) → IsOrdered (64 * N) from (tree_at self.now id) → fewest_in (tree_at self.now id) ≡ Some count → IsWitness (64 * N) from count (tree_at self.now id) result }
    {
        match self.top(id) {
            Entry::Leaf(_) => Decision::all_left(),
            Entry::Choice(dim, left, right) => {
                if self.fewest(id) == self.fewest(left) {
                    return self.witness(left);
                }
                let mut decision = self.witness(right);
                decision.set(dim, Side::Right);
                decision
            }
        }
    }

    /// The diagram has one value at every decision, and it is not 0.
    pub(crate) fn is_full(&self, id: DiagramId) -> bool
        requires { Holds self.now id }
        ensures { IsTrue result → (decision : List Side) → value_at self.now id decision ≡ 0 → ⊥ }
    {
        match self.top(id) {
            Entry::Leaf(value) => value != 0,
            Entry::Choice(_, _, _) => false,
        }
    }

    /// Does nothing. A proof calls it that rests on each diagram's standing once.
    pub(crate) fn reduced(&self)
        ensures one { (one other : ℕ) → Holds self.now one → Holds self.now other → Agree (64 * N) (tree_at self.now one) (tree_at self.now other) → one ≡ other }
        ensures ordered { (id : ℕ) → Holds self.now id → IsOrdered (64 * N) 0 (tree_at self.now id) }
    {
        let _entries = &self.entries;
    }
}
