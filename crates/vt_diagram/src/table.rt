ghost use Rattle.std.specs.Prelude.{ℕ, IsTrue, ◌↔◌, length, ◌≡◌, ◌+◌, ◌*◌, ◌<◌, ◌≤◌, List, Some, None, IfOk, IfSome, [], ◌∷◌};
ghost use Rattle.vt_dec.specs.declared.side.Side.{Side};
ghost use Rattle.vt_diagram.specs.declared.entry.Entry.TheVariants.{Leaf};
ghost use Rattle.vt_diagram.specs.Answers.{IsSplit, IsAnswer, question};
ghost use Rattle.vt_diagram.specs.Budgets.{budget_of, spent};
ghost use Rattle.vt_diagram.specs.Tables.{value_at, tree_at, Holds, IsJoined, IsTop, Grows};
ghost use Rattle.vt_diagram.specs.Trees.{Tip, IsOrdered, Agree};

use crate::entries::Entries;
use crate::operation::Operation;
use crate::question::Question;
use crate::split::Split;
use crate::{DiagramId, Entry};
use std::alloc::{AllocError, Global};
use std::collections::BTreeMap;
use std::marker::Model;
use vt_dec::{Decision, Dim};

/// Diagrams, each once. What was made of two of them is remembered.
#[derive(Debug, Drop)]
pub struct Table<const N: usize> {
    pub(crate) entries: Entries<N>,
    // What was asked, with the answer.
    pub(crate) known: BTreeMap<Question, DiagramId>,
}

impl<const N: usize> Model for Table<N> {
    ghost use Rattle.std.specs.Prelude.{List, ◌*◌};
    ghost use Rattle.vt_diagram.specs.declared.entry.Entry.{Entry};
    ghost use Rattle.vt_diagram.specs.Answers.{AreKnown};

    ghost Value = { List Entry };

    ghost view = { λ t. t.entries };

    ghost invariant = { λ t. AreKnown (64 * N) t.entries t.known };
}

impl<const N: usize> Table<N> {
    /// The table that has the value 0 alone. It takes no memory.
    pub fn new(alloc: Global) -> Table<N>
        ensures { result ≡ Leaf 0 ∷ [] }
    {
        Table {
            entries: Entries::new(alloc),
            known: BTreeMap::new(alloc),
        }
    }

    /// How many numbers there are: those below it are the table's.
    pub fn size(&self) -> usize
        ensures { result ≡ length self.now }
    {
        self.entries.size()
    }

    /// The diagram that is 0 at every decision, and the region that has none.
    pub fn zero(&self) -> DiagramId
        ensures number { result ≡ 0 }
        ensures is { Holds self.now result × (tree_at self.now result ≡ Tip 0) }
    {
        self.entries.zero()
    }

    /// The diagram that has one value at every decision. That of 0 takes no memory.
    pub fn leaf(&mut self, value: u32) -> Result<DiagramId, AllocError>
        ensures grows { Grows self.old self.new }
        ensures is { IfOk result (λ id. Holds self.new id × (tree_at self.new id ≡ Tip value)) }
    {
        self.entries.leaf(value)
    }

    /// The diagram that is one of two, by a dimension. The dimensions of both are later ones.
    pub fn choice(
        &mut self,
        dim: Dim,
        left: DiagramId,
        right: DiagramId,
    ) -> Result<DiagramId, AllocError>
        requires below { dim < 64 * N }
        requires left { Holds self.old left × IsOrdered (64 * N) (dim + 1) (tree_at self.old left) }
        requires right { Holds self.old right × IsOrdered (64 * N) (dim + 1) (tree_at self.old right) }
        ensures grows { Grows self.old self.new }
        ensures is { IfOk result (IsJoined (64 * N) self.new dim left right) }
    {
        self.entries.choice(dim, left, right)
    }

    /// What a diagram is at its top.
    pub fn top(&self, id: DiagramId) -> Entry
        requires { Holds self.now id }
        ensures { IsTop (64 * N) self.now id result }
    {
        self.entries.top(id)
    }

    /// What a diagram is at a decision.
    pub fn value(&self, id: DiagramId, decision: &Decision<N>) -> u32
        requires { Holds self.now id }
        ensures { result ≡ value_at self.now id decision.now }
    {
        self.entries.value(id, decision)
    }

    /// Does nothing. A proof calls it that rests on each diagram's standing once, with dimensions that
    /// rise on every way down.
    pub fn reduced(&self)
        ensures one { (one other : ℕ) → Holds self.now one → Holds self.now other → Agree (64 * N) (tree_at self.now one) (tree_at self.now other) → one ≡ other }
        ensures ordered { (id : ℕ) → Holds self.now id → IsOrdered (64 * N) 0 (tree_at self.now id) }
    {
        self.entries.reduced();
    }

    /// The two have one value at every decision, which is where their numbers are equal.
    pub fn is_same(&self, one: DiagramId, other: DiagramId) -> bool
        requires { Holds self.now one × Holds self.now other }
        ensures { IsTrue result ↔ Agree (64 * N) (tree_at self.now one) (tree_at self.now other) }
    {
        self.reduced();
        one == other
    }
}
