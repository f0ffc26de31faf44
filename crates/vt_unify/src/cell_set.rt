ghost use Rattle.std.specs.Prelude.{◌≡◌, [], IfOk};
ghost use Rattle.vt_unify.specs.CellSets.{IsInserted, IsFew};

use std::alloc::{AllocError, Global};
use std::collections::BTreeSet;
use std::marker::Model;
use vt_store::CellId;

/// Cells, each once. Contracts see them as a list.
#[derive(Drop)]
pub(crate) struct CellSet {
    numbers: BTreeSet<usize>,
}

impl Model for CellSet {
    ghost use Rattle.std.specs.Prelude.{List, ℕ};
    ghost use Rattle.std.specs.Ordering.{nat_cmp};
    ghost use Rattle.std.specs.BTreeSet.{IsOrdered};

    ghost Value = { List ℕ };

    ghost view = { λ s. s.numbers.keys };

    ghost invariant = { λ s. IsOrdered nat_cmp s.numbers };
}

impl CellSet {
    pub(crate) fn new(alloc: Global) -> CellSet
        ensures { result ≡ [] }
    {
        CellSet {
            numbers: BTreeSet::new(alloc),
        }
    }

    /// Whether the cell was not there.
    pub(crate) fn insert(&mut self, cell: CellId) -> Result<bool, AllocError>
        ensures inserted { IfOk result (λ added. IsInserted added cell self.old self.new) }
        ensures few { IsFew self.new }
    {
        Ok(self.numbers.insert(cell.0)?)
    }
}
