//! What a search through cells has seen, and what it has still to look at.
ghost use Rattle.std.specs.Prelude.{◌≡◌, [], ◌∷◌, OnOk};
ghost use Rattle.vt_unify.specs.Searches.{Grows};

use crate::cell_set::CellSet;
use std::alloc::{AllocError, Global};
use vt_dec::Dim;
use vt_store::CellId;

/// A cell on the way.
#[derive(Clone, Copy, Debug, PartialEq, Eq)]
pub(crate) struct Visit {
    pub(crate) cell: CellId,
    /// A dimension by which the way differs, if there is one.
    pub(crate) split: Option<Dim>,
}

/// The cells that were seen, each pending once at the most.
#[derive(Drop)]
pub(crate) struct Search {
    pub(crate) pending: Vec<Visit>,
    pub(crate) seen: CellSet,
}

impl Search {
    pub(crate) fn new(alloc: Global) -> Search
        ensures pending { result.pending.items ≡ [] }
        ensures seen { result.seen ≡ [] }
    {
        Search {
            pending: Vec::new(alloc),
            seen: CellSet::new(alloc),
        }
    }

    /// Sees these cells, by a way that differs by the dimension or by none.
    pub(crate) fn see(&mut self, cells: &[CellId], split: &Option<Dim>) -> Result<(), AllocError>
        ensures { OnOk result (Grows cells.now split.now self.old self.new) }
    {
        for cell in cells {
            self.add(*cell, split)?;
        }
        Ok(())
    }

    fn add(&mut self, cell: CellId, split: &Option<Dim>) -> Result<(), AllocError>
        ensures { OnOk result (Grows (cell ∷ []) split.now self.old self.new) }
    {
        if !self.seen.insert(cell)? {
            return Ok(());
        }
        let split = *split;
        self.pending.push(Visit { cell, split })?;
        Ok(())
    }
}
