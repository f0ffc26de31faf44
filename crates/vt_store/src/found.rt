ghost use Rattle.std.specs.Prelude.{◌≡◌, ◌<◌, ◌≤◌, [], length, slice_index, IfOk, OnOk, MatchOption};
ghost use Rattle.vt_store.specs.Parts.{AreDistinct, AreFew, AreMoved, IsFound};
ghost use Rattle.vt_store.specs.Narrowing.{IsAdded, IsWhether};

use crate::{CellId, CellList};
use indexmap::IndexSet;
use std::alloc::{AllocError, Global};
use std::marker::Model;

/// Cells, each once, in the order in which they were found. Contracts see them as a list.
#[derive(Drop)]
pub(crate) struct Found {
    cells: IndexSet<usize>,
}

impl Model for Found {
    ghost use Rattle.std.specs.Prelude.{List, ℕ, nat_eq};
    ghost use Rattle.std.specs.List.{IsDistinct};

    ghost Value = { List ℕ };

    ghost view = { λ f. f.cells.keys };

    ghost invariant = { λ f. IsDistinct nat_eq f.cells.keys };
}

impl Found {
    pub(crate) fn new(alloc: Global) -> Found
        ensures { result ≡ [] }
    {
        Found {
            cells: IndexSet::new(alloc),
        }
    }

    /// The cell at a place; none behind the last.
    pub(crate) fn get(&self, place: usize) -> Option<CellId>
        ensures found { MatchOption result (length self.now ≤ place) (λ cell. (place < length self.now) × (cell ≡ slice_index self.now place)) }
        ensures distinct { AreDistinct self.now }
        ensures few { AreFew self.now }
    {
        let cell = self.cells.get_index(place)?;
        Some(CellId(*cell))
    }

    /// The numbers of the cells, in order.
    pub(crate) fn as_slice(&self) -> &[usize]
        ensures cells { result.now ≡ self.now }
        ensures distinct { AreDistinct self.now }
    {
        self.cells.as_slice()
    }

    /// Whether a cell is there.
    pub(crate) fn contains(&self, cell: CellId) -> bool
        ensures { IsWhether self.now cell result }
    {
        self.cells.contains(&cell.0)
    }

    /// Adds a cell at the end, and says whether it is new.
    pub(crate) fn add(&mut self, cell: CellId) -> Result<bool, AllocError>
        ensures added { IfOk result (IsAdded self.old self.new cell) }
        ensures few { OnOk result (AreFew self.new) }
    {
        let (_, is_new) = self.cells.insert_full(cell.0)?;
        Ok(is_new)
    }

    /// The place of a cell, which is added at the end where it is new.
    pub(crate) fn enter(&mut self, cell: CellId) -> Result<CellId, AllocError>
        ensures { IfOk result (IsFound self.old self.new cell) }
    {
        let (place, _) = self.cells.insert_full(cell.0)?;
        Ok(CellId(place))
    }

    /// The places of cells, in order.
    pub(crate) fn enter_all(
        &mut self,
        alloc: Global,
        cells: &[CellId],
    ) -> Result<CellList, AllocError>
        ensures { IfOk result (AreMoved self.old self.new cells.now) }
    {
        let mut places = Vec::with_capacity(alloc, cells.len())?;
        for cell in cells {
            places.push(self.enter(*cell)?)?;
        }
        Ok(CellList::new(places))
    }
}
