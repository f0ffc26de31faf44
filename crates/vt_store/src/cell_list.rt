ghost use Rattle.std.specs.Prelude.{◌≡◌, ◌+◌, ◌<◌, ◌^◌, map, slice_index, IfOk, IsTrue};
ghost use Rattle.std.specs.List.{All};

use crate::CellId;
use crate::sharing::representative;
use std::alloc::{AllocError, Global};
use std::hash::{FoldHasher, Hasher};
use std::marker::Model;

/// Cells in order, as the children of a head.
#[derive(Debug, Drop)]
pub struct CellList {
    cells: Vec<CellId>,
}

impl Model for CellList {
    ghost use Rattle.std.specs.Prelude.{List, ℕ};

    ghost Value = { List ℕ };

    ghost view = { λ c. c.cells.items };
}

impl CellList {
    pub fn new(cells: Vec<CellId>) -> CellList
        ensures { result ≡ cells.items }
    {
        CellList { cells }
    }

    pub fn as_slice(&self) -> &[CellId]
        ensures { result.now ≡ self.now }
    {
        self.cells.as_slice()
    }

    /// The same cells again.
    pub(crate) fn copied(&self, alloc: Global) -> Result<CellList, AllocError>
        ensures { IfOk result (λ cells. cells ≡ self.now) }
    {
        Ok(CellList::new(Vec::from_slice(alloc, self.as_slice())?))
    }

    /// The cells with every number raised, as `Store::append` raises them.
    pub fn raised(&self, alloc: Global, by: usize) -> Result<CellList, AllocError>
        requires { All (λ cell. cell + by < 2 ^ 64) self.now }
        ensures { IfOk result (λ cells. cells ≡ map (λ cell. cell + by) self.now) }
    {
        let mut cells = Vec::with_capacity(alloc, self.as_slice().len())?;
        for cell in self.as_slice() {
            cells.push(CellId(cell.0 + by))?;
        }
        Ok(CellList::new(cells))
    }

    /// The representatives of the cells, in order, as `Store::shared` answers them.
    pub fn represented(&self, alloc: Global, names: &[CellId]) -> Result<CellList, AllocError>
        ensures { IfOk result (λ cells. cells ≡ map (slice_index names.now) self.now) }
    {
        let mut cells = Vec::with_capacity(alloc, self.as_slice().len())?;
        for cell in self.as_slice() {
            cells.push(representative(names, *cell))?;
        }
        Ok(CellList::new(cells))
    }

    /// The representatives of both are the same, in order.
    pub(crate) fn is_alike(&self, other: &CellList, names: &[CellId]) -> bool
        ensures { IsTrue result → map (slice_index names.now) self.now ≡ map (slice_index names.now) other.now }
    {
        if self.as_slice().len() != other.as_slice().len() {
            return false;
        }
        for (cell, own) in self.as_slice().iter().zip(other.as_slice()) {
            if representative(names, *cell) != representative(names, *own) {
                return false;
            }
        }
        true
    }

    /// Feeds a hasher with the representatives.
    pub(crate) fn feed(&self, names: &[CellId], state: &mut FoldHasher) {
        for cell in self.as_slice() {
            state.write_usize(representative(names, *cell).0);
        }
    }
}
