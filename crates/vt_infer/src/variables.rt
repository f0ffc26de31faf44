//! The cells of variables.
ghost use Rattle.std.specs.Prelude.{◌≡◌, [], ◌∷◌, ◌++◌, None, OnOk};
ghost use Rattle.std.specs.Map.{lookup};
ghost use Rattle.std.specs.Str.{bytes_eq};

use indexmap::IndexMap;
use std::alloc::{AllocError, Global};
use std::marker::Model;
use vt_store::CellId;

/// The variables of a type that have been met, each with its cell.
#[derive(Drop)]
pub(crate) struct Variables {
    cells: IndexMap<Vec<u8>, CellId>,
}

impl Model for Variables {
    ghost use Rattle.std.specs.Prelude.{List, ℕ, map};

    ghost Value = { List (List ℕ × ℕ) };

    ghost view = { λ v. map (λ e. (e.0.items, e.1)) v.cells.entries };
}

impl Variables {
    pub(crate) fn new(alloc: Global) -> Variables
        ensures { result ≡ [] }
    {
        Variables {
            cells: IndexMap::new(alloc),
        }
    }

    /// The cell of a variable that has been met.
    pub(crate) fn cell(&self, name: &[u8]) -> Option<CellId>
        ensures { result ≡ lookup (bytes_eq name.now) self.now }
    {
        match self.cells.get(name) {
            Some(cell) => Some(*cell),
            None => None,
        }
    }

    /// One more variable, with its cell.
    pub(crate) fn add(&mut self, alloc: Global, name: &[u8], cell: CellId) -> Result<(), AllocError>
        requires { lookup (bytes_eq name.now) self.old ≡ None }
        ensures { OnOk result (self.new ≡ self.old ++ (name.now, cell) ∷ []) }
    {
        self.cells.insert(Vec::from_slice(alloc, name)?, cell)?;
        Ok(())
    }
}
