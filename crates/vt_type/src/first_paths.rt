//! Where each variable of a type was met first.
ghost use Rattle.std.specs.Prelude.{◌≡◌, ℕ, List, [], ◌∷◌, ◌++◌, Some, IfOk, OnOk};
ghost use Rattle.std.specs.Map.{lookup};
ghost use Rattle.std.specs.Str.{bytes_eq};
ghost use Rattle.vt_type.specs.Canonical.{FindsAs};

use crate::Path;
use indexmap::IndexMap;
use std::alloc::{AllocError, Global};
use std::marker::Model;

/// The names of variables, each with the path at which it was met first.
#[derive(Drop)]
pub struct FirstPaths {
    paths: IndexMap<Vec<u8>, Path>,
}

impl Model for FirstPaths {
    ghost use Rattle.std.specs.Prelude.{List, ℕ, map};

    ghost Value = { List (List ℕ × List ℕ) };

    ghost view = { λ p. map (λ e. (e.0.items, e.1)) p.paths.entries };
}

impl FirstPaths {
    pub fn new(alloc: Global) -> FirstPaths
        ensures { result ≡ [] }
    {
        FirstPaths {
            paths: IndexMap::new(alloc),
        }
    }

    /// The path at which a variable was met first. That is here where it was not met before.
    pub fn meet(&mut self, alloc: Global, name: &[u8], here: &[u8]) -> Result<Path, AllocError>
        ensures first { IfOk result (λ path. (later : List (List ℕ × List ℕ)) → Some path ≡ lookup (bytes_eq name.now) (self.old ++ (name.now, here.now) ∷ later)) }
        ensures met { OnOk result (FindsAs self.new (self.old ++ (name.now, here.now) ∷ [])) }
    {
        if let Some(path) = self.paths.get(name) {
            return path.copied(alloc);
        }
        let first = Path::new(Vec::from_slice(alloc, here)?);
        match Vec::from_slice(alloc, name) {
            Ok(name) => drop(self.paths.insert(name, first)?),
            Err(error) => {
                drop(first);
                return Err(error);
            }
        }
        Ok(Path::new(Vec::from_slice(alloc, here)?))
    }
}
