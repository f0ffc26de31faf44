ghost use Rattle.std.specs.Prelude.{◌≡◌, IfOk};

use std::alloc::{AllocError, Global};
use std::marker::Model;

/// The name of a type variable: the child numbers, counted from 0, on the way from the root of the
/// type to the first occurrence of the variable. Choices are no step of the way.
#[derive(Debug, Drop)]
pub struct Path {
    steps: Vec<u8>,
}

impl Model for Path {
    ghost use Rattle.std.specs.Prelude.{List, ℕ};

    ghost Value = { List ℕ };

    ghost view = { λ p. p.steps.items };
}

impl Path {
    pub fn new(steps: Vec<u8>) -> Path
        ensures { result ≡ steps.items }
    {
        Path { steps }
    }

    pub fn as_slice(&self) -> &[u8]
        ensures { result.now ≡ self.now }
    {
        self.steps.as_slice()
    }

    /// The same path again.
    pub fn copied(&self, alloc: Global) -> Result<Path, AllocError>
        ensures { IfOk result (λ path. path ≡ self.now) }
    {
        Ok(Path::new(Vec::from_slice(alloc, self.as_slice())?))
    }
}
