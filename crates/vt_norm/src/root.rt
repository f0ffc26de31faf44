//! What stands at the root of a type where its choices are decided.
ghost use Rattle.std.specs.Prelude.{◌≡◌, ◌↔◌, IsTrue, IfOk};

use std::alloc::{AllocError, Global};
use vt_type::{Head, Path};

/// The root of a well-formed type: the head says how many children there are.
#[derive(Drop)]
pub(crate) enum Top {
    Made(Head),
    Named(Path),
    /// The error stands at the root or anywhere below it.
    Wrong,
}

impl Top {
    pub(crate) fn copied(&self, alloc: Global) -> Result<Top, AllocError>
        ensures { IfOk result (λ top. top ≡ self.now) }
    {
        match self {
            Top::Made(head) => Ok(Top::Made(*head)),
            Top::Named(name) => Ok(Top::Named(name.copied(alloc)?)),
            Top::Wrong => Ok(Top::Wrong),
        }
    }

    pub(crate) fn is_same(&self, other: &Top) -> bool
        ensures { IsTrue result ↔ (self.now ≡ other.now) }
    {
        match (self, other) {
            (Top::Made(head), Top::Made(other)) => head.is_same(*other),
            (Top::Named(name), Top::Named(other)) => name.as_slice() == other.as_slice(),
            (Top::Wrong, Top::Wrong) => true,
            _ => false,
        }
    }
}
