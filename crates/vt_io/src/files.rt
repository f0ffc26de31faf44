ghost use Rattle.std.specs.Prelude.{◌≡◌, ◌<◌, ◌-◌, ◌^◌, ◌≤◌, List, ℕ, Option, IfOk, IsSome, IsErrOf};
ghost use Rattle.vt_io.specs.Counts.{Rose, Advances};
ghost use Rattle.vt_io.specs.Fetched.{IsFetched};

use crate::Bytes;
use std::alloc::{AllocError, Global};
use thiserror::Error;

/// What a fetch found.
#[derive(Debug, Drop)]
pub enum Fetched {
    /// All that is held.
    Whole(Bytes),
    /// More than the limit is held.
    TooLong,
}

/// Why a fetch gave no answer.
#[derive(Debug, Drop, Error)]
pub enum FetchFault {
    /// The bytes could not be read.
    #[error("the file could not be read")]
    Failed,
    /// Memory ran out.
    #[error("out of memory")]
    Memory,
}

/// Files by name. A name is seen by contracts as the bytes of its text.
pub trait Files {
    /// The bytes under a name, where this is told.
    ghost held: { Self → List ℕ → Option (List ℕ) };

    /// How often a fetch of a name failed, up to the last value of a counter of 64 bits.
    ghost faults: { Self → List ℕ → ℕ };

    /// How many fetches there were so far, where this is told.
    ghost fetches: { Self → Option ℕ };

    /// No fetch of a name whose bytes are told will fail.
    ghost calm: { Self → Type 0 };

    /// The bytes under the name, if they are no more than `limit`.
    fn fetch(&mut self, alloc: Global, name: &str, limit: usize) -> Result<Fetched, FetchFault>
        requires { limit ≤ 2 ^ 31 }
        ensures fetched { IfOk result (IsFetched (held self.old name.now) limit) }
        ensures failed { IsErrOf result FetchFault.Failed → Rose (faults self.old name.now) (faults self.new name.now) }

        ensures same { (other : List ℕ) → held self.new other ≡ held self.old other }
        ensures never_falls { (other : List ℕ) → faults self.old other ≤ faults self.new other }
        ensures counted { Advances (fetches self.old) (fetches self.new) }

        // A calm store of files stays calm, and no name whose bytes are told fails.
        ensures stays_calm { calm self.old → calm self.new }
        ensures no_fault { calm self.old → (other : List ℕ) → IsSome (held self.old other) → faults self.new other ≡ faults self.old other };

    /// Where it is calm, a failure could still be counted.
    ghost room_to_count: { (files : Self) (name : List ℕ) → calm files → IsSome (held files name) → faults files name < 2 ^ 64 - 1 };
}
