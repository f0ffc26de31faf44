//! The pairs that were taken apart.
ghost use Rattle.std.specs.Prelude.{◌≡◌, ◌⊎◌, false, OnOk, IfOk};
ghost use Rattle.vt_unify.specs.Seen.{Remembers, key_of};

use crate::pairs::Pair;
use std::alloc::{AllocError, Global};
use std::collections::BTreeSet;

/// Pairs, each by the place of its context and the numbers of its cells.
#[derive(Drop)]
pub(crate) struct Seen {
    pub(crate) keys: BTreeSet<(Option<usize>, (usize, usize))>,
}

impl Seen {
    pub(crate) fn new(alloc: Global) -> Seen
        ensures { (pair : Pair) → Remembers result pair → ⊥ }
    {
        Seen {
            keys: BTreeSet::new(alloc),
        }
    }

    /// Whether the pair was not there.
    pub(crate) fn insert(&mut self, pair: &Pair) -> Result<bool, AllocError>
        ensures known { IfOk result (λ added. added ≡ false → Remembers self.old pair.now) }
        ensures only { OnOk result ((other : Pair) → Remembers self.new other → Remembers self.old other ⊎ (pair.now ≡ other)) }
    {
        let key = key_for(pair);
        Ok(self.keys.insert(key)?)
    }
}

fn key_for(pair: &Pair) -> (Option<usize>, (usize, usize))
    ensures { result ≡ key_of pair.now }
{
    (pair.context, (pair.left.0, pair.right.0))
}
