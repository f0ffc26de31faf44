ghost use Rattle.std.specs.Prelude.{◌≡◌, ℕ, ◌*◌, ◌/◌, ◌%◌, ◌^◌, ◌<◌, ◌≤◌, ◌↔◌, ◌&&◌, ◌||◌, IsTrue, Some, true, false, length, slice_get, slice_set, replicate, count_by};
ghost use Rattle.vt_dec.specs.Words.{IsNextMember};
ghost use lib.Lanes.{zip2};

use crate::Dim;
use std::marker::Model;

/// A set of the dimensions below `64 * N`.
///
/// Contracts see the list that says for each dimension whether it is in the set.
#[derive(Clone, Copy, Debug)]
pub(crate) struct DimSet<const N: usize> {
    // One bit a dimension, the lowest first.
    words: [u64; N],
}

impl<const N: usize> Model for DimSet<N> {
    ghost use Rattle.std.specs.Prelude.{List, Bool};

    ghost Value = { List Bool };

    ghost use Rattle.vt_dec.specs.Words.{members, words_of, AreWords};
    ghost use Rattle.vt_dec.specs.Inverse.{words_of-members};
    ghost use Rattle.std.proofs.Common.{ap};

    ghost view = { λ s. members s.words };

    ghost invariant = { λ s. AreWords N s.words };

    ghost inverse = { λ bits. record { words = words_of N bits } };

    ghost inverse_ok = { λ s held. ap (λ words. record { words = words }) (words_of-members N s.words held) };
}

impl<const N: usize> DimSet<N> {
    pub(crate) fn empty() -> DimSet<N>
        ensures { result ≡ replicate (64 * N) false }
    {
        DimSet { words: [0; N] }
    }

    pub(crate) fn contains(&self, dim: Dim) -> bool
        requires { dim < 64 * N }
        ensures { slice_get self.now dim ≡ Some result }
    {
        (self.words[index_of(dim)] >> offset_of(dim)) & 1 == 1
    }

    pub(crate) fn insert(&mut self, dim: Dim)
        requires { dim < 64 * N }
        ensures inserted { self.new ≡ slice_set self.old dim true }
        ensures low { dim < 2 ^ 32 }
    {
        self.words[index_of(dim)] |= 1 << offset_of(dim);
    }

    pub(crate) fn remove(&mut self, dim: Dim)
        requires { dim < 64 * N }
        ensures { self.new ≡ slice_set self.old dim false }
    {
        self.words[index_of(dim)] &= !(1 << offset_of(dim));
    }

    /// Looks no further than the word in which the bound is passed.
    pub(crate) fn has_at_most(&self, bound: u32) -> bool
        ensures { IsTrue result ↔ (count_by (λ bit. bit) self.now ≤ bound) }
    {
        let mut left = bound;
        for word in &self.words {
            let ones = word.count_ones();
            if left < ones {
                return false;
            }
            left -= ones;
        }
        true
    }

    /// What of `whole` is in this set is `kept`.
    pub(crate) fn cuts(&self, whole: &DimSet<N>, kept: &DimSet<N>) -> bool
        ensures sized { length whole.now ≡ length self.now }
        ensures cut { IsTrue result ↔ (zip2 (λ one other. one && other) whole.now self.now ≡ kept.now) }
    {
        for index in 0..N {
            if whole.words[index] & self.words[index] != kept.words[index] {
                return false;
            }
        }
        true
    }

    pub(crate) fn union(&self, other: &DimSet<N>) -> DimSet<N>
        ensures { result ≡ zip2 (λ one other. one || other) self.now other.now }
    {
        let mut words = self.words;
        for index in 0..N {
            words[index] |= other.words[index];
        }
        DimSet { words }
    }

    /// The first dimension of the set from `from` on.
    pub(crate) fn next(&self, from: Dim) -> Option<Dim>
        requires low { (dim : ℕ) → slice_get self.now dim ≡ Some true → dim < 2 ^ 32 }
        ensures { IsNextMember self.now from result }
    {
        let mut mask = u64::MAX << offset_of(from);
        for index in index_of(from)..N {
            let word = self.words[index] & mask;
            if word != 0 {
                return Some(Dim(64 * index as u32 + word.trailing_zeros()));
            }
            mask = u64::MAX;
        }
        None
    }
}

// Which word has the bit of the dimension.
fn index_of(dim: Dim) -> usize
    ensures index { result ≡ dim / 64 }
    ensures low { dim < 2 ^ 32 }
{
    (dim.0 / 64) as usize
}

// Which bit of the word it is.
fn offset_of(dim: Dim) -> u32
    ensures { result ≡ dim % 64 }
{
    dim.0 % 64
}
