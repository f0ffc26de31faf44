//! The names of a program, each under a number.
ghost use Rattle.std.specs.Prelude.{◌≡◌, ◌↔◌, ℕ, ◌+◌, ◌<◌, ◌≤◌, ◌^◌, [], ◌∷◌, ◌++◌, Some, length, slice_get, option_copied, Contains, IfOk, OnOk, OnErr, IsSome, IsTrue};
ghost use Rattle.vt_type.specs.Names.{AreDistinct};

use indexmap::IndexSet;
use std::alloc::{AllocError, Global};
use std::marker::Model;

/// Distinct texts, each numbered from 0 in the order in which they were added.
#[derive(Debug, Drop)]
pub struct Names {
    texts: IndexSet<String>,
}

impl Model for Names {
    ghost use Rattle.std.specs.Prelude.{List, ℕ, ◌≤◌, ◌^◌, map, length};
    ghost use Rattle.std.specs.String.{string_bytes};
    ghost use Rattle.vt_type.specs.Names.{AreDistinct};

    ghost Value = { List (List ℕ) };

    ghost view = { λ n. map string_bytes n.texts.keys };

    ghost invariant = { λ n. AreDistinct (map string_bytes n.texts.keys) × (length (map string_bytes n.texts.keys) ≤ 2 ^ 32) };
}

impl Names {
    pub fn new(alloc: Global) -> Names
        ensures { result ≡ [] }
    {
        Names {
            texts: IndexSet::new(alloc),
        }
    }

    pub fn len(&self) -> usize
        ensures len { result ≡ length self.now }
        ensures distinct { AreDistinct self.now }
        ensures fits { length self.now ≤ 2 ^ 32 }
    {
        self.texts.len()
    }

    /// Does nothing. A proof calls it that rests on what holds of each list of names.
    pub fn distinct(&self)
        ensures distinct { AreDistinct self.now }
        ensures fits { length self.now ≤ 2 ^ 32 }
    {
        let _ = &self.texts;
    }

    pub fn is_empty(&self) -> bool
        ensures { IsTrue result ↔ (self.now ≡ []) }
    {
        self.texts.is_empty()
    }

    /// The number of a name, which is added at the end where it is new.
    pub fn add(&mut self, name: &str) -> Result<u32, AllocError>
        requires { length self.old < 2 ^ 32 }
        ensures number { IfOk result (λ number. slice_get self.new number ≡ Some name.now) }
        ensures known { OnOk result (Contains self.old name.now → self.new ≡ self.old) }
        ensures added { OnOk result ((Contains self.old name.now → ⊥) → self.new ≡ self.old ++ name.now ∷ []) }
        ensures len { length self.new ≤ length self.old + 1 }
        ensures err { OnErr result (self.new ≡ self.old) }
    {
        if let Some(number) = self.number_of(name) {
            return Ok(number);
        }
        let text = String::from_str(*self.texts.allocator(), name)?;
        let (number, _) = self.texts.insert_full(text)?;
        Ok(number as u32)
    }

    pub fn number_of(&self, name: &str) -> Option<u32>
        ensures number { (number : ℕ) → (result ≡ Some number) ↔ (slice_get self.now number ≡ Some name.now) }
        ensures known { IsSome result ↔ Contains self.now name.now }
    {
        let number = self.texts.get_index_of(name)?;
        Some(number as u32)
    }

    pub fn name(&self, number: u32) -> Option<&str>
        ensures { option_copied result ≡ slice_get self.now number }
    {
        let text = self.texts.get_index(number as usize)?;
        Some(text.as_str())
    }
}

/// The tables of names that the texts of a program's types read.
#[derive(Debug, Drop)]
pub struct Tables {
    /// The names of the dimensions.
    pub dims: Names,
    /// The names of the declared types.
    pub datas: Names,
}
