//! The constants of the language, with their closed types.
ghost use Rattle.std.specs.Prelude.{◌≡◌, ◌↔◌, ℕ, ◌<◌, length, map, slice_get, Some, None, IfOk, IfSome, IsTrue, option_copied};
ghost use Rattle.std.specs.Option.{option_map};
ghost use Rattle.std.specs.String.{string_bytes};
ghost use Rattle.vt_type.specs.Plain.{IsWellFormed};
ghost use Rattle.vt_type.specs.Canonical.{canonical, IsCanonical};
ghost use Rattle.vt_type.specs.Constants.{core_constants, HasName, HasClosed, IsTable};
ghost use Rattle.vt_type.specs.Entries.{constant_of};

use crate::core_constants::{CORE_COUNT, core_name, core_type};
use crate::{Plain, canon};
use sqlite_items::Boxed;
use std::alloc::{AllocError, Global};
use std::marker::Model;

/// A constant, by its number in the table.
#[derive(Clone, Copy, Debug, PartialEq, Eq, PartialOrd, Ord, Hash)]
pub struct ConstId(pub u32);

impl Model for ConstId {
    ghost use Rattle.std.specs.Prelude.{ℕ};

    ghost Value = { ℕ };

    ghost view = { λ d. d.0 };

    ghost inverse = { λ number. record { 0 = number } };
}

impl ConstId {
    pub const ADD: ConstId = ConstId(0);

    pub const SUBTRACT: ConstId = ConstId(1);

    pub const MULTIPLY: ConstId = ConstId(2);

    pub const JOIN: ConstId = ConstId(3);

    pub const EQUAL: ConstId = ConstId(4);

    pub const LESS: ConstId = ConstId(5);
    /// The operator `::`.
    pub const PREPEND: ConstId = ConstId(6);

    pub const AND: ConstId = ConstId(7);

    pub const OR: ConstId = ConstId(8);

    pub const PAIR: ConstId = ConstId(13);

    pub const NIL: ConstId = ConstId(14);
    /// An item of a list that is written out, before the rest of the list.
    pub const CONS: ConstId = ConstId(15);

    pub const COND: ConstId = ConstId(16);

    pub const SPLIT: ConstId = ConstId(17);
}

#[derive(Drop)]
struct Entry {
    name: Option<String>,
    closed: Boxed<Plain>,
}

impl Entry {
    fn is_named(&self, name: &str) -> bool
        ensures { IsTrue result ↔ (option_map string_bytes self.now.name ≡ Some name.now) }
    {
        match &self.name {
            Some(known) => known.as_str() == name,
            None => false,
        }
    }
}

/// The table of constants.
#[derive(Drop)]
pub struct Constants {
    entries: Vec<Entry>,
}

impl Model for Constants {
    ghost use Rattle.std.specs.Prelude.{List, map};
    ghost use Rattle.vt_type.specs.Constants.{Constant, IsTable};
    ghost use Rattle.vt_type.specs.Entries.{constant_of};
    ghost use Rattle.std.specs.Coded.{codes};
    ghost use Rattle.vt_type.specs.contracts.plain.Plain as plain;

    ghost Value = { List Constant };

    ghost coded = { Prim.hlevel (codes, plain.the_row.coded) };

    ghost view = { λ t. map constant_of t.entries.items };

    ghost invariant = { λ t. IsTable (map constant_of t.entries.items) };
}

impl Constants {
    /// The constants of the language.
    pub fn core(alloc: Global) -> Result<Constants, AllocError>
        ensures { IfOk result (λ table. table ≡ core_constants) }
    {
        let mut entries = Vec::new(alloc);
        for number in 0..CORE_COUNT {
            entries.push(core_entry(alloc, number)?)?;
        }
        Ok(Constants { entries })
    }

    /// The number of the constant with this name.
    pub fn find(&self, name: &str) -> Option<ConstId>
        ensures found { (id : ℕ) → (result ≡ Some id) ↔ HasName self.now id name.now }
        ensures missing { (result ≡ None) ↔ ((id : ℕ) → HasName self.now id name.now → ⊥) }
    {
        for (number, entry) in self.entries.iter().enumerate() {
            if entry.is_named(name) {
                return Some(ConstId(number as u32));
            }
        }
        None
    }

    /// How many constants there are.
    pub fn len(&self) -> usize
        ensures count { result ≡ length self.now }
        ensures table { IsTable self.now }
    {
        self.entries.len()
    }

    /// Does nothing. A proof calls it that rests on what holds of each table of constants.
    pub fn coherent(&self)
        ensures table { IsTable self.now }
    {
        let _ = &self.entries;
    }

    pub fn closed(&self, id: ConstId) -> &Plain
        requires { id < length self.now }
        ensures closed { HasClosed self.now id result.now }
        ensures well_formed { IsWellFormed result.now }
        ensures canonical { IsCanonical result.now }
    {
        self.entries[id.0 as usize].closed.get()
    }
}

fn core_entry(alloc: Global, number: u32) -> Result<Entry, AllocError>
    requires { number < CORE_COUNT }
    ensures { IfOk result (λ entry. slice_get core_constants number ≡ Some (constant_of entry)) }
{
    let core = core_type(alloc, number)?;
    let closed = Boxed::new(alloc, canon(alloc, core.get())?)?;
    let name = owned(alloc, core_name(number))?;
    Ok(Entry { name, closed })
}

fn owned(alloc: Global, name: Option<&str>) -> Result<Option<String>, AllocError>
    ensures { IfOk result (λ text. option_map string_bytes text ≡ option_copied name.entry) }
{
    match name {
        Some(name) => Ok(Some(String::from_str(alloc, name)?)),
        None => Ok(None),
    }
}
