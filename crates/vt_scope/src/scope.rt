//! The binders around a place of a program.
ghost use Rattle.std.specs.Prelude.{◌≡◌, List, [], ◌∷◌, MatchResult};
ghost use Rattle.vt_scope.specs.declared.fault.ScopeFault.{ScopeFault};

use crate::ScopeFault;
use std::alloc::{AllocFailed, Global};
use std::marker::Model;
use vt_lex::Word;
use vt_syntax::Class;

/// A name that is bound, with the class of the leaves that stand for it.
#[derive(Drop)]
pub struct Binder {
    pub name: Word,
    pub class: Class,
}

/// A binder from a place that it is seen from: how many binders stand between, and its class.
#[derive(Clone, Copy, Debug)]
pub struct Found {
    pub distance: u32,
    pub class: Class,
}

/// The binders around a place. Contracts see the newest one first.
#[derive(Drop)]
pub struct Scope {
    binders: Vec<Binder>,
}

impl Model for Scope {
    ghost use Rattle.std.specs.Prelude.{List, ◌<◌, ◌^◌, length, reverse};
    ghost use Rattle.vt_scope.specs.declared.scope.Binder.{Binder};

    ghost Value = { List Binder };

    ghost view = { λ s. reverse s.binders.items };

    ghost invariant = { λ s. length s.binders.items < 2 ^ 32 };
}

impl Scope {
    ghost use Rattle.std.specs.Prelude.{◌≡◌, List, [], ◌∷◌, MatchResult};
    ghost use Rattle.vt_scope.specs.declared.scope.Binder.{Binder};
    ghost use Rattle.vt_scope.specs.Scopes.{found};

    pub fn new(alloc: Global) -> Scope
        ensures { result ≡ [] }
    {
        Scope {
            binders: Vec::new(alloc),
        }
    }

    pub fn push(&mut self, alloc: Global, name: &Word, class: Class) -> Result<(), ScopeFault>
        ensures { MatchResult result (λ _. self.new ≡ record { name = name.now; class = class } ∷ self.old) (λ fault. fault ≡ ScopeFault.Memory) }
    {
        if self.binders.len() >= u32::MAX as usize {
            return Err(ScopeFault::Memory);
        }
        let name = name.copied(alloc)?;
        let binder = Binder { name, class };
        match self.binders.push(binder) {
            Ok(()) => Ok(()),
            Err(_) => Err(ScopeFault::Memory),
        }
    }

    pub fn pop(&mut self)
        ensures { (newest : Binder) (others : List Binder) → self.old ≡ newest ∷ others → self.new ≡ others }
    {
        let _ = self.binders.pop();
    }

    /// The newest binder of a name.
    pub fn find(&self, name: &str) -> Option<Found>
        ensures { result ≡ found self.now name.now }
    {
        let mut distance = 0;
        let mut rest = self.binders.as_slice();
        while let Some((binder, outer)) = rest.split_last() {
            if binder.name.as_str() == name {
                return Some(Found {
                    distance,
                    class: binder.class,
                });
            }
            distance += 1;
            rest = outer;
        }
        None
    }
}
