//! The variables of a type, numbered in the order in which they appear.
ghost use Rattle.std.specs.Prelude.{◌≡◌, List, ℕ, [], ◌∷◌, ◌++◌, position, unwrap_or, OnOk};
ghost use Rattle.std.specs.Str.{bytes_eq};
ghost use Rattle.vt_type.specs.Text.{distinct, variables, kids_variables, letter};

use indexmap::IndexSet;
use std::alloc::{AllocError, Global};
use std::marker::Model;
use vt_type::{VKids, VType};

/// The names of the variables that were met, each once, in the order in which they were met first.
#[derive(Drop)]
pub(crate) struct Letters {
    names: IndexSet<Vec<u8>>,
}

impl Model for Letters {
    ghost use Rattle.std.specs.Prelude.{List, ℕ, map};

    ghost Value = { List (List ℕ) };

    ghost view = { λ l. map (λ name. name.items) l.names.keys };
}

impl Letters {
    pub(crate) fn new(alloc: Global) -> Letters
        ensures { result ≡ [] }
    {
        Letters {
            names: IndexSet::new(alloc),
        }
    }

    /// The number of a variable that was met, and 0 for any other.
    pub(crate) fn number_of(&self, name: &[u8]) -> usize
        ensures { result ≡ unwrap_or (position (bytes_eq name.now) self.now) 0 }
    {
        self.names.get_index_of(name).unwrap_or(0)
    }

    fn meet(&mut self, alloc: Global, name: &[u8]) -> Result<(), AllocError>
        ensures { OnOk result ((before : List (List ℕ)) → self.old ≡ distinct before → self.new ≡ distinct (before ++ name.now ∷ [])) }
    {
        if !self.names.contains(name) {
            self.names.insert(Vec::from_slice(alloc, name)?)?;
        }
        Ok(())
    }
}

/// Meets the variables of a type from left to right. The tree comes first, since the recursion is
/// measured by it.
#[cycle(letters)]
pub(crate) fn meet_all(
    vtype: &VType,
    alloc: Global,
    letters: &mut Letters,
) -> Result<(), AllocError>
    ensures { OnOk result ((before : List (List ℕ)) → letters.old ≡ distinct before → letters.new ≡ distinct (before ++ variables vtype.now)) }
{
    match vtype {
        VType::Var(name) => letters.meet(alloc, name.as_slice()),
        VType::Con(_, kids) => meet_kids(kids, alloc, letters),
        VType::Choice(_, left, right) => {
            meet_all(left.get(), alloc, letters)?;
            meet_all(right.get(), alloc, letters)
        }
        VType::Err => Ok(()),
    }
}

#[cycle(letters)]
fn meet_kids(kids: &VKids, alloc: Global, letters: &mut Letters) -> Result<(), AllocError>
    ensures { OnOk result ((before : List (List ℕ)) → letters.old ≡ distinct before → letters.new ≡ distinct (before ++ kids_variables kids.now)) }
{
    match kids {
        VKids::Nil => Ok(()),
        VKids::More(first, others) => {
            meet_all(first.get(), alloc, letters)?;
            meet_kids(others.get(), alloc, letters)
        }
    }
}
