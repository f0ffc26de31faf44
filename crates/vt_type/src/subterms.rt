//! The subterms of a type, by the way to them.
ghost use Rattle.std.specs.Prelude.{◌≡◌, option_copied};
ghost use Rattle.vt_type.specs.NormalForm.{kid_at};
ghost use Rattle.vt_type.specs.Subterms.{subterm};

use crate::{Plain, PlainKids};

impl Plain {
    /// The subterm at a path, if the type has one there.
    pub fn subterm(&self, path: &[u8]) -> Option<&Plain>
        ensures { option_copied result ≡ subterm self.now path.now }
    {
        if path.is_empty() {
            return Some(self);
        }
        match self {
            Plain::Var(_) => None,
            Plain::Con(_, kids) => kids.kid(path[0])?.subterm(&path[1..]),
        }
    }
}

impl PlainKids {
    /// The child with this number, counted from 0.
    pub fn kid(&self, number: u8) -> Option<&Plain>
        ensures { option_copied result ≡ kid_at self.now number }
    {
        match self {
            PlainKids::Nil => None,
            PlainKids::More(first, others) => {
                if number == 0 {
                    Some(first.get())
                } else {
                    others.get().kid(number - 1)
                }
            }
        }
    }
}
