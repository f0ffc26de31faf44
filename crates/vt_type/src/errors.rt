//! Whether the error stands in a variational type.
ghost use Rattle.std.specs.Prelude.{◌↔◌, IsTrue};
ghost use Rattle.vt_type.specs.Variational.{HasError, SomeHasError};

use crate::{VKids, VType};

impl VType {
    /// Whether the error stands anywhere in the type, also where no decision comes.
    #[cycle(errors)]
    pub fn has_error(&self) -> bool
        ensures { IsTrue result ↔ HasError self.now }
    {
        match self {
            VType::Var(_) => false,
            VType::Con(_, kids) => some_has_error(kids),
            VType::Choice(_, left, right) => left.get().has_error() || right.get().has_error(),
            VType::Err => true,
        }
    }
}

#[cycle(errors)]
fn some_has_error(kids: &VKids) -> bool
    ensures { IsTrue result ↔ SomeHasError kids.now }
{
    match kids {
        VKids::Nil => false,
        VKids::More(first, others) => first.get().has_error() || some_has_error(others.get()),
    }
}
