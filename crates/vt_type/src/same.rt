//! Whether two types are the same, names of variables included.
ghost use Rattle.std.specs.Prelude.{◌≡◌, ◌↔◌, IsTrue};

use crate::{Head, Plain, PlainKids};

impl Head {
    pub fn is_same(self, other: Head) -> bool
        ensures { IsTrue result ↔ (self ≡ other) }
    {
        self == other
    }
}

impl Plain {
    /// Whether the types are equal, names of variables included.
    #[cycle(same)]
    pub fn is_same(&self, other: &Plain) -> bool
        ensures { IsTrue result ↔ (self.now ≡ other.now) }
    {
        match self {
            Plain::Var(name) => match other {
                Plain::Var(path) => name.as_slice() == path.as_slice(),
                Plain::Con(_, _) => false,
            },
            Plain::Con(head, kids) => match other {
                Plain::Var(_) => false,
                Plain::Con(top, others) => head.is_same(*top) && are_same(kids, others),
            },
        }
    }
}

#[cycle(same)]
fn are_same(kids: &PlainKids, others: &PlainKids) -> bool
    ensures { IsTrue result ↔ (kids.now ≡ others.now) }
{
    match kids {
        PlainKids::Nil => match others {
            PlainKids::Nil => true,
            PlainKids::More(_, _) => false,
        },
        PlainKids::More(first, rest) => match others {
            PlainKids::Nil => false,
            PlainKids::More(other, more) => first.get().is_same(other.get())
                && are_same(rest.get(), more.get()),
        },
    }
}
