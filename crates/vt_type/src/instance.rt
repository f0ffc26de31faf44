//! Whether one type is an instance of another.
ghost use Rattle.std.specs.Prelude.{◌↔◌, IsTrue};
ghost use Rattle.vt_type.specs.Plain.{IsWellFormed, IsInstance};
ghost use Rattle.vt_type.specs.Canonical.{IsCanonical};
ghost use Rattle.vt_type.specs.Subterms.{FitsSubterms, AllFitSubterms};

use crate::{Plain, PlainKids};

/// Whether the first type comes from the second by a substitution. A variable of the second is named
/// by the path of its first occurrence, so its image is the subterm of the first at that path.
pub fn instance_of(special: &Plain, general: &Plain) -> bool
    requires special { IsWellFormed special.now }
    requires general { IsWellFormed general.now }
    requires canonical { IsCanonical general.now }
    ensures { IsTrue result ↔ IsInstance special.now general.now }
{
    fits(general, special, special)
}

// Whether the special type is the general one, each variable replaced by the subterm of the whole at
// the path that names it.
#[cycle(instance)]
fn fits(general: &Plain, special: &Plain, whole: &Plain) -> bool
    ensures { IsTrue result ↔ FitsSubterms whole.now general.now special.now }
{
    match general {
        Plain::Var(name) => match whole.subterm(name.as_slice()) {
            Some(image) => image.is_same(special),
            None => false,
        },
        Plain::Con(head, kids) => match special {
            Plain::Var(_) => false,
            Plain::Con(top, subterms) => head.is_same(*top) && all_fit(kids, subterms, whole),
        },
    }
}

#[cycle(instance)]
fn all_fit(kids: &PlainKids, subterms: &PlainKids, whole: &Plain) -> bool
    ensures { IsTrue result ↔ AllFitSubterms whole.now kids.now subterms.now }
{
    match kids {
        PlainKids::Nil => match subterms {
            PlainKids::Nil => true,
            PlainKids::More(_, _) => false,
        },
        PlainKids::More(first, others) => match subterms {
            PlainKids::Nil => false,
            PlainKids::More(subterm, rest) => {
                fits(first.get(), subterm.get(), whole) && all_fit(others.get(), rest.get(), whole)
            }
        },
    }
}
