//! Plain types seen as variational ones.
ghost use Rattle.std.specs.Prelude.{◌≡◌, IfOk};
ghost use Rattle.vt_show.specs.Pairs.{of_plain, of_plain_kids};

use std::alloc::{AllocError, Global};
use vt_type::{Plain, PlainKids, VKids, VType};

/// The same type, with no choices in it. The tree comes first, since the recursion is measured by it.
#[cycle(variational)]
pub(crate) fn variational(plain: &Plain, alloc: Global) -> Result<VType, AllocError>
    ensures { IfOk result (λ vtype. vtype ≡ of_plain plain.now) }
{
    match plain {
        Plain::Var(name) => Ok(VType::Var(name.copied(alloc)?)),
        Plain::Con(head, kids) => {
            let head = *head;
            Ok(VType::Con(head, variational_kids(kids, alloc)?))
        }
    }
}

#[cycle(variational)]
fn variational_kids(kids: &PlainKids, alloc: Global) -> Result<VKids, AllocError>
    ensures { IfOk result (λ all. all ≡ of_plain_kids kids.now) }
{
    match kids {
        PlainKids::Nil => Ok(VKids::Nil),
        PlainKids::More(first, others) => {
            let first = variational(first.get(), alloc)?;
            match variational_kids(others.get(), alloc) {
                Ok(others) => VKids::more(alloc, first, others),
                Err(error) => {
                    drop(first);
                    Err(error)
                }
            }
        }
    }
}
