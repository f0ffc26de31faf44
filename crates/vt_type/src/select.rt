//! What a variational type is at one decision.
ghost use Rattle.std.specs.Prelude.{◌≡◌, IfOk};
ghost use Rattle.vt_type.specs.Variational.{selected, kids_selected, answer, root_at, IsWellFormedV, AreWellFormedV, IsWellFormedSelected};

use crate::{Plain, PlainKids, Selected, VKids, VType};
use sqlite_items::Boxed;
use std::alloc::{AllocError, Global};
use vt_dec::{Decision, Side};

impl VType {
    /// The type at a decision. It is `Untyped` where the error stands in what the decision takes.
    pub fn select(&self, alloc: Global, decision: &Decision<1>) -> Result<Selected, AllocError>
        requires { IsWellFormedV self.now }
        ensures selected { IfOk result (λ found. found ≡ answer (selected decision.now self.now)) }
        ensures well_formed { IfOk result IsWellFormedSelected }
    {
        match plain_at(self, alloc, decision)? {
            Some(plain) => Ok(Selected::Found(plain)),
            None => Ok(Selected::Untyped),
        }
    }

    /// What stands at the root of the type at a decision, when it is no choice. The choices within
    /// its children are left as they are.
    pub fn at(&self, decision: &Decision<1>) -> &VType
        requires { IsWellFormedV self.now }
        ensures root { result.now ≡ root_at decision.now self.now }
        ensures well_formed { IsWellFormedV result.now }
    {
        match self {
            VType::Choice(dim, left, right) => match decision.side(*dim) {
                Side::Left => left.get().at(decision),
                Side::Right => right.get().at(decision),
            },
            _ => self,
        }
    }
}

// What the decision takes, unless the error stands in it. The tree comes first, since the recursion is
// measured by it.
#[cycle(select)]
fn plain_at(
    vtype: &VType,
    alloc: Global,
    decision: &Decision<1>,
) -> Result<Option<Plain>, AllocError>
    requires { IsWellFormedV vtype.now }
    ensures { IfOk result (λ plain. plain ≡ selected decision.now vtype.now) }
{
    match vtype {
        VType::Var(name) => Ok(Some(Plain::Var(name.copied(alloc)?))),
        VType::Con(head, kids) => {
            let head = *head;
            match kids_at(kids, alloc, decision)? {
                Some(kids) => Ok(Some(Plain::Con(head, kids))),
                None => Ok(None),
            }
        }
        VType::Choice(dim, left, right) => match decision.side(*dim) {
            Side::Left => plain_at(left.get(), alloc, decision),
            Side::Right => plain_at(right.get(), alloc, decision),
        },
        VType::Err => Ok(None),
    }
}

#[cycle(select)]
fn kids_at(
    kids: &VKids,
    alloc: Global,
    decision: &Decision<1>,
) -> Result<Option<PlainKids>, AllocError>
    requires { AreWellFormedV kids.now }
    ensures { IfOk result (λ plain. plain ≡ kids_selected decision.now kids.now) }
{
    match kids {
        VKids::Nil => Ok(Some(PlainKids::Nil)),
        VKids::More(first, others) => match plain_at(first.get(), alloc, decision)? {
            None => Ok(None),
            Some(first) => {
                let first = Boxed::new(alloc, first)?;
                match kids_at(others.get(), alloc, decision)? {
                    None => Ok(None),
                    Some(others) => Ok(Some(PlainKids::More(first, Boxed::new(alloc, others)?))),
                }
            }
        },
    }
}
