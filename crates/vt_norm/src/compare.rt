//! Types compared as trees, and by what they select.
ghost use Rattle.std.specs.Prelude.{◌≡◌, ◌↔◌, IsTrue, IfOk};
ghost use Rattle.vt_type.specs.Variational.{IsWellFormedV};
ghost use Rattle.vt_norm.specs.Laws.{SelectAlike};

use crate::normal_form::normal;
use std::alloc::{AllocError, Global};
use vt_type::{VKids, VType};

/// Whether two types select the same at every decision. It takes what their two normal forms take.
pub fn equivalent(alloc: Global, one: &VType, other: &VType) -> Result<bool, AllocError>
    requires one { IsWellFormedV one.now }
    requires other { IsWellFormedV other.now }
    ensures { IfOk result (λ same. IsTrue same ↔ SelectAlike one.now other.now) }
{
    let first = normal(alloc, one)?;
    let second = normal(alloc, other)?;
    Ok(is_same(&first, &second))
}

/// Whether two types are the same tree.
#[cycle(compare)]
pub(crate) fn is_same(one: &VType, other: &VType) -> bool
    ensures { IsTrue result ↔ (one.now ≡ other.now) }
{
    match (one, other) {
        (VType::Var(one), VType::Var(other)) => one.as_slice() == other.as_slice(),
        (VType::Con(one, kids), VType::Con(other, others)) => {
            one.is_same(*other) && are_same(kids, others)
        }
        (VType::Choice(one, left, right), VType::Choice(other, first, second)) => {
            one.0 == other.0
                && is_same(left.get(), first.get())
                && is_same(right.get(), second.get())
        }
        (VType::Err, VType::Err) => true,
        _ => false,
    }
}

#[cycle(compare)]
fn are_same(kids: &VKids, others: &VKids) -> bool
    ensures { IsTrue result ↔ (kids.now ≡ others.now) }
{
    match (kids, others) {
        (VKids::Nil, VKids::Nil) => true,
        (VKids::More(one, kids), VKids::More(other, others)) => {
            is_same(one.get(), other.get()) && are_same(kids.get(), others.get())
        }
        _ => false,
    }
}
