//! What is left of a variational type on a side of a dimension, and its children.
ghost use Rattle.std.specs.Prelude.{◌≡◌, IfOk, IfSome};
ghost use Rattle.std.specs.Option.{option_copied};
ghost use Rattle.vt_norm.specs.Parts.{restricted, kids_restricted, vkid_at, kid};

use std::alloc::{AllocError, Global};
use vt_dec::{Dim, Side};
use vt_type::{VKids, VType};

#[cycle(copy)]
fn copied(vtype: &VType, alloc: Global) -> Result<VType, AllocError>
    ensures { IfOk result (λ copy. copy ≡ vtype.now) }
{
    match vtype {
        VType::Var(name) => Ok(VType::Var(name.copied(alloc)?)),
        VType::Con(head, kids) => {
            let head = *head;
            Ok(VType::Con(head, kids_copied(kids, alloc)?))
        }
        VType::Choice(dim, left, right) => {
            let left = copied(left.get(), alloc)?;
            let right = copied(right.get(), alloc)?;
            VType::choice(alloc, *dim, left, right)
        }
        VType::Err => Ok(VType::Err),
    }
}

#[cycle(copy)]
fn kids_copied(kids: &VKids, alloc: Global) -> Result<VKids, AllocError>
    ensures { IfOk result (λ copy. copy ≡ kids.now) }
{
    match kids {
        VKids::Nil => Ok(VKids::Nil),
        VKids::More(first, others) => {
            let first = copied(first.get(), alloc)?;
            let others = kids_copied(others.get(), alloc)?;
            VKids::more(alloc, first, others)
        }
    }
}

/// The type with each choice by the dimension replaced by its alternative of this side.
#[cycle(restrict)]
pub(crate) fn restricted(
    vtype: &VType,
    alloc: Global,
    dim: Dim,
    side: Side,
) -> Result<VType, AllocError>
    ensures { IfOk result (λ part. part ≡ restricted dim side vtype.now) }
{
    match vtype {
        VType::Var(name) => Ok(VType::Var(name.copied(alloc)?)),
        VType::Con(head, kids) => {
            let head = *head;
            Ok(VType::Con(head, kids_restricted(kids, alloc, dim, side)?))
        }
        VType::Choice(other, left, right) => {
            let other = *other;
            if other == dim {
                return match side {
                    Side::Left => restricted(left.get(), alloc, dim, side),
                    Side::Right => restricted(right.get(), alloc, dim, side),
                };
            }
            let left = restricted(left.get(), alloc, dim, side)?;
            let right = restricted(right.get(), alloc, dim, side)?;
            VType::choice(alloc, other, left, right)
        }
        VType::Err => Ok(VType::Err),
    }
}

#[cycle(restrict)]
fn kids_restricted(kids: &VKids, alloc: Global, dim: Dim, side: Side) -> Result<VKids, AllocError>
    ensures { IfOk result (λ part. part ≡ kids_restricted dim side kids.now) }
{
    match kids {
        VKids::Nil => Ok(VKids::Nil),
        VKids::More(first, others) => {
            let first = restricted(first.get(), alloc, dim, side)?;
            let others = kids_restricted(others.get(), alloc, dim, side)?;
            VKids::more(alloc, first, others)
        }
    }
}

fn kid_at(kids: &VKids, number: u8) -> Option<&VType>
    ensures { option_copied result ≡ vkid_at kids.now number }
{
    match kids {
        VKids::Nil => None,
        VKids::More(first, others) => {
            if number == 0 {
                Some(first.get())
            } else {
                kid_at(others.get(), number - 1)
            }
        }
    }
}

/// The child of this number, where the type is a constructor that has it.
pub(crate) fn kid_in_place(vtype: &VType, number: u8) -> Option<&VType>
    ensures { IfSome result (λ child. child.now ≡ kid number vtype.now) }
{
    match vtype {
        VType::Con(_, kids) => kid_at(kids, number),
        VType::Var(_) => None,
        VType::Choice(_, _, _) => None,
        VType::Err => None,
    }
}

/// The child of this number under the choices at the root, which stay. What has no such child stays
/// as it is.
pub(crate) fn kid(vtype: &VType, alloc: Global, number: u8) -> Result<VType, AllocError>
    ensures { IfOk result (λ part. part ≡ kid number vtype.now) }
{
    match vtype {
        VType::Con(_, kids) => match kid_at(kids, number) {
            Some(child) => copied(child, alloc),
            None => copied(vtype, alloc),
        },
        VType::Choice(dim, left, right) => {
            let left = kid(left.get(), alloc, number)?;
            let right = kid(right.get(), alloc, number)?;
            VType::choice(alloc, *dim, left, right)
        }
        VType::Var(_) => copied(vtype, alloc),
        VType::Err => Ok(VType::Err),
    }
}
