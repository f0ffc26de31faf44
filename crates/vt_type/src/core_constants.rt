//! What the table of constants has at each number.
ghost use Rattle.std.specs.Prelude.{◌≡◌, ◌<◌, [], ◌∷◌, map, slice_get, Some, IfOk, option_copied};
ghost use Rattle.vt_type.specs.declared.plain.Plain.{Var, Con};
ghost use Rattle.vt_type.specs.declared.plain.PlainKids.{Nil};
ghost use Rattle.vt_type.specs.Plain.{IsWellFormed};
ghost use Rattle.vt_type.specs.Canonical.{canonical};
ghost use Rattle.vt_type.specs.Constants.{core_constants, HasClosed, ◌⇒◌, list, pair, bool, a, b};

use crate::{Head, Path, Plain, PlainKids};
use sqlite_items::Boxed;
use std::alloc::{AllocError, Global};

/// How many constants the language has.
pub(crate) const CORE_COUNT: u32 = 18;

/// The name by which a program writes the constant, if it has one.
pub(crate) fn core_name(number: u32) -> Option<&'static str>
    requires { number < CORE_COUNT }
    ensures { slice_get (map (λ c. c.name) core_constants) number ≡ Some (option_copied result) }
{
    match number {
        9 => Some("not"),
        10 => Some("succ"),
        11 => Some("fst"),
        12 => Some("snd"),
        _ => None,
    }
}

/// The type of the constant, up to the names of its variables. Types are in boxes while they are made,
/// so that each is one call to drop where memory is wanting.
pub(crate) fn core_type(alloc: Global, number: u32) -> Result<Boxed<Plain>, AllocError>
    requires { number < CORE_COUNT }
    ensures closed { IfOk result (λ t. HasClosed core_constants number (canonical t)) }
    ensures well_formed { IfOk result IsWellFormed }
{
    match number {
        // + - *
        0 | 1 | 2 => operation(alloc, Head::Int, Head::Int),
        // ^
        3 => operation(alloc, Head::Text, Head::Text),
        // =
        4 => equality(alloc),
        // <
        5 => operation(alloc, Head::Int, Head::Bool),
        // ::, and the form that puts an item before a list
        6 | 15 => cons(alloc),
        // and, or
        7 | 8 => operation(alloc, Head::Bool, Head::Bool),
        // not
        9 => function(alloc, Head::Bool),
        // succ
        10 => function(alloc, Head::Int),
        11 => first(alloc),
        12 => second(alloc),
        // the form of a pair
        13 => pairing(alloc),
        // the empty list
        14 => items(alloc),
        16 => condition(alloc),
        _ => split(alloc),
    }
}

fn variable(alloc: Global, name: u8) -> Result<Boxed<Plain>, AllocError>
    ensures { IfOk result (λ t. t ≡ Var (name ∷ [])) }
{
    let path = Path::new(Vec::from_slice(alloc, &[name])?);
    Boxed::new(alloc, Plain::Var(path))
}

fn arrow(alloc: Global, from: Boxed<Plain>, to: Boxed<Plain>) -> Result<Boxed<Plain>, AllocError>
    ensures { IfOk result (λ t. t ≡ (from ⇒ to)) }
{
    let plain = Plain::fun(alloc, from.into_inner(), to.into_inner())?;
    Boxed::new(alloc, plain)
}

fn binary(
    alloc: Global,
    left: Boxed<Plain>,
    right: Boxed<Plain>,
    to: Boxed<Plain>,
) -> Result<Boxed<Plain>, AllocError>
    ensures { IfOk result (λ t. t ≡ (left ⇒ right ⇒ to)) }
{
    let rest = arrow(alloc, right, to)?;
    arrow(alloc, left, rest)
}

// A type without children.
fn leaf(alloc: Global, head: Head) -> Result<Boxed<Plain>, AllocError>
    ensures { IfOk result (λ t. t ≡ Con head Nil) }
{
    Boxed::new(alloc, Plain::Con(head, PlainKids::Nil))
}

// The type of functions of one value to another one of its type.
fn function(alloc: Global, head: Head) -> Result<Boxed<Plain>, AllocError>
    ensures { IfOk result (λ t. t ≡ (Con head Nil ⇒ Con head Nil)) }
{
    let from = leaf(alloc, head)?;
    let to = leaf(alloc, head)?;
    arrow(alloc, from, to)
}

// The type of an operator on two values of one type.
fn operation(alloc: Global, of: Head, to: Head) -> Result<Boxed<Plain>, AllocError>
    ensures { IfOk result (λ t. t ≡ (Con of Nil ⇒ Con of Nil ⇒ Con to Nil)) }
{
    let left = leaf(alloc, of)?;
    let right = leaf(alloc, of)?;
    let to = leaf(alloc, to)?;
    binary(alloc, left, right, to)
}

fn items(alloc: Global) -> Result<Boxed<Plain>, AllocError>
    ensures { IfOk result (λ t. t ≡ list a) }
{
    let item = variable(alloc, 0)?;
    let plain = Plain::list(alloc, item.into_inner())?;
    Boxed::new(alloc, plain)
}

fn both(alloc: Global) -> Result<Boxed<Plain>, AllocError>
    ensures { IfOk result (λ t. t ≡ pair a b) }
{
    let left = variable(alloc, 0)?;
    let right = variable(alloc, 1)?;
    let plain = Plain::pair(alloc, left.into_inner(), right.into_inner())?;
    Boxed::new(alloc, plain)
}

fn equality(alloc: Global) -> Result<Boxed<Plain>, AllocError>
    ensures { IfOk result (λ t. t ≡ (a ⇒ a ⇒ bool)) }
{
    let left = variable(alloc, 0)?;
    let right = variable(alloc, 0)?;
    let to = leaf(alloc, Head::Bool)?;
    binary(alloc, left, right, to)
}

fn cons(alloc: Global) -> Result<Boxed<Plain>, AllocError>
    ensures { IfOk result (λ t. t ≡ (a ⇒ list a ⇒ list a)) }
{
    let item = variable(alloc, 0)?;
    let rest = items(alloc)?;
    let whole = items(alloc)?;
    binary(alloc, item, rest, whole)
}

fn first(alloc: Global) -> Result<Boxed<Plain>, AllocError>
    ensures { IfOk result (λ t. t ≡ (pair a b ⇒ a)) }
{
    let both = both(alloc)?;
    let left = variable(alloc, 0)?;
    arrow(alloc, both, left)
}

fn second(alloc: Global) -> Result<Boxed<Plain>, AllocError>
    ensures { IfOk result (λ t. t ≡ (pair a b ⇒ b)) }
{
    let both = both(alloc)?;
    let right = variable(alloc, 1)?;
    arrow(alloc, both, right)
}

fn pairing(alloc: Global) -> Result<Boxed<Plain>, AllocError>
    ensures { IfOk result (λ t. t ≡ (a ⇒ b ⇒ pair a b)) }
{
    let left = variable(alloc, 0)?;
    let right = variable(alloc, 1)?;
    let both = both(alloc)?;
    binary(alloc, left, right, both)
}

// The type of a choice by a condition.
fn condition(alloc: Global) -> Result<Boxed<Plain>, AllocError>
    ensures { IfOk result (λ t. t ≡ (bool ⇒ a ⇒ a ⇒ a)) }
{
    let then = variable(alloc, 0)?;
    let no = variable(alloc, 0)?;
    let either = variable(alloc, 0)?;
    let choice = binary(alloc, then, no, either)?;
    let condition = leaf(alloc, Head::Bool)?;
    arrow(alloc, condition, choice)
}

// The type of what stands for an item before a rest.
fn longer(alloc: Global) -> Result<Boxed<Plain>, AllocError>
    ensures { IfOk result (λ t. t ≡ (a ⇒ list a ⇒ b)) }
{
    let item = variable(alloc, 0)?;
    let rest = items(alloc)?;
    let to = variable(alloc, 1)?;
    binary(alloc, item, rest, to)
}

// The type of the cases of a list: what stands for the empty one, and for an item before a rest.
fn split(alloc: Global) -> Result<Boxed<Plain>, AllocError>
    ensures { IfOk result (λ t. t ≡ (list a ⇒ b ⇒ (a ⇒ list a ⇒ b) ⇒ b)) }
{
    let longer = longer(alloc)?;
    let empty = variable(alloc, 1)?;
    let either = variable(alloc, 1)?;
    let cases = binary(alloc, empty, longer, either)?;
    let list = items(alloc)?;
    arrow(alloc, list, cases)
}
