//! The canonical form of a type, in which a variable is named by the path of its first occurrence.
ghost use Rattle.std.specs.Prelude.{◌≡◌, ℕ, ◌+◌, ◌<◌, List, ◌++◌, IfOk, OnOk};
ghost use Rattle.vt_type.specs.Plain.{IsWellFormed, AreWellFormed, kid_count, substituted, kids_substituted};
ghost use Rattle.vt_type.specs.Canonical.{canonical, occurrences, kids_occurrences, FindsAs, first_of};

use crate::{FirstPaths, Plain, PlainKids};
use std::alloc::{AllocError, Global};

/// The canonical form of a type: two types are equal up to the names of variables exactly where
/// their canonical forms are equal.
pub fn canon(alloc: Global, plain: &Plain) -> Result<Plain, AllocError>
    requires { IsWellFormed plain.now }
    ensures canonical { IfOk result (λ t. t ≡ canonical plain.now) }
    ensures well_formed { IfOk result IsWellFormed }
{
    let mut way = Vec::new(alloc);
    let mut paths = FirstPaths::new(alloc);
    renamed(plain, alloc, &mut way, &mut paths)
}

// The type at `way`, with each variable named by where it was met first. The tree comes first, since
// the recursion is measured by it.
#[cycle(canonical)]
fn renamed(
    plain: &Plain,
    alloc: Global,
    way: &mut Vec<u8>,
    paths: &mut FirstPaths,
) -> Result<Plain, AllocError>
    requires { IsWellFormed plain.now }
    ensures way { OnOk result (way.new.items ≡ way.old.items) }
    ensures met { OnOk result (FindsAs paths.new (paths.old ++ occurrences way.old.items plain.now)) }
    ensures renamed { IfOk result (λ t. (later : List (List ℕ × List ℕ)) → t ≡ substituted (first_of (paths.old ++ (occurrences way.old.items plain.now ++ later))) plain.now) }
{
    match plain {
        Plain::Var(name) => {
            let first = paths.meet(alloc, name.as_slice(), way.as_slice())?;
            Ok(Plain::Var(first))
        }
        Plain::Con(head, kids) => {
            let head = *head;
            head.bounded();
            let kids = renamed_kids(kids, alloc, 0, way, paths)?;
            Ok(Plain::Con(head, kids))
        }
    }
}

// The children at `way`, of which the first has this number.
#[cycle(canonical)]
fn renamed_kids(
    kids: &PlainKids,
    alloc: Global,
    number: u8,
    way: &mut Vec<u8>,
    paths: &mut FirstPaths,
) -> Result<PlainKids, AllocError>
    requires well_formed { AreWellFormed kids.now }
    requires numbers { number + kid_count kids.now < 256 }
    ensures way { OnOk result (way.new.items ≡ way.old.items) }
    ensures met { OnOk result (FindsAs paths.new (paths.old ++ kids_occurrences way.old.items number kids.now)) }
    ensures renamed { IfOk result (λ ts. (later : List (List ℕ × List ℕ)) → ts ≡ kids_substituted (first_of (paths.old ++ (kids_occurrences way.old.items number kids.now ++ later))) kids.now) }
{
    match kids {
        PlainKids::Nil => Ok(PlainKids::Nil),
        PlainKids::More(first, others) => {
            way.push(number)?;
            let first = renamed(first.get(), alloc, way, paths)?;
            way.pop();
            match renamed_kids(others.get(), alloc, number + 1, way, paths) {
                Ok(others) => PlainKids::more(alloc, first, others),
                Err(error) => {
                    drop(first);
                    Err(error)
                }
            }
        }
    }
}
