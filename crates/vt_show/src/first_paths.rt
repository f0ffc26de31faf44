//! Variables named by their first paths.
ghost use Rattle.std.specs.Prelude.{◌≡◌, ℕ, ◌+◌, ◌<◌, List, ◌++◌, IfOk, OnOk};
ghost use Rattle.vt_type.specs.Variational.{vkid_count, IsWellFormedV, AreWellFormedV};
ghost use Rattle.vt_show.specs.Reading.{appearances, kids_appearances, renamed, kids_renamed, by_first_path};
ghost use Rattle.vt_type.specs.Canonical.{FindsAs, first_name};

use std::alloc::{AllocError, Global};
use vt_type::{FirstPaths, VKids, VType};

/// The type with each variable named by the path at which it appears first.
pub(crate) fn by_first_path(alloc: Global, vtype: &VType) -> Result<VType, AllocError>
    requires { IsWellFormedV vtype.now }
    ensures { IfOk result (λ t. t ≡ by_first_path vtype.now) }
{
    let mut way = Vec::new(alloc);
    let mut met = FirstPaths::new(alloc);
    renamed(vtype, alloc, &mut way, &mut met)
}

// The type at `way`, with each variable named by where it was met first. The tree comes first, since
// the recursion is measured by it.
#[cycle(first_paths)]
fn renamed(
    vtype: &VType,
    alloc: Global,
    way: &mut Vec<u8>,
    met: &mut FirstPaths,
) -> Result<VType, AllocError>
    requires { IsWellFormedV vtype.now }
    ensures way { OnOk result (way.new.items ≡ way.old.items) }
    ensures appearances { OnOk result (FindsAs met.new (met.old ++ appearances way.old.items vtype.now)) }
    ensures renamed { IfOk result (λ t. (later : List (List ℕ × List ℕ)) → t ≡ renamed (first_name (met.old ++ (appearances way.old.items vtype.now ++ later))) vtype.now) }
{
    match vtype {
        VType::Var(name) => {
            let first = met.meet(alloc, name.as_slice(), way.as_slice())?;
            Ok(VType::Var(first))
        }
        VType::Con(head, kids) => {
            let head = *head;
            head.bounded();
            let kids = renamed_kids(kids, alloc, 0, way, met)?;
            Ok(VType::Con(head, kids))
        }
        VType::Choice(dim, left, right) => {
            let dim = *dim;
            let left = renamed(left.get(), alloc, way, met)?;
            match renamed(right.get(), alloc, way, met) {
                Ok(right) => VType::choice(alloc, dim, left, right),
                Err(error) => {
                    drop(left);
                    Err(error)
                }
            }
        }
        VType::Err => Ok(VType::Err),
    }
}

// The children at `way`, of which the first has this number.
#[cycle(first_paths)]
fn renamed_kids(
    kids: &VKids,
    alloc: Global,
    number: u8,
    way: &mut Vec<u8>,
    met: &mut FirstPaths,
) -> Result<VKids, AllocError>
    requires well_formed { AreWellFormedV kids.now }
    requires numbers { number + vkid_count kids.now < 256 }
    ensures way { OnOk result (way.new.items ≡ way.old.items) }
    ensures appearances { OnOk result (FindsAs met.new (met.old ++ kids_appearances way.old.items number kids.now)) }
    ensures renamed { IfOk result (λ ts. (later : List (List ℕ × List ℕ)) → ts ≡ kids_renamed (first_name (met.old ++ (kids_appearances way.old.items number kids.now ++ later))) kids.now) }
{
    match kids {
        VKids::Nil => Ok(VKids::Nil),
        VKids::More(first, others) => {
            way.push(number)?;
            let first = renamed(first.get(), alloc, way, met)?;
            way.pop();
            match renamed_kids(others.get(), alloc, number + 1, way, met) {
                Ok(others) => VKids::more(alloc, first, others),
                Err(error) => {
                    drop(first);
                    Err(error)
                }
            }
        }
    }
}
