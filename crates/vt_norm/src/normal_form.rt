//! The normal form, built from the root down.
ghost use Rattle.std.specs.Prelude.{◌≡◌, ◌+◌, ◌-◌, ◌<◌, ◌≤◌, Some, None, IfOk, IsErrOf};
ghost use Rattle.vt_type.specs.Plain.{arity};
ghost use Rattle.vt_type.specs.Variational.{IsWellFormedV, nodes, vkids_nodes, vkid_count};
ghost use Rattle.vt_type.specs.NormalForm.{IsNormalFormOf, map_of};
ghost use Rattle.vt_norm.specs.declared.root.Top.TheVariants.{Made};
ghost use Rattle.vt_norm.specs.Parts.{kid, restricted};
ghost use Rattle.vt_norm.specs.Diagrams.{diagram, least, first, IsCarefulOf};
ghost use Rattle.vt_norm.specs.Normalizing.{Normalizes, KidsNormalize, ComesBeyond, KidsComeBeyond};

use crate::fault::OutFault;
use crate::parts::{kid, kid_in_place, restricted};
use crate::root::Top;
use crate::rooting::diagram_of;
use std::alloc::{AllocError, Global};
use vt_dec::{Dim, Side};
use vt_type::{Head, VKids, VType};

/// The normal form of a type. For a type without the error the time is polynomial in the nodes of the
/// type and of its normal form, which itself can be exponential. Where errors stand below a
/// constructor, whether one is met anywhere is a question of satisfiability, and the worst case is
/// exponential in the number of dimensions.
pub fn normal(alloc: Global, vtype: &VType) -> Result<VType, AllocError>
    requires { IsWellFormedV vtype.now }
    ensures normal { IfOk result (λ v. IsNormalFormOf v (map_of vtype.now)) }
    ensures well_formed { IfOk result IsWellFormedV }
{
    match normal_within(alloc, vtype, u64::MAX) {
        Ok(normal) => Ok(normal),
        // No memory holds a tree of 2^64 nodes.
        Err(_) => Err(AllocError),
    }
}

/// The normal form of a type, or `TooBig` where it has more than `limit` nodes. No more than that many
/// nodes are built.
pub fn normal_within(alloc: Global, vtype: &VType, limit: u64) -> Result<VType, OutFault>
    requires { IsWellFormedV vtype.now }
    ensures normal { IfOk result (λ v. IsNormalFormOf v (map_of vtype.now) × (nodes v ≤ limit)) }
    ensures well_formed { IfOk result IsWellFormedV }
    ensures too_big { IsErrOf result OutFault.TooBig
        → (v : VType) × IsNormalFormOf v (map_of vtype.now) × (limit < nodes v) }
{
    let careful = vtype.has_error();
    let mut spare = limit;
    build(vtype, alloc, careful, &mut spare)
}

// Each node that is built takes one from `spare`.
#[cycle(build)]
fn build(vtype: &VType, alloc: Global, careful: bool, spare: &mut u64) -> Result<VType, OutFault>
    requires well_formed { IsWellFormedV vtype.now }
    requires careful { IsCarefulOf careful vtype.now }
    ensures built { IfOk result (λ v. Normalizes careful v vtype.now × (spare.new + nodes v ≡ spare.old)) }
    ensures too_big { IsErrOf result OutFault.TooBig → ComesBeyond careful vtype.now spare.old }
{
    if *spare == 0 {
        return Err(OutFault::TooBig);
    }
    *spare -= 1;
    let tree = diagram_of(vtype, alloc, careful)?;
    let least = match tree.least(alloc) {
        Ok(least) => least,
        Err(fault) => {
            drop(tree);
            return Err(OutFault::from(fault));
        }
    };
    match least {
        Some(dim) => {
            drop(tree);
            split(vtype, alloc, careful, spare, dim)
        }
        None => match tree.first() {
            Top::Made(head) => {
                let head = *head;
                drop(tree);
                let kids = build_kids(vtype, alloc, careful, spare, head, head.arity())?;
                Ok(VType::Con(head, kids))
            }
            Top::Named(name) => {
                let name = name.copied(alloc);
                drop(tree);
                Ok(VType::Var(name?))
            }
            Top::Wrong => {
                drop(tree);
                Ok(VType::Err)
            }
        },
    }
}

// A choice between the two sides of a dimension. Its own node is taken already.
#[cycle(build)]
fn split(
    vtype: &VType,
    alloc: Global,
    careful: bool,
    spare: &mut u64,
    dim: Dim,
) -> Result<VType, OutFault>
    requires well_formed { IsWellFormedV vtype.now }
    requires careful { IsCarefulOf careful vtype.now }
    requires least { least (diagram careful vtype.now) ≡ Some dim }
    ensures built { IfOk result (λ v. Normalizes careful v vtype.now × (spare.new + nodes v ≡ spare.old + 1)) }
    ensures too_big { IsErrOf result OutFault.TooBig → ComesBeyond careful vtype.now (spare.old + 1) }
{
    let left = build_side(vtype, alloc, careful, spare, dim, Side::Left)?;
    let right = match build_side(vtype, alloc, careful, spare, dim, Side::Right) {
        Ok(right) => right,
        Err(fault) => {
            drop(left);
            return Err(fault);
        }
    };
    Ok(VType::choice(alloc, dim, left, right)?)
}

// One side of such a choice.
#[cycle(build)]
fn build_side(
    vtype: &VType,
    alloc: Global,
    careful: bool,
    spare: &mut u64,
    dim: Dim,
    side: Side,
) -> Result<VType, OutFault>
    requires well_formed { IsWellFormedV vtype.now }
    requires careful { IsCarefulOf careful vtype.now }
    requires least { least (diagram careful vtype.now) ≡ Some dim }
    ensures built { IfOk result (λ v. Normalizes careful v (restricted dim side vtype.now) × (spare.new + nodes v ≡ spare.old)) }
    ensures too_big { IsErrOf result OutFault.TooBig → ComesBeyond careful (restricted dim side vtype.now) spare.old }
{
    let part = restricted(vtype, alloc, dim, side)?;
    let built = build(&part, alloc, careful, spare);
    drop(part);
    built
}

// The last `count` children below a head.
#[cycle(build)]
fn build_kids(
    vtype: &VType,
    alloc: Global,
    careful: bool,
    spare: &mut u64,
    head: Head,
    count: u8,
) -> Result<VKids, OutFault>
    requires well_formed { IsWellFormedV vtype.now }
    requires careful { IsCarefulOf careful vtype.now }
    requires none { least (diagram careful vtype.now) ≡ None }
    requires made { first (diagram careful vtype.now) ≡ Made head }
    requires within { count ≤ arity head }
    ensures built { IfOk result (λ kids. KidsNormalize careful kids (arity head - count) vtype.now
        × (vkid_count kids ≡ count) × (spare.new + vkids_nodes kids ≡ spare.old)) }
    ensures too_big { IsErrOf result OutFault.TooBig
        → KidsComeBeyond careful (arity head - count) count vtype.now spare.old }
{
    if count == 0 {
        return Ok(VKids::Nil);
    }
    let first = build_kid(vtype, alloc, careful, spare, head.arity() - count)?;
    let others = match build_kids(vtype, alloc, careful, spare, head, count - 1) {
        Ok(others) => others,
        Err(fault) => {
            drop(first);
            return Err(fault);
        }
    };
    Ok(VKids::more(alloc, first, others)?)
}

// The child of this number. It is copied only where it is not a part of the type as it stands.
#[cycle(build)]
fn build_kid(
    vtype: &VType,
    alloc: Global,
    careful: bool,
    spare: &mut u64,
    number: u8,
) -> Result<VType, OutFault>
    requires well_formed { IsWellFormedV (kid number vtype.now) }
    requires careful { IsCarefulOf careful (kid number vtype.now) }
    ensures built { IfOk result (λ v. Normalizes careful v (kid number vtype.now) × (spare.new + nodes v ≡ spare.old)) }
    ensures too_big { IsErrOf result OutFault.TooBig → ComesBeyond careful (kid number vtype.now) spare.old }
{
    match kid_in_place(vtype, number) {
        Some(child) => build(child, alloc, careful, spare),
        None => {
            let child = kid(vtype, alloc, number)?;
            let built = build(&child, alloc, careful, spare);
            drop(child);
            built
        }
    }
}
