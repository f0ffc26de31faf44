ghost use Rattle.std.specs.Prelude.{◌<◌, ◌≤◌, IfOk};
ghost use Rattle.vt_type.specs.Variational.{IsWellFormedV};

use crate::spelling::{read, same};
use std::alloc::{AllocError, Global};
use std::test::Fail;
use vt_dec::Dim;
use vt_norm::{OutFault, equivalent, normal, normal_within};
use vt_type::{Head, VKids, VType};

// The type has this normal form, and the two are equivalent.
fn comes_to(alloc: Global, vtype: &VType, wanted: &VType) -> Result<bool, AllocError>
    requires vtype { IsWellFormedV vtype.now }
    requires wanted { IsWellFormedV wanted.now }
{
    let found = normal(alloc, vtype)?;
    let is_normal = same(&found, wanted);
    drop(found);
    Ok(is_normal && equivalent(alloc, vtype, wanted)?)
}

fn text_comes_to(alloc: Global, text: &str, wanted: &VType) -> Result<bool, AllocError>
    requires { IsWellFormedV wanted.now }
{
    let vtype = read(alloc, text)?;
    let answer = comes_to(alloc, &vtype, wanted);
    drop(vtype);
    answer
}

fn texts_come_to(alloc: Global, text: &str, wanted: &str) -> Result<bool, AllocError> {
    let wanted = read(alloc, wanted)?;
    let answer = text_comes_to(alloc, text, &wanted);
    drop(wanted);
    answer
}

#[test]
fn choices_take_their_normal_form(rt: HostRuntime) -> Result<(), Fail> {
    for (text, wanted) in [
        ("@A{@A{Int, Bool}, String}", "@A{Int, String}"),
        ("@A{[Int], [Bool]}", "[@A{Int, Bool}]"),
        ("@B{@A{Int, Bool}, @A{Int, Bool}}", "@A{Int, Bool}"),
        (
            "@B{@A{Int, Bool}, @A{Bool, Int}}",
            "@A{@B{Int, Bool}, @B{Bool, Int}}",
        ),
        ("@A{Int, !} * Int", "@A{Int * Int, !}"),
        // These stay, since their variants differ.
        (
            "@A{Int, Bool} * @A{Int, Bool}",
            "@A{Int, Bool} * @A{Int, Bool}",
        ),
        ("@A{@A{Int, Bool}, Int * Bool}", "@A{Int, Int * Bool}"),
    ] {
        assert!(rt; texts_come_to(rt.alloc(), text, wanted)?, "{text}");
    }
    Ok(())
}

#[test]
fn choices_by_other_dimensions_differ(rt: HostRuntime) -> Result<(), Fail> {
    let one = read(rt.alloc(), "@A{Int, Bool}");
    let other = read(rt.alloc(), "@B{Int, Bool}");
    let (one, other) = (one?, other?);
    let alike = equivalent(rt.alloc(), &one, &other);
    drop(one);
    drop(other);
    assert!(rt; matches!(alike, Ok(false)));
    Ok(())
}

// A tree of pairs with 2^(depth + 1) - 1 nodes.
fn pair_tree(alloc: Global, depth: u32) -> Result<VType, AllocError>
    ensures { IfOk result IsWellFormedV }
{
    let mut text = String::from_str(alloc, "Int")?;
    for _ in 0..depth {
        text = format!(in alloc; "({text} * {text})")?;
    }
    read(alloc, &text)
}

fn is_normal_within(alloc: Global, vtype: &VType, limit: u64) -> bool
    requires { IsWellFormedV vtype.now }
{
    match normal_within(alloc, vtype, limit) {
        Ok(found) => {
            let is_normal = same(&found, vtype);
            drop(found);
            is_normal
        }
        Err(_) => false,
    }
}

fn is_too_big(alloc: Global, vtype: &VType, limit: u64) -> bool
    requires { IsWellFormedV vtype.now }
{
    match normal_within(alloc, vtype, limit) {
        Ok(found) => {
            drop(found);
            false
        }
        Err(fault) => matches!(fault, OutFault::TooBig),
    }
}

#[test]
fn limit_is_kept(rt: HostRuntime) -> Result<(), Fail> {
    let alloc = rt.alloc();
    let small = pair_tree(alloc, 11)?;
    assert!(rt; matches!(comes_to(alloc, &small, &small), Ok(true)));
    assert!(rt; is_normal_within(alloc, &small, 4096));
    assert!(rt; is_normal_within(alloc, &small, 4095));
    assert!(rt; is_too_big(alloc, &small, 4094));
    drop(small);
    let large = pair_tree(alloc, 12)?;
    assert!(rt; is_too_big(alloc, &large, 4096));
    drop(large);
    Ok(())
}

// Choices on the dimensions below `count`, the last one outermost, which all select `Int`.
fn int_chain(alloc: Global, count: u32) -> Result<VType, AllocError>
    requires { count ≤ 64 }
    ensures { IfOk result IsWellFormedV }
{
    if count == 0 {
        return Ok(VType::Con(Head::Int, VKids::Nil));
    }
    let inner = int_chain(alloc, count - 1)?;
    VType::choice(
        alloc,
        Dim(count - 1),
        inner,
        VType::Con(Head::Int, VKids::Nil),
    )
}

#[test]
fn equal_choices_take_no_time(rt: HostRuntime) -> Result<(), Fail> {
    let chain = int_chain(rt.alloc(), 60)?;
    let int = VType::Con(Head::Int, VKids::Nil);
    let answer = comes_to(rt.alloc(), &chain, &int);
    drop(chain);
    drop(int);
    assert!(rt; matches!(answer, Ok(true)));
    Ok(())
}
