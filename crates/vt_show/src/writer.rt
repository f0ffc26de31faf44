//! Writes the text of a type at the end of a string.
ghost use Rattle.std.specs.Prelude.{◌≡◌, ℕ, ◌+◌, ◌++◌, [], map, Some, None, length, nat_lt, if◌then◌else◌, OnOk};
ghost use Rattle.std.specs.Int.Digits.{digits_of};
ghost use Rattle.std.specs.String.{string_bytes};
ghost use Rattle.vt_type.specs.declared.head.Head.TheVariants as head;
ghost use Rattle.vt_type.specs.declared.vtype.VType.{Con};
ghost use Rattle.vt_type.specs.declared.vtype.VKids.{Nil};
ghost use Rattle.vt_type.specs.Plain.{arity};
ghost use Rattle.vt_type.specs.Variational.{vkids_of, vkid_count, IsWellFormedV, AreWellFormedV};
ghost use Rattle.vt_type.specs.Text.{letter, shown};
ghost use Rattle.vt_show.specs.Conditions.{DimsBelow, KidsDimsBelow};
ghost use Rattle.vt_show.specs.Levels.{level_number};

use crate::letters::Letters;
use crate::level::Level;
use std::alloc::AllocError;
use std::fmt::Write;
use vt_type::{Head, Names, VKids, VType};

/// Writes a type as it stands at a level. The variables go by the letters of their numbers.
#[cycle(writer)]
pub(crate) fn write_type(
    vtype: &VType,
    dims: &Names,
    letters: &Letters,
    level: Level,
    out: &mut String,
) -> Result<(), AllocError>
    requires well_formed { IsWellFormedV vtype.now }
    requires dims { DimsBelow (length dims.now) vtype.now }
    ensures { OnOk result (string_bytes out.new ≡ string_bytes out.old ++ shown dims.now letters.now (level_number level) vtype.now) }
{
    match vtype {
        VType::Var(name) => push_letter(letters.number_of(name.as_slice()), out),
        VType::Con(head, kids) => write_con(kids, *head, dims, letters, level, out),
        VType::Choice(dim, left, right) => {
            push(out, "@")?;
            push(out, dims.name(dim.0).unwrap())?;
            push(out, "{")?;
            write_type(left.get(), dims, letters, Level::Anywhere, out)?;
            push(out, ", ")?;
            write_type(right.get(), dims, letters, Level::Anywhere, out)?;
            push(out, "}")
        }
        VType::Err => push(out, "!"),
    }
}

// Writes a head over its children. A declared type has no text.
#[cycle(writer)]
fn write_con(
    kids: &VKids,
    head: Head,
    dims: &Names,
    letters: &Letters,
    level: Level,
    out: &mut String,
) -> Result<(), AllocError>
    requires well_formed { IsWellFormedV (Con head kids.now) }
    requires dims { KidsDimsBelow (length dims.now) kids.now }
    ensures { OnOk result (string_bytes out.new ≡ string_bytes out.old ++ shown dims.now letters.now (level_number level) (Con head kids.now)) }
{
    match head {
        Head::Int => push(out, "Int"),
        Head::Bool => push(out, "Bool"),
        Head::Text => push(out, "String"),
        Head::List => write_list(kids, dims, letters, out),
        Head::Pair => write_pair(kids, dims, letters, level, out),
        Head::Fun => write_arrow(kids, dims, letters, level, out),
        Head::Data { .. } => Ok(()),
    }
}

#[cycle(writer)]
fn write_list(
    kids: &VKids,
    dims: &Names,
    letters: &Letters,
    out: &mut String,
) -> Result<(), AllocError>
    requires count { vkid_count kids.now ≡ 1 }
    requires well_formed { AreWellFormedV kids.now }
    requires dims { KidsDimsBelow (length dims.now) kids.now }
    ensures { OnOk result (string_bytes out.new ≡ string_bytes out.old ++ shown dims.now letters.now 0 (Con head.List kids.now)) }
{
    push(out, "[")?;
    write_type(only(kids), dims, letters, Level::Anywhere, out)?;
    push(out, "]")
}

#[cycle(writer)]
fn write_pair(
    kids: &VKids,
    dims: &Names,
    letters: &Letters,
    level: Level,
    out: &mut String,
) -> Result<(), AllocError>
    requires count { vkid_count kids.now ≡ 2 }
    requires well_formed { AreWellFormedV kids.now }
    requires dims { KidsDimsBelow (length dims.now) kids.now }
    ensures { OnOk result (string_bytes out.new ≡ string_bytes out.old ++ shown dims.now letters.now (level_number level) (Con head.Pair kids.now)) }
{
    let (left, right) = both(kids);
    let wraps = level.wraps_pair();
    push_if(wraps, "(", out)?;
    write_type(left, dims, letters, Level::BesideStar, out)?;
    push(out, " * ")?;
    write_type(right, dims, letters, Level::BesideStar, out)?;
    push_if(wraps, ")", out)
}

#[cycle(writer)]
fn write_arrow(
    kids: &VKids,
    dims: &Names,
    letters: &Letters,
    level: Level,
    out: &mut String,
) -> Result<(), AllocError>
    requires count { vkid_count kids.now ≡ 2 }
    requires well_formed { AreWellFormedV kids.now }
    requires dims { KidsDimsBelow (length dims.now) kids.now }
    ensures { OnOk result (string_bytes out.new ≡ string_bytes out.old ++ shown dims.now letters.now (level_number level) (Con head.Fun kids.now)) }
{
    let (from, to) = both(kids);
    let wraps = level.wraps_arrow();
    push_if(wraps, "(", out)?;
    write_type(from, dims, letters, Level::LeftOfArrow, out)?;
    push(out, " -> ")?;
    write_type(to, dims, letters, Level::Anywhere, out)?;
    push_if(wraps, ")", out)
}

// The one child.
fn only(kids: &VKids) -> &VType
    requires { vkid_count kids.now ≡ 1 }
    ensures { kids.now ≡ vkids_of result.now Nil }
{
    match kids {
        VKids::More(kid, _) => kid.get(),
        VKids::Nil => unreachable!(),
    }
}

// The two children.
fn both(kids: &VKids) -> (&VType, &VType)
    requires { vkid_count kids.now ≡ 2 }
    ensures { kids.now ≡ vkids_of result.0.now (vkids_of result.1.now Nil) }
{
    match kids {
        VKids::More(left, others) => (left.get(), only(others.get())),
        VKids::Nil => unreachable!(),
    }
}

// A quote, a letter from a to z, and then how often the letters were used up before.
fn push_letter(number: usize, out: &mut String) -> Result<(), AllocError>
    ensures { OnOk result (string_bytes out.new ≡ string_bytes out.old ++ letter number) }
{
    let small = b'a' + (number % 26) as u8;
    out.push('\'')?;
    out.push(char::from(small))?;
    push_number(number / 26, out)
}

// The digits of a number, and none for 0.
fn push_number(number: usize, out: &mut String) -> Result<(), AllocError>
    ensures { OnOk result (string_bytes out.new ≡ string_bytes out.old ++ map (λ digit. 48 + digit) (digits_of 10 number)) }
{
    if number != 0 {
        write!(out, "{number}")?;
    }
    Ok(())
}

fn push_if(needed: bool, text: &str, out: &mut String) -> Result<(), AllocError>
    ensures { OnOk result (string_bytes out.new ≡ string_bytes out.old ++ (if needed then text.now else [])) }
{
    if needed {
        push(out, text)?;
    }
    Ok(())
}

/// Puts a text at the end.
pub(crate) fn push(out: &mut String, text: &str) -> Result<(), AllocError>
    ensures { OnOk result (string_bytes out.new ≡ string_bytes out.old ++ text.now) }
{
    out.push_str(text)
}
