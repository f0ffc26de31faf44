ghost use Rattle.std.specs.Prelude.{◌≡◌, ◌++◌, codes, decimal, string_bytes, IfOk};
ghost use Rattle.vt_report.specs.Lines.{line, placed, refusal_line};

use crate::Refusal;
use crate::writing::{push, push_number, push_place};
use std::alloc::{AllocError, Global};
use vt_lex::LineCol;

/// The line of a refusal, with the line feed that ends it.
pub fn refusal_line(alloc: Global, refusal: &Refusal) -> Result<String, AllocError>
    ensures { IfOk result (λ text. string_bytes text ≡ refusal_line refusal.now) }
{
    match refusal {
        Refusal::TooLong => fixed(alloc, "file too long"),
        Refusal::NotText { at } => not_text(alloc, *at),
        Refusal::BadCharacter { at } => at_place(alloc, *at, "bad character", ""),
        Refusal::OpenString { at } => at_place(alloc, *at, "string not closed", ""),
        Refusal::BigNumber { at } => at_place(alloc, *at, "number too large", ""),
        Refusal::Unexpected { at, token } => at_place(alloc, *at, "unexpected ", token.as_str()),
        Refusal::TooDeep { at } => at_place(alloc, *at, "nested too deep", ""),
        Refusal::Unbound { at, name } => at_place(alloc, *at, "unbound name ", name.as_str()),
        Refusal::TooManyDimensions { at } => at_place(alloc, *at, "more than 64 dimensions", ""),
        Refusal::BadDecision => fixed(alloc, "bad decision"),
        Refusal::UnknownDimension { name } => {
            around(alloc, "unknown dimension ", name.as_str(), "\n")
        }
        Refusal::NotPlain { name } => around(alloc, "dimension ", name.as_str(), " is undecided\n"),
        Refusal::TooManyLeaves => fixed(alloc, "more than 2048 leaves"),
        Refusal::TooBigPart { name } => {
            around(
                alloc,
                "type of ",
                name.as_str(),
                " has more than 4096 nodes\n",
            )
        }
        Refusal::TooBigChange { at } => too_big_change(alloc, *at),
    }
}

fn fixed(alloc: Global, text: &str) -> Result<String, AllocError>
    ensures { IfOk result (λ out. string_bytes out ≡ line text.now) }
{
    let mut out = String::from_str(alloc, text)?;
    push(&mut out, "\n")?;
    Ok(out)
}

fn not_text(alloc: Global, at: u32) -> Result<String, AllocError>
    ensures { IfOk result (λ out. string_bytes out ≡ line (codes "not UTF-8 at byte " ++ decimal at)) }
{
    let mut out = String::from_str(alloc, "not UTF-8 at byte ")?;
    push_number(&mut out, at)?;
    push(&mut out, "\n")?;
    Ok(out)
}

// A place, a text, and what it names.
fn at_place(alloc: Global, at: LineCol, text: &str, name: &str) -> Result<String, AllocError>
    ensures { IfOk result (λ out. string_bytes out ≡ placed at (text.now ++ name.now)) }
{
    let mut out = String::new(alloc);
    push_place(&mut out, at)?;
    push(&mut out, " ")?;
    push(&mut out, text)?;
    push(&mut out, name)?;
    push(&mut out, "\n")?;
    Ok(out)
}

// A name between two texts.
fn around(alloc: Global, before: &str, name: &str, after: &str) -> Result<String, AllocError>
    ensures { IfOk result (λ out. string_bytes out ≡ before.now ++ name.now ++ after.now) }
{
    let mut out = String::from_str(alloc, before)?;
    push(&mut out, name)?;
    push(&mut out, after)?;
    Ok(out)
}

fn too_big_change(alloc: Global, at: LineCol) -> Result<String, AllocError>
    ensures { IfOk result (λ out. string_bytes out ≡ line (codes "type of the change at " ++ decimal at.line ++ codes ":" ++ decimal at.column ++ codes " has more than 4096 nodes")) }
{
    let mut out = String::from_str(alloc, "type of the change at ")?;
    push_place(&mut out, at)?;
    push(&mut out, " has more than 4096 nodes\n")?;
    Ok(out)
}
