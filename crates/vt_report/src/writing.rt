//! What is written at the end of a text.
ghost use Rattle.std.specs.Prelude.{◌≡◌, ◌++◌, codes, decimal, string_bytes, OnOk};

use std::alloc::AllocError;
use vt_lex::LineCol;

// The line and the column of a place.
pub(crate) fn push_place(out: &mut String, at: LineCol) -> Result<(), AllocError>
    ensures { OnOk result (string_bytes out.new ≡ string_bytes out.old ++ decimal at.line ++ codes ":" ++ decimal at.column) }
{
    push_number(out, at.line)?;
    push(out, ":")?;
    push_number(out, at.column)
}

pub(crate) fn push(out: &mut String, text: &str) -> Result<(), AllocError>
    ensures { OnOk result (string_bytes out.new ≡ string_bytes out.old ++ text.now) }
{
    out.push_str(text)
}

pub(crate) fn push_number(out: &mut String, number: u32) -> Result<(), AllocError>
    ensures { OnOk result (string_bytes out.new ≡ string_bytes out.old ++ decimal number) }
{
    write!(out, "{number}")?;
    Ok(())
}
