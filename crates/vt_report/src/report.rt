//! The report of a program that has no type.
ghost use Rattle.std.specs.Prelude.{◌≡◌, ◌++◌, ◌-◌, ◌^◌, ◌<◌, length, codes, string_bytes, IfOk};
ghost use Rattle.std.specs.List.{All};
ghost use Rattle.vt_report.specs.Lines.{placed};
ghost use Rattle.vt_report.specs.Reports.{heading, IsTold, IsReport, StandIn, IsChangeAmong};

use crate::writing::{push, push_place};
use std::alloc::{AllocError, Global};
use vt_lex::{LineCol, line_col, word_at};
use vt_show::show_pair;
use vt_syntax::Leaves;
use vt_type::{ChangeLine, Tables};

/// What is said of an ill-typed program, by the changes that cure it: a heading, and a line for
/// each change in the order given. The text is that in which the leaves stand.
pub fn change_lines(
    alloc: Global,
    lines: &[ChangeLine],
    leaves: &Leaves,
    text: &str,
    tables: &Tables,
) -> Result<String, AllocError>
    requires lines { All (IsChangeAmong (length leaves.now)) lines.now }
    requires spans { StandIn text.now leaves.now }
    requires small { length text.now < 2 ^ 32 - 1 }
    ensures report { IfOk result (λ written. IsReport text.now leaves.now lines.now (string_bytes written)) }
{
    let mut out = heading(alloc, lines.len())?;
    for line in lines {
        let told = told(alloc, line, leaves, text, tables)?;
        push(&mut out, told.as_str())?;
    }
    Ok(out)
}

// The heading over so many changes.
fn heading(alloc: Global, count: usize) -> Result<String, AllocError>
    ensures { IfOk result (λ out. string_bytes out ≡ heading count) }
{
    let word = if count == 1 { "change" } else { "changes" };
    let mut out = String::new(alloc);
    writeln!(out, "ill typed; {count} {word}")?;
    Ok(out)
}

// The line of a change.
fn told(
    alloc: Global,
    line: &ChangeLine,
    leaves: &Leaves,
    text: &str,
    tables: &Tables,
) -> Result<String, AllocError>
    requires change { IsChangeAmong (length leaves.now) line.now }
    requires spans { StandIn text.now leaves.now }
    requires small { length text.now < 2 ^ 32 - 1 }
    ensures { IfOk result (λ out. IsTold text.now leaves.now line.now (string_bytes out)) }
{
    let leaf = leaves.as_slice()[line.leaf as usize];
    let at = line_col(text, leaf.span.start);
    let word = word_at(alloc, text, leaf.span)?;
    let types = show_pair(alloc, line, tables)?;
    joined(alloc, at, word.as_str(), types.as_str())
}

// A place, what stands there, and what is said of it.
fn joined(alloc: Global, at: LineCol, word: &str, said: &str) -> Result<String, AllocError>
    ensures { IfOk result (λ out. string_bytes out ≡ placed at (word.now ++ codes " " ++ said.now)) }
{
    let mut out = String::new(alloc);
    push_place(&mut out, at)?;
    push(&mut out, " ")?;
    push(&mut out, word)?;
    push(&mut out, " ")?;
    push(&mut out, said)?;
    push(&mut out, "\n")?;
    Ok(out)
}
