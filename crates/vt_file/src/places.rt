//! Places of a text.
ghost use Rattle.std.specs.Prelude.{◌≡◌, ◌≤◌, length};
ghost use Rattle.vt_lex.specs.Lexing.{most_bytes};
ghost use Rattle.vt_lex.specs.Places.{IsPlace};
ghost use Rattle.vt_lex.specs.Spans.{IsSpanIn, IsPlaceIn};

use vt_lex::{LineCol, Span, line_col};

// Where a span begins.
pub(crate) fn place_of(text: &str, span: Span) -> LineCol
    requires span { IsSpanIn text.now span }
    requires within { length text.now ≤ most_bytes }
    ensures { IsPlace text.now span.start result }
{
    line_col(text, span.start)
}

// Where a byte stands.
pub(crate) fn place_at(text: &str, at: u32) -> LineCol
    requires place { IsPlaceIn text.now at }
    requires within { length text.now ≤ most_bytes }
    ensures { IsPlace text.now at result }
{
    line_col(text, at)
}

// Where a text ends.
pub(crate) fn end_of(text: &str) -> LineCol
    requires { length text.now ≤ most_bytes }
    ensures { IsPlace text.now (length text.now) result }
{
    line_col(text, text.len() as u32)
}
