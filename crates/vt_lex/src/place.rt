//! Lines and columns.
ghost use Rattle.std.specs.Prelude.{◌+◌, ◌-◌, ◌^◌, ◌<◌, IsCharBoundary};
ghost use Rattle.vt_lex.specs.Places.{IsPlace};

/// A place for people: lines and columns are counted from 1, columns in characters of the line.
#[derive(Clone, Copy, Debug, PartialEq, Eq)]
pub struct LineCol {
    pub line: u32,
    pub column: u32,
}

/// The place of a byte of a text. A line ends with a line feed; a carriage return is a character like
/// others.
pub fn line_col(text: &str, at: u32) -> LineCol
    requires boundary { IsCharBoundary text.now at }
    requires small { at < 2 ^ 32 - 1 }
    ensures { IsPlace text.now at result }
{
    let mut line = 1;
    let mut column = 1;
    for c in text[..at as usize].chars() {
        if c == '\n' {
            line += 1;
            column = 1;
        } else {
            column += 1;
        }
    }
    LineCol { line, column }
}
