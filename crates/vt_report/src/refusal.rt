use vt_lex::{LineCol, Word};

/// Why a file is refused.
#[derive(Debug, Drop)]
pub enum Refusal {
    /// It has more bytes than a file may have.
    TooLong,
    /// It is not UTF-8; the first byte after the longest prefix that is.
    NotText { at: u32 },
    /// A character that begins no token.
    BadCharacter { at: LineCol },
    /// The opening quote of a string that is not closed on its line.
    OpenString { at: LineCol },
    /// A number that is too large.
    BigNumber { at: LineCol },
    /// The first token with which no program begins, or the end of the text, where it comes too early.
    Unexpected { at: LineCol, token: Word },
    /// The first token with which only programs begin that are nested too deep.
    TooDeep { at: LineCol },
    /// A name that has no binder and is no constant.
    Unbound { at: LineCol, name: Word },
    /// The first occurrence of one dimension more than a file may have.
    TooManyDimensions { at: LineCol },
    /// The text of a decision is none, or names a dimension twice.
    BadDecision,
    /// The first name of a decision that is no dimension of the file.
    UnknownDimension { name: Word },
    /// The first dimension of the file that is not decided, where a program without choices is asked for.
    NotPlain { name: Word },
    /// The program has more leaves than are changed.
    TooManyLeaves,
    /// The type of a part has more nodes than are printed. The main expression is named `-`.
    TooBigPart { name: Word },
    /// A type of the change at this place has more nodes than are printed.
    TooBigChange { at: LineCol },
}
