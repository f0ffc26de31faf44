use crate::Span;
use thiserror::Error;

/// Why a text has no list of tokens: the first place at which none stands.
#[derive(Debug, Drop, Error)]
pub enum LexFault {
    /// The character at this byte begins no token.
    #[error("bad character")]
    BadCharacter { at: u32 },
    /// The string that begins at this byte meets a line feed or the end before it is closed.
    #[error("string not closed")]
    OpenString { at: u32 },
    /// The digits of a number that is larger than 9223372036854775807.
    #[error("number too large")]
    BigNumber { span: Span },
    /// Memory ran out.
    #[error("out of memory")]
    Memory,
}
