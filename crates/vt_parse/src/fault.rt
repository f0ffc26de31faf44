use std::alloc::AllocError;
use thiserror::Error;

/// Why tokens spell no program that is admitted. A token is given by its index in the list; the length
/// of the list stands for the end of the text.
#[derive(Debug, Drop, Error)]
pub enum ParseFault {
    /// No program begins with the tokens up to this one.
    #[error("unexpected token")]
    Unexpected { token: usize },
    /// A program begins with the tokens up to this one, but each is nested too deep.
    #[error("nested too deep")]
    TooDeep { token: usize },
    /// Memory ran out.
    #[error("out of memory")]
    Memory,
}

impl From<AllocError> for ParseFault {
    ghost use Rattle.std.specs.Prelude.{◌≡◌};
    ghost use Rattle.vt_parse.specs.declared.fault.ParseFault.TheVariants.{Memory};

    ghost from_gives = { λ _ fault. fault ≡ Memory };

    fn from(_error: AllocError) -> ParseFault {
        ParseFault::Memory
    }
}
