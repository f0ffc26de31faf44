use std::alloc::AllocError;
use thiserror::Error;
use vt_lex::Span;

/// Why a program has no core: what stands first in the text.
#[derive(Debug, Drop, Error)]
pub enum ScopeFault {
    /// A name that no binder around it binds, and that no constant has.
    #[error("unbound name")]
    Unbound { span: Span },
    /// The first place of a dimension past the 64th.
    #[error("more than 64 dimensions")]
    TooManyDimensions { span: Span },
    /// Memory ran out, or the numbers of nodes did.
    #[error("out of memory")]
    Memory,
}

impl From<AllocError> for ScopeFault {
    ghost use Rattle.std.specs.Prelude.{◌≡◌};
    ghost use Rattle.vt_scope.specs.declared.fault.ScopeFault.TheVariants.{Memory};

    ghost from_gives = { λ _ fault. fault ≡ Memory };

    fn from(_error: AllocError) -> ScopeFault {
        ScopeFault::Memory
    }
}
