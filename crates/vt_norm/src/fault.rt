use std::alloc::AllocError;
use thiserror::Error;

/// Why a type is not given.
#[derive(Debug, Drop, Error)]
pub enum OutFault {
    /// It has more nodes than the limit.
    #[error("the type is too big")]
    TooBig,
    /// Memory ran out.
    #[error("memory ran out")]
    Memory,
}

impl From<AllocError> for OutFault {
    ghost use Rattle.std.specs.Prelude.{◌≡◌};
    ghost use Rattle.vt_norm.specs.declared.fault.OutFault.TheVariants.{Memory};

    ghost from_gives = { λ _ fault. fault ≡ Memory };

    fn from(_error: AllocError) -> OutFault {
        OutFault::Memory
    }
}
