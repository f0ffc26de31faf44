use std::alloc::AllocError;
use thiserror::Error;

/// Why the changes of a program are not given.
#[derive(Debug, Drop, Error)]
pub enum ChangeFault {
    /// There are more leaves than decisions have dimensions for.
    #[error("there are too many leaves")]
    TooManyLeaves,
    /// A type of this leaf's change has too many nodes. It is the first such leaf.
    #[error("a type of the change of leaf {leaf} is too big")]
    TooBig { leaf: u32 },
    /// Memory ran out.
    #[error("memory ran out")]
    Memory,
}

impl From<AllocError> for ChangeFault {
    ghost use Rattle.std.specs.Prelude.{◌≡◌};
    ghost use Rattle.vt_change.specs.declared.fault.ChangeFault.TheVariants.{Memory};

    ghost from_gives = { λ _ fault. fault ≡ Memory };

    fn from(_error: AllocError) -> ChangeFault {
        ChangeFault::Memory
    }
}
