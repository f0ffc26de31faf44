ghost use Rattle.std.specs.Prelude.{List, ℕ, IfOk};
ghost use Rattle.vt_file.specs.Refusals.{IsNoProgram, IsFileFault};

use std::alloc::AllocError;
use thiserror::Error;
use vt_report::Refusal;

/// Why a file gives no program in scope.
#[derive(Debug, Drop, Error)]
pub enum FileFault {
    /// It is refused.
    #[error("the file is refused")]
    Refused(Refusal),
    /// Memory ran out.
    #[error("out of memory")]
    Memory,
}

impl From<AllocError> for FileFault {
    ghost use Rattle.std.specs.Prelude.{◌≡◌};
    ghost use Rattle.vt_file.specs.declared.fault.FileFault.TheVariants.{Memory};

    ghost from_gives = { λ _ fault. fault ≡ Memory };

    fn from(_error: AllocError) -> FileFault {
        FileFault::Memory
    }
}

// The refusal that was found, if there was memory for it.
pub(crate) fn refused(refusal: Result<Refusal, AllocError>) -> FileFault
    ensures { (bytes : List ℕ) → IfOk refusal (IsNoProgram bytes) → IsFileFault bytes result }
{
    match refusal {
        Ok(refusal) => FileFault::Refused(refusal),
        Err(AllocError) => FileFault::Memory,
    }
}
