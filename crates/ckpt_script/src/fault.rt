//! Why a run of a script ends early.
use std::alloc::AllocError;
use thiserror::Error;

/// Why a run ended before the end of its script.
#[derive(Clone, Copy, Debug, PartialEq, Eq, Error)]
pub enum RunFault {
    /// The reader failed, or was asked 2^32 times. Each line that was read whole has been run.
    #[error("read")]
    Read,
    /// The writer failed, or took nothing. A prefix of the output was written.
    #[error("write")]
    Write,
    /// Line 1,000,001 began. The lines before it have been run.
    #[error("too many lines")]
    TooManyLines,
    /// Memory ran out. A prefix of the output was written.
    #[error("memory")]
    Memory,
}

impl From<AllocError> for RunFault {
    ghost use Rattle.std.specs.Prelude.{◌≡◌};
    ghost use Rattle.ckpt_script.specs.declared.fault.RunFault.TheVariants.{Memory};

    ghost from_gives = { λ _ fault. fault ≡ Memory };

    fn from(_error: AllocError) -> RunFault {
        RunFault::Memory
    }
}
