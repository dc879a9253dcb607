//! Why a coordinator was not opened, and why a call has changed nothing.

use ckpt_ids::Refusal;
use std::alloc::AllocError;
use std::fmt;
use thiserror::Error;

/// Why a coordinator was not opened. They are tested in this order.
#[derive(Clone, Copy, Debug, PartialEq, Eq, Error)]
pub enum OpenFault {
    /// The moment is above 2^62 - 1 milliseconds.
    #[error("the moment is above 2^62 - 1 milliseconds")]
    MomentTooLarge,
    /// The first number is 0, or above 2^62 - 1.
    #[error("the first number is not within 1 to 2^62 - 1")]
    BadFirst,
}

/// Why a call has changed nothing.
#[derive(Clone, Copy, Debug, PartialEq, Eq)]
pub enum CoreFault {
    /// The coordinator refuses the call in its current state.
    Refused(Refusal),
    /// No refusal applies, and memory ran out.
    Memory,
}

/// `refused` with the name of the refusal and the file that it names, or `out of memory`.
impl fmt::Display for CoreFault {
    ghost use Rattle.std.specs.Prelude.{Some};
    ghost use Rattle.ckpt_model.specs.FaultTexts.{fault_text};

    ghost output = { λ fault. Some (fault_text fault) };

    fn fmt<W: fmt::Write>(&self, f: &mut fmt::Formatter<W>) -> fmt::Result {
        match self {
            CoreFault::Refused(why) => write!(f, "refused {why}"),
            CoreFault::Memory => f.write_str("out of memory"),
        }
    }
}

impl std::error::Error for CoreFault {}

impl From<AllocError> for CoreFault {
    ghost use Rattle.std.specs.Prelude.{◌≡◌};
    ghost use Rattle.ckpt_model.specs.declared.faults.CoreFault.TheVariants.{Memory};

    ghost from_gives = { λ _ fault. fault ≡ Memory };

    fn from(_error: AllocError) -> CoreFault {
        CoreFault::Memory
    }
}
