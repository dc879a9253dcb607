//! Why a line can't be read.
use std::alloc::{AllocError, AllocFailed};
use thiserror::Error;

/// Why a line could not be read: the first fault from the left.
#[derive(Clone, Copy, Debug, PartialEq, Eq, Error)]
pub enum LineFault {
    /// The first word begins no line, a word that should be `keep` or `delete` is neither, or a
    /// file word begins with neither `+` nor `=`.
    #[error("a word that does not belong there")]
    Word,
    /// A word that should be a number or a subtask is not one, or the part of a file word after its
    /// sign is not a number.
    #[error("not a number")]
    Number,
    /// The line ends before a word that it needs.
    #[error("a word is missing")]
    Missing,
    /// A word follows the last one.
    #[error("a word too many")]
    Extra,
    /// The line has more than [`LONGEST_LINE`](crate::LONGEST_LINE) bytes.
    #[error("the line is too long")]
    TooLong,
    /// Memory ran out.
    #[error("out of memory")]
    Memory,
}

impl From<AllocError> for LineFault {
    ghost use Rattle.std.specs.Prelude.{◌≡◌};
    ghost use Rattle.ckpt_lines.specs.declared.fault.LineFault.TheVariants.{Memory};

    ghost from_gives = { λ _ fault. fault ≡ Memory };

    fn from(_error: AllocError) -> LineFault {
        LineFault::Memory
    }
}

impl<T: Drop> From<AllocFailed<T>> for LineFault {
    ghost use Rattle.std.specs.Prelude.{◌≡◌};
    ghost use Rattle.ckpt_lines.specs.declared.fault.LineFault.TheVariants.{Memory};

    ghost from_gives = { λ _ fault. fault ≡ Memory };

    fn from(_error: AllocFailed<T>) -> LineFault {
        LineFault::Memory
    }
}
