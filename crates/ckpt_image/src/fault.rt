//! Why a text was not read as an image.

use std::alloc::{AllocError, AllocFailed};
use thiserror::Error;

/// Why a text was not read as an image.
#[derive(Clone, Copy, Debug, PartialEq, Eq, Error)]
pub enum TextFault {
    /// The text is no JSON, or nests deeper than 127.
    #[error("the text is no JSON")]
    NotJson,
    /// The text is JSON and no image: a member is missing or outside its limits, or the version is
    /// another.
    #[error("the JSON is no image")]
    NoImage,
    /// Memory ran out.
    #[error("out of memory")]
    Memory,
}

impl From<AllocError> for TextFault {
    ghost use Rattle.std.specs.Prelude.{◌≡◌};
    ghost use Rattle.ckpt_image.specs.declared.fault.TextFault.TheVariants.{Memory};

    ghost from_gives = { λ _ fault. fault ≡ Memory };

    fn from(_error: AllocError) -> TextFault {
        TextFault::Memory
    }
}

impl<T: Drop> From<AllocFailed<T>> for TextFault {
    ghost use Rattle.std.specs.Prelude.{◌≡◌};
    ghost use Rattle.ckpt_image.specs.declared.fault.TextFault.TheVariants.{Memory};

    ghost from_gives = { λ _ fault. fault ≡ Memory };

    fn from(_error: AllocFailed<T>) -> TextFault {
        TextFault::Memory
    }
}
