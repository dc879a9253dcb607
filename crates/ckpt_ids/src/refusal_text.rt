//! The text of a refusal.

use crate::reply::Refusal;
use std::fmt;

/// The name of the refusal, and its file if it has one.
impl fmt::Display for Refusal {
    ghost use Rattle.std.specs.Prelude.{Some};
    ghost use Rattle.ckpt_ids.specs.RefusalTexts.{refusal_text};

    ghost output = { λ refusal. Some (refusal_text refusal) };

    #[tactic(auto, unfolding(crate::specs::RefusalTexts::refusal_text))]
    fn fmt<W: fmt::Write>(&self, f: &mut fmt::Formatter<W>) -> fmt::Result {
        match self {
            Refusal::MomentTooLarge => f.write_str("MomentTooLarge"),
            Refusal::NotRunning => f.write_str("NotRunning"),
            Refusal::TooManyFiles => f.write_str("TooManyFiles"),
            Refusal::RepeatedFile => f.write_str("RepeatedFile"),
            Refusal::UnknownCheckpoint => f.write_str("UnknownCheckpoint"),
            Refusal::UnknownSubtask => f.write_str("UnknownSubtask"),
            Refusal::AlreadyAcknowledged => f.write_str("AlreadyAcknowledged"),
            Refusal::NameTaken(file) => write!(f, "NameTaken {}", file.0),
            Refusal::FileGone(file) => write!(f, "FileGone {}", file.0),
            Refusal::NoSuchSavepoint => f.write_str("NoSuchSavepoint"),
            Refusal::InUse => f.write_str("InUse"),
            Refusal::TooManySavepoints => f.write_str("TooManySavepoints"),
            Refusal::NotTaken => f.write_str("NotTaken"),
            Refusal::NoSuchRecord => f.write_str("NoSuchRecord"),
            Refusal::IdsUsedUp => f.write_str("IdsUsedUp"),
            Refusal::AtOnce => f.write_str("AtOnce"),
        }
    }
}

impl std::error::Error for Refusal {}
