//! The text of a refusal.
ghost use Rattle.std.specs.Prelude.{◌≡◌, ◌++◌, codes, OnOk, string_bytes};
ghost use Rattle.ckpt_answers.specs.Fronts.{KeepsFront};
ghost use Rattle.ckpt_answers.specs.Texts.{refusal_bytes};

use crate::numbers::write_number;
use ckpt_ids::Refusal;
use std::alloc::AllocError;

/// Appends `refused`, the name of the refusal, and its file if it has one.
pub(crate) fn write_refusal(text: &mut String, refusal: Refusal) -> Result<(), AllocError>
    ensures text { OnOk result (string_bytes text.new
        ≡ string_bytes text.old ++ codes "refused " ++ refusal_bytes refusal) }
    ensures front { KeepsFront (string_bytes text.old) (string_bytes text.new) }
{
    text.push_str("refused ")?;
    write_name(text, refusal)
}

#[tactic(auto, unfolding(crate::specs::Texts::refusal_bytes))]
fn write_name(text: &mut String, refusal: Refusal) -> Result<(), AllocError>
    ensures text { OnOk result (string_bytes text.new ≡ string_bytes text.old ++ refusal_bytes refusal) }
    ensures front { KeepsFront (string_bytes text.old) (string_bytes text.new) }
{
    match refusal {
        Refusal::MomentTooLarge => text.push_str("MomentTooLarge"),
        Refusal::NotRunning => text.push_str("NotRunning"),
        Refusal::TooManyFiles => text.push_str("TooManyFiles"),
        Refusal::RepeatedFile => text.push_str("RepeatedFile"),
        Refusal::UnknownCheckpoint => text.push_str("UnknownCheckpoint"),
        Refusal::UnknownSubtask => text.push_str("UnknownSubtask"),
        Refusal::AlreadyAcknowledged => text.push_str("AlreadyAcknowledged"),
        Refusal::NameTaken(file) => write_number(text, "NameTaken ", file.0),
        Refusal::FileGone(file) => write_number(text, "FileGone ", file.0),
        Refusal::NoSuchSavepoint => text.push_str("NoSuchSavepoint"),
        Refusal::InUse => text.push_str("InUse"),
        Refusal::TooManySavepoints => text.push_str("TooManySavepoints"),
        Refusal::NotTaken => text.push_str("NotTaken"),
        Refusal::NoSuchRecord => text.push_str("NoSuchRecord"),
        Refusal::IdsUsedUp => text.push_str("IdsUsedUp"),
        Refusal::AtOnce => text.push_str("AtOnce"),
    }
}
