//! The text of each reply.
ghost use Rattle.std.specs.Prelude.{◌≡◌, ◌++◌, codes, flat_map, OnOk, string_bytes};
ghost use Rattle.ckpt_answers.specs.Fronts.{KeepsFront};
ghost use Rattle.ckpt_answers.specs.Texts.{spaced, tick_end_bytes, choice_bytes, taken_bytes, reply_bytes};

use crate::metadata::metadata_text;
use crate::numbers::{write_number, write_two};
use ckpt_ids::{Choice, Handed, Reply, TickEnd};
use std::alloc::{AllocError, Global};

/// Appends the text of the reply, without a newline.
#[tactic(auto, unfolding(crate::specs::Texts::reply_bytes))]
pub(crate) fn write_reply(alloc: Global, text: &mut String, reply: &Reply) -> Result<(), AllocError>
    ensures text { OnOk result (string_bytes text.new ≡ string_bytes text.old ++ reply_bytes reply.now) }
    ensures front { KeepsFront (string_bytes text.old) (string_bytes text.new) }
{
    match reply {
        Reply::Ticked { expired, end } => write_tick(text, *expired, *end),
        Reply::SavepointTriggered(id) => write_number(text, "savepoint triggered ", id.0),
        Reply::AckPending(missing) => write_number(text, "ack pending ", *missing as u64),
        Reply::AckCompleted { dropped, released } => {
            write_two(text, "ack completed ", *dropped as u64, *released)
        }
        Reply::AckLate(handed_out) => write_number(text, "ack late ", *handed_out),
        Reply::DeclineAborted(released) => write_number(text, "decline aborted ", *released),
        Reply::DeclineFailed(released) => write_number(text, "decline failed ", *released),
        Reply::DeclineLate => text.push_str("decline late"),
        Reply::Disposed(released) => write_number(text, "disposed ", *released),
        Reply::Restored { from, released } => write_restored(text, *from, *released),
        Reply::Cancelled { dropped, released } => {
            write_two(text, "cancelled ", *dropped as u64, *released)
        }
        Reply::Taken(files) => write_taken(text, files),
        Reply::Deleted(file) => write_number(text, "deleted ", file.0),
        Reply::Undeleted(file) => write_number(text, "undeleted ", file.0),
        Reply::Shown(metadata) => text.push_str(metadata_text(alloc, metadata)?.as_str()),
        Reply::Counted(file, uses) => write_two(text, "count ", file.0, *uses as u64),
        Reply::Configured { dropped, released } => {
            write_two(text, "configured ", *dropped as u64, *released)
        }
    }
}

/// Appends how many records expired in a tick, and how it ended.
#[tactic(auto, unfolding(crate::specs::Texts::tick_end_bytes))]
fn write_tick(text: &mut String, expired: u32, end: TickEnd) -> Result<(), AllocError>
    ensures text { OnOk result (string_bytes text.new ≡ string_bytes text.old
        ++ codes "tick expired" ++ spaced expired ++ codes " " ++ tick_end_bytes end) }
    ensures front { KeepsFront (string_bytes text.old) (string_bytes text.new) }
{
    match end {
        // Nearly all ticks of a long script are these.
        TickEnd::HeldInterval if expired == 0 => text.push_str("tick expired 0 held interval"),
        TickEnd::HeldAtOnce if expired == 0 => text.push_str("tick expired 0 held at-once"),
        _ => {
            write_number(text, "tick expired ", expired as u64)?;
            write_end(text, end)
        }
    }
}

/// Appends a space and how a tick ended.
#[tactic(auto, unfolding(crate::specs::Texts::tick_end_bytes))]
fn write_end(text: &mut String, end: TickEnd) -> Result<(), AllocError>
    ensures text { OnOk result (string_bytes text.new
        ≡ string_bytes text.old ++ codes " " ++ tick_end_bytes end) }
    ensures front { KeepsFront (string_bytes text.old) (string_bytes text.new) }
{
    match end {
        TickEnd::Triggered(id) => write_number(text, " triggered ", id.0),
        TickEnd::HeldInterval => text.push_str(" held interval"),
        TickEnd::HeldAtOnce => text.push_str(" held at-once"),
        TickEnd::HeldPause => text.push_str(" held pause"),
        TickEnd::Failed => text.push_str(" failed"),
    }
}

fn write_restored(text: &mut String, from: Choice, released: u64) -> Result<(), AllocError>
    ensures text { OnOk result (string_bytes text.new ≡ string_bytes text.old
        ++ codes "restored " ++ choice_bytes from ++ spaced released) }
    ensures front { KeepsFront (string_bytes text.old) (string_bytes text.new) }
{
    text.push_str("restored ")?;
    write_choice(text, from)?;
    write_number(text, " ", released)
}

#[tactic(auto, unfolding(crate::specs::Texts::choice_bytes))]
fn write_choice(text: &mut String, choice: Choice) -> Result<(), AllocError>
    ensures text { OnOk result (string_bytes text.new ≡ string_bytes text.old ++ choice_bytes choice) }
    ensures front { KeepsFront (string_bytes text.old) (string_bytes text.new) }
{
    match choice {
        Choice::Checkpoint(id) => write_number(text, "checkpoint ", id.0),
        Choice::Savepoint(id) => write_number(text, "savepoint ", id.0),
        Choice::Fresh => text.push_str("fresh"),
    }
}

fn write_taken(text: &mut String, files: &Handed) -> Result<(), AllocError>
    ensures text { OnOk result (string_bytes text.new
        ≡ string_bytes text.old ++ codes "take" ++ taken_bytes files.now) }
    ensures front { KeepsFront (string_bytes text.old) (string_bytes text.new) }
{
    text.push_str("take")?;
    if files.is_empty() {
        return text.push_str(" none");
    }
    write_files(text, files)
}

/// Appends a space and the number of each file.
fn write_files(text: &mut String, files: &Handed) -> Result<(), AllocError>
    ensures text { OnOk result (string_bytes text.new
        ≡ string_bytes text.old ++ flat_map spaced files.now) }
    ensures front { KeepsFront (string_bytes text.old) (string_bytes text.new) }
{
    for place in 0..files.len() {
        if let Some(file) = files.get(place) {
            write_number(text, " ", file.0)?;
        }
    }
    Ok(())
}
