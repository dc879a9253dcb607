//! The line of a call.
ghost use Rattle.std.specs.Prelude.{◌≡◌, ◌++◌, IfOk, OnOk, string_bytes};
ghost use Rattle.ckpt_ids.specs.declared.call.Call.TheVariants.{Ack, Configure, Decline, Restore};
ghost use Rattle.ckpt_lines.specs.CallTexts.{call_text, FitsCall, IsScriptLine};

use crate::opening::write_settings;
use crate::pieces::{
    write_fresh, write_number, write_reused, write_shape, write_subtask, write_target,
};
use ckpt_ids::{Call, CheckpointId, Config, Files, Shape, SubtaskId, Target};
use std::alloc::{AllocError, Global};

/// Room for most lines, which then allocate once.
const USUAL_LENGTH: usize = 64;

/// The line of a call, without its newline. A script with this line makes that call, but for a
/// [`Call::Trigger`] and a [`Call::Configure`]: only logs have their lines.
///
/// A line of more than 131,072 bytes is too long to be read. Only an acknowledgement with more
/// files than a coordinator accepts can have such a line. Fails only if memory runs out.
pub fn call_line(alloc: Global, call: &Call) -> Result<String, AllocError>
    ensures text { IfOk result (λ text. string_bytes text ≡ call_text call.now) }
    ensures read { IfOk result (λ text. IsScriptLine call.now (string_bytes text)) }
{
    let mut text = String::with_capacity(alloc, USUAL_LENGTH)?;
    write_call(&mut text, call)?;
    Ok(text)
}

/// Appends the line of a call, without its newline. Its contract also says what the types of the
/// call's numbers allow, for reading them back.
///
/// Fails only if memory runs out, and then the text may have a part of the line at its end.
#[tactic(auto, unfolding(crate::specs::CallTexts::call_text))]
pub fn write_call(text: &mut String, call: &Call) -> Result<(), AllocError>
    ensures text { OnOk result (string_bytes text.new ≡ string_bytes text.old ++ call_text call.now) }
    ensures fits { OnOk result (FitsCall call.now) }
{
    match call {
        Call::Tick { now } => write_number(text, "tick ", *now),
        Call::Savepoint { now } => write_number(text, "savepoint ", *now),
        Call::Ack {
            now,
            id,
            subtask,
            fresh,
            reused,
        } => write_ack(text, *now, *id, *subtask, fresh, reused),
        Call::Decline { now, id, subtask } => write_decline(text, *now, *id, *subtask),
        Call::Dispose { id } => write_number(text, "dispose ", id.0),
        Call::Restore { now, target, shape } => write_restore(text, *now, *target, shape),
        Call::Cancel { now } => write_number(text, "cancel ", *now),
        Call::Take { most } => write_number(text, "take ", *most),
        Call::Deleted { file } => write_number(text, "deleted ", file.0),
        Call::Undeleted { file } => write_number(text, "undeleted ", file.0),
        Call::Show { id } => write_number(text, "show ", id.0),
        Call::Count { file } => write_number(text, "count ", file.0),
        Call::Trigger { now } => write_number(text, "trigger ", *now),
        Call::Configure { now, config } => write_configure(text, *now, config),
    }
}

#[tactic(auto, unfolding(crate::specs::CallTexts::call_text))]
fn write_ack(
    text: &mut String,
    now: u64,
    id: CheckpointId,
    subtask: SubtaskId,
    fresh: &Files,
    reused: &Files,
) -> Result<(), AllocError>
    ensures text { OnOk result (string_bytes text.new ≡ string_bytes text.old ++ call_text (Ack now id subtask fresh.now reused.now)) }
    ensures fits { OnOk result (FitsCall (Ack now id subtask fresh.now reused.now)) }
{
    write_number(text, "ack ", now)?;
    write_number(text, " ", id.0)?;
    write_subtask(text, subtask)?;
    write_fresh(text, fresh)?;
    write_reused(text, reused)
}

#[tactic(auto, unfolding(crate::specs::CallTexts::call_text))]
fn write_decline(
    text: &mut String,
    now: u64,
    id: CheckpointId,
    subtask: SubtaskId,
) -> Result<(), AllocError>
    ensures text { OnOk result (string_bytes text.new ≡ string_bytes text.old ++ call_text (Decline now id subtask)) }
    ensures fits { OnOk result (FitsCall (Decline now id subtask)) }
{
    write_number(text, "decline ", now)?;
    write_number(text, " ", id.0)?;
    write_subtask(text, subtask)
}

#[tactic(auto, unfolding(crate::specs::CallTexts::call_text))]
fn write_restore(
    text: &mut String,
    now: u64,
    target: Target,
    shape: &Option<Shape>,
) -> Result<(), AllocError>
    ensures text { OnOk result (string_bytes text.new ≡ string_bytes text.old ++ call_text (Restore now target shape.now)) }
    ensures fits { OnOk result (FitsCall (Restore now target shape.now)) }
{
    write_number(text, "restore ", now)?;
    write_target(text, target)?;
    match shape {
        Some(shape) => write_shape(text, shape),
        None => Ok(()),
    }
}

#[tactic(auto, unfolding(crate::specs::CallTexts::call_text))]
fn write_configure(text: &mut String, now: u64, config: &Config) -> Result<(), AllocError>
    ensures text { OnOk result (string_bytes text.new ≡ string_bytes text.old ++ call_text (Configure now config.now)) }
    ensures fits { OnOk result (FitsCall (Configure now config.now)) }
{
    // The contract of this read says that the values are within their limits.
    let _ = config.interval();
    write_number(text, "configure ", now)?;
    write_settings(text, config)
}
