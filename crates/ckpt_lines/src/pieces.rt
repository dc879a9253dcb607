//! Parts of lines. Their contracts also say what the types of numbers allow, for reading them back.
ghost use Rattle.std.specs.Prelude.{◌≡◌, ◌++◌, ◌<◌, ◌^◌, flat_map, decimal, All, OnOk, string_bytes};
ghost use Rattle.ckpt_ids.specs.Shapes.{IsShape};
ghost use Rattle.ckpt_answers.specs.Texts.{spaced};
ghost use Rattle.ckpt_lines.specs.CallTexts.{Fits, FitsFiles, FitsSubtask, FitsTarget, fresh_text, reused_text, subtask_text, target_text};

use ckpt_ids::{Files, Shape, SubtaskId, Target};
use std::alloc::AllocError;

/// Appends words and a number. Its contract also says what the type of the number allows.
///
/// Fails only if memory runs out, and then the text may have a part of them at its end.
pub fn write_number(text: &mut String, words: &str, number: u64) -> Result<(), AllocError>
    ensures text { OnOk result (string_bytes text.new ≡ string_bytes text.old ++ words.now ++ decimal number) }
    ensures fits { Fits number }
{
    text.push_str(words)?;
    write!(text, "{number}")
}

/// Appends the new files.
pub(crate) fn write_fresh(text: &mut String, files: &Files) -> Result<(), AllocError>
    ensures text { OnOk result (string_bytes text.new ≡ string_bytes text.old ++ flat_map fresh_text files.now) }
    ensures fit { OnOk result (FitsFiles files.now) }
{
    files.recall();
    for place in 0..files.len() {
        if let Some(file) = files.get(place) {
            write_number(text, " +", file.0)?;
        }
    }
    Ok(())
}

/// Appends the reused files.
pub(crate) fn write_reused(text: &mut String, files: &Files) -> Result<(), AllocError>
    ensures text { OnOk result (string_bytes text.new ≡ string_bytes text.old ++ flat_map reused_text files.now) }
    ensures fit { OnOk result (FitsFiles files.now) }
{
    files.recall();
    for place in 0..files.len() {
        if let Some(file) = files.get(place) {
            write_number(text, " =", file.0)?;
        }
    }
    Ok(())
}

/// Appends the parallelisms.
pub(crate) fn write_shape(text: &mut String, shape: &Shape) -> Result<(), AllocError>
    ensures text { OnOk result (string_bytes text.new ≡ string_bytes text.old ++ flat_map spaced shape.now) }
    ensures fit { OnOk result (IsShape shape.now × All Fits shape.now) }
{
    for vertex in 0..shape.vertices() {
        if let Some(parallelism) = shape.parallelism(vertex) {
            write_number(text, " ", u64::from(parallelism))?;
        }
    }
    Ok(())
}

/// Appends words and one half of a subtask.
fn write_half(text: &mut String, words: &str, half: u16) -> Result<(), AllocError>
    ensures text { OnOk result (string_bytes text.new ≡ string_bytes text.old ++ words.now ++ decimal half) }
    ensures fits { half < 2 ^ 16 }
{
    text.push_str(words)?;
    write!(text, "{half}")
}

/// Appends the subtask.
pub(crate) fn write_subtask(text: &mut String, subtask: SubtaskId) -> Result<(), AllocError>
    ensures text { OnOk result (string_bytes text.new ≡ string_bytes text.old ++ subtask_text subtask) }
    ensures fits { OnOk result (FitsSubtask subtask) }
{
    write_half(text, " ", subtask.vertex)?;
    write_half(text, ".", subtask.index)
}

/// Appends what the job is restored from.
pub(crate) fn write_target(text: &mut String, target: Target) -> Result<(), AllocError>
    ensures text { OnOk result (string_bytes text.new ≡ string_bytes text.old ++ target_text target) }
    ensures fits { OnOk result (FitsTarget target) }
{
    match target {
        Target::Latest => text.push_str(" latest"),
        Target::Savepoint(id) => write_number(text, " ", id.0),
    }
}
