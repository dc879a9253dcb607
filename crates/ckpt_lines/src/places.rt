//! Places of a line that are neither a number nor a list.
ghost use Rattle.ckpt_lines.specs.Reading.{Gives, subtask_place, retention_place, target_place};

use crate::fault::LineFault;
use crate::values::{retention, subtask_of, target_of};
use crate::words::Words;
use ckpt_ids::{SubtaskId, Target};

#[tactic(auto, unfolding(crate::specs::Reading::subtask_place))]
pub(crate) fn subtask(words: &mut Words<'_>) -> Result<SubtaskId, LineFault>
    ensures { Gives result words.new (subtask_place words.old) }
{
    let word = words.next().ok_or(LineFault::Missing)?;
    subtask_of(word).ok_or(LineFault::Number)
}

/// Whether completed checkpoints are kept when the job is cancelled.
#[tactic(auto, unfolding(crate::specs::Reading::retention_place))]
pub(crate) fn keep_or_delete(words: &mut Words<'_>) -> Result<bool, LineFault>
    ensures { Gives result words.new (retention_place words.old) }
{
    let word = words.next().ok_or(LineFault::Missing)?;
    retention(word)
}

#[tactic(auto, unfolding(crate::specs::Reading::target_place))]
pub(crate) fn target(words: &mut Words<'_>) -> Result<Target, LineFault>
    ensures { Gives result words.new (target_place words.old) }
{
    let word = words.next().ok_or(LineFault::Missing)?;
    target_of(word)
}
