//! Each kind of line, from the words after its first.
ghost use Rattle.std.specs.Prelude.{◌≡◌, true};
ghost use Rattle.ckpt_lines.specs.Reading.{ack_line, all_line, config_line, decline_line, ended, job_line, number_call, number_line, only_number, restore_line, row, settings, start_line, Reads, IsExact, begins_with_a_number, reaches_a_list, reaches_a_shape, reaches_files};

use crate::fault::LineFault;
use crate::keyword::Keyword;
use crate::line::Line;
use crate::lists::{files, numbers};
use crate::places::{keep_or_delete, subtask, target};
use crate::restoring::restoring;
use crate::words::Words;
use ckpt_ids::{Call, CheckpointId, ConfigValues, FileId};
use std::alloc::Global;

/// Checks that no word follows the last one.
#[tactic(auto, unfolding(crate::specs::Reading::ended))]
pub fn end(words: &mut Words<'_>) -> Result<(), LineFault>
    ensures { IsExact result (ended words.old) }
{
    if words.next().is_some() {
        return Err(LineFault::Extra);
    }
    Ok(())
}

/// The next word as a number, which has to be the last word.
#[tactic(auto, unfolding(crate::specs::Reading::only_number))]
#[inline(always)]
pub fn only_number(words: &mut Words<'_>) -> Result<u64, LineFault>
    ensures { IsExact result (only_number words.old) }
{
    let number = words.number()?;
    end(words)?;
    Ok(number)
}

/// The settings of a job, which have to be the last words. They may be outside their limits.
#[tactic(auto, unfolding(crate::specs::Reading::settings))]
pub fn settings(words: &mut Words<'_>) -> Result<ConfigValues, LineFault>
    ensures { IsExact result (settings words.old) }
{
    let interval = words.number()?;
    let pause = words.number()?;
    let at_once = words.number()?;
    let timeout = words.number()?;
    let tolerable = words.number()?;
    let retained = words.number()?;
    let keep_on_cancel = keep_or_delete(words)?;
    end(words)?;
    Ok(ConfigValues {
        interval,
        pause,
        at_once,
        timeout,
        tolerable,
        retained,
        keep_on_cancel,
    })
}

#[tactic(auto, unfolding(crate::specs::Reading::config_line))]
fn config(words: &mut Words<'_>) -> Result<Line, LineFault>
    ensures { IsExact result (config_line words.old) }
{
    let values = settings(words)?;
    Ok(Line::Config {
        interval: values.interval,
        pause: values.pause,
        at_once: values.at_once,
        timeout: values.timeout,
        tolerable: values.tolerable,
        retained: values.retained,
        keep_on_cancel: values.keep_on_cancel,
    })
}

#[tactic(auto, unfolding(crate::specs::Reading::job_line))]
fn job(alloc: Global, words: &mut Words<'_>) -> Result<Line, LineFault>
    ensures line { Reads result (job_line words.old) }
    ensures memory { result ≡ Err LineFault.Memory → begins_with_a_number words.old ≡ true }
{
    let parallelisms = numbers(alloc, words)?;
    if parallelisms.is_empty() {
        return Err(LineFault::Missing);
    }
    Ok(Line::Job { parallelisms })
}

#[tactic(auto, unfolding(crate::specs::Reading::ack_line, crate::specs::Reading::reaches_files))]
fn ack(alloc: Global, words: &mut Words<'_>) -> Result<Line, LineFault>
    ensures line { Reads result (ack_line words.old) }
    ensures memory { result ≡ Err LineFault.Memory → reaches_files words.old ≡ true }
{
    let now = words.number()?;
    let id = CheckpointId(words.number()?);
    let subtask = subtask(words)?;
    let (fresh, reused) = files(alloc, words)?;
    Ok(Line::Call(Call::Ack {
        now,
        id,
        subtask,
        fresh,
        reused,
    }))
}

#[tactic(auto, unfolding(crate::specs::Reading::decline_line))]
fn decline(words: &mut Words<'_>) -> Result<Line, LineFault>
    ensures { IsExact result (decline_line words.old) }
{
    let now = words.number()?;
    let id = CheckpointId(words.number()?);
    let subtask = subtask(words)?;
    end(words)?;
    Ok(Line::Call(Call::Decline { now, id, subtask }))
}

#[tactic(auto, unfolding(crate::specs::Reading::restore_line, crate::specs::Reading::reaches_a_shape))]
fn restore(alloc: Global, words: &mut Words<'_>) -> Result<Line, LineFault>
    ensures line { Reads result (restore_line words.old) }
    ensures memory { result ≡ Err LineFault.Memory → reaches_a_shape words.old ≡ true }
{
    let now = words.number()?;
    let target = target(words)?;
    let parallelisms = numbers(alloc, words)?;
    restoring(alloc, now, target, &parallelisms)
}

#[tactic(auto, unfolding(crate::specs::Reading::all_line))]
fn all(words: &mut Words<'_>) -> Result<Line, LineFault>
    ensures { IsExact result (all_line words.old) }
{
    let now = words.number()?;
    let id = CheckpointId(words.number()?);
    let threads = words.number()?;
    let first = words.number()?;
    end(words)?;
    Ok(Line::All {
        now,
        id,
        threads,
        first,
    })
}

#[tactic(auto, unfolding(crate::specs::Reading::start_line))]
fn start(words: &mut Words<'_>) -> Result<Line, LineFault>
    ensures { IsExact result (start_line words.old) }
{
    let now = only_number(words)?;
    Ok(Line::Start { now })
}

/// The call of a line of this keyword with one number.
#[inline(always)]
pub(crate) fn number_call(keyword: Keyword, number: u64) -> Call
    ensures { result ≡ number_call keyword number }
{
    match keyword {
        Keyword::Tick => Call::Tick { now: number },
        Keyword::Savepoint => Call::Savepoint { now: number },
        Keyword::Dispose => Call::Dispose {
            id: CheckpointId(number),
        },
        Keyword::Cancel => Call::Cancel { now: number },
        Keyword::Take => Call::Take { most: number },
        Keyword::Deleted => Call::Deleted {
            file: FileId(number),
        },
        Keyword::Undeleted => Call::Undeleted {
            file: FileId(number),
        },
        Keyword::Show => Call::Show {
            id: CheckpointId(number),
        },
        // The only other keyword with such a line is `count`.
        _ => Call::Count {
            file: FileId(number),
        },
    }
}

#[tactic(auto, unfolding(crate::specs::Reading::number_line))]
fn number_line(keyword: Keyword, words: &mut Words<'_>) -> Result<Line, LineFault>
    ensures { IsExact result (number_line keyword words.old) }
{
    let number = only_number(words)?;
    Ok(Line::Call(number_call(keyword, number)))
}

/// The line of this kind, from the words after the first.
#[tactic(auto, unfolding(crate::specs::Reading::row))]
pub(crate) fn row(alloc: Global, keyword: Keyword, words: &mut Words<'_>) -> Result<Line, LineFault>
    ensures line { Reads result (row keyword words.old) }
    ensures memory { result ≡ Err LineFault.Memory → reaches_a_list keyword words.old ≡ true }
{
    match keyword {
        Keyword::Config => config(words),
        Keyword::Job => job(alloc, words),
        Keyword::Start => start(words),
        Keyword::Ack => ack(alloc, words),
        Keyword::Decline => decline(words),
        Keyword::Restore => restore(alloc, words),
        Keyword::All => all(words),
        // The others have one number, and say a call.
        _ => number_line(keyword, words),
    }
}
