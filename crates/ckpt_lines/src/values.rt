//! The value of a single word: a number, a subtask, a target, a file.
ghost use Rattle.std.specs.Prelude.{◌≡◌, if◌then◌else◌};
ghost use Rattle.ckpt_lines.specs.Reading.{IsExact};
ghost use Rattle.ckpt_lines.specs.declared.values.FileWord.TheVariants.{Fresh, Reused};
ghost use Rattle.ckpt_lines.specs.Values.{is_fresh, number_of, part_of, retention, subtask_of, target_of, with_digit};

use crate::fault::LineFault;
use ckpt_ids::{CheckpointId, FileId, SubtaskId, Target};

/// A file word: a sign and a number.
#[derive(Clone, Copy, Debug, PartialEq, Eq)]
pub enum FileWord {
    /// `+` and the number of a new file.
    Fresh(FileId),
    /// `=` and the number of a file that an earlier record holds.
    Reused(FileId),
}

/// The number that the digits spell, at most 2^64 - 1. A sign is not a digit.
pub fn number_of(word: &[u8]) -> Option<u64>
    ensures { result ≡ number_of word.now }
{
    if word.is_empty() {
        return None;
    }
    let mut number = 0;
    for byte in word {
        number = with_digit(number, *byte)?;
    }
    Some(number)
}

/// The number with one more digit, or `None` if the byte is not a digit or the number is too large.
fn with_digit(number: u64, byte: u8) -> Option<u64>
    ensures { result ≡ with_digit number byte }
{
    if !byte.is_ascii_digit() {
        return None;
    }
    let digit = u64::from(byte - b'0');
    // Nearly all numbers are far below the limit.
    if number < u64::MAX / 10 {
        return Some(number * 10 + digit);
    }
    number.checked_mul(10)?.checked_add(digit)
}

/// The number of a vertex, or the index of a subtask: at most 65535.
#[tactic(auto, unfolding(crate::specs::Values::part_of))]
fn part_of(word: &[u8]) -> Option<u16>
    ensures { result ≡ part_of word.now }
{
    u16::try_from(number_of(word)?).ok()
}

/// The subtask of the word: its vertex, a dot and its index.
#[tactic(auto, unfolding(crate::specs::Values::subtask_of))]
pub(crate) fn subtask_of(word: &[u8]) -> Option<SubtaskId>
    ensures { result ≡ subtask_of word.now }
{
    let dot = word.iter().position(|byte| *byte == b'.')?;
    let vertex = part_of(&word[..dot])?;
    let index = part_of(&word[dot + 1..])?;
    Some(SubtaskId { vertex, index })
}

/// Whether completed checkpoints are kept when the job is cancelled.
pub(crate) fn retention(word: &[u8]) -> Result<bool, LineFault>
    ensures { IsExact result (retention word.now) }
{
    if word == b"keep".as_slice() {
        return Ok(true);
    }
    if word == b"delete".as_slice() {
        return Ok(false);
    }
    Err(LineFault::Word)
}

/// What a job is restored from.
#[tactic(auto, unfolding(crate::specs::Values::target_of))]
pub(crate) fn target_of(word: &[u8]) -> Result<Target, LineFault>
    ensures { IsExact result (target_of word.now) }
{
    if word == b"latest".as_slice() {
        return Ok(Target::Latest);
    }
    let id = number_of(word).ok_or(LineFault::Number)?;
    Ok(Target::Savepoint(CheckpointId(id)))
}

/// Whether the sign of a file word is that of a new file.
pub(crate) fn is_fresh(sign: u8) -> Result<bool, LineFault>
    ensures { IsExact result (is_fresh sign) }
{
    match sign {
        b'+' => Ok(true),
        b'=' => Ok(false),
        _ => Err(LineFault::Word),
    }
}

/// A new or a reused file.
pub(crate) fn file_word(is_fresh: bool, file: FileId) -> FileWord
    ensures { result ≡ if is_fresh then Fresh file else Reused file }
{
    if is_fresh {
        FileWord::Fresh(file)
    } else {
        FileWord::Reused(file)
    }
}
