//! Lists at the end of a line: numbers, and file words.
ghost use Rattle.std.specs.Prelude.{◌≡◌, true, Err};
ghost use Rattle.ckpt_lines.specs.Reading.{begins_with_a_number, each, file_places, Reads};
ghost use Rattle.ckpt_lines.specs.Values.{number};

use crate::fault::LineFault;
use crate::numbers::Numbers;
use crate::values::{FileWord, number_of};
use crate::words::Words;
use ckpt_ids::{FileId, Files};
use std::alloc::Global;

/// The numbers up to the end of the line.
pub(crate) fn numbers(alloc: Global, words: &mut Words<'_>) -> Result<Numbers, LineFault>
    ensures line { Reads result (each number words.old) }
    ensures memory { result ≡ Err LineFault.Memory → begins_with_a_number words.old ≡ true }
{
    let mut list = Vec::new(alloc);
    while let Some(word) = words.next() {
        let number = number_of(word).ok_or(LineFault::Number)?;
        list.push(number)?;
    }
    Ok(Numbers::of(list))
}

/// The file words up to the end of the line: the new files and the reused ones.
pub(crate) fn files(alloc: Global, words: &mut Words<'_>) -> Result<(Files, Files), LineFault>
    ensures { Reads result (file_places words.old) }
{
    // The lists stay in memory as long as the call, so they get no more room than they need.
    let (most_fresh, most_reused) = words.signs();
    let mut fresh = Vec::with_capacity(alloc, most_fresh)?;
    let mut reused = Vec::with_capacity(alloc, most_reused)?;
    'files: while let Some(file) = words.file()? {
        match file {
            FileWord::Fresh(file) => fresh.push(file)?,
            FileWord::Reused(file) => reused.push(file)?,
        }
    }
    Ok((Files::of(fresh), Files::of(reused)))
}
