//! Reads a line from its bytes.
ghost use Rattle.std.specs.Prelude.{◌≡◌, ◌≢◌, true, IfOk, IfErr};
ghost use Rattle.std.specs.Str.Lines.{strip_carriage_return};
ghost use Rattle.ckpt_lines.specs.Reading.{Begins, begins_with_a_list, line_of, may_want_memory, reading, Reads};

use crate::fault::LineFault;
use crate::keyword::{Keyword, keyword_of};
use crate::limits::LONGEST_LINE;
use crate::line::Line;
use crate::rows::row;
use crate::words::Words;
use std::alloc::Global;

/// The text without the one carriage return at its end, if it has one.
pub fn without_return(line: &[u8]) -> &[u8]
    ensures { result.now ≡ strip_carriage_return line.now }
{
    line.strip_suffix(b"\r").unwrap_or(line)
}

/// The same as [`first_keyword`] for every line. It finds the end of the first word before it
/// compares the word.
#[tactic(auto, unfolding(crate::specs::Reading::line_of))]
#[inline(never)]
fn any_keyword(words: &mut Words<'_>) -> Result<Option<Keyword>, LineFault>
    ensures { Begins result words.old words.new }
{
    let Some(word) = words.next() else {
        return Ok(None);
    };
    if word.first() == Some(&b'#') {
        return Ok(None);
    }
    let keyword = keyword_of(word).ok_or(LineFault::Word)?;
    Ok(Some(keyword))
}

/// The keyword of the first word, or `None` if the line is skipped. Tries the usual ones first,
/// because they are recognized faster.
fn first_keyword(words: &mut Words<'_>) -> Result<Option<Keyword>, LineFault>
    ensures { Begins result words.old words.new }
{
    if let Some(keyword) = words.usual_keyword() {
        return Ok(Some(keyword));
    }
    any_keyword(words)
}

/// The line of these words. Reads them as [`parse_line`] does.
pub fn line_of(alloc: Global, words: &mut Words<'_>) -> Result<Line, LineFault>
    ensures line { Reads result (line_of words.old) }
    ensures memory { result ≡ Err LineFault.Memory → begins_with_a_list words.old ≡ true }
{
    match first_keyword(words)? {
        Some(keyword) => row(alloc, keyword, words),
        None => Ok(Line::Skip),
    }
}

/// Reads one line of a job script: the bytes before its newline.
///
/// One carriage return at the end is dropped. Words are separated by spaces, and spaces at the
/// start and end of the line are dropped. A line without words is [`Line::Skip`], and so is one
/// whose first word begins with `#`. [`Line`] has the form of each other line.
///
/// A number is one or more digits with a value of at most 2^64 - 1, and may have leading zeros. A
/// subtask is a number, a dot and a number, each at most 65535. A file word is `+` or `=` and a
/// number. New and reused files may be mixed.
///
/// Returns [`LineFault::TooLong`] for more than [`LONGEST_LINE`] bytes, the carriage return
/// included. Otherwise returns [`LineFault::Word`] if the first word is unknown, otherwise the
/// first fault from the left. Only `ack`, `job` and `restore` lines return [`LineFault::Memory`], and
/// only once the words before their list were read, and the first number of a list of numbers.
#[tactic(auto, unfolding(crate::specs::Reading::reading, crate::specs::Reading::may_want_memory))]
pub fn parse_line(alloc: Global, line: &[u8]) -> Result<Line, LineFault>
    ensures line { IfOk result (λ read. reading line.now ≡ Ok read) }
    ensures fault { IfErr result (λ why. why ≢ LineFault.Memory → reading line.now ≡ Err why) }
    ensures memory { result ≡ Err LineFault.Memory → may_want_memory line.now ≡ true }
    // Reading returns a line or one of the other faults.
    ensures definite { reading line.now ≢ Err LineFault.Memory }
{
    if line.len() > LONGEST_LINE {
        return Err(LineFault::TooLong);
    }
    line_of(alloc, &mut Words::of(without_return(line)))
}
