//! Reads a line of a log from its bytes.
ghost use Rattle.std.specs.Prelude.{◌≡◌, ◌≢◌, true, IfOk, IfErr};
ghost use Rattle.ckpt_lines.specs.{Reading.begins_with_a_list, Reading.Reads, Words.words_of};
ghost use Rattle.ckpt_term_lines.specs.TermReading.{TermBegins, plain_row, term_line_of, term_may_want_memory, term_reading, term_takes_memory};

use crate::keyword::{TermKeyword, keyword_of};
use crate::line::{TermLine, without_term};
use crate::rows::row;
use ckpt_lines::{LONGEST_LINE, LineFault, Words, line_of, without_return};
use std::alloc::Global;

/// Takes the first word if it begins a line that scripts do not have.
#[tactic(auto, unfolding(crate::specs::TermReading::term_line_of))]
fn first_keyword(words: &mut Words<'_>) -> Option<TermKeyword>
    ensures { TermBegins result words.old words.new }
{
    keyword_of(words.next()?)
}

/// A line of a script.
#[tactic(auto, unfolding(crate::specs::TermReading::plain_row))]
fn plain(alloc: Global, words: &mut Words<'_>) -> Result<TermLine, LineFault>
    ensures line { Reads result (plain_row words.old) }
    ensures memory { result ≡ Err LineFault.Memory → begins_with_a_list words.old ≡ true }
{
    let line = line_of(alloc, words)?;
    Ok(without_term(line))
}

/// The line of this text.
fn term_line_of(alloc: Global, text: &[u8]) -> Result<TermLine, LineFault>
    ensures line { Reads result (term_line_of (words_of text.now)) }
    ensures memory { result ≡ Err LineFault.Memory → term_takes_memory (words_of text.now) ≡ true }
{
    let mut words = Words::of(text);
    match first_keyword(&mut words) {
        Some(keyword) => row(alloc, keyword, &mut words),
        // The words of a script's line are read from the first one on.
        None => plain(alloc, &mut Words::of(text)),
    }
}

/// Reads one line of a log: the bytes before its newline. [`TermLine`] has the form of each line.
///
/// The first word decides. A line that begins with none of `fence`, `reserve`, `forfeit`, `advance`,
/// `in`, `trigger` and `configure` is read as [`parse_line`](ckpt_lines::parse_line) reads it.
/// Numbers, words, spaces and the carriage return are as in a script.
///
/// Returns [`LineFault::TooLong`] for more than [`LONGEST_LINE`] bytes, the carriage return
/// included. Otherwise returns [`LineFault::Word`] if the first word is unknown, or the first one
/// after `in` and its term, and otherwise the first fault from the left. `in` with a term alone is
/// [`LineFault::Missing`]. Only a `forfeit` line, once its term and a first name were read, and an
/// `ack`, a `job` and a `restore`, as in a script, return [`LineFault::Memory`].
#[tactic(auto, unfolding(crate::specs::TermReading::term_reading, crate::specs::TermReading::term_may_want_memory))]
pub fn parse_term_line(alloc: Global, line: &[u8]) -> Result<TermLine, LineFault>
    ensures line { IfOk result (λ read. term_reading line.now ≡ Ok read) }
    ensures fault { IfErr result (λ why. why ≢ LineFault.Memory → term_reading line.now ≡ Err why) }
    ensures memory { result ≡ Err LineFault.Memory → term_may_want_memory line.now ≡ true }
    // Reading returns a line or one of the other faults.
    ensures definite { term_reading line.now ≢ Err LineFault.Memory }
{
    if line.len() > LONGEST_LINE {
        return Err(LineFault::TooLong);
    }
    term_line_of(alloc, without_return(line))
}
