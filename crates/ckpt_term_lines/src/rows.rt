//! The lines that scripts do not have, from the words after their first.
ghost use Rattle.std.specs.Prelude.{◌≡◌, true};
ghost use Rattle.ckpt_lines.specs.Reading.{begins_with_a_list, IsExact, Reads, begins_with_a_number};
ghost use Rattle.ckpt_lines.specs.Words.{words_of};
ghost use Rattle.ckpt_term_lines.specs.TermReading.{configure_row, fence_row, forfeit_row, in_row, in_takes_memory, made_line, name_places, reserve_row, script_row, term_row, term_row_takes_memory, trigger_row, advance_row, reaches_names};

use crate::keyword::{TermKeyword, keyword_of};
use crate::line::{TermLine, configuring, in_term};
use ckpt_ids::{Call, FileId, Files};
use ckpt_lines::{LineFault, Words, line_of, number_of, only_number, settings};
use ckpt_terms::FencedCall;
use std::alloc::Global;

#[tactic(auto, unfolding(crate::specs::TermReading::fence_row))]
fn fence(words: &mut Words<'_>) -> Result<TermLine, LineFault>
    ensures { IsExact result (fence_row words.old) }
{
    let first = only_number(words)?;
    Ok(TermLine::Fence { first })
}

#[tactic(auto, unfolding(crate::specs::TermReading::reserve_row))]
fn reserve(words: &mut Words<'_>) -> Result<TermLine, LineFault>
    ensures { IsExact result (reserve_row words.old) }
{
    let term = words.number()?;
    let count = only_number(words)?;
    Ok(TermLine::Call(FencedCall::Reserve { term, count }))
}

/// The names up to the end of the line.
fn names(alloc: Global, words: &mut Words<'_>) -> Result<Files, LineFault>
    ensures line { Reads result (name_places words.old) }
    ensures memory { result ≡ Err LineFault.Memory → begins_with_a_number words.old ≡ true }
{
    let mut list = Vec::new(alloc);
    while let Some(word) = words.next() {
        let name = number_of(word).ok_or(LineFault::Number)?;
        list.push(FileId(name))?;
    }
    Ok(Files::of(list))
}

#[tactic(auto, unfolding(crate::specs::TermReading::forfeit_row, crate::specs::TermReading::reaches_names))]
fn forfeit(alloc: Global, words: &mut Words<'_>) -> Result<TermLine, LineFault>
    ensures line { Reads result (forfeit_row words.old) }
    ensures memory { result ≡ Err LineFault.Memory → reaches_names words.old ≡ true }
{
    let term = words.number()?;
    let names = names(alloc, words)?;
    Ok(TermLine::Call(FencedCall::Forfeit { term, names }))
}

#[tactic(auto, unfolding(crate::specs::TermReading::advance_row))]
fn advance(words: &mut Words<'_>) -> Result<TermLine, LineFault>
    ensures { IsExact result (advance_row words.old) }
{
    let now = words.number()?;
    let term = words.number()?;
    let first = only_number(words)?;
    Ok(TermLine::Call(FencedCall::Advance { now, term, first }))
}

#[tactic(auto, unfolding(crate::specs::TermReading::trigger_row))]
fn trigger(term: u64, words: &mut Words<'_>) -> Result<TermLine, LineFault>
    ensures { IsExact result (trigger_row term words.old) }
{
    let now = only_number(words)?;
    Ok(TermLine::Call(FencedCall::Make {
        term,
        call: Call::Trigger { now },
    }))
}

#[tactic(auto, unfolding(crate::specs::TermReading::configure_row))]
fn configure(term: u64, words: &mut Words<'_>) -> Result<TermLine, LineFault>
    ensures { IsExact result (configure_row term words.old) }
{
    let now = words.number()?;
    let values = settings(words)?;
    Ok(configuring(term, now, values))
}

/// A line of a script, with this term.
#[tactic(auto, unfolding(crate::specs::TermReading::script_row))]
fn script(alloc: Global, term: u64, words: &mut Words<'_>) -> Result<TermLine, LineFault>
    ensures line { Reads result (script_row term words.old) }
    ensures memory { result ≡ Err LineFault.Memory → begins_with_a_list words.old ≡ true }
{
    let line = line_of(alloc, words)?;
    Ok(in_term(term, line))
}

/// What this text says with this term. There must be a word.
#[tactic(auto, unfolding(crate::specs::TermReading::made_line))]
fn made_line(alloc: Global, term: u64, text: &[u8]) -> Result<TermLine, LineFault>
    ensures line { Reads result (made_line term (words_of text.now)) }
    ensures memory { result ≡ Err LineFault.Memory → begins_with_a_list (words_of text.now) ≡ true }
{
    let mut words = Words::of(text);
    let Some(word) = words.next() else {
        return Err(LineFault::Missing);
    };
    match keyword_of(word) {
        Some(TermKeyword::Trigger) => trigger(term, &mut words),
        Some(TermKeyword::Configure) => configure(term, &mut words),
        // The words of a script's line are read from the first one on.
        _ => script(alloc, term, &mut Words::of(text)),
    }
}

#[tactic(auto, using(crate::proofs::FirstWords::after_term), unfolding(crate::specs::TermReading::in_row, crate::specs::TermReading::in_takes_memory))]
fn in_row(alloc: Global, words: &mut Words<'_>) -> Result<TermLine, LineFault>
    ensures line { Reads result (in_row words.old) }
    ensures memory { result ≡ Err LineFault.Memory → in_takes_memory words.old ≡ true }
{
    let term = words.number()?;
    made_line(alloc, term, words.rest())
}

/// The line of this kind, from the words after the first.
#[tactic(auto, unfolding(crate::specs::TermReading::term_row))]
pub(crate) fn row(
    alloc: Global,
    keyword: TermKeyword,
    words: &mut Words<'_>,
) -> Result<TermLine, LineFault>
    ensures line { Reads result (term_row keyword words.old) }
    ensures memory { result ≡ Err LineFault.Memory → term_row_takes_memory keyword words.old ≡ true }
{
    match keyword {
        TermKeyword::Fence => fence(words),
        TermKeyword::Reserve => reserve(words),
        TermKeyword::Forfeit => forfeit(alloc, words),
        TermKeyword::Advance => advance(words),
        TermKeyword::In => in_row(alloc, words),
        TermKeyword::Trigger => trigger(0, words),
        TermKeyword::Configure => configure(0, words),
    }
}
