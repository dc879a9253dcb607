//! The text of an answer of a job that gives out names.
ghost use Rattle.std.specs.Prelude.{◌≡◌, ◌++◌, codes, OnOk, string_bytes};
ghost use Rattle.ckpt_answers.specs.Fronts.{KeepsFront};
ghost use Rattle.ckpt_term_lines.specs.AnswerTexts.{fence_refusal_bytes, fenced_answer_bytes, new_term_bytes};

use ckpt_answers::{write_answer, write_number};
use ckpt_ids::{Answer, Reply};
use ckpt_terms::{FencedAnswer, FencedRefusal};
use std::alloc::{AllocError, Global};

/// Appends the printed text of an answer, with its newline. The answer that the coordinator gave has
/// the text that it has without terms. If the call ended the term, a second line has the new one.
///
/// Fails only if memory runs out, and then the text may have a part of it at its end.
#[tactic(auto, unfolding(crate::specs::AnswerTexts::fenced_answer_bytes))]
pub fn write_fenced_answer(
    alloc: Global,
    text: &mut String,
    answer: &FencedAnswer,
) -> Result<(), AllocError>
    ensures text { OnOk result (string_bytes text.new ≡ string_bytes text.old ++ fenced_answer_bytes answer.now) }
    ensures front { KeepsFront (string_bytes text.old) (string_bytes text.new) }
{
    match answer {
        FencedAnswer::Reserved(first) => {
            write_number(text, "reserved ", first.0)?;
            text.push('\n')
        }
        FencedAnswer::Forfeited => text.push_str("forfeited\n"),
        FencedAnswer::Made { term, answer } => {
            write_answer(alloc, text, answer)?;
            write_new_term(text, *term, answer)
        }
        FencedAnswer::Fenced(why) => write_refusal(text, *why),
    }
}

/// Appends the line of the term that began, if the call with this answer ended the one before.
fn write_new_term(text: &mut String, term: u64, answer: &Answer) -> Result<(), AllocError>
    ensures text { OnOk result (string_bytes text.new ≡ string_bytes text.old ++ new_term_bytes term answer.now) }
    ensures front { KeepsFront (string_bytes text.old) (string_bytes text.new) }
{
    match answer {
        Answer::Done(Reply::Restored { .. } | Reply::Cancelled { .. }) => {
            write_number(text, "term ", term)?;
            text.push('\n')
        }
        _ => Ok(()),
    }
}

/// Appends why a call did not reach the coordinator, with a newline.
fn write_refusal(text: &mut String, why: FencedRefusal) -> Result<(), AllocError>
    ensures text { OnOk result (string_bytes text.new ≡ string_bytes text.old ++ codes "fenced " ++ fence_refusal_bytes why ++ codes "\n") }
    ensures front { KeepsFront (string_bytes text.old) (string_bytes text.new) }
{
    text.push_str("fenced ")?;
    write_reason(text, why)?;
    text.push('\n')
}

#[tactic(auto, unfolding(crate::specs::AnswerTexts::fence_refusal_bytes))]
fn write_reason(text: &mut String, why: FencedRefusal) -> Result<(), AllocError>
    ensures text { OnOk result (string_bytes text.new ≡ string_bytes text.old ++ fence_refusal_bytes why) }
    ensures front { KeepsFront (string_bytes text.old) (string_bytes text.new) }
{
    match why {
        FencedRefusal::OldTerm => text.push_str("OldTerm"),
        FencedRefusal::Ended => text.push_str("Ended"),
        FencedRefusal::BadCount => text.push_str("BadCount"),
        FencedRefusal::NamesUsedUp => text.push_str("NamesUsedUp"),
        FencedRefusal::TermsUsedUp => text.push_str("TermsUsedUp"),
        FencedRefusal::BadName => text.push_str("BadName"),
        FencedRefusal::Spent(file) => write_number(text, "Spent ", file.0),
        FencedRefusal::NeverReserved(file) => write_number(text, "NeverReserved ", file.0),
    }
}
