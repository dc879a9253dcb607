//! The text of an answer: a reply or a refusal.
ghost use Rattle.std.specs.Prelude.{◌≡◌, ◌++◌, OnOk, string_bytes};
ghost use Rattle.ckpt_answers.specs.Fronts.{KeepsFront};
ghost use Rattle.ckpt_answers.specs.Texts.{answer_bytes};

use crate::refusals::write_refusal;
use crate::replies::write_reply;
use ckpt_ids::Answer;
use std::alloc::{AllocError, Global};

/// Appends the printed line of an answer, with its newline.
///
/// Fails only if memory runs out, and then the text may have a part of the line at its end.
#[tactic(auto, unfolding(crate::specs::Texts::answer_bytes))]
pub fn write_answer(alloc: Global, text: &mut String, answer: &Answer) -> Result<(), AllocError>
    ensures text { OnOk result (string_bytes text.new ≡ string_bytes text.old ++ answer_bytes answer.now) }
    ensures front { KeepsFront (string_bytes text.old) (string_bytes text.new) }
{
    match answer {
        Answer::Done(reply) => write_reply(alloc, text, reply)?,
        Answer::Refused(refusal) => write_refusal(text, *refusal)?,
    }
    text.push('\n')
}
