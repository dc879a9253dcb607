//! What a log prints: the outcomes of its lines.
ghost use Rattle.std.specs.Prelude.{◌≡◌, ◌++◌, OnOk, string_bytes};
ghost use Rattle.ckpt_log.specs.LogTexts.{fence_fault_name, log_outcome_bytes, log_refusal_name};

use crate::outcome::{LogOutcome, LogRefusal};
use ckpt_session::write_outcome;
use ckpt_term_lines::write_fenced_answer;
use ckpt_terms::FenceFault;
use std::alloc::{AllocError, Global};

/// Appends the printed text of an outcome, with its newline, or nothing. Fails only if memory runs
/// out.
#[tactic(auto, unfolding(crate::specs::LogTexts::log_outcome_bytes))]
pub(crate) fn write_log_outcome(
    alloc: Global,
    text: &mut String,
    outcome: &LogOutcome,
) -> Result<(), AllocError>
    ensures { OnOk result (string_bytes text.new ≡ string_bytes text.old ++ log_outcome_bytes outcome.now) }
{
    match outcome {
        LogOutcome::Script(outcome) => write_outcome(alloc, text, outcome),
        LogOutcome::Refused(why) => {
            text.push_str("refused ")?;
            text.push_str(refusal_name(*why))?;
            text.push('\n')
        }
        LogOutcome::Began => text.push_str("term 1\n"),
        LogOutcome::Answered(answer) => write_fenced_answer(alloc, text, answer),
    }
}

fn refusal_name(why: LogRefusal) -> &'static str
    ensures { result.now ≡ log_refusal_name why }
{
    match why {
        LogRefusal::NoNames => "NoNames",
        LogRefusal::NoCall => "NoCall",
        LogRefusal::NoFence(why) => fence_fault_name(why),
    }
}

fn fence_fault_name(why: FenceFault) -> &'static str
    ensures { result.now ≡ fence_fault_name why }
{
    match why {
        FenceFault::HasNames => "HasNames",
        FenceFault::BadName => "BadName",
        FenceFault::NameInUse => "NameInUse",
        FenceFault::Memory => "Memory",
    }
}
