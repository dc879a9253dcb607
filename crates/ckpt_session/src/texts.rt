//! What a script prints: the outcomes of its lines, and their faults.
ghost use Rattle.std.specs.Prelude.{◌≡◌, ◌++◌, true, OnErr, OnOk, string_bytes};
ghost use Rattle.ckpt_session.specs.declared.outcome.Outcome.TheVariants.{Refused};
ghost use Rattle.ckpt_session.specs.declared.outcome.ScriptRefusal.TheVariants.{NotStarted};
ghost use Rattle.ckpt_session.specs.ScriptTexts.{all_end_bytes, fault_bytes, fault_name, is_said, outcome_bytes, refusal_bytes, refusal_name};
ghost use Rattle.ckpt_answers.specs.Fronts.{KeepsFront};

use crate::outcome::{AllEnd, Outcome, ScriptRefusal};
use ckpt_answers::{write_answer, write_number, write_two};
use ckpt_lines::LineFault;
use std::alloc::{AllocError, Global};

/// Appends the printed text of an outcome: one text with its newline, or nothing. Fails only if
/// memory runs out.
#[tactic(auto, unfolding(crate::specs::ScriptTexts::outcome_bytes))]
pub fn write_outcome(alloc: Global, text: &mut String, outcome: &Outcome) -> Result<(), AllocError>
    ensures text { OnOk result (string_bytes text.new ≡ string_bytes text.old ++ outcome_bytes outcome.now) }
    ensures front { KeepsFront (string_bytes text.old) (string_bytes text.new) }
    ensures said { OnErr result (is_said outcome.now ≡ true) }
{
    match outcome {
        Outcome::Silent => Ok(()),
        Outcome::Refused(why) => write_refusal(text, *why),
        Outcome::Answered(answer) => write_answer(alloc, text, answer),
        Outcome::Acknowledged {
            accepted,
            refused,
            end,
        } => {
            write_two(text, "all ", *accepted, *refused)?;
            write_all_end(text, *end)
        }
    }
}

/// Appends the state of the record of an `all` line, with a newline. Fails only if memory runs out.
#[tactic(auto, unfolding(crate::specs::ScriptTexts::all_end_bytes))]
fn write_all_end(text: &mut String, end: AllEnd) -> Result<(), AllocError>
    ensures text { OnOk result (string_bytes text.new ≡ string_bytes text.old ++ all_end_bytes end) }
    ensures front { KeepsFront (string_bytes text.old) (string_bytes text.new) }
{
    match end {
        AllEnd::Completed { dropped, released } => {
            write_two(text, " completed ", u64::from(dropped), released)?;
            text.push('\n')
        }
        AllEnd::Pending { missing } => {
            write_number(text, " pending ", missing)?;
            text.push('\n')
        }
    }
}

/// Appends what a line prints that needs an accepted `start` before it. A function of its own,
/// because few scripts have such a line.
#[tactic(auto, unfolding(crate::specs::ScriptTexts::outcome_bytes))]
#[inline(never)]
pub(crate) fn write_not_started(text: &mut String) -> Result<(), AllocError>
    ensures text { OnOk result (string_bytes text.new ≡ string_bytes text.old ++ outcome_bytes (Refused NotStarted)) }
    ensures front { KeepsFront (string_bytes text.old) (string_bytes text.new) }
{
    write_refusal(text, ScriptRefusal::NotStarted)
}

/// Appends the text of a refusal, with its newline. Fails only if memory runs out.
#[tactic(auto, unfolding(crate::specs::ScriptTexts::refusal_bytes))]
fn write_refusal(text: &mut String, why: ScriptRefusal) -> Result<(), AllocError>
    ensures text { OnOk result (string_bytes text.new ≡ string_bytes text.old ++ refusal_bytes why) }
    ensures front { KeepsFront (string_bytes text.old) (string_bytes text.new) }
{
    text.push_str("refused ")?;
    text.push_str(refusal_name(why))?;
    text.push('\n')
}

/// Appends the text of the fault of the line with this number, with its newline. Fails only if
/// memory runs out.
#[tactic(auto, unfolding(crate::specs::ScriptTexts::fault_bytes))]
pub fn write_fault(text: &mut String, number: u64, why: LineFault) -> Result<(), AllocError>
    ensures text { OnOk result (string_bytes text.new ≡ string_bytes text.old ++ fault_bytes number why) }
    ensures front { KeepsFront (string_bytes text.old) (string_bytes text.new) }
{
    write_number(text, "line ", number)?;
    text.push_str(" fault ")?;
    text.push_str(fault_name(why))?;
    text.push('\n')
}

#[tactic(auto, unfolding(crate::specs::ScriptTexts::refusal_name))]
fn refusal_name(why: ScriptRefusal) -> &'static str
    ensures { result.now ≡ refusal_name why }
{
    match why {
        ScriptRefusal::Started => "Started",
        ScriptRefusal::NotStarted => "NotStarted",
        ScriptRefusal::NotReady => "NotReady",
        ScriptRefusal::BadConfig => "BadConfig",
        ScriptRefusal::BadShape => "BadShape",
        ScriptRefusal::MomentTooLarge => "MomentTooLarge",
        ScriptRefusal::BadThreads => "BadThreads",
        ScriptRefusal::NotPending => "NotPending",
        ScriptRefusal::FilesUsedUp => "FilesUsedUp",
    }
}

#[tactic(auto, unfolding(crate::specs::ScriptTexts::fault_name))]
fn fault_name(why: LineFault) -> &'static str
    ensures { result.now ≡ fault_name why }
{
    match why {
        LineFault::Word => "Word",
        LineFault::Number => "Number",
        LineFault::Missing => "Missing",
        LineFault::Extra => "Extra",
        LineFault::TooLong => "TooLong",
        LineFault::Memory => "Memory",
    }
}
