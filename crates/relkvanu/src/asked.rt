//! What a line of a log asks of a handle.

ghost use Rattle.std.specs.Prelude.{◌≡◌, ◌≢◌, true, Ok, Err, IfOk, IfErr, IfSome};
ghost use Rattle.ckpt_lines.specs.declared.fault.LineFault.TheVariants as fault;
ghost use Rattle.ckpt_terms.specs.declared.call.FencedCall.TheVariants.{Make};
ghost use Rattle.ckpt_term_lines.specs.TermReading.{term_may_want_memory};
ghost use Rattle.relkvanu.specs.declared.asked.Asked.TheVariants as ask;
ghost use Rattle.relkvanu.specs.Asking.{asked_by, line_fault_told, said};
ghost use Rattle.relkvanu.specs.{Calls.HasNoNumbers, Requested.IsRefused, Told.no_memory};

use crate::answer::Answer;
use crate::calls::BAD_SHAPE;
use crate::opening::BAD_CONFIG;
use crate::requests::Requests;
use ckpt_ids::Call;
use ckpt_lines::{Line, LineFault, usual_call};
use ckpt_term_lines::TermLine;
use ckpt_terms::FencedCall;
use std::alloc::Global;

/// The answer to a line that has no words or is a comment.
const SKIPPED: u32 = 37;

// why a line makes no call
pub(crate) const FAULT_TOO_LONG: u32 = 1;

const FAULT_WORD: u32 = 2;

const FAULT_MISSING: u32 = 3;

const FAULT_NUMBER: u32 = 4;

const FAULT_EXTRA: u32 = 5;

const FAULT_NO_CALL: u32 = 6;

/// What a line asks for.
#[derive(Drop)]
pub(crate) enum Asked {
    /// From here on names are given out.
    Fence {
        /// The first name.
        first: u64,
    },
    /// A call. The call of a script's line has term 0, which belongs to no task.
    Call(FencedCall),
}

/// The call of a usual line, which has no term, or `None` for any other line. Most lines of a long log
/// are usual. So their calls are made without what lines of every kind have room for.
#[inline(always)]
pub(crate) fn usual(line: &[u8]) -> Option<Call>
    ensures { IfSome result (λ call. said line.now ≡ Ok (ask.Call (Make 0 call))) }
{
    usual_call(line)
}

/// What the line asks for, or the answer if it asks for nothing.
#[tactic(auto, unfolding(crate::specs::Asking::said))]
pub(crate) fn said(requests: &mut Requests, alloc: Global, line: &[u8]) -> Result<Asked, Answer>
    ensures value { IfOk result (λ asked. said line.now ≡ Ok asked) }
    ensures fault { IfErr result (λ answer. answer.code ≢ no_memory → said line.now ≡ Err answer) }
    ensures memory { IfErr result (λ answer. answer.code ≡ no_memory → term_may_want_memory line.now ≡ true) }
    ensures numbers { IfErr result HasNoNumbers }
    ensures cause { IfErr result (λ answer. answer.code ≡ no_memory → IsRefused requests.new) }
{
    match requests.line(alloc, line) {
        Ok(read) => asked_by(read),
        Err(why) => Err(of_line_fault(requests, why)),
    }
}

/// What is asked for by what a line says.
fn asked_by(line: TermLine) -> Result<Asked, Answer>
    ensures value { result ≡ asked_by line }
    ensures code { IfErr result (λ answer. answer.code ≢ no_memory) }
{
    match line {
        TermLine::Fence { first } => Ok(Asked::Fence { first }),
        TermLine::Call(call) => Ok(Asked::Call(call)),
        TermLine::Other(Line::Skip) => Err(Answer::done(SKIPPED, 0, 0)),
        TermLine::Other(Line::BadShape) => Err(Answer::bad_argument(BAD_SHAPE)),
        TermLine::BadConfig => Err(Answer::bad_argument(BAD_CONFIG)),
        TermLine::Other(_) | TermLine::NoCall => Err(Answer::bad_line(FAULT_NO_CALL)),
    }
}

/// The answer if a line can't be read.
///
/// Condition: if that is for want of memory, a request was refused.
pub(crate) fn of_line_fault(requests: &Requests, why: LineFault) -> Answer
    requires { why ≡ fault.Memory → IsRefused requests.now }
    ensures { result ≡ line_fault_told why }
{
    match why {
        LineFault::TooLong => Answer::bad_line(FAULT_TOO_LONG),
        LineFault::Word => Answer::bad_line(FAULT_WORD),
        LineFault::Missing => Answer::bad_line(FAULT_MISSING),
        LineFault::Number => Answer::bad_line(FAULT_NUMBER),
        LineFault::Extra => Answer::bad_line(FAULT_EXTRA),
        LineFault::Memory => Answer::out_of_memory(requests),
    }
}
