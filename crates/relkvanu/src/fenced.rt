//! The answers about terms and names.

ghost use Rattle.std.specs.Prelude.{◌≡◌, ◌≢◌, ◌<◌, ◌≤◌, length, Some};
ghost use Rattle.relkvanu.specs.{Buffers.StandsInFront, Names.fenced_name, Requested.IsRefused, Told.answer_told, Told.no_memory};
ghost use Rattle.relkvanu.specs.Fenced.{fence_told, fenced_refusal_told, fenced_told, has_names, no_names};
ghost use Rattle.ckpt_terms.specs.declared.machine.FenceFault.TheVariants as fault;

use crate::answer::Answer;
use crate::requests::Requests;
use ckpt_ids::{Answer as Told, FileId};
use ckpt_terms::{FenceFault, FencedAnswer, FencedRefusal};

// what the answer is
const RESERVED: u32 = 56;

const FORFEITED: u32 = 57;

pub(crate) const TERM: u32 = 58;

pub(crate) const NAMED: u32 = 59;

pub(crate) const GARBAGE: u32 = 60;

/// The bad argument of a first name outside its limits.
pub(crate) const BAD_NAME: u32 = 8;

// what a handle refuses that has no names, or has some
const NO_NAMES: u32 = 8;

const HAS_NAMES: u32 = 9;

impl Answer {
    /// The answer of a handle without names.
    pub(crate) fn no_names() -> Answer
        ensures { result ≡ no_names }
    {
        Answer::fenced(NO_NAMES, 0)
    }

    /// The answer of a handle with names.
    pub(crate) fn has_names() -> Answer
        ensures { result ≡ has_names }
    {
        Answer::fenced(HAS_NAMES, 0)
    }

    fn of_fenced_refusal(why: FencedRefusal) -> Answer
        ensures told { result ≡ fenced_refusal_told why }
        ensures code { result.code ≢ no_memory }
    {
        match why {
            FencedRefusal::OldTerm => Answer::fenced(1, 0),
            FencedRefusal::Ended => Answer::fenced(2, 0),
            FencedRefusal::BadCount => Answer::fenced(3, 0),
            FencedRefusal::NamesUsedUp => Answer::fenced(4, 0),
            FencedRefusal::TermsUsedUp => Answer::fenced(5, 0),
            FencedRefusal::BadName => Answer::bad_argument(BAD_NAME),
            FencedRefusal::Spent(FileId(file)) => Answer::fenced(6, file),
            FencedRefusal::NeverReserved(FileId(file)) => Answer::fenced(7, file),
        }
    }

    /// The coordinator's answer.
    pub(crate) fn of_told(answer: &Told) -> Answer
        ensures told { result ≡ answer_told answer.now }
        ensures code { result.code ≢ no_memory }
    {
        match answer {
            Told::Done(reply) => Answer::of_reply(reply),
            Told::Refused(why) => Answer::of_refusal(*why),
        }
    }

    /// The answer to a call that asked for this many names.
    pub(crate) fn of_fenced(count: u64, answer: &FencedAnswer) -> Answer
        ensures told { result ≡ fenced_told count answer.now }
        ensures code { result.code ≢ no_memory }
    {
        match answer {
            FencedAnswer::Reserved(first) => Answer::done(RESERVED, first.0, count),
            FencedAnswer::Forfeited => Answer::done(FORFEITED, 0, 0),
            FencedAnswer::Made { term: _, answer } => Answer::of_told(answer),
            FencedAnswer::Fenced(why) => Answer::of_fenced_refusal(*why),
        }
    }

    /// The answer if a coordinator gets no names.
    ///
    /// Condition: if that is for want of memory, a request was refused.
    pub(crate) fn of_fence_fault(requests: &Requests, why: FenceFault) -> Answer
        requires { why ≡ fault.Memory → IsRefused requests.now }
        ensures told { result ≡ fence_told (Some why) }
        ensures memory { result.code ≡ no_memory → why ≡ fault.Memory }
    {
        match why {
            FenceFault::HasNames => Answer::has_names(),
            FenceFault::BadName => Answer::bad_argument(BAD_NAME),
            FenceFault::NameInUse => Answer::fenced(10, 0),
            FenceFault::Memory => Answer::out_of_memory(requests),
        }
    }
}

/// Writes the name of the refusal by a term or by names with this number to the start of the buffer
/// if that is long enough. Returns the number of bytes of the name, or 0 if none has the number.
#[unsafe(no_mangle)]
pub extern "C" fn relkvanu_fenced_text(what: u32, text: &mut [u8]) -> usize
    ensures length { result ≡ length (fenced_name what) }
    ensures written { result ≤ length text.old → StandsInFront (fenced_name what) text.old text.new }
    ensures kept { length text.old < result → text.new ≡ text.old }
{
    let name = name(what).as_bytes();
    if name.len() <= text.len() {
        text[..name.len()].copy_from_slice(name);
    }
    name.len()
}

fn name(what: u32) -> &'static str
    ensures { result.now ≡ fenced_name what }
{
    match what {
        1 => "OldTerm",
        2 => "Ended",
        3 => "BadCount",
        4 => "NamesUsedUp",
        5 => "TermsUsedUp",
        6 => "Spent",
        7 => "NeverReserved",
        8 => "NoNames",
        9 => "HasNames",
        10 => "NameInUse",
        _ => "",
    }
}
