//! Writes lines of a log into a caller's buffer: the line of a call, and the lines of an opening.

ghost use Rattle.std.specs.Prelude.{◌≡◌, ◌≢◌, ◌≤◌, None, Ok, Err, IsOk, IfOk, IfErr, length, take, string_bytes};
ghost use Rattle.ckpt_lines.specs.declared.limits.TheConstants.{LONGEST_LINE};
ghost use Rattle.ckpt_lines.specs.declared.line.Line.TheVariants as line;
ghost use Rattle.ckpt_lines.specs.CallTexts.{IsReadAs, config_text, job_text, line_of_config, start_text};
ghost use Rattle.ckpt_term_lines.specs.TermTexts.{IsTermReadAs};
ghost use Rattle.relkvanu.specs.{Buffers.StandsInFront, Calls.HasNoNumbers, Calls.IsWhyNoCall, Requested.IsRefused, Told.no_memory};
ghost use Rattle.relkvanu.specs.Opening.{IsWhyNot, OpeningWantsMemory, bad_opening, configuration_of, opening_of};
ghost use Rattle.relkvanu.specs.Writing.{IsWhyNotGiven, OpeningReadsBack, ReadsBack, SaysBack, asked_text, call_given, call_line_text, call_line_told, configuration_in};
ghost use Rattle.relkvanu.specs.Writing.{given, line_of_asked, opening_text, opening_told, text_told};

use crate::answer::Answer;
use crate::asked::{Asked, FAULT_TOO_LONG};
use crate::calls::{BAD_SHAPE, ack_of, files_of, restore_of};
use crate::opening::{BAD_CONFIG, BAD_MOMENT, Settings, config_of, job_of};
use crate::requests::Requests;
use ckpt_ids::{Call, CheckpointId, Config, FileId, MOMENTS_END, Shape, ShapeFault, SubtaskId};
use ckpt_lines::{LONGEST_LINE, config_line, job_line, start_line};
use ckpt_term_lines::{fence_line, term_line};
use ckpt_terms::FencedCall;
use std::alloc::{AllocError, Global};

pub(crate) const CALL_TICK: u32 = 1;

pub(crate) const CALL_SAVEPOINT: u32 = 2;

pub(crate) const CALL_ACK: u32 = 3;

pub(crate) const CALL_DECLINE: u32 = 4;

pub(crate) const CALL_DISPOSE: u32 = 5;

pub(crate) const CALL_RESTORE: u32 = 6;

pub(crate) const CALL_CANCEL: u32 = 7;

pub(crate) const CALL_TAKE: u32 = 8;

pub(crate) const CALL_DELETED: u32 = 9;

pub(crate) const CALL_UNDELETED: u32 = 10;

pub(crate) const CALL_SHOW: u32 = 11;

pub(crate) const CALL_COUNT: u32 = 12;

pub(crate) const CALL_FENCE: u32 = 13;

pub(crate) const CALL_RESERVE: u32 = 14;

pub(crate) const CALL_FORFEIT: u32 = 15;

pub(crate) const CALL_TRIGGER: u32 = 16;

pub(crate) const CALL_CONFIGURE: u32 = 17;

pub(crate) const CALL_ADVANCE: u32 = 18;

const BAD_KIND: u32 = 6;

const WRITTEN: u32 = 44;

/// A call. Fields that its kind does not use are not read.
#[repr(C)]
#[derive(Clone, Copy, Debug, PartialEq, Eq)]
pub struct CallFields {
    /// 1 to 18: tick, savepoint, ack, decline, dispose, restore, cancel, take, deleted, undeleted, show,
    /// count, fence, reserve, forfeit, trigger, configure, advance.
    pub kind: u32,
    /// The vertex of the subtask of an ack or a decline.
    pub vertex: u16,
    /// The subtask's index in its vertex.
    pub index: u16,
    /// The moment in milliseconds, if the kind has one.
    pub now: u64,
    /// The number of the record or file. For a restore the savepoint, or 0 for the latest record.
    /// For a take the most files, for a fence and an advance the first name, for a reserve how many
    /// names.
    pub number: u64,
    /// The term of the caller, or 0 for none. A fence has none. For an advance the greatest term that
    /// was told.
    pub term: u64,
}

/// Writes the line of a call to the start of the buffer, without its newline, if the buffer is long
/// enough.
///
/// `first` and `second` are the fresh and the reused files of an ack, in any order. For a restore
/// `first` is the new shape, or empty. For a forfeit it is the names, in any order. For a configure it
/// is the seven settings in the order of [`Settings`], of which the last is 0 or 1. A call with a term
/// other than 0 is written after `in` and the term. The answer is a fault if the line would be
/// too long. Takes memory.
#[unsafe(no_mangle)]
pub extern "C" fn relkvanu_call_line(
    alloc: Global,
    call: &CallFields,
    first: &[u64],
    second: &[u64],
    line: &mut [u8],
) -> Answer
    ensures told { result.code ≢ no_memory → result ≡ call_line_told (given call.entry.now first.now second.now) (length line.old) }
    ensures front { result.code ≡ 0 → StandsInFront (call_line_text (given call.entry.now first.now second.now)) line.old line.new }
    ensures read { ReadsBack (given call.entry.now first.now second.now) (take result.a line.new) result }
    ensures said { SaysBack (given call.entry.now first.now second.now) (take result.a line.new) result }
    ensures kept { result.code ≢ 0 → line.new ≡ line.old }
    ensures memory { result.code ≡ no_memory → IsOk (given call.entry.now first.now second.now) }
    ensures numbers { HasNoNumbers result }
{
    let mut requests = Requests::new();
    let asked = match asked_of(&mut requests, alloc, call, first, second) {
        Ok(asked) => asked,
        Err(answer) => return answer,
    };
    match requests.asked_line(alloc, &asked) {
        Ok(text) => write_text(&text, line),
        Err(_) => Answer::out_of_memory(&requests),
    }
}

/// What the fields and the lists ask for, or the answer if they ask for nothing.
#[tactic(auto, unfolding(crate::specs::Writing::given))]
#[inline(always)]
pub(crate) fn asked_of(
    requests: &mut Requests,
    alloc: Global,
    fields: &CallFields,
    first: &[u64],
    second: &[u64],
) -> Result<Asked, Answer>
    ensures value { IfOk result (λ asked. given fields.entry.now first.now second.now ≡ Ok asked) }
    ensures fault { IfErr result (IsWhyNotGiven (given fields.entry.now first.now second.now)) }
    ensures memory { IfErr result (λ answer. answer.code ≡ no_memory → IsOk (given fields.entry.now first.now second.now)) }
    ensures numbers { IfErr result HasNoNumbers }
    ensures cause { IfErr result (λ answer. answer.code ≡ no_memory → IsRefused requests.new) }
{
    let term = fields.term;
    let number = fields.number;
    match fields.kind {
        CALL_FENCE => Ok(Asked::Fence { first: number }),
        CALL_RESERVE => Ok(Asked::Call(FencedCall::Reserve {
            term,
            count: number,
        })),
        CALL_FORFEIT => match files_of(requests, alloc, first) {
            Ok(names) => Ok(Asked::Call(FencedCall::Forfeit { term, names })),
            Err(_) => Err(Answer::out_of_memory(requests)),
        },
        CALL_ADVANCE => Ok(Asked::Call(FencedCall::Advance {
            now: fields.now,
            term,
            first: number,
        })),
        _ => match call_of(requests, alloc, fields, first, second) {
            Ok(call) => Ok(Asked::Call(FencedCall::Make { term, call })),
            Err(answer) => Err(answer),
        },
    }
}

/// The settings of seven numbers in the order of [`Settings`], of which the last is 0 or 1. `None` if
/// they are no settings.
fn configuration_in(list: &[u64]) -> Option<Config>
    ensures { result ≡ configuration_in list.now }
{
    match list {
        [interval, pause, at_once, timeout, tolerable, retained, keep] if *keep <= 1 => Config::new(
            *interval,
            *pause,
            *at_once,
            *timeout,
            *tolerable,
            *retained,
            *keep == 1,
        )
        .ok(),
        _ => None,
    }
}

/// The call of a kind that needs no names, or the answer if the fields and the lists give none.
#[tactic(auto, unfolding(crate::specs::Writing::call_given))]
fn call_of(
    requests: &mut Requests,
    alloc: Global,
    fields: &CallFields,
    first: &[u64],
    second: &[u64],
) -> Result<Call, Answer>
    ensures value { IfOk result (λ call. call_given fields.entry.now first.now second.now ≡ Ok call) }
    ensures fault { IfErr result (IsWhyNoCall (call_given fields.entry.now first.now second.now)) }
    ensures memory { IfErr result (λ answer. answer.code ≡ no_memory → IsOk (call_given fields.entry.now first.now second.now)) }
    ensures numbers { IfErr result HasNoNumbers }
    ensures cause { IfErr result (λ answer. answer.code ≡ no_memory → IsRefused requests.new) }
{
    let now = fields.now;
    let id = CheckpointId(fields.number);
    let file = FileId(fields.number);
    let subtask = SubtaskId {
        vertex: fields.vertex,
        index: fields.index,
    };
    match fields.kind {
        CALL_TICK => Ok(Call::Tick { now }),
        CALL_SAVEPOINT => Ok(Call::Savepoint { now }),
        CALL_ACK => match ack_of(requests, alloc, now, id.0, subtask, first, second) {
            Ok(call) => Ok(call),
            Err(_) => Err(Answer::out_of_memory(requests)),
        },
        CALL_DECLINE => Ok(Call::Decline { now, id, subtask }),
        CALL_DISPOSE => Ok(Call::Dispose { id }),
        CALL_RESTORE => match restore_of(requests, alloc, now, fields.number, first) {
            Ok(call) => Ok(call),
            Err(ShapeFault::BadShape) => Err(Answer::bad_argument(BAD_SHAPE)),
            Err(ShapeFault::Memory) => Err(Answer::out_of_memory(requests)),
        },
        CALL_CANCEL => Ok(Call::Cancel { now }),
        CALL_TAKE => Ok(Call::Take {
            most: fields.number,
        }),
        CALL_DELETED => Ok(Call::Deleted { file }),
        CALL_UNDELETED => Ok(Call::Undeleted { file }),
        CALL_SHOW => Ok(Call::Show { id }),
        CALL_COUNT => Ok(Call::Count { file }),
        CALL_TRIGGER => Ok(Call::Trigger { now }),
        CALL_CONFIGURE => match configuration_in(first) {
            Some(config) => Ok(Call::Configure { now, config }),
            None => Err(Answer::bad_argument(BAD_CONFIG)),
        },
        _ => Err(Answer::bad_argument(BAD_KIND)),
    }
}

/// Writes the lines `config`, `job` and `start` of an opening to the start of the buffer, each with
/// its newline, if the buffer is long enough.
///
/// Returns what `relkvanu_open` returns for arguments outside their limits. Takes memory.
#[unsafe(no_mangle)]
pub extern "C" fn relkvanu_opening_lines(
    alloc: Global,
    settings: &Settings,
    shape: &[u64],
    now: u64,
    lines: &mut [u8],
) -> Answer
    ensures told { result.code ≢ no_memory → result ≡ opening_told (opening_of settings.now shape.now now 1) (length lines.old) }
    ensures front { result.code ≡ 0 → StandsInFront (opening_text (opening_of settings.now shape.now now 1)) lines.old lines.new }
    ensures read { OpeningReadsBack (opening_of settings.now shape.now now 1) result }
    ensures kept { result.code ≢ 0 → lines.new ≡ lines.old }
    ensures memory { OpeningWantsMemory (opening_of settings.now shape.now now 1) result }
    ensures numbers { HasNoNumbers result }
{
    match opening_of(&mut Requests::new(), alloc, settings, shape, now) {
        Ok(text) => write_text(&text, lines),
        Err(answer) => answer,
    }
}

fn opening_of(
    requests: &mut Requests,
    alloc: Global,
    settings: &Settings,
    shape: &[u64],
    now: u64,
) -> Result<String, Answer>
    ensures good { IfOk result (λ text. bad_opening (opening_of settings.now shape.now now 1) ≡ None) }
    ensures text { IfOk result (λ text. string_bytes text ≡ opening_text (opening_of settings.now shape.now now 1)) }
    ensures config { IfOk result (λ text. IsReadAs (line_of_config (configuration_of settings.now)) (config_text (configuration_of settings.now))) }
    ensures job { IfOk result (λ text. IsReadAs (line.Job shape.now) (job_text shape.now)) }
    ensures start { IfOk result (λ text. IsReadAs (line.Start now) (start_text now)) }
    ensures fault { IfErr result (IsWhyNot (opening_of settings.now shape.now now 1)) }
    ensures memory { IfErr result (OpeningWantsMemory (opening_of settings.now shape.now now 1)) }
    ensures numbers { IfErr result HasNoNumbers }
    ensures cause { IfErr result (λ answer. answer.code ≡ no_memory → IsRefused requests.new) }
{
    let config = config_of(settings)?;
    let shape = job_of(requests, alloc, shape)?;
    if now >= MOMENTS_END {
        return Err(Answer::bad_argument(BAD_MOMENT));
    }
    match requests.opening_lines(alloc, &config, &shape, now) {
        Ok(text) => Ok(text),
        Err(_) => Err(Answer::out_of_memory(requests)),
    }
}

/// Writes a text to the start of the buffer, if the buffer is long enough and the text is no longer
/// than a line may be.
fn write_text(text: &str, line: &mut [u8]) -> Answer
    ensures told { result ≡ text_told text.now (length line.old) }
    ensures front { result.code ≡ 0 → StandsInFront text.now line.old line.new }
    ensures short { result.code ≡ 0 → length text.now ≤ LONGEST_LINE }
    ensures kept { result.code ≢ 0 → line.new ≡ line.old }
{
    let bytes = text.as_bytes();
    if bytes.len() > LONGEST_LINE {
        return Answer::bad_line(FAULT_TOO_LONG);
    }
    if line.len() < bytes.len() {
        return Answer::too_short(bytes.len() as u64);
    }
    line[..bytes.len()].copy_from_slice(bytes);
    Answer::done(WRITTEN, bytes.len() as u64, 0)
}
