//! Tells the call that a line of a log says. It is the inverse of `writing`.

ghost use Rattle.std.specs.Prelude.{◌≡◌, ◌≢◌, ◌≤◌, [], true, false, length, Ok};
ghost use Rattle.ckpt_term_lines.specs.TermReading.{term_may_want_memory};
ghost use Rattle.relkvanu.specs.{Buffers.StandsInFront, Calls.HasNoNumbers, Asking.said, Told.no_memory, Writing.given};
ghost use Rattle.relkvanu.specs.Saying.{BringsCallList, BringsFields, CallHasLists, GivesBack, HasLists, asked_told, call_fields, call_first};
ghost use Rattle.relkvanu.specs.Saying.{call_has_no_fields, call_second, fields_of, fields_with, first_of, has_no_fields, lists_told, meant_told};
ghost use Rattle.relkvanu.specs.Saying.{says_call, second_of, settings_of, target_number};

use crate::answer::Answer;
use crate::asked::{Asked, said};
use crate::buffers::write_files;
use crate::lines::LINE_CALL;
use crate::requests::Requests;
use crate::writing::{
    CALL_ACK, CALL_ADVANCE, CALL_CANCEL, CALL_CONFIGURE, CALL_COUNT, CALL_DECLINE, CALL_DELETED,
    CALL_DISPOSE, CALL_FENCE, CALL_FORFEIT, CALL_RESERVE, CALL_RESTORE, CALL_SAVEPOINT, CALL_SHOW,
    CALL_TAKE, CALL_TICK, CALL_TRIGGER, CALL_UNDELETED, CallFields,
};
use ckpt_ids::{Call, Config, FileId, Refusal, SubtaskId, Target};
use ckpt_terms::FencedCall;
use std::alloc::Global;

const NO_SUBTASK: SubtaskId = SubtaskId {
    vertex: 0,
    index: 0,
};

/// Writes the call that a line says: its fields, and its lists to the start of `first` and `second`.
///
/// `first` gets the fresh files of an ack in ascending order, the new shape of a restore, the names of a
/// forfeit in ascending order, or the seven settings of a configure in the order of
/// [`Settings`](crate::opening::Settings), of which the last is 0 or 1. `second` gets the reused files of an ack in ascending order. The
/// term of a call that has none is 0, and so are fields that the kind does not use. If a
/// buffer has too few places, the answer says how many places each needs. A restore to savepoint 0
/// is refused, since no savepoint has this number. A line that says no call, or a restore in a bad
/// shape or with settings
/// outside their limits, has the answer that `relkvanu_line` gives for it. Takes memory for the lists of a
/// line.
#[tactic(auto, unfolding(crate::specs::Saying::meant_told))]
#[unsafe(no_mangle)]
pub extern "C" fn relkvanu_line_call(
    alloc: Global,
    line: &[u8],
    call: &mut CallFields,
    first: &mut [u64],
    second: &mut [u64],
) -> Answer
    ensures told { result.code ≢ no_memory → result ≡ meant_told (said line.now) (length first.old) (length second.old) }
    ensures fields { BringsFields line.now result call.new }
    ensures first { BringsCallList first_of line.now result first.old first.new }
    ensures second { BringsCallList second_of line.now result second.old second.new }
    ensures given { GivesBack line.now result call.new first.new second.new }
    ensures kept { result.what ≢ says_call → (call.new ≡ call.old) × (first.new ≡ first.old) × (second.new ≡ second.old) }
    ensures memory { result.code ≡ no_memory → term_may_want_memory line.now ≡ true }
    ensures numbers { HasNoNumbers result }
{
    match said(&mut Requests::new(), alloc, line) {
        Ok(asked) => write_call(&asked, call, first, second),
        Err(answer) => answer,
    }
}

/// Writes what is asked for, if it has fields and the buffers are long enough.
fn write_call(asked: &Asked, call: &mut CallFields, first: &mut [u64], second: &mut [u64]) -> Answer
    ensures told { result ≡ asked_told asked.now (length first.old) (length second.old) }
    ensures fields { result.what ≡ says_call → call.new ≡ fields_of asked.now }
    ensures first { result.what ≡ says_call → StandsInFront (first_of asked.now) first.old first.new }
    ensures second { result.what ≡ says_call → StandsInFront (second_of asked.now) second.old second.new }
    ensures given { result.what ≡ says_call → given (fields_of asked.now) (first_of asked.now) (second_of asked.now) ≡ Ok asked.now }
    ensures lengths { result.what ≡ says_call → (result.a ≡ length (first_of asked.now)) × (result.b ≡ length (second_of asked.now)) }
    ensures kept { result.what ≢ says_call → (call.new ≡ call.old) × (first.new ≡ first.old) × (second.new ≡ second.old) }
    ensures code { result.code ≢ no_memory }
{
    if has_no_fields(asked) {
        return Answer::of_refusal(Refusal::NoSuchSavepoint);
    }
    let answer = write_lists(asked, first, second);
    if answer.what() == LINE_CALL {
        recall_given(asked);
        *call = fields_of(asked);
    }
    answer
}

/// Whether it is a restore to savepoint 0.
fn has_no_fields(asked: &Asked) -> bool
    ensures { result ≡ has_no_fields asked.now }
{
    match asked {
        Asked::Call(FencedCall::Make { term: _, call }) => call_has_no_fields(call),
        _ => false,
    }
}

fn call_has_no_fields(call: &Call) -> bool
    ensures { result ≡ call_has_no_fields call.now }
{
    match call {
        Call::Restore {
            now: _,
            target: Target::Savepoint(id),
            shape: _,
        } => id.0 == 0,
        _ => false,
    }
}

/// Does nothing. Its contract says that the fields and the lists give what is asked for.
fn recall_given(asked: &Asked)
    ensures { has_no_fields asked.now ≡ false → given (fields_of asked.now) (first_of asked.now) (second_of asked.now) ≡ Ok asked.now }
{
    recall_lists(asked);
}

/// Does nothing. Its contract says what the types of the lists keep.
fn recall_lists(asked: &Asked)
    ensures { HasLists asked.now }
{
    match asked {
        Asked::Call(FencedCall::Forfeit { term: _, names }) => names.recall(),
        Asked::Call(FencedCall::Make { term: _, call }) => recall_call_lists(call),
        _ => (),
    }
}

fn recall_call_lists(call: &Call)
    ensures { CallHasLists call.now }
{
    match call {
        Call::Ack {
            now: _,
            id: _,
            subtask: _,
            fresh,
            reused,
        } => {
            fresh.recall();
            reused.recall();
        }
        Call::Restore {
            now: _,
            target: _,
            shape: Some(shape),
        } => shape.recall(),
        // The contract of this read says that the settings are within their limits.
        Call::Configure { now: _, config } => {
            let _ = config.interval();
        }
        _ => (),
    }
}

fn fields_of(asked: &Asked) -> CallFields
    ensures { result ≡ fields_of asked.now }
{
    match asked {
        Asked::Fence { first } => fields_with(CALL_FENCE, NO_SUBTASK, 0, *first, 0),
        Asked::Call(FencedCall::Reserve { term, count }) => {
            fields_with(CALL_RESERVE, NO_SUBTASK, 0, *count, *term)
        }
        Asked::Call(FencedCall::Forfeit { term, names: _ }) => {
            fields_with(CALL_FORFEIT, NO_SUBTASK, 0, 0, *term)
        }
        Asked::Call(FencedCall::Advance { now, term, first }) => {
            fields_with(CALL_ADVANCE, NO_SUBTASK, *now, *first, *term)
        }
        Asked::Call(FencedCall::Make { term, call }) => call_fields(*term, call),
    }
}

fn call_fields(term: u64, call: &Call) -> CallFields
    ensures { result ≡ call_fields term call.now }
{
    let none = NO_SUBTASK;
    match call {
        Call::Tick { now } => fields_with(CALL_TICK, none, *now, 0, term),
        Call::Savepoint { now } => fields_with(CALL_SAVEPOINT, none, *now, 0, term),
        Call::Ack {
            now,
            id,
            subtask,
            fresh: _,
            reused: _,
        } => fields_with(CALL_ACK, *subtask, *now, id.0, term),
        Call::Decline { now, id, subtask } => fields_with(CALL_DECLINE, *subtask, *now, id.0, term),
        Call::Dispose { id } => fields_with(CALL_DISPOSE, none, 0, id.0, term),
        Call::Restore {
            now,
            target,
            shape: _,
        } => fields_with(CALL_RESTORE, none, *now, target_number(*target), term),
        Call::Cancel { now } => fields_with(CALL_CANCEL, none, *now, 0, term),
        Call::Take { most } => fields_with(CALL_TAKE, none, 0, *most, term),
        Call::Deleted { file } => fields_with(CALL_DELETED, none, 0, file.0, term),
        Call::Undeleted { file } => fields_with(CALL_UNDELETED, none, 0, file.0, term),
        Call::Show { id } => fields_with(CALL_SHOW, none, 0, id.0, term),
        Call::Count { file } => fields_with(CALL_COUNT, none, 0, file.0, term),
        Call::Trigger { now } => fields_with(CALL_TRIGGER, none, *now, 0, term),
        Call::Configure { now, config: _ } => fields_with(CALL_CONFIGURE, none, *now, 0, term),
    }
}

fn fields_with(kind: u32, subtask: SubtaskId, now: u64, number: u64, term: u64) -> CallFields
    ensures { result ≡ fields_with kind subtask now number term }
{
    CallFields {
        kind,
        vertex: subtask.vertex,
        index: subtask.index,
        now,
        number,
        term,
    }
}

/// The savepoint, or 0 for the latest record.
fn target_number(target: Target) -> u64
    ensures { result ≡ target_number target }
{
    match target {
        Target::Latest => 0,
        Target::Savepoint(id) => id.0,
    }
}

/// Writes the lists to the start of the buffers, if both are long enough.
fn write_lists(asked: &Asked, first: &mut [u64], second: &mut [u64]) -> Answer
    ensures told { result ≡ lists_told (first_of asked.now) (second_of asked.now) (length first.old) (length second.old) }
    ensures first { result.what ≡ says_call → StandsInFront (first_of asked.now) first.old first.new }
    ensures second { result.what ≡ says_call → StandsInFront (second_of asked.now) second.old second.new }
    ensures kept { result.what ≢ says_call → (first.new ≡ first.old) × (second.new ≡ second.old) }
{
    match asked {
        Asked::Call(FencedCall::Forfeit { term: _, names }) => {
            write_files_of(names.as_slice(), &[], first, second)
        }
        Asked::Call(FencedCall::Make { term: _, call }) => write_call_lists(call, first, second),
        _ => Answer::done(LINE_CALL, 0, 0),
    }
}

fn write_call_lists(call: &Call, first: &mut [u64], second: &mut [u64]) -> Answer
    ensures told { result ≡ lists_told (call_first call.now) (call_second call.now) (length first.old) (length second.old) }
    ensures first { result.what ≡ says_call → StandsInFront (call_first call.now) first.old first.new }
    ensures second { result.what ≡ says_call → StandsInFront (call_second call.now) second.old second.new }
    ensures kept { result.what ≢ says_call → (first.new ≡ first.old) × (second.new ≡ second.old) }
{
    match call {
        Call::Ack {
            now: _,
            id: _,
            subtask: _,
            fresh,
            reused,
        } => write_files_of(fresh.as_slice(), reused.as_slice(), first, second),
        Call::Restore {
            now: _,
            target: _,
            shape: Some(shape),
        } => write_shape(shape.as_slice(), first),
        Call::Configure { now: _, config } => write_settings(config, first),
        _ => Answer::done(LINE_CALL, 0, 0),
    }
}

/// Writes two lists of files.
fn write_files_of(
    fresh: &[FileId],
    reused: &[FileId],
    first: &mut [u64],
    second: &mut [u64],
) -> Answer
    ensures told { result ≡ lists_told fresh.now reused.now (length first.old) (length second.old) }
    ensures first { result.what ≡ says_call → StandsInFront fresh.now first.old first.new }
    ensures second { result.what ≡ says_call → StandsInFront reused.now second.old second.new }
    ensures kept { result.what ≢ says_call → (first.new ≡ first.old) × (second.new ≡ second.old) }
{
    if first.len() < fresh.len() || second.len() < reused.len() {
        return Answer::too_short_for(fresh.len() as u64, reused.len() as u64);
    }
    write_files(fresh, first);
    write_files(reused, second);
    Answer::done(LINE_CALL, fresh.len() as u64, reused.len() as u64)
}

fn write_shape(shape: &[u32], first: &mut [u64]) -> Answer
    ensures told { result ≡ lists_told shape.now [] (length first.old) 0 }
    ensures first { result.what ≡ says_call → StandsInFront shape.now first.old first.new }
    ensures kept { result.what ≢ says_call → first.new ≡ first.old }
{
    if first.len() < shape.len() {
        return Answer::too_short_for(shape.len() as u64, 0);
    }
    write_parallelisms(shape, first);
    Answer::done(LINE_CALL, shape.len() as u64, 0)
}

/// Writes settings in the order of [`Settings`](crate::opening::Settings), of which the last is 0 or
/// 1.
fn write_settings(config: &Config, first: &mut [u64]) -> Answer
    ensures told { result ≡ lists_told (settings_of config.now) [] (length first.old) 0 }
    ensures first { result.what ≡ says_call → StandsInFront (settings_of config.now) first.old first.new }
    ensures kept { result.what ≢ says_call → first.new ≡ first.old }
{
    let settings = [
        config.interval(),
        config.pause(),
        u64::from(config.at_once()),
        config.timeout(),
        u64::from(config.tolerable()),
        u64::from(config.retained()),
        u64::from(config.keep_on_cancel()),
    ];
    if first.len() < settings.len() {
        return Answer::too_short_for(settings.len() as u64, 0);
    }
    first[..settings.len()].copy_from_slice(&settings);
    Answer::done(LINE_CALL, settings.len() as u64, 0)
}

/// Writes parallelisms to the start of a buffer.
///
/// Condition: the buffer has a place for each.
fn write_parallelisms(shape: &[u32], first: &mut [u64])
    requires fits { length shape.now ≤ length first.old }
    ensures { StandsInFront shape.now first.old first.new }
{
    for place in 0..shape.len() {
        first[place] = u64::from(shape[place]);
    }
}
