//! Unaligned barriers at a task, in plain memory of the caller: a byte for each input, a number, and
//! what is done for that record.
//!
//! Every such memory is a recorder, so none is bad. What each function does is a step of
//! [`ckpt_unaligned`].

ghost use Rattle.std.specs.Prelude.{◌≡◌, if◌then◌else◌, ◌<◌, ◌==◌, nat_le, nat_lt, true, false, length, map, Some, Ok, Err, replicate, slice_get};
ghost use Rattle.std.specs.List.{list_any};
ghost use Rattle.ckpt_align.specs.Alignment.{is_a_task, is_open};
ghost use Rattle.ckpt_unaligned.specs.Recording.{begun, delivered, ended, is_idle, is_recording, opened, with_input};
ghost use Rattle.ckpt_unaligned.specs.Steps.{barrier, give_up, is_free_for, overtake, settled, step, whole};
ghost use Rattle.ckpt_align.specs.declared.event.Event.TheVariants as event;
ghost use Rattle.ckpt_unaligned.specs.declared.answer.Answer.TheVariants.{Hold, Process, Record};
ghost use Rattle.relkvanu_barriers.specs.Aligning.{bad_inputs, is_ready};
ghost use Rattle.relkvanu_barriers.specs.Recording.{phase_of, recorder_in, told_as};

use crate::aligning::{
    ENDED, HELD, STEP_ABANDON, STEP_BAD_INPUTS, STEP_CUT, STEP_HOLD, STEP_LATE, STEP_NOTHING,
    STEP_PROCESS, STEP_WAIT, Step, has_open, input_at, open_each, refused, release, step_of,
};
use ckpt_align::{Input, MOST_INPUTS, Refusal};
use ckpt_ids::CheckpointId;
use ckpt_unaligned::{Answer, Phase};

// what a step is, further to those of an aligner
const STEP_RECORD: u32 = 12;

const STEP_SNAP: u32 = 13;

const STEP_COMPLETE: u32 = 14;

/// The recorder of a task, beside the bytes of its inputs.
#[repr(C)]
#[derive(Clone, Copy, Debug, PartialEq, Eq)]
pub struct Recorder {
    /// The greatest record that was begun; 0 before the first.
    pub latest: u64,
    /// What is done for it: 0 nothing, 1 it is aligned, otherwise it is recorded.
    pub phase: u32,
}

/// Begins the recorder of a task with this many inputs, all open: 1 to [`MOST_INPUTS`].
#[unsafe(no_mangle)]
pub extern "C" fn relkvanu_unaligned_open(recorder: &mut Recorder, inputs: &mut [u8]) -> Step
    ensures opened { is_a_task (length inputs.old) ≡ true → (result ≡ is_ready) × (recorder_in recorder.new inputs.new ≡ opened (length inputs.old)) }
    ensures refused { is_a_task (length inputs.old) ≡ false → (result ≡ bad_inputs) × (inputs.new ≡ inputs.old) × (recorder.new ≡ recorder.old) }
{
    if inputs.len() < 1 || inputs.len() > MOST_INPUTS as usize {
        return step_of(STEP_BAD_INPUTS, 0);
    }
    open_each(inputs);
    recorder.latest = 0;
    recorder.phase = number_of(Phase::Idle);
    step_of(STEP_NOTHING, 0)
}

/// An element is next on this input: what is done with it. Changes nothing.
#[unsafe(no_mangle)]
#[tactic(auto, unfolding(ckpt_unaligned::specs::Steps::step))]
pub extern "C" fn relkvanu_unaligned_element(recorder: &Recorder, inputs: &[u8], input: u32) -> Step
    ensures { result ≡ told_as (step (recorder_in recorder.now inputs.now) (event.Element input)).1 }
{
    match input_at(inputs, input) {
        None => refused(Refusal::UnknownInput),
        Some(Input::Open) => told_of(open_element(recorder)),
        Some(Input::Held) => told_of(held_element(recorder)),
        Some(Input::Ended) => refused(Refusal::EndedInput),
    }
}

/// The barrier of this record is next on this input.
#[unsafe(no_mangle)]
#[tactic(auto, unfolding(ckpt_unaligned::specs::Steps::step))]
pub extern "C" fn relkvanu_unaligned_barrier(
    recorder: &mut Recorder,
    inputs: &mut [u8],
    input: u32,
    id: u64,
) -> Step
    ensures state { recorder_in recorder.new inputs.new ≡ (step (recorder_in recorder.old inputs.old) (event.Barrier input id)).0 }
    ensures told { result ≡ told_as (step (recorder_in recorder.old inputs.old) (event.Barrier input id)).1 }
{
    match input_at(inputs, input) {
        None => refused(Refusal::UnknownInput),
        Some(Input::Open) => told_of(barrier(recorder, inputs, input, id)),
        Some(Input::Held) => refused(Refusal::HeldInput),
        Some(Input::Ended) => refused(Refusal::EndedInput),
    }
}

/// Nothing more comes on this input.
#[unsafe(no_mangle)]
#[tactic(auto, unfolding(ckpt_unaligned::specs::Steps::step))]
pub extern "C" fn relkvanu_unaligned_end(
    recorder: &mut Recorder,
    inputs: &mut [u8],
    input: u32,
) -> Step
    ensures state { recorder_in recorder.new inputs.new ≡ (step (recorder_in recorder.old inputs.old) (event.End input)).0 }
    ensures told { result ≡ told_as (step (recorder_in recorder.old inputs.old) (event.End input)).1 }
{
    match input_at(inputs, input) {
        None => refused(Refusal::UnknownInput),
        Some(Input::Open) => told_of(end(recorder, inputs, input)),
        Some(Input::Held) => refused(Refusal::HeldInput),
        Some(Input::Ended) => refused(Refusal::EndedInput),
    }
}

/// The coordinator or the task gives this record up.
#[unsafe(no_mangle)]
#[tactic(auto, unfolding(ckpt_unaligned::specs::Steps::step))]
pub extern "C" fn relkvanu_unaligned_give_up(
    recorder: &mut Recorder,
    inputs: &mut [u8],
    id: u64,
) -> Step
    ensures state { recorder_in recorder.new inputs.new ≡ (step (recorder_in recorder.old inputs.old) (event.GiveUp id)).0 }
    ensures told { result ≡ told_as (step (recorder_in recorder.old inputs.old) (event.GiveUp id)).1 }
{
    told_of(give_up(recorder, inputs, id))
}

/// This record overtakes: its barrier was seen on an input, or has waited there for long enough.
#[unsafe(no_mangle)]
pub extern "C" fn relkvanu_unaligned_overtake(
    recorder: &mut Recorder,
    inputs: &[u8],
    id: u64,
) -> Step
    ensures state { recorder_in recorder.new inputs.now ≡ (overtake (recorder_in recorder.old inputs.now) id).0 }
    ensures told { result ≡ told_as (overtake (recorder_in recorder.old inputs.now) id).1 }
{
    told_of(overtake(recorder, inputs, id))
}

fn told_of(answer: Answer) -> Step
    ensures { result ≡ told_as (Ok answer) }
{
    match answer {
        Answer::Process => step_of(STEP_PROCESS, 0),
        Answer::Record => step_of(STEP_RECORD, 0),
        Answer::Hold => step_of(STEP_HOLD, 0),
        Answer::Nothing => step_of(STEP_NOTHING, 0),
        Answer::Wait => step_of(STEP_WAIT, 0),
        Answer::Late => step_of(STEP_LATE, 0),
        Answer::Cut(id) => step_of(STEP_CUT, id.0),
        Answer::Snap(id) => step_of(STEP_SNAP, id.0),
        Answer::Complete(id) => step_of(STEP_COMPLETE, id.0),
        Answer::Abandon(id) => step_of(STEP_ABANDON, id.0),
    }
}

/// What is done with an element of an input that has not delivered the barrier.
fn open_element(recorder: &Recorder) -> Answer
    ensures { result ≡ (if is_recording (phase_of recorder.now.phase) then Record else Process) }
{
    match phase_of(recorder.phase) {
        Phase::Recording => Answer::Record,
        _ => Answer::Process,
    }
}

/// And of one that has.
fn held_element(recorder: &Recorder) -> Answer
    ensures { result ≡ (if is_recording (phase_of recorder.now.phase) then Process else Hold) }
{
    match phase_of(recorder.phase) {
        Phase::Recording => Answer::Process,
        _ => Answer::Hold,
    }
}

fn phase_of(phase: u32) -> Phase
    ensures { result ≡ phase_of phase }
{
    match phase {
        0 => Phase::Idle,
        1 => Phase::Aligning,
        _ => Phase::Recording,
    }
}

fn number_of(phase: Phase) -> u32
    ensures { phase_of result ≡ phase }
{
    match phase {
        Phase::Idle => 0,
        Phase::Aligning => 1,
        Phase::Recording => 2,
    }
}

/// Whether nothing is done for the latest record.
fn is_idle(recorder: &Recorder) -> bool
    ensures { result ≡ is_idle (phase_of recorder.now.phase) }
{
    matches!(phase_of(recorder.phase), Phase::Idle)
}

/// Whether this record is whole or was given up, or a greater one was begun.
fn is_late(recorder: &Recorder, id: u64) -> bool
    ensures { result ≡ (if is_idle (phase_of recorder.now.phase) then nat_le id recorder.now.latest else nat_lt id recorder.now.latest) }
{
    if is_idle(recorder) {
        id <= recorder.latest
    } else {
        id < recorder.latest
    }
}

/// Whether this record may overtake: nothing is done for another one.
fn is_free_for(recorder: &Recorder, id: u64) -> bool
    ensures { result ≡ is_free_for (phase_of recorder.now.phase) (id == recorder.now.latest) }
{
    match phase_of(recorder.phase) {
        Phase::Idle => true,
        Phase::Aligning => id == recorder.latest,
        Phase::Recording => false,
    }
}

/// The latest record is whole or given up.
fn end_record(recorder: &mut Recorder, inputs: &mut [u8])
    ensures { recorder_in recorder.new inputs.new ≡ ended (recorder_in recorder.old inputs.old) }
{
    release(inputs);
    recorder.phase = number_of(Phase::Idle);
}

/// An input has delivered the barrier of this record.
///
/// Condition: the task has this input.
fn deliver(recorder: &mut Recorder, inputs: &mut [u8], input: u32, id: u64)
    requires { input < length inputs.old }
    ensures { recorder_in recorder.new inputs.new ≡ delivered (recorder_in recorder.old inputs.old) input id }
{
    inputs[input as usize] = HELD;
    recorder.latest = id;
    recorder.phase = begun(recorder.phase);
}

fn begun(phase: u32) -> u32
    ensures { phase_of result ≡ begun (phase_of phase) }
{
    match phase_of(phase) {
        Phase::Idle => number_of(Phase::Aligning),
        other => number_of(other),
    }
}

/// The latest record is whole, if it is open and no input is open any more.
#[tactic(auto, unfolding(ckpt_unaligned::specs::Steps::settled))]
fn settle(recorder: &mut Recorder, inputs: &mut [u8]) -> Answer
    ensures state { recorder_in recorder.new inputs.new ≡ (settled (recorder_in recorder.old inputs.old)).0 }
    ensures answer { Ok result ≡ (settled (recorder_in recorder.old inputs.old)).1 }
{
    if is_idle(recorder) {
        return Answer::Nothing;
    }
    if has_open(inputs) {
        return Answer::Wait;
    }
    let whole = whole_of(recorder);
    end_record(recorder, inputs);
    whole
}

/// The last barrier of the latest record has come.
fn whole_of(recorder: &Recorder) -> Answer
    ensures { result ≡ whole (phase_of recorder.now.phase) recorder.now.latest }
{
    match phase_of(recorder.phase) {
        Phase::Recording => Answer::Complete(CheckpointId(recorder.latest)),
        _ => Answer::Cut(CheckpointId(recorder.latest)),
    }
}

/// An open input has ended.
///
/// Condition: the task has this input.
fn end(recorder: &mut Recorder, inputs: &mut [u8], input: u32) -> Answer
    requires { input < length inputs.old }
    ensures state { recorder_in recorder.new inputs.new ≡ (settled (with_input (recorder_in recorder.old inputs.old) input Input.Ended)).0 }
    ensures answer { Ok result ≡ (settled (with_input (recorder_in recorder.old inputs.old) input Input.Ended)).1 }
{
    inputs[input as usize] = ENDED;
    settle(recorder, inputs)
}

/// A barrier on an open input.
///
/// Condition: the task has this input.
#[tactic(auto, unfolding(ckpt_unaligned::specs::Steps::barrier))]
fn barrier(recorder: &mut Recorder, inputs: &mut [u8], input: u32, id: u64) -> Answer
    requires { input < length inputs.old }
    ensures state { recorder_in recorder.new inputs.new ≡ (barrier (recorder_in recorder.old inputs.old) input id).0 }
    ensures answer { Ok result ≡ (barrier (recorder_in recorder.old inputs.old) input id).1 }
{
    if is_late(recorder, id) {
        return Answer::Late;
    }
    let before = recorder.latest;
    if !is_idle(recorder) && before < id {
        end_record(recorder, inputs);
        return Answer::Abandon(CheckpointId(before));
    }
    deliver(recorder, inputs, input, id);
    settle(recorder, inputs)
}

/// A record is given up.
#[tactic(auto, unfolding(ckpt_unaligned::specs::Steps::give_up))]
fn give_up(recorder: &mut Recorder, inputs: &mut [u8], id: u64) -> Answer
    ensures state { recorder_in recorder.new inputs.new ≡ (give_up (recorder_in recorder.old inputs.old) id).0 }
    ensures answer { Ok result ≡ (give_up (recorder_in recorder.old inputs.old) id).1 }
{
    if is_idle(recorder) || id != recorder.latest {
        return Answer::Nothing;
    }
    end_record(recorder, inputs);
    Answer::Abandon(CheckpointId(id))
}

/// A record overtakes, if it may.
#[tactic(auto, unfolding(ckpt_unaligned::specs::Steps::overtake))]
fn overtake(recorder: &mut Recorder, inputs: &[u8], id: u64) -> Answer
    ensures state { recorder_in recorder.new inputs.now ≡ (overtake (recorder_in recorder.old inputs.now) id).0 }
    ensures answer { Ok result ≡ (overtake (recorder_in recorder.old inputs.now) id).1 }
{
    if is_late(recorder, id) {
        return Answer::Late;
    }
    if has_open(inputs) && is_free_for(recorder, id) {
        recorder.latest = id;
        recorder.phase = number_of(Phase::Recording);
        return Answer::Snap(CheckpointId(id));
    }
    Answer::Nothing
}
