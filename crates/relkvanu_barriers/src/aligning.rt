//! The alignment of a task, in plain memory of the caller: a byte for each input, and a number.
//!
//! Every such memory is an alignment, so none is bad. What each function does is the step of
//! [`ckpt_align::Aligner`].

ghost use Rattle.std.specs.Prelude.{◌≡◌, ◌<◌, true, false, length, map, Some, Ok, Err, IfErr, OnOk, replicate, slice_get};
ghost use Rattle.std.specs.List.{list_any};
ghost use Rattle.ckpt_align.specs.Alignment.{all_released, held_for, is_a_task, is_held, is_late, is_open, opened, released, with_input};
ghost use Rattle.ckpt_align.specs.Steps.{barrier, element, give_up, settled, step};
ghost use Rattle.relkvanu_barriers.specs.declared.aligning.Aligner.{Aligner};
ghost use Rattle.ckpt_align.specs.declared.event.Event.TheVariants as event;
ghost use Rattle.relkvanu_barriers.specs.Aligning.{IsNotOpen, alignment_in, bad_inputs, input_of, is_ready, told};

use ckpt_align::{Answer, Input, MOST_INPUTS, Refusal};
use ckpt_ids::CheckpointId;

// what a step is
pub(crate) const STEP_PROCESS: u32 = 1;

pub(crate) const STEP_HOLD: u32 = 2;

pub(crate) const STEP_NOTHING: u32 = 3;

pub(crate) const STEP_WAIT: u32 = 4;

pub(crate) const STEP_LATE: u32 = 5;

pub(crate) const STEP_CUT: u32 = 6;

pub(crate) const STEP_ABANDON: u32 = 7;

const STEP_UNKNOWN_INPUT: u32 = 8;

const STEP_HELD_INPUT: u32 = 9;

const STEP_ENDED_INPUT: u32 = 10;

pub(crate) const STEP_BAD_INPUTS: u32 = 11;

// the bytes of inputs
const OPEN: u8 = 0;

pub(crate) const HELD: u8 = 1;

pub(crate) const ENDED: u8 = 2;

/// The alignment of a task, beside the bytes of its inputs.
#[repr(C)]
#[derive(Clone, Copy, Debug, PartialEq, Eq)]
pub struct Aligner {
    /// The greatest record that an alignment began for; 0 before the first.
    pub latest: u64,
}

/// What an engine does next.
#[repr(C)]
#[derive(Clone, Copy, Debug, PartialEq, Eq)]
pub struct Step {
    /// One of the numbers above.
    pub what: u32,
    /// The record of a cut or of an abandon, or 0.
    pub id: u64,
}

/// Begins the alignment of a task with this many inputs, all open: 1 to [`MOST_INPUTS`].
#[unsafe(no_mangle)]
pub extern "C" fn relkvanu_align_open(aligner: &mut Aligner, inputs: &mut [u8]) -> Step
    ensures opened { is_a_task (length inputs.old) ≡ true → (result ≡ is_ready) × (alignment_in aligner.new inputs.new ≡ opened (length inputs.old)) }
    ensures refused { is_a_task (length inputs.old) ≡ false → (result ≡ bad_inputs) × (inputs.new ≡ inputs.old) × (aligner.new ≡ aligner.old) }
{
    if inputs.len() < 1 || inputs.len() > MOST_INPUTS as usize {
        return step_of(STEP_BAD_INPUTS, 0);
    }
    open_each(inputs);
    aligner.latest = 0;
    step_of(STEP_NOTHING, 0)
}

/// An element is next on this input: whether it may be processed now. Changes nothing.
#[unsafe(no_mangle)]
#[tactic(auto, unfolding(ckpt_align::specs::Steps::step))]
pub extern "C" fn relkvanu_align_element(aligner: &Aligner, inputs: &[u8], input: u32) -> Step
    ensures { result ≡ told (step (alignment_in aligner.now inputs.now) (event.Element input)).1 }
{
    let Some(byte) = inputs.get(input as usize) else {
        return step_of(STEP_UNKNOWN_INPUT, 0);
    };
    match *byte {
        OPEN => step_of(STEP_PROCESS, 0),
        HELD => step_of(STEP_HOLD, 0),
        _ => step_of(STEP_ENDED_INPUT, 0),
    }
}

/// The barrier of this record is next on this input.
#[unsafe(no_mangle)]
#[tactic(auto, unfolding(ckpt_align::specs::Steps::step))]
pub extern "C" fn relkvanu_align_barrier(
    aligner: &mut Aligner,
    inputs: &mut [u8],
    input: u32,
    id: u64,
) -> Step
    ensures state { alignment_in aligner.new inputs.new ≡ (step (alignment_in aligner.old inputs.old) (event.Barrier input id)).0 }
    ensures told { result ≡ told (step (alignment_in aligner.old inputs.old) (event.Barrier input id)).1 }
{
    match open_input(inputs, input) {
        Ok(()) => told_of(barrier(aligner, inputs, input, id)),
        Err(why) => refused(why),
    }
}

/// Nothing more comes on this input.
#[unsafe(no_mangle)]
#[tactic(auto, unfolding(ckpt_align::specs::Steps::step))]
pub extern "C" fn relkvanu_align_end(aligner: &mut Aligner, inputs: &mut [u8], input: u32) -> Step
    ensures state { alignment_in aligner.new inputs.new ≡ (step (alignment_in aligner.old inputs.old) (event.End input)).0 }
    ensures told { result ≡ told (step (alignment_in aligner.old inputs.old) (event.End input)).1 }
{
    match open_input(inputs, input) {
        Ok(()) => told_of(end(aligner, inputs, input)),
        Err(why) => refused(why),
    }
}

/// The coordinator or the task gives this record up.
#[unsafe(no_mangle)]
#[tactic(auto, unfolding(ckpt_align::specs::Steps::step))]
pub extern "C" fn relkvanu_align_give_up(aligner: &mut Aligner, inputs: &mut [u8], id: u64) -> Step
    ensures state { alignment_in aligner.new inputs.new ≡ (step (alignment_in aligner.old inputs.old) (event.GiveUp id)).0 }
    ensures told { result ≡ told (step (alignment_in aligner.old inputs.old) (event.GiveUp id)).1 }
{
    told_of(give_up(aligner, inputs, id))
}

pub(crate) fn step_of(what: u32, id: u64) -> Step
    ensures { result ≡ record { what = what; id = id } }
{
    Step { what, id }
}

fn told_of(answer: Answer) -> Step
    ensures { result ≡ told (Ok answer) }
{
    match answer {
        Answer::Process => step_of(STEP_PROCESS, 0),
        Answer::Hold => step_of(STEP_HOLD, 0),
        Answer::Nothing => step_of(STEP_NOTHING, 0),
        Answer::Wait => step_of(STEP_WAIT, 0),
        Answer::Late => step_of(STEP_LATE, 0),
        Answer::Cut(id) => step_of(STEP_CUT, id.0),
        Answer::Abandon(id) => step_of(STEP_ABANDON, id.0),
    }
}

pub(crate) fn refused(why: Refusal) -> Step
    ensures { result ≡ told (Err why) }
{
    match why {
        Refusal::UnknownInput => step_of(STEP_UNKNOWN_INPUT, 0),
        Refusal::HeldInput => step_of(STEP_HELD_INPUT, 0),
        Refusal::EndedInput => step_of(STEP_ENDED_INPUT, 0),
    }
}

/// How an input is.
pub(crate) fn input_of(byte: u8) -> Input
    ensures { result ≡ input_of byte }
{
    match byte {
        OPEN => Input::Open,
        HELD => Input::Held,
        _ => Input::Ended,
    }
}

/// How an input is, or `None` if the task has no such input.
pub(crate) fn input_at(inputs: &[u8], input: u32) -> Option<Input>
    ensures { result ≡ slice_get (map input_of inputs.now) input }
{
    let byte = inputs.get(input as usize)?;
    Some(input_of(*byte))
}

/// Refuses a barrier or an end unless this input is open.
fn open_input(inputs: &[u8], input: u32) -> Result<(), Refusal>
    ensures ok { OnOk result (slice_get (map input_of inputs.now) input ≡ Some Input.Open) }
    ensures within { OnOk result (input < length inputs.now) }
    ensures err { IfErr result (λ why. IsNotOpen inputs.now input why) }
{
    match input_at(inputs, input) {
        None => Err(Refusal::UnknownInput),
        Some(Input::Open) => Ok(()),
        Some(Input::Held) => Err(Refusal::HeldInput),
        Some(Input::Ended) => Err(Refusal::EndedInput),
    }
}

/// All inputs are open.
pub(crate) fn open_each(inputs: &mut [u8])
    ensures { map input_of inputs.new ≡ replicate (length inputs.old) Input.Open }
{
    for input in inputs.iter_mut() {
        *input = OPEN;
    }
}

/// Releases the inputs that are held.
pub(crate) fn release(inputs: &mut [u8])
    ensures { map input_of inputs.new ≡ map released (map input_of inputs.old) }
{
    for input in inputs.iter_mut() {
        *input = released_of(*input);
    }
}

pub(crate) fn released_of(byte: u8) -> u8
    ensures { input_of result ≡ released (input_of byte) }
{
    if byte == HELD { OPEN } else { byte }
}

/// Whether a record is being aligned.
fn is_aligning(inputs: &[u8]) -> bool
    ensures { result ≡ list_any is_held (map input_of inputs.now) }
{
    inputs.contains(&HELD)
}

/// Whether an input is open.
pub(crate) fn has_open(inputs: &[u8]) -> bool
    ensures { result ≡ list_any is_open (map input_of inputs.now) }
{
    inputs.contains(&OPEN)
}

/// An open input has ended.
///
/// Condition: the task has this input.
fn end(aligner: &Aligner, inputs: &mut [u8], input: u32) -> Answer
    requires { input < length inputs.old }
    ensures state { alignment_in aligner.now inputs.new ≡ (settled (with_input (alignment_in aligner.now inputs.old) input Input.Ended)).0 }
    ensures answer { Ok result ≡ (settled (with_input (alignment_in aligner.now inputs.old) input Input.Ended)).1 }
{
    inputs[input as usize] = ENDED;
    settle(aligner, inputs)
}

/// An input has delivered the barrier of this record.
///
/// Condition: the task has this input.
fn hold(aligner: &mut Aligner, inputs: &mut [u8], input: u32, id: u64)
    requires { input < length inputs.old }
    ensures { alignment_in aligner.new inputs.new ≡ held_for (alignment_in aligner.old inputs.old) input id }
{
    inputs[input as usize] = HELD;
    aligner.latest = id;
}

/// Whether a barrier of this record comes too late.
fn is_late(aligner: &Aligner, inputs: &[u8], id: u64) -> bool
    ensures { result ≡ is_late (alignment_in aligner.now inputs.now) id }
{
    if is_aligning(inputs) {
        id < aligner.latest
    } else {
        id <= aligner.latest
    }
}

/// The cut, if a record is being aligned and no input is open any more.
#[tactic(auto, unfolding(ckpt_align::specs::Steps::settled))]
fn settle(aligner: &Aligner, inputs: &mut [u8]) -> Answer
    ensures state { alignment_in aligner.now inputs.new ≡ (settled (alignment_in aligner.now inputs.old)).0 }
    ensures answer { Ok result ≡ (settled (alignment_in aligner.now inputs.old)).1 }
{
    if !is_aligning(inputs) {
        return Answer::Nothing;
    }
    if has_open(inputs) {
        return Answer::Wait;
    }
    release(inputs);
    Answer::Cut(CheckpointId(aligner.latest))
}

/// A barrier on an open input.
///
/// Condition: the task has this input.
#[tactic(auto, unfolding(ckpt_align::specs::Steps::barrier))]
fn barrier(aligner: &mut Aligner, inputs: &mut [u8], input: u32, id: u64) -> Answer
    requires { input < length inputs.old }
    ensures state { alignment_in aligner.new inputs.new ≡ (barrier (alignment_in aligner.old inputs.old) input id).0 }
    ensures answer { Ok result ≡ (barrier (alignment_in aligner.old inputs.old) input id).1 }
{
    if is_late(aligner, inputs, id) {
        return Answer::Late;
    }
    let before = aligner.latest;
    if is_aligning(inputs) && before < id {
        release(inputs);
        hold(aligner, inputs, input, id);
        return Answer::Abandon(CheckpointId(before));
    }
    hold(aligner, inputs, input, id);
    settle(aligner, inputs)
}

/// A record is given up.
#[tactic(auto, unfolding(ckpt_align::specs::Steps::give_up))]
fn give_up(aligner: &Aligner, inputs: &mut [u8], id: u64) -> Answer
    ensures state { alignment_in aligner.now inputs.new ≡ (give_up (alignment_in aligner.now inputs.old) id).0 }
    ensures answer { Ok result ≡ (give_up (alignment_in aligner.now inputs.old) id).1 }
{
    if !is_aligning(inputs) || id != aligner.latest {
        return Answer::Nothing;
    }
    release(inputs);
    Answer::Abandon(CheckpointId(id))
}
