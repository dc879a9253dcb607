//! Reads of a handle's coordinator. None takes memory or changes anything.

ghost use Rattle.std.specs.Prelude.{◌≡◌, None, Some, option_map, slice_get};
ghost use Rattle.ckpt_ids.specs.Records.{missing};
ghost use Rattle.ckpt_model.specs.Coordinator.{IsSound, State, choice_of, pending_of};
ghost use Rattle.ckpt_model.specs.Reads.{IsNextExpiry, NoneIsEarlyFrom, NoneTriggersBefore, live_of, next_due};
ghost use Rattle.relkvanu.specs.Calls.{IsSame, StaysClosed};
ghost use Rattle.relkvanu.specs.Reads.{choice_told, counts_of, due_told, expiry_in, expiry_told, live_told, missing_told, mode_told, moment_told, no_counts};

use crate::answer::{Answer, CLOSED, DONE};
use crate::handle::Handle;
use ckpt_core::{Live, Mode};
use ckpt_ids::{CheckpointId, Choice, Kind};
use std::alloc::Global;

// what the answer is
const MODE_RUNNING: u32 = 23;

const MODE_FAILED: u32 = 24;

const MODE_CANCELLED: u32 = 25;

const DUE: u32 = 26;

const EXPIRES: u32 = 27;

const NONE_PENDING: u32 = 28;

const CHOICE_CHECKPOINT: u32 = 29;

const CHOICE_SAVEPOINT: u32 = 30;

const CHOICE_FRESH: u32 = 31;

const LIVE_CHECKPOINT: u32 = 32;

const LIVE_SAVEPOINT: u32 = 33;

const LIVE_NONE: u32 = 34;

const MISSING: u32 = 35;

const NOT_PENDING: u32 = 36;

const MOMENT: u32 = 55;

/// The numbers of files.
#[repr(C)]
#[derive(Clone, Copy, Debug, PartialEq, Eq)]
pub struct FileCounts {
    /// `DONE`, or `CLOSED` and all numbers 0.
    pub code: u32,
    /// How many files live records use, each counted once.
    pub in_use: u64,
    /// How many files wait for deletion.
    pub waiting: u64,
    /// How many files were fetched for deletion and are not yet reported.
    pub taken: u64,
}

/// What the job is doing.
#[unsafe(no_mangle)]
pub extern "C" fn relkvanu_mode(alloc: Global, handle: &mut Handle) -> Answer
    ensures closed { StaysClosed handle.old.value handle.new.value result }
    ensures answered { (m : State) → handle.old.value ≡ Some m → result ≡ mode_told m.mode }
    ensures sound { (m : State) → handle.old.value ≡ Some m → IsSound m }
    ensures unchanged { IsSame handle.old handle.new }
{
    let Some(machine) = handle.take(alloc) else {
        return Answer::closed();
    };
    let answer = of_mode(machine.core().mode());
    handle.put(alloc, machine);
    answer
}

/// The greatest moment that the coordinator has seen, in milliseconds.
#[unsafe(no_mangle)]
pub extern "C" fn relkvanu_moment(alloc: Global, handle: &mut Handle) -> Answer
    ensures closed { StaysClosed handle.old.value handle.new.value result }
    ensures answered { (m : State) → handle.old.value ≡ Some m → result ≡ moment_told m.latest }
    ensures unchanged { IsSame handle.old handle.new }
{
    let Some(machine) = handle.take(alloc) else {
        return Answer::closed();
    };
    let answer = Answer::done(MOMENT, machine.core().moment(), 0);
    handle.put(alloc, machine);
    answer
}

/// The moment from which neither the interval nor the pause holds a checkpoint back, in
/// milliseconds: the moment of the next tick.
#[unsafe(no_mangle)]
pub extern "C" fn relkvanu_due(alloc: Global, handle: &mut Handle) -> Answer
    ensures closed { StaysClosed handle.old.value handle.new.value result }
    ensures answered { (m : State) → handle.old.value ≡ Some m → result ≡ due_told (next_due m) }
    ensures before { (m : State) → handle.old.value ≡ Some m → NoneTriggersBefore m result.a }
    ensures from { (m : State) → handle.old.value ≡ Some m → NoneIsEarlyFrom m result.a }
    ensures unchanged { IsSame handle.old handle.new }
{
    let Some(machine) = handle.take(alloc) else {
        return Answer::closed();
    };
    let answer = Answer::done(DUE, machine.core().due(), 0);
    handle.put(alloc, machine);
    answer
}

/// The moment at which the first pending record expires, in milliseconds, if one is pending. Visits
/// each pending record.
#[unsafe(no_mangle)]
pub extern "C" fn relkvanu_oldest_expiry(alloc: Global, handle: &mut Handle) -> Answer
    ensures closed { StaysClosed handle.old.value handle.new.value result }
    ensures answered { (m : State) → handle.old.value ≡ Some m → result ≡ expiry_told (expiry_in result) }
    ensures moment { (m : State) → handle.old.value ≡ Some m → IsNextExpiry m (expiry_in result) }
    ensures unchanged { IsSame handle.old handle.new }
{
    let Some(machine) = handle.take(alloc) else {
        return Answer::closed();
    };
    let answer = of_expiry(machine.core().oldest_expiry());
    handle.put(alloc, machine);
    answer
}

/// The record that a restart begins from.
#[unsafe(no_mangle)]
pub extern "C" fn relkvanu_choice(alloc: Global, handle: &mut Handle) -> Answer
    ensures closed { StaysClosed handle.old.value handle.new.value result }
    ensures answered { (m : State) → handle.old.value ≡ Some m → result ≡ choice_told (choice_of m) }
    ensures unchanged { IsSame handle.old handle.new }
{
    let Some(machine) = handle.take(alloc) else {
        return Answer::closed();
    };
    let answer = of_choice(machine.core().choice());
    handle.put(alloc, machine);
    answer
}

/// The live record at this place, in order of their numbers. Makes a binary search for each place
/// before it, and visits the pending records.
#[unsafe(no_mangle)]
pub extern "C" fn relkvanu_live(alloc: Global, handle: &mut Handle, place: usize) -> Answer
    ensures closed { StaysClosed handle.old.value handle.new.value result }
    ensures answered { (m : State) → handle.old.value ≡ Some m → result ≡ live_told (option_map live_of (slice_get m.records place)) }
    ensures unchanged { IsSame handle.old handle.new }
{
    let Some(machine) = handle.take(alloc) else {
        return Answer::closed();
    };
    let answer = of_live(machine.core().live(place));
    handle.put(alloc, machine);
    answer
}

/// The number of subtasks of this pending record that have not acknowledged.
#[unsafe(no_mangle)]
pub extern "C" fn relkvanu_missing(alloc: Global, handle: &mut Handle, id: u64) -> Answer
    ensures closed { StaysClosed handle.old.value handle.new.value result }
    ensures answered { (m : State) → handle.old.value ≡ Some m → result ≡ missing_told (option_map missing (pending_of m.records id)) }
    ensures unchanged { IsSame handle.old handle.new }
{
    let Some(machine) = handle.take(alloc) else {
        return Answer::closed();
    };
    let answer = of_missing(machine.core().missing(CheckpointId(id)));
    handle.put(alloc, machine);
    answer
}

/// How many files are in use by live records, wait for deletion, and were fetched for deletion.
#[unsafe(no_mangle)]
pub extern "C" fn relkvanu_file_counts(alloc: Global, handle: &mut Handle) -> FileCounts
    ensures closed { handle.old.value ≡ None → result ≡ no_counts }
    ensures answered { (m : State) → handle.old.value ≡ Some m → result ≡ counts_of m }
    ensures unchanged { IsSame handle.old handle.new }
{
    let Some(machine) = handle.take(alloc) else {
        return FileCounts {
            code: CLOSED,
            in_use: 0,
            waiting: 0,
            taken: 0,
        };
    };
    let counts = FileCounts {
        code: DONE,
        in_use: machine.core().files_in_use(),
        waiting: machine.core().files_waiting(),
        taken: machine.core().files_taken(),
    };
    handle.put(alloc, machine);
    counts
}

fn of_mode(mode: Mode) -> Answer
    ensures { result ≡ mode_told mode }
{
    match mode {
        Mode::Running => Answer::done(MODE_RUNNING, 0, 0),
        Mode::Failed => Answer::done(MODE_FAILED, 0, 0),
        Mode::Cancelled => Answer::done(MODE_CANCELLED, 0, 0),
    }
}

fn of_expiry(moment: Option<u64>) -> Answer
    ensures told { result ≡ expiry_told moment }
    ensures moment { expiry_in result ≡ moment }
{
    match moment {
        Some(moment) => Answer::done(EXPIRES, moment, 0),
        None => Answer::done(NONE_PENDING, 0, 0),
    }
}

fn of_choice(choice: Choice) -> Answer
    ensures { result ≡ choice_told choice }
{
    match choice {
        Choice::Checkpoint(id) => Answer::done(CHOICE_CHECKPOINT, id.0, 0),
        Choice::Savepoint(id) => Answer::done(CHOICE_SAVEPOINT, id.0, 0),
        Choice::Fresh => Answer::done(CHOICE_FRESH, 0, 0),
    }
}

pub(crate) fn of_live(live: Option<Live>) -> Answer
    ensures { result ≡ live_told live }
{
    let Some(live) = live else {
        return Answer::done(LIVE_NONE, 0, 0);
    };
    let done = u64::from(live.done);
    match live.kind {
        Kind::Checkpoint => Answer::done(LIVE_CHECKPOINT, live.id.0, done),
        Kind::Savepoint => Answer::done(LIVE_SAVEPOINT, live.id.0, done),
    }
}

fn of_missing(subtasks: Option<u32>) -> Answer
    ensures { result ≡ missing_told subtasks }
{
    match subtasks {
        Some(subtasks) => Answer::done(MISSING, u64::from(subtasks), 0),
        None => Answer::done(NOT_PENDING, 0, 0),
    }
}
