//! Reads for an engine that recovers. They change nothing, and only the pins of a record and the
//! taken files take memory.

ghost use Rattle.std.specs.Prelude.{◌≡◌, ◌≢◌, Some, IfOk, IsErr, IsSome, OnErr, find, length, nat_le, option_map, slice_get};
ghost use Rattle.ckpt_ids.specs.Ascending.{ascending};
ghost use Rattle.ckpt_model.specs.{Coordinator.pending_of, State.State};
ghost use Rattle.ckpt_model.specs.Reads.{live_of, pins_in, standing};
ghost use Rattle.relkvanu.specs.Calls.{HasNoNumbers, IsSame, StaysClosed};
ghost use Rattle.relkvanu.specs.{Reads.live_told, Requested.IsRefused, Told.no_memory, Told.out_of_memory};
ghost use Rattle.relkvanu.specs.Recovery.{BringsList, IsListTold, acked_by, acked_in, acked_told, files_acked, list_told, standing_told, waiting_told};

use crate::answer::Answer;
use crate::buffers::write_files;
use crate::handle::Handle;
use crate::reads::of_live;
use crate::requests::Requests;
use ckpt_core::{Core, Standing};
use ckpt_ids::{CheckpointId, FileId, Files, SubtaskId};
use std::alloc::{AllocError, Global};

const STANDS_PENDING: u32 = 46;

const STANDS_DONE: u32 = 47;

const STANDS_ENDED: u32 = 48;

const STANDS_NOT_YET: u32 = 49;

const STANDS_NEVER: u32 = 50;

const FILES: u32 = 51;

const NOT_ACKNOWLEDGED: u32 = 52;

const WAITING: u32 = 53;

const NONE_WAITS: u32 = 54;

/// The first live record whose number is at least this one. Makes a binary search.
#[unsafe(no_mangle)]
pub extern "C" fn relkvanu_live_from(alloc: Global, handle: &mut Handle, id: u64) -> Answer
    ensures closed { StaysClosed handle.old.value handle.new.value result }
    ensures answered { (m : State) → handle.old.value ≡ Some m → result ≡ live_told (option_map live_of (find (λ r. nat_le id r.id) m.records)) }
    ensures unchanged { IsSame handle.old handle.new }
{
    let Some(machine) = handle.take(alloc) else {
        return Answer::closed();
    };
    let answer = of_live(machine.core().live_from(CheckpointId(id)));
    handle.put(alloc, machine);
    answer
}

/// Whether the record with this number is pending, done or ended, or no record has had the number.
/// Makes a binary search.
#[unsafe(no_mangle)]
pub extern "C" fn relkvanu_standing(alloc: Global, handle: &mut Handle, id: u64) -> Answer
    ensures closed { StaysClosed handle.old.value handle.new.value result }
    ensures answered { (m : State) → handle.old.value ≡ Some m → result ≡ standing_told (standing m id) }
    ensures unchanged { IsSame handle.old handle.new }
{
    let Some(machine) = handle.take(alloc) else {
        return Answer::closed();
    };
    let answer = of_standing(machine.core().standing(CheckpointId(id)));
    handle.put(alloc, machine);
    answer
}

/// Writes the files that this subtask acknowledged in a live record to the start of the buffer, in
/// ascending order.
///
/// If the buffer has too few places, the answer says how many it needs. Makes a binary search for
/// the record and for the subtask.
#[unsafe(no_mangle)]
pub extern "C" fn relkvanu_files_of(
    alloc: Global,
    handle: &mut Handle,
    id: u64,
    vertex: u16,
    index: u16,
    files: &mut [u64],
) -> Answer
    ensures closed { StaysClosed handle.old.value handle.new.value result }
    ensures answered { (m : State) → handle.old.value ≡ Some m → result ≡ acked_told (acked_by m id vertex index) (length files.old) }
    ensures front { (m : State) → handle.old.value ≡ Some m → BringsList (files_acked (acked_by m id vertex index)) files.old files.new result }
    ensures kept { result.code ≢ 0 → files.new ≡ files.old }
    ensures unchanged { IsSame handle.old handle.new }
{
    let Some(machine) = handle.take(alloc) else {
        return Answer::closed();
    };
    let subtask = SubtaskId { vertex, index };
    let answer = write_acked(machine.core(), id, subtask, files);
    handle.put(alloc, machine);
    answer
}

/// Writes the files that a pending record pins to the start of the buffer, in ascending order.
/// Writes none if no record with this number is pending.
///
/// If the buffer has too few places, the answer says how many it needs. Takes memory if the record
/// is pending.
#[unsafe(no_mangle)]
pub extern "C" fn relkvanu_pins_of(
    alloc: Global,
    handle: &mut Handle,
    id: u64,
    files: &mut [u64],
) -> Answer
    ensures closed { StaysClosed handle.old.value handle.new.value result }
    ensures answered { (m : State) → handle.old.value ≡ Some m → IsListTold (pins_in (pending_of m.records id)) (length files.old) result }
    ensures front { (m : State) → handle.old.value ≡ Some m → BringsList (pins_in (pending_of m.records id)) files.old files.new result }
    ensures kept { result.code ≢ 0 → files.new ≡ files.old }
    ensures memory { (m : State) → handle.old.value ≡ Some m → result.code ≡ no_memory → IsSome (pending_of m.records id) }
    ensures numbers { HasNoNumbers result }
    ensures unchanged { IsSame handle.old handle.new }
{
    let Some(machine) = handle.take(alloc) else {
        return Answer::closed();
    };
    let mut requests = Requests::new();
    let found = machine
        .core()
        .pins_of_metered(&mut requests.meter, CheckpointId(id));
    let answer = write_found(&requests, found, files);
    handle.put(alloc, machine);
    answer
}

/// The file at this place among those that wait for deletion. The first is fetched next. Takes
/// constant time.
#[unsafe(no_mangle)]
pub extern "C" fn relkvanu_waiting_file(alloc: Global, handle: &mut Handle, place: usize) -> Answer
    ensures closed { StaysClosed handle.old.value handle.new.value result }
    ensures answered { (m : State) → handle.old.value ≡ Some m → result ≡ waiting_told (slice_get m.waiting place) }
    ensures unchanged { IsSame handle.old handle.new }
{
    let Some(machine) = handle.take(alloc) else {
        return Answer::closed();
    };
    let answer = of_waiting(machine.core().waiting_file(place));
    handle.put(alloc, machine);
    answer
}

/// Writes the files that were fetched for deletion and are not yet reported to the start of the
/// buffer, in ascending order.
///
/// If the buffer has too few places, the answer says how many it needs. Takes memory, and visits
/// each file of the outbox.
#[unsafe(no_mangle)]
pub extern "C" fn relkvanu_taken_files(
    alloc: Global,
    handle: &mut Handle,
    files: &mut [u64],
) -> Answer
    ensures closed { StaysClosed handle.old.value handle.new.value result }
    ensures answered { (m : State) → handle.old.value ≡ Some m → IsListTold (ascending m.taken) (length files.old) result }
    ensures front { (m : State) → handle.old.value ≡ Some m → BringsList (ascending m.taken) files.old files.new result }
    ensures kept { result.code ≢ 0 → files.new ≡ files.old }
    ensures numbers { HasNoNumbers result }
    ensures unchanged { IsSame handle.old handle.new }
{
    let Some(machine) = handle.take(alloc) else {
        return Answer::closed();
    };
    let mut requests = Requests::new();
    let found = machine.core().taken_files_metered(&mut requests.meter);
    let answer = write_found(&requests, found, files);
    handle.put(alloc, machine);
    answer
}

fn of_standing(standing: Standing) -> Answer
    ensures { result ≡ standing_told standing }
{
    match standing {
        Standing::Pending => Answer::done(STANDS_PENDING, 0, 0),
        Standing::Done => Answer::done(STANDS_DONE, 0, 0),
        Standing::Ended => Answer::done(STANDS_ENDED, 0, 0),
        Standing::NotYet => Answer::done(STANDS_NOT_YET, 0, 0),
        Standing::Never => Answer::done(STANDS_NEVER, 0, 0),
    }
}

fn of_waiting(file: Option<FileId>) -> Answer
    ensures { result ≡ waiting_told file }
{
    match file {
        Some(file) => Answer::done(WAITING, file.0, 0),
        None => Answer::done(NONE_WAITS, 0, 0),
    }
}

fn write_acked(core: &Core, id: u64, subtask: SubtaskId, files: &mut [u64]) -> Answer
    ensures told { result ≡ acked_told (acked_in core.now id subtask) (length files.old) }
    ensures front { BringsList (files_acked (acked_in core.now id subtask)) files.old files.new result }
    ensures kept { result.code ≢ 0 → files.new ≡ files.old }
{
    match core.files_of(CheckpointId(id), subtask) {
        Some(list) => write_list(list, files),
        None => Answer::done(NOT_ACKNOWLEDGED, 0, 0),
    }
}

/// Writes the files of a read, unless it ran out of memory.
///
/// Condition: then a request was refused.
fn write_found(requests: &Requests, found: Result<Files, AllocError>, files: &mut [u64]) -> Answer
    requires { OnErr found (IsRefused requests.now) }
    ensures told { IfOk found (λ list. result ≡ list_told list (length files.old)) }
    ensures front { IfOk found (λ list. BringsList list files.old files.new result) }
    ensures kept { result.code ≢ 0 → files.new ≡ files.old }
    ensures memory { IsErr found → result ≡ out_of_memory }
    ensures only { result.code ≡ no_memory → IsErr found }
{
    match found {
        Ok(list) => write_list(list.as_slice(), files),
        Err(_) => Answer::out_of_memory(requests),
    }
}

/// Writes files to the start of the buffer, if it has a place for each.
fn write_list(list: &[FileId], files: &mut [u64]) -> Answer
    ensures told { result ≡ list_told list.now (length files.old) }
    ensures front { BringsList list.now files.old files.new result }
    ensures kept { result.code ≢ 0 → files.new ≡ files.old }
    ensures numbers { result.code ≢ no_memory }
{
    if files.len() < list.len() {
        return Answer::too_short(list.len() as u64);
    }
    write_files(list, files);
    Answer::done(FILES, list.len() as u64, 0)
}
