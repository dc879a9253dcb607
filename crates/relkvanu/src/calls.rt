//! The calls through a handle.

ghost use Rattle.std.specs.Prelude.{◌≡◌, ◌≢◌, ◌↔◌, true, [], None, Some, Err, IfOk, OnErr};
ghost use Rattle.ckpt_ids.specs.Ascending.{ascending};
ghost use Rattle.ckpt_model.specs.{Memory.may_want_memory, State.State};
ghost use Rattle.ckpt_terms.specs.Machines.{core_in, is_free, names_in, passes};
ghost use Rattle.relkvanu.specs.Calls.{HasNoNumbers, IsAnswered, IsAnsweredPlainly, IsBadShape, IsRefusedAs, IsStepTold, StaysAsItWas, StaysClosed};
ghost use Rattle.relkvanu.specs.Calls.{WantsMemory, ack_of, restore_of, takes_no_memory, target_of, subtask_at};
ghost use Rattle.relkvanu.specs.Fenced.{IsHandled, IsTaken, call_step};
ghost use Rattle.relkvanu.specs.Past.{GrowsBy, IsGrown, plainly};
ghost use Rattle.relkvanu.specs.{Requested.IsRefused, Told.bad_shape, Told.no_memory};

use crate::answer::Answer;
use crate::handle::Handle;
use crate::requests::Requests;
use ckpt_ids::{Call, CheckpointId, Files, Shape, ShapeFault, SubtaskId, Target};
use ckpt_logged::Logged;
use std::alloc::{AllocError, Global};

/// The bad argument of a shape outside its limits.
pub(crate) const BAD_SHAPE: u32 = 3;

/// Makes a call that has no list and no buffer.
///
/// A closed handle stays closed. Otherwise the coordinator makes the step, and its answer is
/// returned. Or memory runs out, and nothing has changed. `docs/RULES.md` of the repository says
/// when each call is refused.
///
/// Of a handle with names a decline is refused, since it has no term, and a cancel ends the term.
pub(crate) fn call(
    requests: &mut Requests,
    alloc: Global,
    handle: &mut Handle,
    call: &Call,
) -> Answer
    ensures closed { StaysClosed handle.old.value handle.new.value result }
    ensures answered { passes handle.old.names call.now ≡ true → IsAnswered handle.old.value handle.new.value call.now result }
    ensures handled { IsHandled (λ k. call_step k call.now) handle.old handle.new result }
    ensures memory { WantsMemory handle.old.value call.now result }
    ensures never { takes_no_memory call.now ≡ true → result.code ≢ no_memory }
    ensures numbers { HasNoNumbers result }
    ensures unchanged { StaysAsItWas handle.old.value handle.new.value result }
    ensures names { passes handle.old.names call.now ≡ true → handle.new.names ≡ handle.old.names }
    ensures names_unchanged { result.code ≡ no_memory → handle.new.names ≡ handle.old.names }
    ensures past { GrowsBy (plainly call.now) handle.old.past handle.new.past result }
    ensures cause { result.code ≡ no_memory → IsRefused requests.new }
{
    let Some(mut machine) = handle.take(alloc) else {
        return Answer::closed();
    };
    let answer = answer(requests, &mut machine, call);
    handle.put(alloc, machine);
    answer
}

/// Answers an open handle so, and changes nothing. A closed one says that it is closed.
pub(crate) fn refuse(alloc: Global, handle: &mut Handle, answer: Answer) -> Answer
    ensures closed { StaysClosed handle.old.value handle.new.value result }
    ensures open { (m : State) → handle.old.value ≡ Some m → result ≡ answer }
    ensures value { handle.new.value ≡ handle.old.value }
    ensures names { handle.new.names ≡ handle.old.names }
    ensures past { handle.new.past ≡ handle.old.past }
{
    let Some(machine) = handle.take(alloc) else {
        return Answer::closed();
    };
    handle.put(alloc, machine);
    answer
}

/// Makes an acknowledgement of record `id` at the moment `now`, in milliseconds, with these files,
/// in any order, at most 4096 together.
///
/// Takes memory for a copy of the two lists, even if the call is then refused. Of a handle with
/// names it is refused, since it has no term.
#[unsafe(no_mangle)]
pub extern "C" fn relkvanu_ack(
    alloc: Global,
    handle: &mut Handle,
    now: u64,
    id: u64,
    vertex: u16,
    index: u16,
    fresh: &[u64],
    reused: &[u64],
) -> Answer
    ensures closed { StaysClosed handle.old.value handle.new.value result }
    ensures answered { IsAnsweredPlainly handle.old handle.new (ack_of now id (subtask_at vertex index) fresh.now reused.now) result }
    ensures handled { IsHandled (λ k. call_step k (ack_of now id (subtask_at vertex index) fresh.now reused.now)) handle.old handle.new result }
    ensures numbers { HasNoNumbers result }
    ensures unchanged { StaysAsItWas handle.old.value handle.new.value result }
    ensures names_unchanged { result.code ≡ no_memory → handle.new.names ≡ handle.old.names }
    ensures past { GrowsBy (plainly (ack_of now id (subtask_at vertex index) fresh.now reused.now)) handle.old.past handle.new.past result }
{
    let Some(mut machine) = handle.take(alloc) else {
        return Answer::closed();
    };
    let mut requests = Requests::new();
    let subtask = SubtaskId { vertex, index };
    let answer = match ack_of(&mut requests, alloc, now, id, subtask, fresh, reused) {
        Ok(call) => answer(&mut requests, &mut machine, &call),
        Err(_) => Answer::out_of_memory(&requests),
    };
    handle.put(alloc, machine);
    answer
}

/// Restores the job at the moment `now`, in milliseconds: `savepoint` is 0 for the latest, and
/// `shape` is empty for the current shape.
///
/// A shape outside the limits of [`Shape`](ckpt_ids::Shape) is a bad argument, before any refusal.
/// Takes memory for a copy of the shape, even if the call is then refused. Of a handle with names it
/// ends the term.
#[unsafe(no_mangle)]
pub extern "C" fn relkvanu_restore(
    alloc: Global,
    handle: &mut Handle,
    now: u64,
    savepoint: u64,
    shape: &[u64],
) -> Answer
    ensures closed { StaysClosed handle.old.value handle.new.value result }
    ensures bad_shape { IsBadShape shape.now → IsRefusedAs handle.old.value handle.new.value bad_shape result }
    ensures answered { (IsBadShape shape.now → ⊥) → IsAnsweredPlainly handle.old handle.new (restore_of now savepoint shape.now) result }
    ensures handled { (IsBadShape shape.now → ⊥) → IsHandled (λ k. call_step k (restore_of now savepoint shape.now)) handle.old handle.new result }
    ensures memory { shape.now ≡ [] → result.code ≢ no_memory }
    ensures numbers { HasNoNumbers result }
    ensures unchanged { StaysAsItWas handle.old.value handle.new.value result }
    ensures names_kept { IsBadShape shape.now → handle.new.names ≡ handle.old.names }
    ensures names_unchanged { result.code ≡ no_memory → handle.new.names ≡ handle.old.names }
    ensures past { (IsBadShape shape.now → ⊥) → GrowsBy (plainly (restore_of now savepoint shape.now)) handle.old.past handle.new.past result }
    ensures past_kept { IsBadShape shape.now → handle.new.past ≡ handle.old.past }
{
    let Some(mut machine) = handle.take(alloc) else {
        return Answer::closed();
    };
    let mut requests = Requests::new();
    let answer = match restore_of(&mut requests, alloc, now, savepoint, shape) {
        Ok(call) => answer(&mut requests, &mut machine, &call),
        Err(ShapeFault::BadShape) => Answer::bad_argument(BAD_SHAPE),
        Err(ShapeFault::Memory) => Answer::out_of_memory(&requests),
    };
    handle.put(alloc, machine);
    answer
}

/// Makes a call without a term, and returns its answer.
pub(crate) fn answer(requests: &mut Requests, machine: &mut Logged, call: &Call) -> Answer
    ensures answered { passes (names_in machine.old.now) call.now ≡ true → IsStepTold (core_in machine.old.now) (core_in machine.new.now) call.now result }
    ensures handled { IsTaken (λ k. call_step k call.now) machine.old.now machine.new.now result }
    ensures memory { result.code ≡ no_memory → may_want_memory (core_in machine.old.now) call.now ≡ true }
    ensures never { takes_no_memory call.now ≡ true → result.code ≢ no_memory }
    ensures numbers { HasNoNumbers result }
    ensures names { passes (names_in machine.old.now) call.now ≡ true → names_in machine.new.now ≡ names_in machine.old.now }
    ensures past { IsGrown (plainly call.now) machine.old machine.new result }
    ensures unchanged { result.code ≡ no_memory → machine.new ≡ machine.old }
    ensures cause { result.code ≡ no_memory → IsRefused requests.new }
{
    let Ok(answer) = machine.apply_metered(&mut requests.meter, call) else {
        return Answer::out_of_memory(requests);
    };
    Answer::of_fenced(0, &answer)
}

pub(crate) fn ack_of(
    requests: &mut Requests,
    alloc: Global,
    now: u64,
    id: u64,
    subtask: SubtaskId,
    fresh: &[u64],
    reused: &[u64],
) -> Result<Call, AllocError>
    ensures call { IfOk result (λ made. made ≡ ack_of now id subtask fresh.now reused.now) }
    ensures refused { OnErr result (IsRefused requests.new) }
{
    Ok(Call::Ack {
        now,
        id: CheckpointId(id),
        subtask,
        fresh: files_of(requests, alloc, fresh)?,
        reused: files_of(requests, alloc, reused)?,
    })
}

pub(crate) fn restore_of(
    requests: &mut Requests,
    alloc: Global,
    now: u64,
    savepoint: u64,
    shape: &[u64],
) -> Result<Call, ShapeFault>
    ensures bad { (result ≡ Err ShapeFault.BadShape) ↔ IsBadShape shape.now }
    ensures memory { result ≡ Err ShapeFault.Memory → shape.now ≢ [] }
    ensures value { IfOk result (λ made. made ≡ restore_of now savepoint shape.now) }
    ensures cause { result ≡ Err ShapeFault.Memory → IsRefused requests.new }
{
    let target = target_of(savepoint);
    let shape = if shape.is_empty() {
        None
    } else {
        Some(Shape::new_metered(&mut requests.meter, alloc, shape)?)
    };
    Ok(Call::Restore { now, target, shape })
}

fn target_of(savepoint: u64) -> Target
    ensures { result ≡ target_of savepoint }
{
    if savepoint == 0 {
        Target::Latest
    } else {
        Target::Savepoint(CheckpointId(savepoint))
    }
}

/// The files of these numbers, in ascending order.
pub(crate) fn files_of(
    requests: &mut Requests,
    alloc: Global,
    list: &[u64],
) -> Result<Files, AllocError>
    ensures files { IfOk result (λ files. files ≡ ascending list.now) }
    ensures refused { OnErr result (IsRefused requests.new) }
{
    Ok(Files::of(requests.files(alloc, list)?))
}
