//! Opens a coordinator with names, gives names to one that has none, and makes the calls of tasks
//! with their term.

ghost use Rattle.std.specs.Prelude.{◌≡◌, ◌≢◌, ◌≤◌, true, Some, None, IfOk, IfErr, OnOk};
ghost use Rattle.ckpt_ids.specs.declared.call.Call.TheVariants as call;
ghost use Rattle.ckpt_ids.specs.Ascending.{ascending};
ghost use Rattle.ckpt_model.specs.{Laws.CanOpen, State.State};
ghost use Rattle.ckpt_terms.specs.declared.call.FencedCall.TheVariants as fencing;
ghost use Rattle.ckpt_terms.specs.declared.machine.Machine.TheVariants as machine;
ghost use Rattle.ckpt_logged.specs.{Chronicles.begun, Events.IsWell};
ghost use Rattle.ckpt_terms.specs.{declared.call.TheConstants.NAMES_END, Fencing.fenced, Machines.names_in};
ghost use Rattle.relkvanu.specs.Calls.{HasNoNumbers, IsSame, StaysAsItWas, StaysClosed, ack_of, subtask_at};
ghost use Rattle.relkvanu.specs.Fenced.{IsHandled, IsTaken, WantsNames, ack_step, count_of, fence_step, term_step, term_told, term_wants};
ghost use Rattle.relkvanu.specs.Naming.{IsNamedOpening, IsNotOpenedNamed, IsOpenedNamed, IsWhyNotNamed};
ghost use Rattle.relkvanu.specs.Past.{BeginsFenced, GrowsBy, IsGrown, ack_in_layer, in_layer, with_fence};
ghost use Rattle.relkvanu.specs.Opening.{OpeningWantsMemory, StaysOpen, opening_of};
ghost use Rattle.relkvanu.specs.{Requested.IsRefused, Told.no_memory};

use crate::answer::Answer;
use crate::calls::{ack_of, files_of};
use crate::fenced::{BAD_NAME, NAMED, TERM};
use crate::handle::Handle;
use crate::images::boxed;
use crate::opening::{ALREADY_OPEN, BAD_FIRST, BAD_MOMENT, Settings, config_of, job_of};
use crate::requests::Requests;
use ckpt_core::OpenFault;
use ckpt_hash::Secret;
use ckpt_ids::{Call, CheckpointId, SubtaskId};
use ckpt_logged::Logged;
use ckpt_terms::call::NAMES_END;
use ckpt_terms::{FencedCall, Machine, Terms};
use std::alloc::Global;

/// Opens a coordinator as `relkvanu_open` does, whose tasks reserve the names of their files, in
/// term 1. The first name that it gives out will be `first_name`, 1 to 2^62: all names that were
/// used before must be below it.
///
/// The first of these that applies is a bad argument: the handle is open, or the settings, the
/// shape, the first name, the moment or the first number are outside their limits.
#[unsafe(no_mangle)]
#[tactic(auto, using(crate::proofs::Openings::fenced_well))]
pub extern "C" fn relkvanu_open_fenced(
    alloc: Global,
    handle: &mut Handle,
    settings: &Settings,
    shape: &[u64],
    now: u64,
    first: u64,
    first_name: u64,
    first_word: u64,
    second_word: u64,
) -> Answer
    ensures open { StaysOpen handle.old.value handle.new.value result }
    ensures refused { IsNotOpenedNamed handle.old.value handle.new.value (opening_of settings.now shape.now now first) first_name result }
    ensures opened { IsOpenedNamed handle.old.value handle.new.value handle.new.names (opening_of settings.now shape.now now first) first_name result }
    ensures memory { OpeningWantsMemory (opening_of settings.now shape.now now first) result }
    ensures numbers { HasNoNumbers result }
    ensures unchanged { StaysAsItWas handle.old.value handle.new.value result }
    ensures names { result.code ≢ 0 → handle.new.names ≡ handle.old.names }
    ensures past { BeginsFenced (opening_of settings.now shape.now now first) first_name handle.old.past handle.new.past result }
    ensures sound { result.code ≡ 0 → IsWell (machine.Fenced (fenced (opening_of settings.now shape.now now first) first_name)) }
{
    if let Some(machine) = handle.take(alloc) {
        handle.put(alloc, machine);
        return Answer::bad_argument(ALREADY_OPEN);
    }
    let secret = Secret::of(first_word, second_word);
    let mut requests = Requests::new();
    match named_of(
        &mut requests,
        alloc,
        settings,
        shape,
        now,
        first,
        first_name,
        secret,
    ) {
        Ok(machine) => {
            handle.put(alloc, machine);
            Answer::done(0, 0, 0)
        }
        Err(why) => why,
    }
}

#[tactic(auto, using(crate::proofs::Openings::can_open_named))]
fn named_of(
    requests: &mut Requests,
    alloc: Global,
    settings: &Settings,
    shape: &[u64],
    now: u64,
    first: u64,
    first_name: u64,
    secret: Secret,
) -> Result<Box<Logged>, Answer>
    ensures value { IfOk result (λ made. IsNamedOpening (opening_of settings.now shape.now now first) first_name made.value.now) }
    ensures begun { IfOk result (λ made. made.value ≡ begun (machine.Fenced (fenced (opening_of settings.now shape.now now first) first_name))) }
    ensures can { OnOk result (CanOpen (opening_of settings.now shape.now now first)) }
    ensures name_from { OnOk result (1 ≤ first_name) }
    ensures name_to { OnOk result (first_name ≤ NAMES_END) }
    ensures fault { IfErr result (IsWhyNotNamed (opening_of settings.now shape.now now first) first_name) }
    ensures memory { IfErr result (OpeningWantsMemory (opening_of settings.now shape.now now first)) }
    ensures numbers { IfErr result HasNoNumbers }
    ensures code { IfErr result (λ answer. answer.code ≢ 0) }
    ensures cause { IfErr result (λ answer. answer.code ≡ no_memory → IsRefused requests.new) }
{
    let config = config_of(settings)?;
    let shape = job_of(requests, alloc, shape)?;
    if first_name == 0 || first_name > NAMES_END {
        return Err(Answer::bad_argument(BAD_NAME));
    }
    match Terms::keyed(alloc, config, shape, now, first, first_name, secret) {
        Ok(terms) => boxed(requests, alloc, Machine::Fenced(terms)),
        Err(OpenFault::MomentTooLarge) => Err(Answer::bad_argument(BAD_MOMENT)),
        Err(OpenFault::BadFirst) => Err(Answer::bad_argument(BAD_FIRST)),
    }
}

/// Gives the coordinator names, from this one on, in term 1: from now on its tasks reserve the names
/// of their files. All names that were used before must be below it, those of files that nobody
/// acknowledged too.
///
/// The first of these that applies is the answer: the handle has names, the name is outside 1 to
/// 2^62, or a known file has this number or a greater one. Then nothing has changed. Takes memory
/// for an image of the state, and visits all of it.
#[unsafe(no_mangle)]
pub extern "C" fn relkvanu_fence(alloc: Global, handle: &mut Handle, first_name: u64) -> Answer
    ensures closed { StaysClosed handle.old.value handle.new.value result }
    ensures handled { IsHandled (λ k. fence_step k first_name) handle.old handle.new result }
    ensures memory { result.code ≡ no_memory → handle.old.names ≡ None }
    ensures numbers { HasNoNumbers result }
    ensures unchanged { StaysAsItWas handle.old.value handle.new.value result }
    ensures names_unchanged { result.code ≡ no_memory → handle.new.names ≡ handle.old.names }
    ensures past { GrowsBy (with_fence first_name) handle.old.past handle.new.past result }
{
    let Some(mut machine) = handle.take(alloc) else {
        return Answer::closed();
    };
    let answer = fence_machine(&mut Requests::new(), alloc, &mut machine, first_name);
    handle.put(alloc, machine);
    answer
}

/// The term that runs, and the next name that will be given out. Whoever restarts tasks tells them
/// the term: a task must not ask for it.
#[unsafe(no_mangle)]
pub extern "C" fn relkvanu_term(alloc: Global, handle: &mut Handle) -> Answer
    ensures closed { StaysClosed handle.old.value handle.new.value result }
    ensures answered { (m : State) → handle.old.value ≡ Some m → result ≡ term_told handle.old.names }
    ensures unchanged { IsSame handle.old handle.new }
{
    let Some(machine) = handle.take(alloc) else {
        return Answer::closed();
    };
    let answer = term_of(machine.machine());
    handle.put(alloc, machine);
    answer
}

/// A task of this term reserves `count` names for files that it will write, 1 to 65536. The answer
/// has the first: the others follow it.
///
/// A caller whose calls are kept in a log keeps this one before it uses a name.
#[unsafe(no_mangle)]
pub extern "C" fn relkvanu_reserve(
    alloc: Global,
    handle: &mut Handle,
    term: u64,
    count: u64,
) -> Answer
    ensures closed { StaysClosed handle.old.value handle.new.value result }
    ensures handled { IsHandled (λ k. term_step k (fencing.Reserve term count)) handle.old handle.new result }
    ensures memory { WantsNames handle.old (fencing.Reserve term count) result }
    ensures numbers { HasNoNumbers result }
    ensures unchanged { StaysAsItWas handle.old.value handle.new.value result }
    ensures names_unchanged { result.code ≡ no_memory → handle.new.names ≡ handle.old.names }
    ensures past { GrowsBy (in_layer (fencing.Reserve term count)) handle.old.past handle.new.past result }
{
    let Some(mut machine) = handle.take(alloc) else {
        return Answer::closed();
    };
    let call = FencedCall::Reserve { term, count };
    let answer = in_term(&mut Requests::new(), &mut machine, &call);
    handle.put(alloc, machine);
    answer
}

/// A task of this term gives up names that it will not acknowledge. Names that the term does not
/// hold are passed over, so the call can be repeated. Takes memory for a copy of the list.
#[unsafe(no_mangle)]
pub extern "C" fn relkvanu_forfeit(
    alloc: Global,
    handle: &mut Handle,
    term: u64,
    names: &[u64],
) -> Answer
    ensures closed { StaysClosed handle.old.value handle.new.value result }
    ensures handled { IsHandled (λ k. term_step k (fencing.Forfeit term (ascending names.now))) handle.old handle.new result }
    ensures numbers { HasNoNumbers result }
    ensures unchanged { StaysAsItWas handle.old.value handle.new.value result }
    ensures names_unchanged { result.code ≡ no_memory → handle.new.names ≡ handle.old.names }
    ensures past { GrowsBy (in_layer (fencing.Forfeit term (ascending names.now))) handle.old.past handle.new.past result }
{
    let Some(mut machine) = handle.take(alloc) else {
        return Answer::closed();
    };
    let mut requests = Requests::new();
    let answer = match files_of(&mut requests, alloc, names) {
        Ok(names) => {
            let call = FencedCall::Forfeit { term, names };
            in_term(&mut requests, &mut machine, &call)
        }
        Err(_) => Answer::out_of_memory(&requests),
    };
    handle.put(alloc, machine);
    answer
}

/// Makes an acknowledgement as `relkvanu_ack` does, of a task of this term.
#[unsafe(no_mangle)]
pub extern "C" fn relkvanu_ack_in(
    alloc: Global,
    handle: &mut Handle,
    term: u64,
    now: u64,
    id: u64,
    vertex: u16,
    index: u16,
    fresh: &[u64],
    reused: &[u64],
) -> Answer
    ensures closed { StaysClosed handle.old.value handle.new.value result }
    ensures handled { IsHandled (λ k. ack_step k term now id (subtask_at vertex index) fresh.now reused.now) handle.old handle.new result }
    ensures numbers { HasNoNumbers result }
    ensures unchanged { StaysAsItWas handle.old.value handle.new.value result }
    ensures names_unchanged { result.code ≡ no_memory → handle.new.names ≡ handle.old.names }
    ensures past { GrowsBy (ack_in_layer term now id (subtask_at vertex index) fresh.now reused.now) handle.old.past handle.new.past result }
{
    let Some(mut machine) = handle.take(alloc) else {
        return Answer::closed();
    };
    let subtask = SubtaskId { vertex, index };
    let mut requests = Requests::new();
    let answer = match ack_of(&mut requests, alloc, now, id, subtask, fresh, reused) {
        Ok(call) => in_term(
            &mut requests,
            &mut machine,
            &FencedCall::Make { term, call },
        ),
        Err(_) => Answer::out_of_memory(&requests),
    };
    handle.put(alloc, machine);
    answer
}

/// A task of this term could not take its part of a record.
#[unsafe(no_mangle)]
pub extern "C" fn relkvanu_decline_in(
    alloc: Global,
    handle: &mut Handle,
    term: u64,
    now: u64,
    id: u64,
    vertex: u16,
    index: u16,
) -> Answer
    ensures closed { StaysClosed handle.old.value handle.new.value result }
    ensures handled { IsHandled (λ k. term_step k (fencing.Make term (call.Decline now id (subtask_at vertex index)))) handle.old handle.new result }
    ensures memory { result.code ≢ no_memory }
    ensures past { GrowsBy (in_layer (fencing.Make term (call.Decline now id (subtask_at vertex index)))) handle.old.past handle.new.past result }
{
    let Some(mut machine) = handle.take(alloc) else {
        return Answer::closed();
    };
    let id = CheckpointId(id);
    let subtask = SubtaskId { vertex, index };
    let call = Call::Decline { now, id, subtask };
    let call = FencedCall::Make { term, call };
    let answer = in_term(&mut Requests::new(), &mut machine, &call);
    handle.put(alloc, machine);
    answer
}

/// Begins the job again from its latest record, as `relkvanu_restore` does, in a term above this one
/// and above the one that runs. The next name is then at least `first_name`, 1 to 2^62. It is for a
/// job that goes on from an older image, whose term and names lie behind those that tasks were told.
///
/// The first of these that applies is the answer: the handle has no names, the name is outside 1 to
/// 2^62, no term is left, or why the restore is refused. Then nothing has changed. Takes no memory.
#[unsafe(no_mangle)]
pub extern "C" fn relkvanu_advance(
    alloc: Global,
    handle: &mut Handle,
    now: u64,
    term: u64,
    first_name: u64,
) -> Answer
    ensures closed { StaysClosed handle.old.value handle.new.value result }
    ensures handled { IsHandled (λ k. term_step k (fencing.Advance now term first_name)) handle.old handle.new result }
    ensures memory { result.code ≢ no_memory }
    ensures numbers { HasNoNumbers result }
    ensures past { GrowsBy (in_layer (fencing.Advance now term first_name)) handle.old.past handle.new.past result }
{
    let Some(mut machine) = handle.take(alloc) else {
        return Answer::closed();
    };
    let call = FencedCall::Advance {
        now,
        term,
        first: first_name,
    };
    let answer = in_term(&mut Requests::new(), &mut machine, &call);
    handle.put(alloc, machine);
    answer
}

/// Makes a call with a term, and returns its answer.
pub(crate) fn in_term(requests: &mut Requests, machine: &mut Logged, call: &FencedCall) -> Answer
    ensures handled { IsTaken (λ k. term_step k call.now) machine.old.now machine.new.now result }
    ensures memory { result.code ≡ no_memory → term_wants machine.old.now call.now ≡ true }
    ensures numbers { HasNoNumbers result }
    ensures past { IsGrown (in_layer call.now) machine.old machine.new result }
    ensures unchanged { result.code ≡ no_memory → machine.new ≡ machine.old }
    ensures cause { result.code ≡ no_memory → IsRefused requests.new }
{
    match machine.machine() {
        Machine::Plain(_) => Answer::no_names(),
        Machine::Fenced(_) => make(requests, machine, call),
    }
}

/// Makes a call with a term of a coordinator with names.
///
/// Condition: it has names.
fn make(requests: &mut Requests, machine: &mut Logged, call: &FencedCall) -> Answer
    requires { names_in machine.old.now ≢ None }
    ensures handled { IsTaken (λ k. term_step k call.now) machine.old.now machine.new.now result }
    ensures memory { result.code ≡ no_memory → term_wants machine.old.now call.now ≡ true }
    ensures numbers { HasNoNumbers result }
    ensures past { IsGrown (in_layer call.now) machine.old machine.new result }
    ensures unchanged { result.code ≡ no_memory → machine.new ≡ machine.old }
    ensures cause { result.code ≡ no_memory → IsRefused requests.new }
{
    match machine.make_metered(&mut requests.meter, call) {
        Ok(answer) => Answer::of_fenced(count_of(call), &answer),
        Err(_) => Answer::out_of_memory(requests),
    }
}

/// How many names the call asks for.
fn count_of(call: &FencedCall) -> u64
    ensures { result ≡ count_of call.now }
{
    match call {
        FencedCall::Reserve { term: _, count } => *count,
        _ => 0,
    }
}

fn term_of(machine: &Machine) -> Answer
    ensures { result ≡ term_told (names_in machine.now) }
{
    match machine {
        Machine::Plain(_) => Answer::no_names(),
        Machine::Fenced(terms) => Answer::done(TERM, terms.term(), terms.next_name()),
    }
}

pub(crate) fn fence_machine(
    requests: &mut Requests,
    alloc: Global,
    machine: &mut Logged,
    first_name: u64,
) -> Answer
    ensures handled { IsTaken (λ k. fence_step k first_name) machine.old.now machine.new.now result }
    ensures memory { result.code ≡ no_memory → names_in machine.old.now ≡ None }
    ensures numbers { HasNoNumbers result }
    ensures past { IsGrown (with_fence first_name) machine.old machine.new result }
    ensures unchanged { result.code ≡ no_memory → machine.new ≡ machine.old }
    ensures cause { result.code ≡ no_memory → IsRefused requests.new }
{
    match machine.fence_metered(&mut requests.meter, alloc, first_name) {
        Ok(()) => Answer::done(NAMED, 0, 0),
        Err(why) => Answer::of_fence_fault(requests, why),
    }
}
