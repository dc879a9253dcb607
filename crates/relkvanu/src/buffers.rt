//! The calls that write to a caller's buffer: take and show.

ghost use Rattle.std.specs.Prelude.{◌≡◌, ◌≢◌, ◌≤◌, ℕ, true, length, Some};
ghost use Rattle.ckpt_ids.specs.declared.call.Call.TheVariants as call;
ghost use Rattle.ckpt_model.specs.{Memory.answer_wants, Memory.may_want_memory, State.State, Steps.step};
ghost use Rattle.ckpt_answers.specs.MetadataTexts.{metadata_bytes};
ghost use Rattle.relkvanu.specs.Buffers.{BringsFiles, BringsJson, IsShowTold, StandsInFront, files_in, files_of_reply, json_in, json_of_reply};
ghost use Rattle.relkvanu.specs.Buffers.{json_told, show_reply_told, show_told};
ghost use Rattle.relkvanu.specs.Calls.{HasNoNumbers, IsAnswered, IsSame, IsStepTold, StaysAsItWas, StaysClosed, WantsMemory};
ghost use Rattle.relkvanu.specs.Past.{GrowsBy, IsGrown, plainly};
ghost use Rattle.relkvanu.specs.Requested.{IsRefused};
ghost use Rattle.relkvanu.specs.Told.{answer_told, no_memory, reply_told};
ghost use Rattle.ckpt_terms.specs.Machines.{core_in, names_in};

use crate::answer::Answer;
use crate::handle::Handle;
use crate::requests::Requests;
use ckpt_ids::{Answer as Told, Call, CheckpointId, FileId, Metadata, Reply};
use ckpt_logged::Logged;
use std::alloc::Global;

/// Fetches files that wait for deletion, at most as many as the buffer has places, and writes them
/// to the start of the buffer. Takes memory.
#[unsafe(no_mangle)]
pub extern "C" fn relkvanu_take(alloc: Global, handle: &mut Handle, files: &mut [u64]) -> Answer
    ensures closed { StaysClosed handle.old.value handle.new.value result }
    ensures answered { IsAnswered handle.old.value handle.new.value (call.Take (length files.old)) result }
    ensures front { (m : State) → handle.old.value ≡ Some m → BringsFiles m files.old files.new result }
    ensures kept { result.code ≢ 0 → files.new ≡ files.old }
    ensures memory { WantsMemory handle.old.value (call.Take (length files.old)) result }
    ensures numbers { HasNoNumbers result }
    ensures unchanged { StaysAsItWas handle.old.value handle.new.value result }
    ensures names { handle.new.names ≡ handle.old.names }
    ensures past { GrowsBy (plainly (call.Take (length files.old))) handle.old.past handle.new.past result }
{
    let Some(mut machine) = handle.take(alloc) else {
        return Answer::closed();
    };
    let most = files.len() as u64;
    let answer = take_from(&mut Requests::new(), &mut machine, most, files);
    handle.put(alloc, machine);
    answer
}

/// Writes the metadata of a live record as JSON to the start of the buffer.
///
/// If the buffer is too short, the answer says how many bytes the metadata has: call again. Refused
/// if no live record has the number. Takes memory.
#[unsafe(no_mangle)]
pub extern "C" fn relkvanu_show(
    alloc: Global,
    handle: &mut Handle,
    id: u64,
    json: &mut [u8],
) -> Answer
    ensures closed { StaysClosed handle.old.value handle.new.value result }
    ensures answered { (m : State) → handle.old.value ≡ Some m → IsShowTold m id (length json.old) result }
    ensures front { (m : State) → handle.old.value ≡ Some m → BringsJson m id json.old json.new result }
    ensures kept { result.code ≢ 0 → json.new ≡ json.old }
    ensures memory { WantsMemory handle.old.value (call.Show id) result }
    ensures numbers { HasNoNumbers result }
    ensures unchanged { IsSame handle.old handle.new }
{
    let Some(mut machine) = handle.take(alloc) else {
        return Answer::closed();
    };
    let answer = show_from(&mut Requests::new(), alloc, &mut machine, id, json);
    handle.put(alloc, machine);
    answer
}

/// Fetches at most `most` files.
///
/// Condition: the buffer has a place for each.
pub(crate) fn take_from(
    requests: &mut Requests,
    machine: &mut Logged,
    most: u64,
    files: &mut [u64],
) -> Answer
    requires fits { length (files_in (step (core_in machine.old.now) (call.Take most)).1) ≤ length files.old }
    ensures answered { IsStepTold (core_in machine.old.now) (core_in machine.new.now) (call.Take most) result }
    ensures front { result.code ≢ no_memory → StandsInFront (files_in (step (core_in machine.old.now) (call.Take most)).1) files.old files.new }
    ensures kept { result.code ≢ 0 → files.new ≡ files.old }
    ensures memory { result.code ≡ no_memory → may_want_memory (core_in machine.old.now) (call.Take most) ≡ true }
    ensures numbers { HasNoNumbers result }
    ensures names { names_in machine.new.now ≡ names_in machine.old.now }
    ensures past { IsGrown (plainly (call.Take most)) machine.old machine.new result }
    ensures unchanged { result.code ≡ no_memory → machine.new ≡ machine.old }
    ensures cause { result.code ≡ no_memory → IsRefused requests.new }
{
    match machine.pass_metered(&mut requests.meter, &Call::Take { most }) {
        Ok(answer) => with_files(&answer, files),
        Err(_) => Answer::out_of_memory(requests),
    }
}

/// The answer of the coordinator. Writes its files to the start of a buffer.
///
/// Condition: the buffer has a place for each.
fn with_files(answer: &Told, files: &mut [u64]) -> Answer
    requires fits { length (files_in answer.now) ≤ length files.old }
    ensures told { result ≡ answer_told answer.now }
    ensures code { result.code ≢ no_memory }
    ensures front { StandsInFront (files_in answer.now) files.old files.new }
    ensures kept { result.code ≢ 0 → files.new ≡ files.old }
{
    match answer {
        Told::Done(reply) => with_files_of(reply, files),
        Told::Refused(why) => Answer::of_refusal(*why),
    }
}

/// The answer for a reply. Writes its files to the start of a buffer.
///
/// Condition: the buffer has a place for each.
fn with_files_of(reply: &Reply, files: &mut [u64]) -> Answer
    requires fits { length (files_of_reply reply.now) ≤ length files.old }
    ensures told { result ≡ reply_told reply.now }
    ensures code { result.code ≡ 0 }
    ensures front { StandsInFront (files_of_reply reply.now) files.old files.new }
{
    if let Reply::Taken(taken) = reply {
        write_files(taken.as_slice(), files);
    }
    Answer::of_reply(reply)
}

/// Writes files to the start of a buffer.
///
/// Condition: the buffer has a place for each.
pub(crate) fn write_files(list: &[FileId], files: &mut [u64])
    requires fits { length list.now ≤ length files.old }
    ensures { StandsInFront list.now files.old files.new }
{
    for place in 0..list.len() {
        let file = list[place];
        files[place] = file.0;
    }
}

pub(crate) fn show_from(
    requests: &mut Requests,
    alloc: Global,
    machine: &mut Logged,
    id: u64,
    json: &mut [u8],
) -> Answer
    ensures answered { IsShowTold (core_in machine.old.now) id (length json.old) result }
    ensures front { BringsJson (core_in machine.old.now) id json.old json.new result }
    ensures kept { result.code ≢ 0 → json.new ≡ json.old }
    ensures memory { result.code ≡ no_memory → may_want_memory (core_in machine.old.now) (call.Show id) ≡ true }
    ensures numbers { HasNoNumbers result }
    ensures unchanged { machine.new ≡ machine.old }
    ensures cause { result.code ≡ no_memory → IsRefused requests.new }
{
    match machine.show_metered(&mut requests.meter, CheckpointId(id)) {
        Ok(answer) => with_json_in(requests, alloc, &answer, json),
        Err(_) => Answer::out_of_memory(requests),
    }
}

/// The answer of the coordinator. Writes its metadata to the start of the buffer if that is long
/// enough.
fn with_json_in(requests: &mut Requests, alloc: Global, answer: &Told, json: &mut [u8]) -> Answer
    ensures told { result.code ≢ no_memory → result ≡ show_told answer.now (length json.old) }
    ensures front { result.code ≡ 0 → StandsInFront (json_in answer.now) json.old json.new }
    ensures kept { result.code ≢ 0 → json.new ≡ json.old }
    ensures memory { (id : ℕ) → result.code ≡ no_memory → answer_wants (call.Show id) answer.now ≡ true }
    ensures numbers { HasNoNumbers result }
    ensures cause { result.code ≡ no_memory → IsRefused requests.new }
{
    match answer {
        Told::Done(reply) => with_json(requests, alloc, reply, json),
        Told::Refused(why) => Answer::of_refusal(*why),
    }
}

/// The answer for a reply. Writes its metadata to the start of the buffer if that is long enough.
fn with_json(requests: &mut Requests, alloc: Global, reply: &Reply, json: &mut [u8]) -> Answer
    ensures told { result.code ≢ no_memory → result ≡ show_reply_told reply.now (length json.old) }
    ensures front { result.code ≡ 0 → StandsInFront (json_of_reply reply.now) json.old json.new }
    ensures kept { result.code ≢ 0 → json.new ≡ json.old }
    ensures numbers { HasNoNumbers result }
    ensures cause { result.code ≡ no_memory → IsRefused requests.new }
{
    match reply {
        Reply::Shown(metadata) => write_json(requests, alloc, metadata, json),
        other => Answer::of_reply(other),
    }
}

fn write_json(
    requests: &mut Requests,
    alloc: Global,
    metadata: &Metadata,
    json: &mut [u8],
) -> Answer
    ensures told { result.code ≢ no_memory → result ≡ json_told (metadata_bytes metadata.now) (length json.old) }
    ensures front { result.code ≡ 0 → StandsInFront (metadata_bytes metadata.now) json.old json.new }
    ensures kept { result.code ≢ 0 → json.new ≡ json.old }
    ensures numbers { HasNoNumbers result }
    ensures cause { result.code ≡ no_memory → IsRefused requests.new }
{
    let Ok(text) = requests.metadata(alloc, metadata) else {
        return Answer::out_of_memory(requests);
    };
    let bytes = text.as_bytes();
    let needed = bytes.len();
    if json.len() < needed {
        return Answer::too_short(needed as u64);
    }
    json[..needed].copy_from_slice(bytes);
    Answer::done(21, needed as u64, 0)
}
