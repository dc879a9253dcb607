//! The metadata of a record, as JSON.
ghost use Rattle.std.specs.Prelude.{◌≡◌, false, count_by, IfOk, OnOk, map, slice_get, string_bytes};
ghost use Rattle.std.specs.Option.{option_map_or};
ghost use Rattle.ckpt_ids.specs.Acknowledged.{AreInSubtaskOrder};
ghost use Rattle.ckpt_ids.specs.Shapes.{is_subtask};
ghost use Rattle.serde_json.specs.Data.{no_members, object};
ghost use Rattle.serde_json.specs.View.{members_view, view};
ghost use Rattle.ckpt_answers.specs.MetadataTexts.{natural, list, kind_name, state_name, missing, subtask_bytes, ack_data, metadata_data, metadata_bytes};

use ckpt_ids::{Acked, Acks, Files, Kind, Metadata, Shape, SubtaskId};
use serde_json::{Map, Value, json, put};
use std::alloc::{AllocError, Global};

/// The metadata of a record as JSON without spaces, and without a newline.
///
/// The keys are in the order of their bytes. `missing` is the number of subtasks that have not
/// acknowledged. Fails only if memory runs out.
#[tactic(auto, unfolding(crate::specs::MetadataTexts::metadata_bytes))]
#[inline(never)]
pub fn metadata_text(alloc: Global, metadata: &Metadata) -> Result<String, AllocError>
    ensures { IfOk result (λ text. string_bytes text ≡ metadata_bytes metadata.now) }
{
    metadata_value(alloc, metadata)?.to_string(alloc)
}

#[tactic(auto, unfolding(crate::specs::MetadataTexts::metadata_data))]
fn metadata_value(alloc: Global, metadata: &Metadata) -> Result<Value, AllocError>
    ensures { IfOk result (λ value. view value ≡ metadata_data metadata.now) }
{
    let mut members = Map::new(alloc);
    put_metadata(&mut members, alloc, metadata)?;
    Ok(Value::Object(members))
}

/// Puts the members of the metadata, from the last to the first.
///
/// Condition: there are no members yet.
#[tactic(auto, unfolding(crate::specs::MetadataTexts::metadata_data))]
fn put_metadata(
    into: &mut Map<String, Value>,
    alloc: Global,
    metadata: &Metadata,
) -> Result<(), AllocError>
    requires { members_view into.old.entries ≡ no_members }
    ensures { OnOk result (object (members_view into.new.entries) ≡ metadata_data metadata.now) }
{
    let state = Value::try_from_str(alloc, state_name(metadata.done))?;
    put(into, alloc, "state", state)?;
    put(into, alloc, "started", Value::from(metadata.started))?;
    put(into, alloc, "shape", shape_value(alloc, &metadata.shape)?)?;
    put(into, alloc, "missing", Value::from(missing(metadata)))?;
    let kind = Value::try_from_str(alloc, kind_name(metadata.kind))?;
    put(into, alloc, "kind", kind)?;
    put(into, alloc, "id", Value::from(metadata.id.0))?;
    put(into, alloc, "acks", acks_value(alloc, &metadata.acks)?)
}

fn acks_value(alloc: Global, acks: &Acks) -> Result<Value, AllocError>
    ensures { IfOk result (λ value. view value ≡ list (map ack_data acks.now)) }
{
    let mut items = Vec::with_capacity(alloc, acks.len())?;
    for place in 0..acks.len() {
        if let Some(acked) = acks.get(place) {
            items.push(ack_value(alloc, acked)?)?;
        }
    }
    Ok(Value::from(items))
}

#[tactic(auto, unfolding(crate::specs::MetadataTexts::ack_data))]
fn ack_value(alloc: Global, acked: &Acked) -> Result<Value, AllocError>
    ensures { IfOk result (λ value. view value ≡ ack_data acked.now) }
{
    let files = files_value(alloc, &acked.files)?;
    let subtask = subtask_text(alloc, acked.subtask)?;
    json!(in alloc; {"files": files, "subtask": subtask})
}

/// The numbers of the files as a JSON array, in ascending order. Fails only if memory runs out.
pub fn files_value(alloc: Global, files: &Files) -> Result<Value, AllocError>
    ensures { IfOk result (λ value. view value ≡ list (map natural files.now)) }
{
    let mut items = Vec::with_capacity(alloc, files.len())?;
    for file in files.as_slice() {
        items.push(Value::from(file.0))?;
    }
    Ok(Value::from(items))
}

/// The parallelisms as a JSON array, one for each vertex. Fails only if memory runs out.
pub fn shape_value(alloc: Global, shape: &Shape) -> Result<Value, AllocError>
    ensures { IfOk result (λ value. view value ≡ list (map natural shape.now)) }
{
    let mut items = Vec::with_capacity(alloc, shape.vertices() as usize)?;
    for vertex in 0..shape.vertices() {
        if let Some(parallelism) = shape.parallelism(vertex) {
            items.push(Value::from(parallelism))?;
        }
    }
    Ok(Value::from(items))
}

fn subtask_text(alloc: Global, subtask: SubtaskId) -> Result<String, AllocError>
    ensures { IfOk result (λ text. string_bytes text ≡ subtask_bytes subtask) }
{
    let mut text = String::new(alloc);
    write!(text, "{}.{}", subtask.vertex, subtask.index)?;
    Ok(text)
}

/// How many subtasks of the shape have not acknowledged.
fn missing(metadata: &Metadata) -> u64
    ensures { result ≡ missing metadata.now }
{
    u64::from(metadata.shape.size()) - acknowledged(&metadata.acks, &metadata.shape)
}

/// How many acknowledgements are of subtasks of the shape.
fn acknowledged(acks: &Acks, shape: &Shape) -> u64
    ensures value { result ≡ count_by (λ a. is_subtask shape.now a.subtask) acks.now }
    ensures order { AreInSubtaskOrder acks.now }
{
    let most = acks.len();
    let mut count = 0;
    for place in 0..most {
        if is_of(acks, place, shape) {
            count += 1;
        }
    }
    count
}

/// Whether the acknowledgement at this place comes from a subtask of the shape.
fn is_of(acks: &Acks, place: usize, shape: &Shape) -> bool
    ensures { result ≡ option_map_or (λ a. is_subtask shape.now a.subtask) (slice_get acks.now place) false }
{
    match acks.get(place) {
        Some(acked) => shape.contains(acked.subtask),
        None => false,
    }
}

/// `checkpoint` or `savepoint`.
pub fn kind_name(kind: Kind) -> &'static str
    ensures { result.now ≡ kind_name kind }
{
    match kind {
        Kind::Checkpoint => "checkpoint",
        Kind::Savepoint => "savepoint",
    }
}

/// `done` or `pending`.
pub fn state_name(done: bool) -> &'static str
    ensures { result.now ≡ state_name done }
{
    if done { "done" } else { "pending" }
}
