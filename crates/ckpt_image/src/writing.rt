//! The text of an image.

ghost use Rattle.std.specs.Prelude.{◌≡◌, ◌<◌, ◌^◌, map, Some, IfOk, OnOk, string_bytes};
ghost use Rattle.ckpt_ids.specs.declared.ack.Acked.{Acked};
ghost use Rattle.ckpt_ids.specs.Acknowledged.{AreInSubtaskOrder};
ghost use Rattle.ckpt_ids.specs.Ascending.{IsAscending};
ghost use Rattle.ckpt_ids.specs.Configuration.{IsWithinLimits};
ghost use Rattle.ckpt_ids.specs.Ordered.{IsIn};
ghost use Rattle.ckpt_ids.specs.Records.{Record};
ghost use Rattle.ckpt_ids.specs.Shapes.{IsShape};
ghost use Rattle.ckpt_model.specs.Images.{record_in, state_in};
ghost use Rattle.ckpt_answers.specs.MetadataTexts.{list, members, natural};
ghost use Rattle.serde_json.specs.Data.{no_members, object};
ghost use Rattle.serde_json.specs.View.{members_view, view};
ghost use Rattle.ckpt_image.specs.Fits.{AckFits, Fits, RecordFits};
ghost use Rattle.ckpt_image.specs.Images.{image_read};
ghost use Rattle.ckpt_image.specs.Written.{ack_data, clock_data, config_data, image_bytes, image_data, image_members, later_members};
ghost use Rattle.ckpt_image.specs.Written.{mode_name, naturals, opening_data, optional, outbox_data, record_data};

use crate::members::VERSION;
use ckpt_answers::metadata::{files_value, kind_name, shape_value, state_name};
use ckpt_core::{Image, Mode, Saved};
use ckpt_ids::{Acked, Acks, CheckpointId, Config, Handed};
use serde_json::{Map, Value, json, put};
use std::alloc::{AllocError, Global};

/// The image as JSON, without spaces and without a newline.
///
/// The keys are in the order of their bytes. Fails only if memory runs out.
#[tactic(auto, unfolding(crate::specs::Written::image_bytes))]
pub fn image_text(alloc: Global, image: &Image) -> Result<String, AllocError>
    ensures text { IfOk result (λ text. string_bytes text ≡ image_bytes (state_in image.now)) }
    ensures reads_back { IfOk result (λ text. image_read (string_bytes text) ≡ Some (state_in image.now)) }
{
    image_value(alloc, image)?.to_string(alloc)
}

#[tactic(auto, unfolding(crate::specs::Written::image_data))]
fn image_value(alloc: Global, image: &Image) -> Result<Value, AllocError>
    ensures value { IfOk result (λ value. view value ≡ image_data (state_in image.now)) }
    ensures fits { OnOk result (Fits (state_in image.now)) }
{
    Ok(Value::Object(image_object(alloc, image, VERSION)?))
}

/// The members of the image in a format that has this number. Fails only if memory runs out.
pub fn image_object(
    alloc: Global,
    image: &Image,
    format: u64,
) -> Result<Map<String, Value>, AllocError>
    ensures value { IfOk result (λ object. members_view object.entries ≡ members (image_members format (state_in image.now))) }
    ensures fits { OnOk result (Fits (state_in image.now)) }
{
    let mut object = Map::new(alloc);
    put_later(&mut object, alloc, image)?;
    put_others(&mut object, alloc, image, format)?;
    Ok(object)
}

/// Puts the members from `opening` to `shape`, from the last to the first.
///
/// Condition: there are no members yet.
fn put_later(
    object: &mut Map<String, Value>,
    alloc: Global,
    image: &Image,
) -> Result<(), AllocError>
    requires { members_view object.old.entries ≡ no_members }
    ensures value { OnOk result (members_view object.new.entries ≡ members (later_members (state_in image.now))) }
    ensures shapes { OnOk result (IsShape image.now.first_shape × IsShape image.now.shape) }
    ensures config { OnOk result (IsWithinLimits image.now.config) }
    ensures records { OnOk result ((r : Record) → IsIn r (map record_in image.now.records.items) → RecordFits r) }
    ensures taken { OnOk result (IsAscending image.now.taken) }
{
    put(object, alloc, "shape", shape_value(alloc, &image.shape)?)?;
    image.shape.recall();
    put(
        object,
        alloc,
        "records",
        records_value(alloc, image.records.as_slice())?,
    )?;
    put(object, alloc, "outbox", outbox_value(alloc, image)?)?;
    put(object, alloc, "opening", opening_value(alloc, image)?)
}

/// Puts `version` behind those members, and the members up to `next` before them, from the last to
/// the first.
///
/// Condition: exactly those members are there.
fn put_others(
    object: &mut Map<String, Value>,
    alloc: Global,
    image: &Image,
    format: u64,
) -> Result<(), AllocError>
    requires { members_view object.old.entries ≡ members (later_members (state_in image.now)) }
    ensures value { OnOk result (members_view object.new.entries ≡ members (image_members format (state_in image.now))) }
    ensures failures { OnOk result (image.now.failures < 2 ^ 32) }
{
    put(object, alloc, "version", Value::from(format))?;
    put(object, alloc, "next", Value::from(image.next))?;
    let mode = Value::try_from_str(alloc, mode_name(image.mode))?;
    put(object, alloc, "mode", mode)?;
    put(object, alloc, "failures", failures_value(image.failures))?;
    put(object, alloc, "clock", clock_value(alloc, image)?)?;
    put(object, alloc, "base", base_value(image.base))
}

#[tactic(auto, unfolding(crate::specs::Written::clock_data))]
fn clock_value(alloc: Global, image: &Image) -> Result<Value, AllocError>
    ensures { IfOk result (λ value. view value ≡ clock_data (state_in image.now)) }
{
    let completed = optional_value(image.completed);
    json!(in alloc; {"completed": completed, "due": image.due, "latest": image.latest})
}

#[tactic(auto, unfolding(crate::specs::Written::opening_data))]
fn opening_value(alloc: Global, image: &Image) -> Result<Value, AllocError>
    ensures value { IfOk result (λ value. view value ≡ opening_data (state_in image.now).opening) }
    ensures config { OnOk result (IsWithinLimits image.now.config) }
    ensures shape { OnOk result (IsShape image.now.first_shape) }
{
    let config = config_value(alloc, &image.config)?;
    let shape = shape_value(alloc, &image.first_shape)?;
    image.first_shape.recall();
    json!(in alloc; {"config": config, "first": image.first, "shape": shape, "start": image.start})
}

#[tactic(auto, unfolding(crate::specs::Written::config_data))]
fn config_value(alloc: Global, config: &Config) -> Result<Value, AllocError>
    ensures value { IfOk result (λ value. view value ≡ config_data config.now) }
    ensures limits { OnOk result (IsWithinLimits config.now) }
{
    json!(in alloc; {
        "at_once": config.at_once(),
        "interval": config.interval(),
        "keep_on_cancel": config.keep_on_cancel(),
        "pause": config.pause(),
        "retained": config.retained(),
        "timeout": config.timeout(),
        "tolerable": config.tolerable(),
    })
}

#[tactic(auto, unfolding(crate::specs::Written::outbox_data))]
fn outbox_value(alloc: Global, image: &Image) -> Result<Value, AllocError>
    ensures value { IfOk result (λ value. view value ≡ outbox_data (state_in image.now)) }
    ensures taken { OnOk result (IsAscending image.now.taken) }
{
    let taken = files_value(alloc, &image.taken)?;
    image.taken.recall();
    let waiting = handed_value(alloc, &image.waiting)?;
    json!(in alloc; {"taken": taken, "waiting": waiting})
}

fn handed_value(alloc: Global, files: &Handed) -> Result<Value, AllocError>
    ensures { IfOk result (λ value. view value ≡ naturals files.now) }
{
    let mut items = Vec::with_capacity(alloc, files.len())?;
    for file in files.as_slice() {
        items.push(Value::from(file.0))?;
    }
    Ok(Value::from(items))
}

fn records_value(alloc: Global, records: &[Saved]) -> Result<Value, AllocError>
    ensures value { IfOk result (λ value. view value ≡ list (map record_data (map record_in records.now))) }
    ensures fits { OnOk result ((r : Record) → IsIn r (map record_in records.now) → RecordFits r) }
{
    let mut items = Vec::with_capacity(alloc, records.len())?;
    for saved in records {
        items.push(record_value(alloc, saved)?)?;
    }
    Ok(Value::from(items))
}

#[tactic(auto, unfolding(crate::specs::Written::record_data))]
fn record_value(alloc: Global, saved: &Saved) -> Result<Value, AllocError>
    ensures value { IfOk result (λ value. view value ≡ record_data (record_in saved.now)) }
    ensures fits { OnOk result (RecordFits (record_in saved.now)) }
{
    let acks = acks_value(alloc, &saved.metadata.acks)?;
    saved.pins.recall();
    saved.metadata.shape.recall();
    let mut object = Map::new(alloc);
    put_record(&mut object, alloc, saved, acks)?;
    Ok(Value::Object(object))
}

/// Puts the members of a record, from the last to the first.
///
/// Condition: there are no members yet, and `acks` is that of the record's acknowledgements.
#[tactic(auto, unfolding(crate::specs::Written::record_data))]
fn put_record(
    into: &mut Map<String, Value>,
    alloc: Global,
    saved: &Saved,
    acks: Value,
) -> Result<(), AllocError>
    requires empty { members_view into.old.entries ≡ no_members }
    requires acks { view acks ≡ list (map ack_data (record_in saved.now).acks) }
    ensures { OnOk result (object (members_view into.new.entries) ≡ record_data (record_in saved.now)) }
{
    let state = Value::try_from_str(alloc, state_name(saved.metadata.done))?;
    put(into, alloc, "state", state)?;
    put(into, alloc, "started", Value::from(saved.metadata.started))?;
    put(
        into,
        alloc,
        "shape",
        shape_value(alloc, &saved.metadata.shape)?,
    )?;
    put(into, alloc, "pins", files_value(alloc, &saved.pins)?)?;
    let kind = Value::try_from_str(alloc, kind_name(saved.metadata.kind))?;
    put(into, alloc, "kind", kind)?;
    put(into, alloc, "id", Value::from(saved.metadata.id.0))?;
    put(into, alloc, "acks", acks)
}

fn acks_value(alloc: Global, acks: &Acks) -> Result<Value, AllocError>
    ensures value { IfOk result (λ value. view value ≡ list (map ack_data acks.now)) }
    ensures order { OnOk result (AreInSubtaskOrder acks.now) }
    ensures fits { OnOk result ((a : Acked) → IsIn a acks.now → AckFits a) }
{
    let mut items = Vec::with_capacity(alloc, acks.len())?;
    for acked in acks.as_slice() {
        items.push(ack_value(alloc, acked)?)?;
    }
    Ok(Value::from(items))
}

#[tactic(auto, unfolding(crate::specs::Written::ack_data))]
fn ack_value(alloc: Global, acked: &Acked) -> Result<Value, AllocError>
    ensures value { IfOk result (λ value. view value ≡ ack_data acked.now) }
    ensures fits { OnOk result (AckFits acked.now) }
{
    let files = files_value(alloc, &acked.files)?;
    acked.files.recall();
    let index = acked.subtask.index;
    let vertex = acked.subtask.vertex;
    json!(in alloc; {"files": files, "index": index, "vertex": vertex})
}

fn optional_value(number: Option<u64>) -> Value
    ensures { view result ≡ optional number }
{
    match number {
        Some(number) => Value::from(number),
        None => Value::Null,
    }
}

fn failures_value(failures: u32) -> Value
    ensures value { view result ≡ natural failures }
    ensures range { failures < 2 ^ 32 }
{
    Value::from(failures)
}

fn base_value(base: Option<CheckpointId>) -> Value
    ensures { view result ≡ optional base }
{
    match base {
        Some(id) => Value::from(id.0),
        None => Value::Null,
    }
}

fn mode_name(mode: Mode) -> &'static str
    ensures { result.now ≡ mode_name mode }
{
    match mode {
        Mode::Running => "running",
        Mode::Failed => "failed",
        Mode::Cancelled => "cancelled",
    }
}
