//! How the records of an image are read.

ghost use Rattle.std.specs.Prelude.{◌≡◌, IsTrue, map, option_and_then};
ghost use Rattle.ckpt_ids.specs.Acknowledged.{AreInSubtaskOrder, is_before};
ghost use Rattle.ckpt_model.specs.Images.{record_in};
ghost use Rattle.ckpt_image.specs.Images.{Reads};
ghost use Rattle.ckpt_image.specs.Members.{ack_of, acks_of, are_in_subtask_order, list_of, saved_of};
ghost use Rattle.serde_json.specs.Find.{get};
ghost use Rattle.serde_json.specs.View.{view};

use crate::fault::TextFault;
use crate::fault::TextFault::NoImage;
use crate::lists::{files, shape};
use crate::values::{is_done, kind, member, number_at, small_number};
use ckpt_core::Saved;
use ckpt_ids::{Acked, Acks, CheckpointId, Metadata, SubtaskId};
use serde_json::Value;
use std::alloc::Global;

/// The live records, in their order in the array.
pub(crate) fn records(alloc: Global, value: &Value) -> Result<Vec<Saved>, TextFault>
    ensures { Reads (λ records. map record_in records.items) result (list_of saved_of (view value.now)) }
{
    let items = value.as_array().ok_or(NoImage)?;
    let mut records = Vec::with_capacity(alloc, items.len())?;
    for item in items.as_slice() {
        records.push(record(alloc, item)?)?;
    }
    Ok(records)
}

#[tactic(auto, unfolding(crate::specs::Members::saved_of))]
fn record(alloc: Global, value: &Value) -> Result<Saved, TextFault>
    ensures { Reads record_in result (saved_of (view value.now)) }
{
    let acks = acks(alloc, value, "acks")?;
    let id = CheckpointId(number_at(value, "id")?);
    let kind = kind(value, "kind")?;
    let pins = files(alloc, value, "pins")?;
    let shape = shape(alloc, value, "shape")?;
    let started = number_at(value, "started")?;
    let done = is_done(value, "state")?;
    let metadata = Metadata {
        id,
        kind,
        done,
        shape,
        started,
        acks,
    };
    Ok(Saved { metadata, pins })
}

#[tactic(auto, unfolding(crate::specs::Members::acks_of))]
fn acks(alloc: Global, value: &Value, key: &str) -> Result<Acks, TextFault>
    ensures { Reads (λ acks. acks) result (option_and_then acks_of (get key.now (view value.now))) }
{
    let list = ack_list(alloc, member(value, key)?)?;
    if are_in_order(&list) {
        Ok(Acks::of(list))
    } else {
        Err(NoImage)
    }
}

fn ack_list(alloc: Global, value: &Value) -> Result<Vec<Acked>, TextFault>
    ensures { Reads (λ list. list.items) result (list_of ack_of (view value.now)) }
{
    let items = value.as_array().ok_or(NoImage)?;
    let mut list = Vec::with_capacity(alloc, items.len())?;
    for item in items.as_slice() {
        list.push(ack(alloc, item)?)?;
    }
    Ok(list)
}

#[tactic(auto, unfolding(crate::specs::Members::ack_of))]
fn ack(alloc: Global, value: &Value) -> Result<Acked, TextFault>
    ensures { Reads (λ ack. ack) result (ack_of (view value.now)) }
{
    let files = files(alloc, value, "files")?;
    let index = small_number(value, "index")?;
    let vertex = small_number(value, "vertex")?;
    let subtask = SubtaskId { vertex, index };
    Ok(Acked { subtask, files })
}

/// Whether the subtask of each acknowledgement comes before that of the next.
fn are_in_order(acks: &[Acked]) -> bool
    ensures value { result ≡ are_in_subtask_order acks.now }
    ensures order { IsTrue result → AreInSubtaskOrder acks.now }
{
    acks.is_sorted_by(|ack, next| is_before(ack.subtask, next.subtask))
}

fn is_before(subtask: SubtaskId, next: SubtaskId) -> bool
    ensures { result ≡ is_before subtask next }
{
    subtask < next
}
