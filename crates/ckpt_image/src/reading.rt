//! Reads the text of an image.

ghost use Rattle.std.specs.Prelude.{◌≡◌, ◌≢◌, Some, None, Err, IfOk, IfErr, option_and_then};
ghost use Rattle.ckpt_model.specs.Images.{state_in};
ghost use Rattle.ckpt_image.specs.Images.{Reads, image_of, image_of_any_version, image_read};
ghost use Rattle.ckpt_image.specs.Members.{clock_of, opening_in, opening_of, outbox_of};
ghost use Rattle.serde_json.specs.Data.{Data};
ghost use Rattle.serde_json.specs.Errors.{IsMemory};
ghost use Rattle.serde_json.specs.Find.{get};
ghost use Rattle.serde_json.specs.Read.{read};
ghost use Rattle.serde_json.specs.View.{view};

use crate::fault::TextFault;
use crate::lists::{files, handed, shape};
use crate::members::{Moments, Opened, Outbox};
use crate::records::records;
use crate::values::{config, half_number, member, mode, number_at, optional, version};
use ckpt_core::Image;
use ckpt_ids::CheckpointId;
use serde_json::{Error, Value};
use std::alloc::Global;

/// The image that a text describes, as [`crate::image_text`] writes it.
///
/// Returns [`TextFault::NotJson`] only if the text is not JSON, [`TextFault::NoImage`] only if it
/// is JSON that does not describe an image, and [`TextFault::Memory`] if memory runs out.
#[tactic(auto, unfolding(crate::specs::Images::image_read))]
pub fn parse_image(alloc: Global, text: &str) -> Result<Image, TextFault>
    ensures ok { IfOk result (λ image. image_read text.now ≡ Some (state_in image)) }
    ensures none { IfErr result (λ why. why ≢ TextFault.Memory → image_read text.now ≡ None) }
    ensures not_json { result ≡ Err TextFault.NotJson → read text.now ≡ None }
    ensures no_image { result ≡ Err TextFault.NoImage → (d : Data) × (read text.now ≡ Some d) × (image_of d ≡ None) }
{
    match Value::from_str(alloc, text) {
        Ok(value) => image(alloc, &value),
        Err(error) => Err(fault_of(&error)),
    }
}

/// Why no JSON was read.
pub fn fault_of(error: &Error) -> TextFault
    ensures memory { IsMemory error.now → result ≡ TextFault.Memory }
    ensures text { (IsMemory error.now → ⊥) → result ≡ TextFault.NotJson }
{
    if error.is_memory() {
        TextFault::Memory
    } else {
        TextFault::NotJson
    }
}

#[tactic(auto, unfolding(crate::specs::Images::image_of))]
fn image(alloc: Global, value: &Value) -> Result<Image, TextFault>
    ensures { Reads state_in result (image_of (view value.now)) }
{
    let _ = version(value, "version")?;
    image_of_any_version(alloc, value)
}

/// The image that an object describes, whatever the number of its format. Returns only
/// [`TextFault::NoImage`] and, if memory runs out, [`TextFault::Memory`].
#[tactic(auto, unfolding(crate::specs::Images::image_of_any_version))]
pub fn image_of_any_version(alloc: Global, value: &Value) -> Result<Image, TextFault>
    ensures { Reads state_in result (image_of_any_version (view value.now)) }
{
    let base = optional(value, "base")?.map(|id| CheckpointId(id));
    let clock = clock(value, "clock")?;
    let failures = half_number(value, "failures")?;
    let mode = mode(value, "mode")?;
    let next = number_at(value, "next")?;
    let opening = opening(alloc, value, "opening")?;
    let outbox = outbox(alloc, value, "outbox")?;
    let records = records(alloc, member(value, "records")?)?;
    let shape = shape(alloc, value, "shape")?;
    Ok(Image {
        config: opening.config,
        first_shape: opening.shape,
        start: opening.start,
        first: opening.first,
        shape,
        mode,
        latest: clock.latest,
        due: clock.due,
        completed: clock.completed,
        failures,
        next,
        base,
        records,
        waiting: outbox.waiting,
        taken: outbox.taken,
    })
}

#[tactic(auto, unfolding(crate::specs::Members::clock_of))]
fn clock(value: &Value, key: &str) -> Result<Moments, TextFault>
    ensures { Reads (λ clock. clock) result (option_and_then clock_of (get key.now (view value.now))) }
{
    let value = member(value, key)?;
    let completed = optional(value, "completed")?;
    let due = number_at(value, "due")?;
    let latest = number_at(value, "latest")?;
    Ok(Moments {
        completed,
        due,
        latest,
    })
}

#[tactic(auto, unfolding(crate::specs::Members::opening_of))]
fn opening(alloc: Global, value: &Value, key: &str) -> Result<Opened, TextFault>
    ensures { Reads opening_in result (option_and_then opening_of (get key.now (view value.now))) }
{
    let value = member(value, key)?;
    let config = config(value, "config")?;
    let first = number_at(value, "first")?;
    let shape = shape(alloc, value, "shape")?;
    let start = number_at(value, "start")?;
    Ok(Opened {
        config,
        first,
        shape,
        start,
    })
}

#[tactic(auto, unfolding(crate::specs::Members::outbox_of))]
fn outbox(alloc: Global, value: &Value, key: &str) -> Result<Outbox, TextFault>
    ensures { Reads (λ outbox. outbox) result (option_and_then outbox_of (get key.now (view value.now))) }
{
    let value = member(value, key)?;
    let taken = files(alloc, value, "taken")?;
    let waiting = handed(alloc, value, "waiting")?;
    Ok(Outbox { taken, waiting })
}
