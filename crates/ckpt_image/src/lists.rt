//! How lists of numbers are read: files, and the parallelisms of a shape.

ghost use Rattle.std.specs.Prelude.{option_and_then};
ghost use Rattle.ckpt_image.specs.Images.{Reads};
ghost use Rattle.ckpt_image.specs.Members.{files_of, list_of, number_of, shape_of};
ghost use Rattle.serde_json.specs.Find.{get};
ghost use Rattle.serde_json.specs.View.{view};

use crate::fault::TextFault;
use crate::fault::TextFault::{Memory, NoImage};
use crate::values::{member, number};
use ckpt_ids::{FileId, Files, Handed, Shape, ShapeFault};
use serde_json::Value;
use std::alloc::Global;

/// The files of a set, in ascending order.
#[tactic(auto, unfolding(crate::specs::Members::files_of))]
pub(crate) fn files(alloc: Global, value: &Value, key: &str) -> Result<Files, TextFault>
    ensures { Reads (λ files. files) result (option_and_then files_of (get key.now (view value.now))) }
{
    Ok(Files::of(file_list(alloc, member(value, key)?)?))
}

/// The files, in their order in the array.
pub(crate) fn handed(alloc: Global, value: &Value, key: &str) -> Result<Handed, TextFault>
    ensures { Reads (λ files. files) result (option_and_then (list_of number_of) (get key.now (view value.now))) }
{
    Ok(Handed::of(file_list(alloc, member(value, key)?)?))
}

fn file_list(alloc: Global, value: &Value) -> Result<Vec<FileId>, TextFault>
    ensures { Reads (λ list. list.items) result (list_of number_of (view value.now)) }
{
    let items = value.as_array().ok_or(NoImage)?;
    let mut list = Vec::with_capacity(alloc, items.len())?;
    for item in items.as_slice() {
        list.push(FileId(number(item)?))?;
    }
    Ok(list)
}

#[tactic(auto, unfolding(crate::specs::Members::shape_of))]
pub(crate) fn shape(alloc: Global, value: &Value, key: &str) -> Result<Shape, TextFault>
    ensures { Reads (λ shape. shape) result (option_and_then shape_of (get key.now (view value.now))) }
{
    let list = number_list(alloc, member(value, key)?)?;
    Shape::new(alloc, &list).map_err(|fault| match fault {
        ShapeFault::BadShape => NoImage,
        ShapeFault::Memory => Memory,
    })
}

fn number_list(alloc: Global, value: &Value) -> Result<Vec<u64>, TextFault>
    ensures { Reads (λ list. list.items) result (list_of number_of (view value.now)) }
{
    let items = value.as_array().ok_or(NoImage)?;
    let mut list = Vec::with_capacity(alloc, items.len())?;
    for item in items.as_slice() {
        list.push(number(item)?)?;
    }
    Ok(list)
}
