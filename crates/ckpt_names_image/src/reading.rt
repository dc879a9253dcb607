//! Reads the text of an image, with or without names.

ghost use Rattle.std.specs.Prelude.{◌≡◌, ◌≢◌, Some, None, Err, IfOk, IfErr, option_and_then};
ghost use Rattle.ckpt_image.specs.{Images.Reads, Members.list_of};
ghost use Rattle.ckpt_names_image.specs.Named.{named_in, named_of, names_in_member, names_of, pair_of, saved_in, saved_of, saved_read, span_of};
ghost use Rattle.serde_json.specs.{Data.Data, Find.get, Read.read, View.items_view, View.view};

use crate::saved::{NAMES_VERSION, NamesMember, SavedImage};
use ckpt_image::TextFault::NoImage;
use ckpt_image::{TextFault, VERSION, fault_of, image_of_any_version, member, number, number_at};
use ckpt_terms::{Span, TermsImage};
use serde_json::Value;
use std::alloc::Global;

/// The image that a text describes, as [`crate::names_image_text`] or [`ckpt_image::image_text`]
/// writes it.
///
/// Returns [`TextFault::NotJson`] only if the text is not JSON, [`TextFault::NoImage`] only if it
/// is JSON that does not describe an image, and [`TextFault::Memory`] if memory runs out.
#[tactic(auto, unfolding(crate::specs::Named::saved_read))]
pub fn parse_names_image(alloc: Global, text: &str) -> Result<SavedImage, TextFault>
    ensures ok { IfOk result (λ image. saved_read text.now ≡ Some (saved_in image)) }
    ensures none { IfErr result (λ why. why ≢ TextFault.Memory → saved_read text.now ≡ None) }
    ensures not_json { result ≡ Err TextFault.NotJson → read text.now ≡ None }
    ensures no_image { result ≡ Err TextFault.NoImage → (d : Data) × (read text.now ≡ Some d) × (saved_of d ≡ None) }
{
    match Value::from_str(alloc, text) {
        Ok(value) => saved(alloc, &value),
        Err(error) => Err(fault_of(&error)),
    }
}

#[tactic(auto, unfolding(crate::specs::Named::saved_of))]
fn saved(alloc: Global, value: &Value) -> Result<SavedImage, TextFault>
    ensures { Reads saved_in result (saved_of (view value.now)) }
{
    let version = number_at(value, "version")?;
    if version == VERSION {
        return Ok(SavedImage::Plain(image_of_any_version(alloc, value)?));
    }
    if version == NAMES_VERSION {
        return Ok(SavedImage::Fenced(named(alloc, value)?));
    }
    Err(NoImage)
}

#[tactic(auto, unfolding(crate::specs::Named::named_of))]
fn named(alloc: Global, value: &Value) -> Result<TermsImage, TextFault>
    ensures { Reads named_in result (named_of (view value.now)) }
{
    let names = names(alloc, value, "names")?;
    let core = image_of_any_version(alloc, value)?;
    Ok(TermsImage {
        core,
        term: names.term,
        next_name: names.next,
        unspent: names.unspent,
    })
}

#[tactic(auto, unfolding(crate::specs::Named::names_of))]
fn names(alloc: Global, value: &Value, key: &str) -> Result<NamesMember, TextFault>
    ensures { Reads names_in_member result (option_and_then names_of (get key.now (view value.now))) }
{
    let value = member(value, key)?;
    let next = number_at(value, "next")?;
    let term = number_at(value, "term")?;
    let unspent = spans(alloc, member(value, "unspent")?)?;
    Ok(NamesMember {
        next,
        term,
        unspent,
    })
}

/// The ranges, in their order in the array.
fn spans(alloc: Global, value: &Value) -> Result<Vec<Span>, TextFault>
    ensures { Reads (λ list. list.items) result (list_of span_of (view value.now)) }
{
    let items = value.as_array().ok_or(NoImage)?;
    let mut list = Vec::with_capacity(alloc, items.len())?;
    for item in items.as_slice() {
        list.push(span(item)?)?;
    }
    Ok(list)
}

/// An array of two numbers.
#[tactic(auto, unfolding(crate::specs::Named::span_of))]
fn span(value: &Value) -> Result<Span, TextFault>
    ensures { Reads (λ span. span) result (span_of (view value.now)) }
{
    let items = value.as_array().ok_or(NoImage)?;
    pair(items.as_slice())
}

fn pair(items: &[Value]) -> Result<Span, TextFault>
    ensures { Reads (λ span. span) result (pair_of (items_view items.now)) }
{
    if items.len() != 2 {
        return Err(NoImage);
    }
    let from = number(&items[0])?;
    let to = number(&items[1])?;
    Ok(Span { from, to })
}
