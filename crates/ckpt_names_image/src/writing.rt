//! The text of an image with names.

ghost use Rattle.std.specs.Prelude.{◌≡◌, Some, IfOk, OnOk, map, string_bytes};
ghost use Rattle.ckpt_image.specs.Fits.{Fits};
ghost use Rattle.ckpt_names_image.specs.Named.{Fenced, named_bytes, named_data, named_in, names_data, saved_read, span_data};
ghost use Rattle.ckpt_answers.specs.MetadataTexts.{list};
ghost use Rattle.serde_json.specs.View.{view};

use crate::saved::NAMES_VERSION;
use ckpt_image::image_object;
use ckpt_terms::{Span, TermsImage};
use serde_json::{Value, json, put};
use std::alloc::{AllocError, Global};

/// The image as JSON, without spaces and without a newline.
///
/// The keys are in the order of their bytes. Fails only if memory runs out.
#[tactic(auto, unfolding(crate::specs::Named::named_bytes))]
pub fn names_image_text(alloc: Global, image: &TermsImage) -> Result<String, AllocError>
    ensures text { IfOk result (λ text. string_bytes text ≡ named_bytes (named_in image.now)) }
    ensures reads_back { IfOk result (λ text. saved_read (string_bytes text) ≡ Some (Fenced (named_in image.now))) }
{
    image_value(alloc, image)?.to_string(alloc)
}

#[tactic(auto, unfolding(crate::specs::Named::named_data))]
fn image_value(alloc: Global, image: &TermsImage) -> Result<Value, AllocError>
    ensures value { IfOk result (λ value. view value ≡ named_data (named_in image.now)) }
    ensures fits { OnOk result (Fits (named_in image.now).core) }
{
    let mut object = image_object(alloc, &image.core, NAMES_VERSION)?;
    put(&mut object, alloc, "names", names_value(alloc, image)?)?;
    Ok(Value::Object(object))
}

#[tactic(auto, unfolding(crate::specs::Named::names_data))]
fn names_value(alloc: Global, image: &TermsImage) -> Result<Value, AllocError>
    ensures { IfOk result (λ value. view value ≡ names_data (named_in image.now)) }
{
    let unspent = spans_value(alloc, image.unspent.as_slice())?;
    json!(in alloc; {"next": image.next_name, "term": image.term, "unspent": unspent})
}

fn spans_value(alloc: Global, spans: &[Span]) -> Result<Value, AllocError>
    ensures { IfOk result (λ value. view value ≡ list (map span_data spans.now)) }
{
    let mut items = Vec::with_capacity(alloc, spans.len())?;
    for span in spans {
        items.push(span_value(alloc, *span)?)?;
    }
    Ok(Value::from(items))
}

fn span_value(alloc: Global, span: Span) -> Result<Value, AllocError>
    ensures { IfOk result (λ value. view value ≡ span_data span) }
{
    json!(in alloc; [span.from, span.to])
}
