//! Writes calls as lines of a log whose job gives out names.
ghost use Rattle.std.specs.Prelude.{◌≡◌, ◌++◌, flat_map, IfOk, OnOk, string_bytes};
ghost use Rattle.ckpt_answers.specs.Texts.{spaced};
ghost use Rattle.ckpt_lines.specs.CallTexts.{Fits, FitsCall, FitsFiles};
ghost use Rattle.ckpt_term_lines.specs.declared.line.TermLine.TheVariants as line;
ghost use Rattle.ckpt_term_lines.specs.TermTexts.{FitsTermCall, IsTermReadAs, fence_text, made_text, term_text};

use ckpt_ids::{Call, Files};
use ckpt_lines::{write_call, write_number};
use ckpt_terms::FencedCall;
use std::alloc::{AllocError, Global};

/// Room for most lines, which then allocate once.
const USUAL_LENGTH: usize = 64;

/// The line of a call, without its newline. A log with this line makes that call.
///
/// A call with term 0 has the line that scripts have. A line of more than 131,072 bytes is too long
/// to be read. Only an acknowledgement with more files than a coordinator accepts, or a call that
/// gives up some thousands of names, can have such a line. Fails only if memory runs out.
pub fn term_line(alloc: Global, call: &FencedCall) -> Result<String, AllocError>
    ensures text { IfOk result (λ text. string_bytes text ≡ term_text call.now) }
    ensures read { IfOk result (λ text. IsTermReadAs (line.Call call.now) (string_bytes text)) }
{
    let mut text = String::with_capacity(alloc, USUAL_LENGTH)?;
    write_fenced_call(&mut text, call)?;
    Ok(text)
}

/// The line from which on names are given out, from this one on, without its newline. Fails only if
/// memory runs out.
#[tactic(auto, unfolding(crate::specs::TermTexts::fence_text))]
pub fn fence_line(alloc: Global, first: u64) -> Result<String, AllocError>
    ensures text { IfOk result (λ text. string_bytes text ≡ fence_text first) }
    ensures read { IfOk result (λ text. IsTermReadAs (line.Fence first) (string_bytes text)) }
{
    let mut text = String::new(alloc);
    write_number(&mut text, "fence ", first)?;
    Ok(text)
}

#[tactic(auto, unfolding(crate::specs::TermTexts::term_text))]
fn write_fenced_call(text: &mut String, call: &FencedCall) -> Result<(), AllocError>
    ensures text { OnOk result (string_bytes text.new ≡ string_bytes text.old ++ term_text call.now) }
    ensures fits { OnOk result (FitsTermCall call.now) }
{
    match call {
        FencedCall::Reserve { term, count } => {
            write_number(text, "reserve ", *term)?;
            write_number(text, " ", *count)
        }
        FencedCall::Forfeit { term, names } => {
            write_number(text, "forfeit ", *term)?;
            write_names(text, names)
        }
        FencedCall::Advance { now, term, first } => {
            write_number(text, "advance ", *now)?;
            write_number(text, " ", *term)?;
            write_number(text, " ", *first)
        }
        FencedCall::Make { term, call } => write_made(text, *term, call),
    }
}

/// Appends a call with the term of its caller, or without one if that is 0.
fn write_made(text: &mut String, term: u64, call: &Call) -> Result<(), AllocError>
    ensures text { OnOk result (string_bytes text.new ≡ string_bytes text.old ++ made_text term call.now) }
    ensures fits { OnOk result (Fits term × FitsCall call.now) }
{
    if term != 0 {
        write_number(text, "in ", term)?;
        text.push_str(" ")?;
    }
    write_call(text, call)
}

/// Appends the names.
fn write_names(text: &mut String, names: &Files) -> Result<(), AllocError>
    ensures text { OnOk result (string_bytes text.new ≡ string_bytes text.old ++ flat_map spaced names.now) }
    ensures fit { OnOk result (FitsFiles names.now) }
{
    names.recall();
    for place in 0..names.len() {
        if let Some(name) = names.get(place) {
            write_number(text, " ", name.0)?;
        }
    }
    Ok(())
}
