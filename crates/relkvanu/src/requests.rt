//! The requests for memory of one call of C. Those that are refused are counted.
//!
//! Only [`Answer::out_of_memory`](crate::answer::Answer::out_of_memory) makes that answer, and its
//! caller has to show a refused request. So no export answers so for another reason.

ghost use Rattle.std.specs.Prelude.{◌≡◌, ◌≢◌, true, Ok, Err, Some, None, IfOk, IfErr, OnErr, map, string_bytes};
ghost use Rattle.ckpt_answers.specs.MetadataTexts.{metadata_bytes};
ghost use Rattle.ckpt_image.specs.{Images.image_read, Written.image_bytes};
ghost use Rattle.ckpt_lines.specs.declared.line.Line.TheVariants as script;
ghost use Rattle.ckpt_lines.specs.CallTexts.{IsReadAs, config_text, job_text, line_of_config, start_text};
ghost use Rattle.ckpt_model.specs.Images.{state_in};
ghost use Rattle.ckpt_names_image.specs.Named.{Fenced, named_bytes, named_in, saved_in, saved_read};
ghost use Rattle.ckpt_term_lines.specs.{TermReading.term_may_want_memory, TermReading.term_reading, TermTexts.IsTermReadAs};
ghost use Rattle.relkvanu.specs.Requested.{IsRefused};
ghost use Rattle.relkvanu.specs.Writing.{asked_text, line_of_asked, opening_text};

use crate::asked::Asked;
use ckpt_answers::metadata_text;
use ckpt_core::Image;
use ckpt_ids::{Config, FileId, Metadata, Shape};
use ckpt_image::{TextFault, image_text};
use ckpt_lines::{LineFault, config_line, job_line, start_line};
use ckpt_logged::Logged;
use ckpt_memory::{Meter, list};
use ckpt_names_image::{SavedImage, names_image_text, parse_names_image};
use ckpt_term_lines::{TermLine, fence_line, parse_term_line, term_line};
use ckpt_terms::TermsImage;
use std::alloc::{AllocError, Global};
use std::snapshot::Snapshot;

/// The requests for memory of one call. It has no bytes: only clauses read it.
///
/// The meter counts those of the coordinator, of its images and of lists. The functions below make the
/// requests that `ckpt_memory` has no function for. The crates of texts take no meter: that one of
/// their functions fails counts as a refused request, and that it fails for nothing else is believed.
#[derive(Drop)]
pub(crate) struct Requests {
    /// Counts the requests of the coordinator and of lists.
    pub(crate) meter: Meter,
    others: Snapshot<u64>,
}

impl Requests {
    /// No request was made yet.
    pub(crate) fn new() -> Requests {
        Requests {
            meter: Meter::new(),
            others: Snapshot::of(&0),
        }
    }

    /// A request was refused: the error that says so.
    fn refuse(&mut self) -> AllocError
        ensures { IsRefused self.new }
    {
        self.others = Snapshot::of(&1);
        AllocError
    }

    /// The box of a coordinator.
    pub(crate) fn boxed(
        &mut self,
        alloc: Global,
        machine: Logged,
    ) -> Result<Box<Logged>, AllocError>
        ensures value { IfOk result (λ boxed. boxed.value ≡ machine) }
        ensures refused { OnErr result (IsRefused self.new) }
    {
        match Box::new(alloc, machine) {
            Ok(boxed) => Ok(boxed),
            Err(_) => Err(self.refuse()),
        }
    }

    /// A list of files with these numbers.
    pub(crate) fn files(
        &mut self,
        alloc: Global,
        numbers: &[u64],
    ) -> Result<Vec<FileId>, AllocError>
        ensures items { IfOk result (λ files. files.items ≡ numbers.now) }
        ensures refused { OnErr result (IsRefused self.new) }
    {
        let mut files = list::with_capacity(&mut self.meter, alloc, numbers.len())?;
        for place in 0..numbers.len() {
            files.push_reserved(FileId(numbers[place]));
        }
        Ok(files)
    }

    /// Reads a line, as [`parse_term_line`] does.
    pub(crate) fn line(&mut self, alloc: Global, line: &[u8]) -> Result<TermLine, LineFault>
        ensures line { IfOk result (λ read. term_reading line.now ≡ Ok read) }
        ensures fault { IfErr result (λ why. why ≢ LineFault.Memory → term_reading line.now ≡ Err why) }
        ensures memory { result ≡ Err LineFault.Memory → term_may_want_memory line.now ≡ true }
        ensures definite { term_reading line.now ≢ Err LineFault.Memory }
        ensures cause { IfErr result (λ why. why ≡ LineFault.Memory → IsRefused self.new) }
    {
        match parse_term_line(alloc, line) {
            Err(LineFault::Memory) => {
                let _ = self.refuse();
                Err(LineFault::Memory)
            }
            read => read,
        }
    }

    /// The line that asks for this.
    #[inline(always)]
    pub(crate) fn asked_line(&mut self, alloc: Global, asked: &Asked) -> Result<String, AllocError>
        ensures text { IfOk result (λ text. string_bytes text ≡ asked_text asked.now) }
        ensures read { IfOk result (λ text. IsTermReadAs (line_of_asked asked.now) (string_bytes text)) }
        ensures refused { OnErr result (IsRefused self.new) }
    {
        let made = match asked {
            Asked::Fence { first } => fence_line(alloc, *first),
            Asked::Call(call) => term_line(alloc, call),
        };
        match made {
            Ok(text) => Ok(text),
            Err(_) => Err(self.refuse()),
        }
    }

    /// The lines of an opening.
    pub(crate) fn opening_lines(
        &mut self,
        alloc: Global,
        config: &Config,
        shape: &Shape,
        now: u64,
    ) -> Result<String, AllocError>
        ensures text { IfOk result (λ text. string_bytes text ≡ opening_text (record { config = config.now; shape = shape.now; start = now; first = 1 })) }
        ensures config { IfOk result (λ text. IsReadAs (line_of_config config.now) (config_text config.now)) }
        ensures job { IfOk result (λ text. IsReadAs (script.Job shape.now) (job_text shape.now)) }
        ensures start { IfOk result (λ text. IsReadAs (script.Start now) (start_text now)) }
        ensures refused { OnErr result (IsRefused self.new) }
    {
        match joined(alloc, config, shape, now) {
            Ok(text) => Ok(text),
            Err(_) => Err(self.refuse()),
        }
    }

    /// Metadata as JSON, as [`metadata_text`] makes it.
    pub(crate) fn metadata(
        &mut self,
        alloc: Global,
        metadata: &Metadata,
    ) -> Result<String, AllocError>
        ensures text { IfOk result (λ text. string_bytes text ≡ metadata_bytes metadata.now) }
        ensures refused { OnErr result (IsRefused self.new) }
    {
        match metadata_text(alloc, metadata) {
            Ok(text) => Ok(text),
            Err(_) => Err(self.refuse()),
        }
    }

    /// The text of an image without names, as [`image_text`] makes it.
    pub(crate) fn image_text(&mut self, alloc: Global, image: &Image) -> Result<String, AllocError>
        ensures text { IfOk result (λ text. string_bytes text ≡ image_bytes (state_in image.now)) }
        ensures reads_back { IfOk result (λ text. image_read (string_bytes text) ≡ Some (state_in image.now)) }
        ensures refused { OnErr result (IsRefused self.new) }
    {
        match image_text(alloc, image) {
            Ok(text) => Ok(text),
            Err(_) => Err(self.refuse()),
        }
    }

    /// The text of an image with names, as [`names_image_text`] makes it.
    pub(crate) fn names_image_text(
        &mut self,
        alloc: Global,
        image: &TermsImage,
    ) -> Result<String, AllocError>
        ensures text { IfOk result (λ text. string_bytes text ≡ named_bytes (named_in image.now)) }
        ensures reads_back { IfOk result (λ text. saved_read (string_bytes text) ≡ Some (Fenced (named_in image.now))) }
        ensures refused { OnErr result (IsRefused self.new) }
    {
        match names_image_text(alloc, image) {
            Ok(text) => Ok(text),
            Err(_) => Err(self.refuse()),
        }
    }

    /// Reads the text of an image, as [`parse_names_image`] does.
    pub(crate) fn saved(&mut self, alloc: Global, text: &str) -> Result<SavedImage, TextFault>
        ensures ok { IfOk result (λ image. saved_read text.now ≡ Some (saved_in image)) }
        ensures none { IfErr result (λ why. why ≢ TextFault.Memory → saved_read text.now ≡ None) }
        ensures cause { IfErr result (λ why. why ≡ TextFault.Memory → IsRefused self.new) }
    {
        match parse_names_image(alloc, text) {
            Err(TextFault::Memory) => {
                let _ = self.refuse();
                Err(TextFault::Memory)
            }
            read => read,
        }
    }
}

#[tactic(auto, unfolding(crate::specs::Writing::opening_text))]
fn joined(alloc: Global, config: &Config, shape: &Shape, now: u64) -> Result<String, AllocError>
    ensures text { IfOk result (λ text. string_bytes text ≡ opening_text (record { config = config.now; shape = shape.now; start = now; first = 1 })) }
    ensures config { IfOk result (λ text. IsReadAs (line_of_config config.now) (config_text config.now)) }
    ensures job { IfOk result (λ text. IsReadAs (script.Job shape.now) (job_text shape.now)) }
    ensures start { IfOk result (λ text. IsReadAs (script.Start now) (start_text now)) }
{
    let mut text = config_line(alloc, config)?;
    text.push_str("\n")?;
    text.push_str(&job_line(alloc, shape)?)?;
    text.push_str("\n")?;
    text.push_str(&start_line(alloc, now)?)?;
    text.push_str("\n")?;
    Ok(text)
}
