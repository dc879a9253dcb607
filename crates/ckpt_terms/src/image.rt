//! What is saved of a coordinator whose tasks reserve the names of their files. One that is made from
//! it answers as the saved one would.

ghost use Rattle.std.specs.Prelude.{◌≡◌, ◌↔◌, ◌<◌, ℕ, true, length, Err, None, IfOk, IfSome, IsTrue, OnOk, OnErr};
ghost use Rattle.std.specs.List.{list_all};
ghost use Rattle.ckpt_ids.specs.Ordered.{IsIn};
ghost use Rattle.ckpt_memory.specs.Refusals.{one_more};
ghost use Rattle.ckpt_model.specs.Images.{HasSoundNumbers, record_in, state_in};
ghost use Rattle.ckpt_model.specs.{Refusals.is_cancelled, Soundness.IsSound};
ghost use Rattle.ckpt_terms.specs.FencedLaws.{IsFenced};
ghost use Rattle.ckpt_terms.specs.Spans.{AreRanges, AreRangesBelow, names_of, ranges_of};
ghost use Rattle.ckpt_terms.specs.Spent.{files_are_spent, is_spent, record_is_spent};
ghost use Rattle.ckpt_terms.specs.TermsImages.{CanOpenFenced, fenced_in, fenced_settled};

use crate::call::{LAST_TERM, NAMES_END};
use crate::names::{Names, Span, hold};
use crate::terms::Terms;
use ckpt_core::{Core, Image, ImageFault, Mode, Saved, Secret};
use ckpt_ids::{Acked, Acks, FileId};
use ckpt_memory::Meter;
use std::alloc::{AllocError, Global};

/// The state of a coordinator with names as plain data.
///
/// `specs/TermsImages.antt` defines the state of an image, and which images can be opened.
#[derive(Debug, Drop)]
pub struct TermsImage {
    /// The coordinator.
    pub core: Image,
    /// The term that runs.
    pub term: u64,
    /// The first name that was never reserved.
    pub next_name: u64,
    /// The names that the running term holds: ranges in ascending order, none of them empty. In an
    /// image that was made of a coordinator no two of them touch.
    pub unspent: Vec<Span>,
}

impl Terms {
    /// The state as an image. The files that were fetched are in ascending order, because no call
    /// returns the order in which they were fetched. The ranges of names are as few as can be. Fails
    /// only if memory runs out.
    pub fn image(&self) -> Result<TermsImage, AllocError>
        ensures value { IfOk result (λ image. fenced_in image ≡ fenced_settled self.now) }
        ensures good { IfOk result (λ image. CanOpenFenced image) }
        ensures fewest { IfOk result (λ image. image.unspent.items ≡ ranges_of self.now.unspent) }
    {
        self.image_metered(&mut Meter::new())
    }

    /// [`Terms::image`], which fails exactly if one more request for memory was refused.
    pub fn image_metered(&self, meter: &mut Meter) -> Result<TermsImage, AllocError>
        ensures value { IfOk result (λ image. fenced_in image ≡ fenced_settled self.now) }
        ensures good { IfOk result (λ image. CanOpenFenced image) }
        ensures fewest { IfOk result (λ image. image.unspent.items ≡ ranges_of self.now.unspent) }
        ensures none { OnOk result (meter.new ≡ meter.old) }
        ensures refused { OnErr result (meter.new ≡ one_more meter.old) }
    {
        let term = self.term();
        let core = self.core().image_metered(meter)?;
        let unspent = self.names().copied_ranges_metered(meter)?;
        Ok(TermsImage {
            core,
            term,
            next_name: self.next_name(),
            unspent,
        })
    }

    /// A coordinator in the state of the image. It hashes file numbers under a secret, as that of
    /// [`Terms::keyed`] does.
    ///
    /// Returns [`ImageFault::Damaged`] only if the state is not sound, or no coordinator could be
    /// opened so, or if the ranges are not in ascending order or one is empty. Returns
    /// [`ImageFault::Memory`] if memory runs out. The term, the names, and whether a known file has
    /// a name that is held or was not given out, are tested before memory is taken. Takes 8 bytes
    /// for each name that is held, as the saved coordinator did.
    pub fn from_image(
        alloc: Global,
        image: &TermsImage,
        secret: Secret,
    ) -> Result<Terms, ImageFault>
        ensures value { IfOk result (λ terms. terms ≡ fenced_in image.now) }
        ensures sound { OnOk result (CanOpenFenced image.now) }
        ensures damaged { result ≡ Err ImageFault.Damaged → CanOpenFenced image.now → ⊥ }
        ensures numbers { result ≡ Err ImageFault.Memory → HasSoundNumbers (state_in image.now.core) }
        ensures names { result ≡ Err ImageFault.Memory → IsSound (state_in image.now.core) → IsFenced (fenced_in image.now) }
    {
        Terms::from_image_metered(&mut Meter::new(), alloc, image, secret)
    }

    /// [`Terms::from_image`], which answers [`ImageFault::Memory`] only if one more request for
    /// memory was refused.
    pub fn from_image_metered(
        meter: &mut Meter,
        alloc: Global,
        image: &TermsImage,
        secret: Secret,
    ) -> Result<Terms, ImageFault>
        ensures value { IfOk result (λ terms. terms ≡ fenced_in image.now) }
        ensures sound { OnOk result (CanOpenFenced image.now) }
        ensures damaged { result ≡ Err ImageFault.Damaged → CanOpenFenced image.now → ⊥ }
        ensures numbers { result ≡ Err ImageFault.Memory → HasSoundNumbers (state_in image.now.core) }
        ensures names { result ≡ Err ImageFault.Memory → IsSound (state_in image.now.core) → IsFenced (fenced_in image.now) }
        ensures none { OnOk result (meter.new ≡ meter.old) }
        ensures cause { result ≡ Err ImageFault.Memory → meter.new ≡ one_more meter.old }
    {
        let Some(held) = sound_names(image) else {
            return Err(ImageFault::Damaged);
        };
        let core = Core::from_image_metered(meter, alloc, &image.core, secret)?;
        let unspent = Names::of(meter, alloc, &image.unspent, held)?;
        Ok(Terms::of(alloc, core, image.term, image.next_name, unspent))
    }
}

/// How many names the ranges of the image have, or `None` if the state of the layer is not sound,
/// whatever that of the coordinator is. Takes no memory.
fn sound_names(image: &TermsImage) -> Option<u64>
    ensures ranges { IfSome result (λ held. AreRanges image.now.unspent.items) }
    ensures held { IfSome result (λ held. length (names_of image.now.unspent.items) ≡ held) }
    ensures fenced { IfSome result (λ held. IsSound (state_in image.now.core) → IsFenced (fenced_in image.now)) }
    ensures none { result ≡ None → CanOpenFenced image.now → ⊥ }
{
    if image.term == 0 || image.term > LAST_TERM {
        return None;
    }
    if image.next_name == 0 || image.next_name > NAMES_END {
        return None;
    }
    let held = count_names(&image.unspent, image.next_name)?;
    if !may_hold(image.core.mode, held) {
        return None;
    }
    if files_are_spent(image) {
        Some(held)
    } else {
        None
    }
}

/// How many names these ranges have, or `None` if they are not in ascending order, if one is empty,
/// or if one has a name from `end` on.
fn count_names(ranges: &[Span], end: u64) -> Option<u64>
    ensures some { IfSome result (λ held. AreRangesBelow ranges.now end held) }
    ensures none { result ≡ None → AreRanges ranges.now → ((f : ℕ) → IsIn f (names_of ranges.now) → f < end) → ⊥ }
{
    let mut held = 0;
    let mut last = 0;
    for span in ranges {
        if span.from < last {
            return None;
        }
        if span.to <= span.from {
            return None;
        }
        held += span.to - span.from;
        last = span.to;
    }
    if last <= end { Some(held) } else { None }
}

/// Whether a job in this mode may hold this many names.
fn may_hold(mode: Mode, held: u64) -> bool
    ensures { IsTrue result ↔ (is_cancelled mode ≡ true → held ≡ 0) }
{
    match mode {
        Mode::Cancelled => held == 0,
        Mode::Running | Mode::Failed => true,
    }
}

/// Whether the name of each known file was given out, and no task holds it.
///
/// Condition: the ranges are in ascending order, and none is empty.
fn files_are_spent(image: &TermsImage) -> bool
    requires { AreRanges image.now.unspent.items }
    ensures { result ≡ files_are_spent image.now }
{
    records_are_spent(image, image.core.records.as_slice())
        && are_spent(image, image.core.waiting.as_slice())
        && are_spent(image, image.core.taken.as_slice())
}

/// The same of the files of these records.
fn records_are_spent(image: &TermsImage, records: &[Saved]) -> bool
    requires { AreRanges image.now.unspent.items }
    ensures { result ≡ list_all (λ s. record_is_spent (fenced_in image.now) (record_in s)) records.now }
{
    records.iter().all(|saved| record_is_spent(image, saved))
}

/// The same of the files of a record.
fn record_is_spent(image: &TermsImage, saved: &Saved) -> bool
    requires { AreRanges image.now.unspent.items }
    ensures { result ≡ record_is_spent (fenced_in image.now) (record_in saved.now) }
{
    acks_are_spent(image, &saved.metadata.acks) && are_spent(image, saved.pins.as_slice())
}

/// The same of the files of acknowledgements.
fn acks_are_spent(image: &TermsImage, acks: &Acks) -> bool
    requires { AreRanges image.now.unspent.items }
    ensures { result ≡ list_all (λ a. list_all (is_spent (fenced_in image.now)) a.files) acks.now }
{
    acks.as_slice()
        .iter()
        .all(|acked| ack_is_spent(image, acked))
}

/// The same of the files of an acknowledgement.
fn ack_is_spent(image: &TermsImage, acked: &Acked) -> bool
    requires { AreRanges image.now.unspent.items }
    ensures { result ≡ list_all (is_spent (fenced_in image.now)) acked.now.files }
{
    are_spent(image, acked.files.as_slice())
}

/// The same of these files.
fn are_spent(image: &TermsImage, files: &[FileId]) -> bool
    requires { AreRanges image.now.unspent.items }
    ensures { result ≡ list_all (is_spent (fenced_in image.now)) files.now }
{
    files.iter().all(|file| is_spent(image, *file))
}

/// Whether the name was given out, and no task holds it.
fn is_spent(image: &TermsImage, file: FileId) -> bool
    requires { AreRanges image.now.unspent.items }
    ensures { result ≡ is_spent (fenced_in image.now) file }
{
    file.0 < image.next_name && !hold(&image.unspent, file)
}
