//! The parts of a coordinator, made from an image.

ghost use Rattle.std.specs.Prelude.{◌≡◌, ◌≢◌, ◌<◌, ◌≤◌, ◌↔◌, ◌++◌, ℕ, [], true, false, length, Err, None, IfOk, IfErr, OnOk, IsTrue, OnErr};
ghost use Rattle.ckpt_ids.specs.declared.limits.TheConstants.{MOMENTS_END, NUMBERS_END};
ghost use Rattle.ckpt_ids.specs.Ordered.{AreDistinct, IsIn};
ghost use Rattle.ckpt_ids.specs.Records.{Record, is_present};
ghost use Rattle.ckpt_memory.specs.Refusals.{one_more};
ghost use Rattle.ckpt_model.specs.declared.mode.Mode.TheVariants.{Running};
ghost use Rattle.ckpt_model.specs.Images.{CanHold, HasSoundMoments, HasSoundNumbers, state_in};
ghost use Rattle.ckpt_core.specs.Inside.Loading.{AreFilesApart, HasBase, MayWait, emptied, with_more_waiting};
ghost use Rattle.ckpt_core.specs.Inside.Parts.{AreSound, AreTied, records_in, state_of};

use crate::image::ImageFault;
use crate::parts::{Opened, Parts};
use crate::pending_records::PendingRecords;
use crate::recall::recall_limits;
use ckpt_hash::Secret;
use ckpt_ids::{CheckpointId, FileId, Files, Handed, LONGEST_DURATION, MOMENTS_END, NUMBERS_END};
use ckpt_memory::Meter;
use ckpt_model::{Image, Mode};
use ckpt_outbox::Outbox;
use ckpt_registry::Registry;
use ckpt_rules::{Clock, Failures};
use ckpt_store::Store;
use std::alloc::{AllocError, Global};

/// Whether a clock has room for the moments of an image.
fn has_sound_moments(image: &Image) -> bool
    ensures yes { IsTrue result → HasSoundMoments (state_in image.now) }
    ensures no { result ≡ false → HasSoundMoments (state_in image.now) → ⊥ }
{
    if image.latest >= MOMENTS_END || image.due >= MOMENTS_END + 2 * LONGEST_DURATION {
        return false;
    }
    match image.completed {
        Some(moment) => moment < MOMENTS_END,
        None => true,
    }
}

/// Whether a coordinator could be opened at the moment and with the first number of an image.
fn could_start(image: &Image) -> bool
    ensures { IsTrue result ↔ ((image.now.start < MOMENTS_END) × (1 ≤ image.now.first) × (image.now.first < NUMBERS_END)) }
{
    image.start < MOMENTS_END && 1 <= image.first && image.first < NUMBERS_END
}

/// Whether the moments, the numbers and the failures of an image are within their limits.
fn has_sound_numbers(image: &Image) -> bool
    ensures yes { IsTrue result → HasSoundNumbers (state_in image.now) }
    ensures no { result ≡ false → HasSoundNumbers (state_in image.now) → ⊥ }
{
    if !could_start(image) || image.next < image.first || image.next > NUMBERS_END {
        return false;
    }
    if image.mode == Mode::Running && image.failures > image.config.tolerable() {
        return false;
    }
    has_sound_moments(image)
}

impl Parts {
    /// The parts of an image without its records, its base and its files. Fails only if memory runs
    /// out.
    ///
    /// Condition: its moments, numbers and failures are within their limits.
    pub(crate) fn begun(
        meter: &mut Meter,
        alloc: Global,
        image: &Image,
        secret: Secret,
    ) -> Result<Parts, AllocError>
        requires { HasSoundNumbers (state_in image.now) }
        ensures state { IfOk result (λ parts. state_of parts ≡ emptied (state_in image.now)) }
        ensures tied { IfOk result (λ parts. AreTied parts) }
        ensures none_ended { IfOk result (λ parts. parts.ended.items ≡ []) }
        ensures none { OnOk result (meter.new ≡ meter.old) }
        ensures refused { OnErr result (meter.new ≡ one_more meter.old) }
    {
        let config = image.config;
        let shape = image.first_shape.copy_metered(meter)?;
        let reshaped = image.shape.copy_metered(meter)?;
        let mut failures = Failures::new(config.tolerable());
        failures.add(image.failures);
        Ok(Parts {
            alloc,
            clock: Clock::of(image.latest, image.due, image.completed),
            failures,
            store: Store::new(alloc, config.retained()),
            opened: Opened {
                config,
                shape,
                start: image.start,
                first: image.first,
            },
            reshaped: Some(reshaped),
            mode: image.mode,
            next: image.next,
            pending: PendingRecords::new(alloc),
            registry: Registry::keyed(alloc, secret),
            outbox: Outbox::keyed(alloc, secret),
            ended: Vec::new(alloc),
        })
    }

    /// Takes the savepoint that the job was rolled back to. The records are loaded.
    ///
    /// Conditions: the parts are tied, and have no base yet.
    pub(crate) fn load_base(&mut self, base: Option<CheckpointId>) -> Result<(), ImageFault>
        requires tied { AreTied self.old }
        requires none { self.old.store.base ≡ None }
        ensures state { OnOk result (state_of self.new ≡ record (state_of self.old) { base = base }) }
        ensures tied { OnOk result (AreTied self.new) }
        ensures rest { self.new ≡ record self.old { store = record self.old.store { base = self.new.store.base } } }
        ensures there { OnOk result (HasBase (state_of self.old) base) }
        ensures damaged { result ≡ Err ImageFault.Damaged → HasBase (state_of self.old) base → ⊥ }
        ensures fault { IfErr result (λ why. why ≡ ImageFault.Damaged) }
    {
        self.recall_groups();
        let Some(id) = base else {
            return Ok(());
        };
        if !self.store.has_savepoint(id) {
            return Err(ImageFault::Damaged);
        }
        self.store.set_base(id);
        Ok(())
    }

    /// Whether nothing is pending, unless the job runs.
    pub(crate) fn is_idle(&self) -> bool
        ensures yes { IsTrue result → self.now.mode ≢ Running → (r : Record) → IsIn r (records_in self.now) → r.done ≡ true }
        ensures no { result ≡ false → (self.now.mode ≢ Running → (r : Record) → IsIn r (records_in self.now) → r.done ≡ true) → ⊥ }
    {
        self.recall_groups();
        match self.mode {
            Mode::Running => true,
            _ => self.pending.len() == 0,
        }
    }

    /// Adds files at the end of waiting, in reserved room, if none of them is known.
    ///
    /// Condition: there is room for all of them.
    pub(crate) fn put_back(&mut self, files: &[FileId]) -> Result<(), ImageFault>
        requires room { length files.now ≤ self.old.outbox.spare }
        ensures parts { OnOk result (self.new ≡ with_more_waiting self.old files.now) }
        ensures unused { OnOk result ((f : ℕ) → IsIn f files.now → is_present self.old.registry f ≡ false) }
        ensures apart { OnOk result (AreDistinct (self.new.outbox.waiting ++ self.new.outbox.taken)) }
        ensures damaged { result ≡ Err ImageFault.Damaged → MayWait self.old files.now → ⊥ }
        ensures fault { IfErr result (λ why. why ≡ ImageFault.Damaged) }
    {
        for file in files {
            if self.knows(*file) {
                return Err(ImageFault::Damaged);
            }
            self.outbox.put(&[*file]);
        }
        // The contract of this call says that no file is there twice.
        let _ = self.outbox.knows(FileId(0));
        Ok(())
    }

    /// Takes the files that wait and those that were fetched into the outbox. The records are
    /// loaded.
    ///
    /// Conditions: the parts are tied, and the outbox is empty.
    pub(crate) fn load_files(
        &mut self,
        meter: &mut Meter,
        waiting: &Handed,
        taken: &Files,
    ) -> Result<(), ImageFault>
        requires tied { AreTied self.old }
        requires none_waits { self.old.outbox.waiting ≡ [] }
        requires none_taken { self.old.outbox.taken ≡ [] }
        ensures state { OnOk result (state_of self.new ≡ record (state_of self.old) { waiting = waiting.now; taken = taken.now }) }
        ensures tied { OnOk result (AreTied self.new) }
        ensures noted { OnOk result (self.new.ended.items ≡ self.old.ended.items) }
        ensures apart { OnOk result (AreFilesApart self.old.registry (waiting.now ++ taken.now)) }
        ensures damaged { result ≡ Err ImageFault.Damaged → AreFilesApart self.old.registry (waiting.now ++ taken.now) → ⊥ }
        ensures none { OnOk result (meter.new ≡ meter.old) }
        ensures cause { result ≡ Err ImageFault.Memory → meter.new ≡ one_more meter.old }
    {
        self.outbox.reserve_metered(meter, taken.len() as u64)?;
        self.put_back(taken.as_slice())?;
        self.outbox.take_metered(meter, taken.len() as u64)?;
        self.outbox.reserve_metered(meter, waiting.len() as u64)?;
        self.put_back(waiting.as_slice())?;
        self.make_room_for_files(meter, 0)?;
        Ok(())
    }

    /// The parts of an image.
    pub(crate) fn of_image(
        meter: &mut Meter,
        alloc: Global,
        image: &Image,
        secret: Secret,
    ) -> Result<Parts, ImageFault>
        ensures sound { IfOk result (λ parts. AreSound parts) }
        ensures state { IfOk result (λ parts. state_of parts ≡ state_in image.now) }
        ensures held { OnOk result (CanHold (state_in image.now)) }
        ensures damaged { result ≡ Err ImageFault.Damaged → CanHold (state_in image.now) → ⊥ }
        ensures memory { result ≡ Err ImageFault.Memory → HasSoundNumbers (state_in image.now) }
        ensures none { OnOk result (meter.new ≡ meter.old) }
        ensures cause { result ≡ Err ImageFault.Memory → meter.new ≡ one_more meter.old }
    {
        recall_limits(&image.config);
        image.first_shape.recall();
        image.shape.recall();
        if !has_sound_numbers(image) {
            return Err(ImageFault::Damaged);
        }
        let mut parts = Parts::begun(meter, alloc, image, secret)?;
        parts.load_all(meter, &image.records)?;
        parts.load_base(image.base)?;
        if !parts.is_idle() {
            return Err(ImageFault::Damaged);
        }
        parts.load_files(meter, &image.waiting, &image.taken)?;
        Ok(parts)
    }
}
