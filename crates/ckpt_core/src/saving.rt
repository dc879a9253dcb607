//! What is saved of a coordinator.

ghost use Rattle.std.specs.Prelude.{◌≡◌, ◌+◌, ◌<◌, ◌^◌, map, IfOk, IsSome, Some, OnOk, OnErr};
ghost use Rattle.ckpt_ids.specs.Ordered.{IsIn};
ghost use Rattle.ckpt_ids.specs.Records.{Record};
ghost use Rattle.ckpt_memory.specs.Refusals.{one_more};
ghost use Rattle.ckpt_model.specs.Images.{CanHold, record_in, settled, state_in};
ghost use Rattle.ckpt_core.specs.Inside.Parts.{AreSound, records_in, state_of};
ghost use Rattle.ckpt_model.specs.State.{record_of};

use crate::parts::Parts;
use ckpt_ids::{CheckpointId, Files};
use ckpt_memory::{Meter, list};
use ckpt_model::{Image, Live, Saved};
use std::alloc::AllocError;

/// The number after that of a record.
///
/// Condition: that is below 2^62.
fn number_after(id: CheckpointId) -> CheckpointId
    requires { id < 2 ^ 62 }
    ensures { result ≡ id + 1 }
{
    CheckpointId(id.0 + 1)
}

impl Parts {
    /// The files that a live record pins. Fails only if memory runs out.
    ///
    /// Condition: the parts are sound.
    fn pins_of(&self, meter: &mut Meter, id: CheckpointId, done: bool) -> Result<Files, AllocError>
        requires { AreSound self.now }
        ensures pins { IfOk result (λ pins. (r : Record) → IsIn r (records_in self.now) → r.id ≡ id → r.done ≡ done → pins ≡ r.pins) }
        ensures none { OnOk result (meter.new ≡ meter.old) }
        ensures refused { OnErr result (meter.new ≡ one_more meter.old) }
    {
        self.recall_groups();
        if done {
            return Ok(Files::of(Vec::new(self.alloc)));
        }
        self.registry.pins_metered(meter, id)
    }

    /// The image of a live record. Fails only if memory runs out.
    ///
    /// Conditions: the parts are sound, and a live record has this number.
    fn save(&self, meter: &mut Meter, id: CheckpointId, done: bool) -> Result<Saved, AllocError>
        requires sound { AreSound self.now }
        requires there { IsSome (record_of (state_of self.now) id) }
        ensures saved { IfOk result (λ saved. (r : Record) → record_of (state_of self.now) id ≡ Some r → done ≡ r.done → record_in saved ≡ r) }
        ensures none { OnOk result (meter.new ≡ meter.old) }
        ensures refused { OnErr result (meter.new ≡ one_more meter.old) }
    {
        let metadata = self.metadata(meter, id)?.unwrap();
        let pins = self.pins_of(meter, id, done)?;
        Ok(Saved { metadata, pins })
    }

    /// The images of all live records, in ascending order of their numbers. Fails only if memory
    /// runs out.
    ///
    /// Condition: the parts are sound.
    fn saved(&self, meter: &mut Meter) -> Result<Vec<Saved>, AllocError>
        requires { AreSound self.now }
        ensures saved { IfOk result (λ saved. map record_in saved.items ≡ records_in self.now) }
        ensures none { OnOk result (meter.new ≡ meter.old) }
        ensures refused { OnErr result (meter.new ≡ one_more meter.old) }
    {
        let mut saved = Vec::new(self.alloc);
        let mut lowest = CheckpointId(0);
        while let Some(live) = self.first_from(lowest) {
            let Live { id, kind: _, done } = live;
            let one = self.save(meter, id, done)?;
            list::push(meter, &mut saved, one)?;
            lowest = number_after(id);
        }
        Ok(saved)
    }

    /// The state as an image. Fails only if memory runs out.
    ///
    /// Condition: the parts are sound.
    pub(crate) fn image(&self, meter: &mut Meter) -> Result<Image, AllocError>
        requires { AreSound self.now }
        ensures value { IfOk result (λ image. state_in image ≡ settled (state_of self.now)) }
        ensures good { IfOk result (λ image. CanHold (state_in image)) }
        ensures none { OnOk result (meter.new ≡ meter.old) }
        ensures refused { OnErr result (meter.new ≡ one_more meter.old) }
    {
        self.opened.shape.recall();
        let records = self.saved(meter)?;
        let first_shape = self.opened.shape.copy_metered(meter)?;
        let shape = self.shape().copy_metered(meter)?;
        let waiting = self.outbox.waiting_files_metered(meter)?;
        let taken = self.outbox.taken_files_metered(meter)?;
        Ok(Image {
            config: self.opened.config,
            first_shape,
            start: self.opened.start,
            first: self.opened.first,
            shape,
            mode: self.mode,
            latest: self.clock.latest(),
            due: self.clock.interval_ends(),
            completed: self.clock.last_completion(),
            failures: self.failures.number(),
            next: self.next,
            base: self.store.base(),
            records,
            waiting,
            taken,
        })
    }
}
