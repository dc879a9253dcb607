//! Calls that trigger records: ticks, which let old ones expire first, and savepoints.
ghost use Rattle.std.specs.Prelude.{◌≡◌, ℕ, ◌<◌, ◌^◌, ◌≤◌, ◌+◌, ◌-◌, [], length, OnOk, unwrap_or, IfOk, OnErr, true, false, vec_capacity, IfErr};
ghost use Rattle.ckpt_ids.specs.declared.call.Call.TheVariants as call;
ghost use Rattle.ckpt_ids.specs.declared.reply.Answer.TheVariants as answer;
ghost use Rattle.ckpt_ids.specs.declared.reply.Reply.TheVariants as reply;
ghost use Rattle.ckpt_memory.specs.Refusals.{one_more};
ghost use Rattle.ckpt_model.specs.declared.faults.CoreFault.TheVariants.{Memory};
ghost use Rattle.ckpt_model.specs.declared.mode.Mode.TheVariants.{Running};
ghost use Rattle.ckpt_model.specs.Coordinator.{IsSound, answer_wants, may_want_memory};
ghost use Rattle.ckpt_core.specs.Inside.Expiring.{IsExpiry};
ghost use Rattle.ckpt_core.specs.Inside.Parts.{Answers, AreSound, AreTied, IsAccepted, Stays, records_in, state_of};
ghost use Rattle.ckpt_core.specs.Inside.Starting.{Go, HasNoUse, IsIn, IsInOrder, NUMBERS_END, Pin, Starts, count, files_chosen, held_at, pinned, tick, triggered, use_before};

use crate::parts::Parts;
use ckpt_ids::{CheckpointId, Choice, Kind, Reply, Shape, TickEnd};
use ckpt_memory::{Meter, list};
use ckpt_model::CoreFault;
use ckpt_pending::Pending;
use ckpt_rules::{Failures, Hold};
use std::alloc::AllocError;

/// What a tick has done. It is smaller than a reply, which is made from it once, at the end.
pub(crate) struct Ticked {
    /// How many records expired.
    pub(crate) expired: u32,
    pub(crate) end: TickEnd,
}

/// What follows from the records that are too old at a tick. Their numbers are noted.
#[derive(Drop)]
pub(crate) struct Expiry {
    /// How many they are.
    expired: u32,
    /// How many checkpoints stay pending without them.
    left: u32,
    /// The failures, with the checkpoints among them.
    failures: Failures,
    /// Whether a checkpoint is among them, and more have failed in a row than the job tolerates.
    intolerable: bool,
}

impl Parts {
    /// The shape of the records that are triggered next.
    pub(crate) fn shape(&self) -> &Shape
        ensures { result.now ≡ unwrap_or self.now.reshaped self.now.opened.shape }
    {
        match &self.reshaped {
            Some(shape) => shape,
            None => &self.opened.shape,
        }
    }

    /// Triggers a record of this kind, with the next number, at the greatest moment seen. It pins
    /// the files of the choice. If memory runs out, nothing has changed.
    ///
    /// Conditions: the parts are tied, their state is sound, and a number is left.
    #[inline(never)]
    fn trigger(&mut self, meter: &mut Meter, kind: Kind) -> Result<CheckpointId, AllocError>
        requires tied { AreTied self.old }
        requires sound { IsSound (state_of self.old) }
        requires next { self.old.next < NUMBERS_END }
        ensures id { IfOk result (λ id. id ≡ self.old.next) }
        ensures ok { OnOk result (state_of self.new ≡ triggered (state_of self.old) kind) }
        ensures err { OnErr result (state_of self.new ≡ state_of self.old) }
        ensures tied { AreTied self.new }
        ensures noted { self.new.ended.items ≡ self.old.ended.items }
        ensures none { OnOk result (meter.new ≡ meter.old) }
        ensures refused { OnErr result (meter.new ≡ one_more meter.old) }
    {
        let shape = self.shape().copy_metered(meter)?;
        self.make_room(meter)?;
        self.add(meter, kind, shape)
    }

    /// Adds a pending record with the next number, which pins the files of the choice.
    ///
    /// Conditions: the parts are tied, their state is sound, a number is left, the shape is that of the
    /// job, and there is room for the number among those that end.
    fn add(
        &mut self,
        meter: &mut Meter,
        kind: Kind,
        shape: Shape,
    ) -> Result<CheckpointId, AllocError>
        requires tied { AreTied self.old }
        requires sound { IsSound (state_of self.old) }
        requires next { self.old.next < NUMBERS_END }
        requires shape { shape ≡ unwrap_or self.old.reshaped self.old.opened.shape }
        requires room { length (records_in self.old) + 1 ≤ vec_capacity self.old.ended }
        ensures id { IfOk result (λ id. id ≡ self.old.next) }
        ensures ok { OnOk result (state_of self.new ≡ triggered (state_of self.old) kind) }
        ensures err { OnErr result (state_of self.new ≡ state_of self.old) }
        ensures tied { AreTied self.new }
        ensures noted { self.new.ended.items ≡ self.old.ended.items }
        ensures none { OnOk result (meter.new ≡ meter.old) }
        ensures refused { OnErr result (meter.new ≡ one_more meter.old) }
    {
        self.recall_uses();
        let choice = self.choice();
        let id = CheckpointId(self.next);
        let started = self.clock.read(0);
        self.pending
            .add(meter, Pending::new(self.alloc, id, kind, shape, started))?;
        if let Err(error) = self.pin(meter, id, choice) {
            self.pending.remove(id);
            return Err(error);
        }
        self.next += 1;
        Ok(id)
    }

    /// Pins the files of the choice, if it is a record. Visits none of them.
    ///
    /// Conditions: the uses are in order, record `id` has no pins yet, and each file of the choice has at
    /// most 2^32 - 2 uses.
    fn pin(&mut self, meter: &mut Meter, id: CheckpointId, choice: Choice) -> Result<(), AllocError>
        requires below { (f : ℕ) → IsIn f (files_chosen choice self.old.registry) → count self.old.registry f < 2 ^ 32 - 1 }
        requires unpinned { HasNoUse self.old.registry id Pin }
        requires in_order { IsInOrder use_before self.old.registry }
        ensures ok { OnOk result (self.new ≡ pinned self.old id (files_chosen choice self.old.registry)) }
        ensures err { OnErr result (self.new ≡ self.old) }
        ensures none { OnOk result (meter.new ≡ meter.old) }
        ensures refused { OnErr result (meter.new ≡ one_more meter.old) }
    {
        match choice {
            Choice::Checkpoint(chosen) => self.registry.pin_record_metered(meter, id, chosen),
            Choice::Savepoint(chosen) => self.registry.pin_record_metered(meter, id, chosen),
            Choice::Fresh => Ok(()),
        }
    }

    /// Makes room for the number of one more live record among those that end.
    ///
    /// Condition: fewer than 2^32 records live.
    pub(crate) fn make_room(&mut self, meter: &mut Meter) -> Result<(), AllocError>
        requires { length (records_in self.old) < 2 ^ 32 }
        ensures room { OnOk result (length (records_in self.old) + 1 ≤ vec_capacity self.new.ended) }
        ensures parts { self.new ≡ record self.old { ended = self.new.ended } }
        ensures state { state_of self.new ≡ state_of self.old }
        ensures noted { self.new.ended.items ≡ self.old.ended.items }
        ensures capacity { vec_capacity self.old.ended ≤ vec_capacity self.new.ended }
        ensures none { OnOk result (meter.new ≡ meter.old) }
        ensures refused { OnErr result (meter.new ≡ one_more meter.old) }
    {
        let live = self.pending.len()
            + self.store.checkpoints() as usize
            + self.store.savepoints() as usize;
        let noted = self.ended.len();
        list::reserve(meter, &mut self.ended, live + 1 - noted.min(live))
    }

    /// Triggers a savepoint.
    ///
    /// Conditions: the parts are sound, and the call is accepted.
    #[inline(never)]
    pub(crate) fn savepoint(&mut self, meter: &mut Meter, now: u64) -> Result<Reply, CoreFault>
        requires sound { AreSound self.old }
        requires accepted { IsAccepted self.old (call.Savepoint now) }
        ensures ok { IfOk result (Answers self.old self.new (call.Savepoint now)) }
        ensures err { OnErr result (Stays self.old self.new) }
        ensures fault { IfErr result (λ fault. fault ≡ Memory) }
        ensures none { OnOk result (meter.new ≡ meter.old) }
        ensures refused { OnErr result (meter.new ≡ one_more meter.old) }
    {
        let before = self.clock;
        self.clock.see(now);
        match self.trigger(meter, Kind::Savepoint) {
            Ok(id) => Ok(Reply::SavepointTriggered(id)),
            Err(error) => {
                self.clock = before;
                Err(CoreFault::from(error))
            }
        }
    }

    /// Triggers a checkpoint, whatever the interval and the pause. If memory runs out, nothing has
    /// changed.
    ///
    /// Conditions: the parts are sound, and the call is accepted.
    #[inline(never)]
    pub(crate) fn trigger_now(&mut self, meter: &mut Meter, now: u64) -> Result<Reply, CoreFault>
        requires sound { AreSound self.old }
        requires accepted { IsAccepted self.old (call.Trigger now) }
        ensures ok { IfOk result (Answers self.old self.new (call.Trigger now)) }
        ensures err { OnErr result (Stays self.old self.new) }
        ensures fault { IfErr result (λ fault. fault ≡ Memory) }
        ensures none { OnOk result (meter.new ≡ meter.old) }
        ensures refused { OnErr result (meter.new ≡ one_more meter.old) }
    {
        let before = self.clock;
        self.clock.see(now);
        match self.trigger(meter, Kind::Checkpoint) {
            Ok(id) => {
                let moment = self.clock.read(0);
                self.clock.triggered(&self.opened.config, moment);
                let end = TickEnd::Triggered(id);
                Ok(Reply::Ticked { expired: 0, end })
            }
            Err(error) => {
                self.clock = before;
                Err(CoreFault::from(error))
            }
        }
    }

    /// Time has passed: records that are too old expire, and a checkpoint is triggered if nothing
    /// holds it back. Only a trigger takes memory. If memory runs out, nothing has changed.
    ///
    /// Conditions: the parts are sound, and the call is accepted.
    pub(crate) fn tick(&mut self, meter: &mut Meter, now: u64) -> Result<Ticked, AllocError>
        requires sound { AreSound self.old }
        requires accepted { IsAccepted self.old (call.Tick now) }
        ensures ok { IfOk result (λ ticked. Answers self.old self.new (call.Tick now) (reply.Ticked ticked.expired ticked.end)) }
        ensures err { OnErr result (Stays self.old self.new) }
        ensures memory { OnErr result (may_want_memory (state_of self.old) (call.Tick now) ≡ true) }
        ensures none { OnOk result (meter.new ≡ meter.old) }
        ensures refused { OnErr result (meter.new ≡ one_more meter.old) }
    {
        let before = self.clock;
        self.clock.see(now);
        let ticked = self.expire(meter);
        if ticked.is_err() {
            self.clock = before;
        }
        ticked
    }

    /// What a tick does once the moment is seen.
    ///
    /// Conditions: the parts are sound, the job runs, and a number is left.
    fn expire(&mut self, meter: &mut Meter) -> Result<Ticked, AllocError>
        requires sound { AreSound self.old }
        requires running { self.old.mode ≡ Running }
        requires next { self.old.next < NUMBERS_END }
        ensures ok { IfOk result (λ ticked. tick (state_of self.old) ≡ (state_of self.new, answer.Done (reply.Ticked ticked.expired ticked.end))) }
        ensures err { OnErr result (state_of self.new ≡ state_of self.old) }
        ensures memory { OnErr result (answer_wants (call.Tick 0) (tick (state_of self.old)).1 ≡ true) }
        ensures tied { AreTied self.new }
        ensures none_ended { self.new.ended.items ≡ [] }
        ensures none { OnOk result (meter.new ≡ meter.old) }
        ensures refused { OnErr result (meter.new ≡ one_more meter.old) }
    {
        let expiry = self.note_expired();
        if expiry.intolerable {
            return Ok(self.fail_expired(expiry));
        }
        self.start_and_drop(meter, expiry)
    }

    /// Notes the numbers of the records that have expired, and returns what follows from them.
    ///
    /// Conditions: the parts are sound, and the job runs.
    fn note_expired(&mut self) -> Expiry
        requires sound { AreSound self.old }
        requires running { self.old.mode ≡ Running }
        ensures parts { self.new ≡ record self.old { ended = self.new.ended } }
        ensures state { state_of self.new ≡ state_of self.old }
        ensures tied { AreTied self.new }
        ensures expired { IsExpiry self.new result }
    {
        self.recall_groups();
        let moment = self.clock.read(0);
        let timeout = self.opened.config.timeout();
        let late = self.pending.note_expired(moment, timeout, &mut self.ended) as u32;
        let mut failures = self.failures;
        let are_too_many = failures.add(late);
        let expired = self.ended.len() as u32;
        let left = self.pending.checkpoints() as u32 - late;
        let intolerable = late > 0 && are_too_many;
        Expiry {
            expired,
            left,
            failures,
            intolerable,
        }
    }

    /// More checkpoints have failed in a row than the job tolerates: it fails over.
    ///
    /// Conditions: the parts are tied, their state is sound, and this expiry of the noted records says so.
    fn fail_expired(&mut self, expiry: Expiry) -> Ticked
        requires tied { AreTied self.old }
        requires sound { IsSound (state_of self.old) }
        requires expired { IsExpiry self.old expiry }
        requires intolerable { expiry.intolerable ≡ true }
        ensures tick { tick (state_of self.old) ≡ (state_of self.new, answer.Done (reply.Ticked result.expired result.end)) }
        ensures tied { AreTied self.new }
        ensures none_ended { self.new.ended.items ≡ [] }
    {
        self.ended.clear();
        self.fail_over();
        self.failures = expiry.failures;
        Ticked {
            expired: expiry.expired,
            end: TickEnd::Failed,
        }
    }

    /// Triggers a checkpoint if nothing holds it back, and then drops what has expired. If memory
    /// runs out, nothing has changed.
    ///
    /// Conditions: the parts are tied, their state is sound, a number is left, and this is the
    /// expiry of the noted records, after which the job does not fail over.
    fn start_and_drop(&mut self, meter: &mut Meter, expiry: Expiry) -> Result<Ticked, AllocError>
        requires tied { AreTied self.old }
        requires sound { IsSound (state_of self.old) }
        requires next { self.old.next < NUMBERS_END }
        requires expired { IsExpiry self.old expiry }
        requires tolerable { expiry.intolerable ≡ false }
        ensures ok { IfOk result (λ ticked. tick (state_of self.old) ≡ (state_of self.new, answer.Done (reply.Ticked ticked.expired ticked.end))) }
        ensures err { OnErr result (state_of self.new ≡ state_of self.old) }
        ensures memory { OnErr result (answer_wants (call.Tick 0) (tick (state_of self.old)).1 ≡ true) }
        ensures tied { AreTied self.new }
        ensures none_ended { self.new.ended.items ≡ [] }
        ensures none { OnOk result (meter.new ≡ meter.old) }
        ensures refused { OnErr result (meter.new ≡ one_more meter.old) }
    {
        match self.start_or_hold(meter, expiry.left) {
            Ok(end) => {
                self.recall_groups();
                self.drop_noted();
                self.failures = expiry.failures;
                let expired = expiry.expired;
                Ok(Ticked { expired, end })
            }
            Err(error) => {
                self.ended.clear();
                Err(error)
            }
        }
    }

    /// Triggers a checkpoint if nothing holds it back while this many are pending.
    ///
    /// Conditions: the parts are tied, their state is sound, and a number is left.
    fn start_or_hold(&mut self, meter: &mut Meter, pending: u32) -> Result<TickEnd, AllocError>
        requires tied { AreTied self.old }
        requires sound { IsSound (state_of self.old) }
        requires next { self.old.next < NUMBERS_END }
        ensures ok { IfOk result (λ end. Starts (state_of self.old) pending (state_of self.new) end) }
        ensures err { OnErr result (state_of self.new ≡ state_of self.old) }
        ensures memory { OnErr result (held_at (state_of self.old) pending ≡ Go) }
        ensures tied { AreTied self.new }
        ensures noted { self.new.ended.items ≡ self.old.ended.items }
        ensures none { OnOk result (meter.new ≡ meter.old) }
        ensures refused { OnErr result (meter.new ≡ one_more meter.old) }
    {
        let moment = self.clock.read(0);
        match self.clock.held(&self.opened.config, moment, pending) {
            Hold::Interval => Ok(TickEnd::HeldInterval),
            Hold::AtOnce => Ok(TickEnd::HeldAtOnce),
            Hold::Pause => Ok(TickEnd::HeldPause),
            Hold::Go => {
                let id = self.trigger(meter, Kind::Checkpoint)?;
                self.clock.triggered(&self.opened.config, moment);
                Ok(TickEnd::Triggered(id))
            }
        }
    }
}
