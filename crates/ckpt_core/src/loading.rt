//! Makes a coordinator from an image.

ghost use Rattle.std.specs.Prelude.{◌≡◌, ◌↔◌, ℕ, ◌<◌, ◌≤◌, ◌^◌, ◌-◌, ◌+◌, [], ◌∷◌, ◌++◌, false, map, length, Err, None, IfOk, OnOk, IsTrue, OnErr};
ghost use Rattle.ckpt_ids.specs.declared.ack.Acked.{Acked};
ghost use Rattle.ckpt_ids.specs.declared.numbers.Kind.TheVariants as kind;
ghost use Rattle.ckpt_ids.specs.Ascending.{IsAscendingSet};
ghost use Rattle.ckpt_ids.specs.Ordered.{IsIn, IsInOrder};
ghost use Rattle.ckpt_ids.specs.Records.{Record, Use, count, use_before, uses};
ghost use Rattle.ckpt_pending.specs.Acknowledging.{pending_record};
ghost use Rattle.ckpt_memory.specs.Refusals.{one_more};
ghost use Rattle.ckpt_model.specs.Images.{record_in};
ghost use Rattle.ckpt_core.specs.Inside.Loading.{AreOfShape, HaveSoundRecords, IsMade, JoinsParts, MayJoinParts, uses_held};
ghost use Rattle.ckpt_core.specs.Inside.Moving.{with_done, with_pending};
ghost use Rattle.ckpt_core.specs.Inside.Parts.{AreTied, opening_of, records_in, state_of};
ghost use Rattle.ckpt_model.specs.Soundness.{IsRecord, AreSoundRecords};
ghost use Rattle.ckpt_core.specs.Inside.SoundRecords.{FrontIsSound, HasRoom, JoinedAreSound, LastJoins, NamesEachOnce};

use crate::image::ImageFault;
use crate::parts::Parts;
use crate::recall::{recall_done, recall_limits, recall_pending};
use crate::refusals::repeats;
use ckpt_ids::{Acks, CheckpointId, Files, Kind, MOMENTS_END, MOST_SAVEPOINTS, Metadata};
use ckpt_memory::Meter;
use ckpt_model::Saved;
use ckpt_pending::{AckFault, Done, Pending};
use ckpt_registry::Registry;
use ckpt_rules::limit_of;
use std::alloc::{AllocError, Global};

/// Adds the uses of a record. Fails only if memory runs out.
///
/// Conditions: the uses that are there are in order and of older records, no list names a file
/// twice, and no file gets more than 2^32 - 2 uses.
pub(crate) fn register(
    meter: &mut Meter,
    registry: &mut Registry,
    id: CheckpointId,
    acks: &Acks,
    pins: &Files,
) -> Result<(), AllocError>
    requires in_order { IsInOrder use_before registry.old }
    requires newest { (u : Use) → IsIn u registry.old → u.id < id }
    requires files { (a : Acked) → IsIn a acks.now → IsAscendingSet a.files }
    requires pins { IsAscendingSet pins.now }
    requires below { (f : ℕ) → count (registry.old ++ uses_held id acks.now pins.now) f < 2 ^ 32 - 1 }
    ensures ok { OnOk result (registry.new ≡ registry.old ++ uses_held id acks.now pins.now) }
    ensures none { OnOk result (meter.new ≡ meter.old) }
    ensures refused { OnErr result (meter.new ≡ one_more meter.old) }
{
    for acked in acks.as_slice() {
        registry.hold_files_metered(meter, id, acked.subtask, &acked.files)?;
    }
    if pins.is_empty() {
        return Ok(());
    }
    registry.pin_files_metered(meter, id, pins)
}

/// The record with its acknowledgements, as if it were pending.
pub(crate) fn acknowledged(
    meter: &mut Meter,
    alloc: Global,
    metadata: &Metadata,
) -> Result<Pending, ImageFault>
    ensures ok { IfOk result (λ made. made ≡ pending_record metadata.now.id metadata.now.kind metadata.now.shape metadata.now.started metadata.now.acks) }
    ensures damaged { result ≡ Err ImageFault.Damaged → AreOfShape metadata.now.shape metadata.now.acks → ⊥ }
    ensures none { OnOk result (meter.new ≡ meter.old) }
    ensures cause { result ≡ Err ImageFault.Memory → meter.new ≡ one_more meter.old }
{
    let shape = metadata.shape.copy_metered(meter)?;
    let mut pending = Pending::new(alloc, metadata.id, metadata.kind, shape, metadata.started);
    for acked in metadata.acks.as_slice() {
        let files = acked.files.copy_metered(meter)?;
        match pending.ack_metered(meter, acked.subtask, files) {
            Ok(()) => {}
            Err(AckFault::UnknownSubtask) => return Err(ImageFault::Damaged),
            // In subtask order none comes twice.
            Err(AckFault::AlreadyAcknowledged) => unreachable!(),
            Err(AckFault::Memory) => return Err(ImageFault::Memory),
        }
    }
    Ok(pending)
}

impl Parts {
    /// Adds a pending record, with the files that it pins. Fails only if memory runs out.
    ///
    /// Conditions: the parts are tied, and have fewer than 2^32 records, all of them older. The
    /// record has these acknowledgements. No list names a file twice, and no file gets more than
    /// 2^32 - 2 uses.
    pub(crate) fn load_pending(
        &mut self,
        meter: &mut Meter,
        pending: Pending,
        acks: &Acks,
        pins: &Files,
    ) -> Result<(), AllocError>
        requires tied { AreTied self.old }
        requires newest { (r : Record) → IsIn r (records_in self.old) → r.id < pending.id }
        requires acks { acks.now ≡ pending.acks }
        requires files { (a : Acked) → IsIn a acks.now → IsAscendingSet a.files }
        requires pins { IsAscendingSet pins.now }
        requires few { length (records_in self.old) < 2 ^ 32 }
        requires below { (f : ℕ) → count (uses (records_in self.old ++ record pending { pins = pins.now } ∷ [])) f < 2 ^ 32 - 1 }
        ensures records { OnOk result (records_in self.new ≡ records_in self.old ++ record pending { pins = pins.now } ∷ []) }
        ensures tied { OnOk result (AreTied self.new) }
        ensures rest { OnOk result (self.new ≡ with_pending self.old self.new) }
        ensures noted { OnOk result (self.new.ended.items ≡ self.old.ended.items) }
        ensures none { OnOk result (meter.new ≡ meter.old) }
        ensures refused { OnErr result (meter.new ≡ one_more meter.old) }
    {
        self.recall_uses();
        self.make_room(meter)?;
        register(meter, &mut self.registry, pending.id(), acks, pins)?;
        self.pending.add(meter, pending)?;
        self.make_room_for_files(meter, 0)
    }

    /// Adds a done checkpoint. Fails only if memory runs out.
    ///
    /// Conditions: the parts are tied and without a base, and have fewer than 2^32 records, all of
    /// them older, and fewer checkpoints than are retained. The record is a checkpoint with these
    /// acknowledgements. None of them names a file twice, and no file gets more than 2^32 - 2 uses.
    pub(crate) fn load_checkpoint(
        &mut self,
        meter: &mut Meter,
        done: Done,
        acks: &Acks,
    ) -> Result<(), AllocError>
        requires tied { AreTied self.old }
        requires newest { (r : Record) → IsIn r (records_in self.old) → r.id < done.id }
        requires checkpoint { done.kind ≡ kind.Checkpoint }
        requires fewer { length self.old.store.checkpoints < self.old.store.retained }
        requires acks { acks.now ≡ done.acks }
        requires files { (a : Acked) → IsIn a acks.now → IsAscendingSet a.files }
        requires few { length (records_in self.old) < 2 ^ 32 }
        requires below { (f : ℕ) → count (uses (records_in self.old ++ done ∷ [])) f < 2 ^ 32 - 1 }
        requires base { self.old.store.base ≡ None }
        ensures records { OnOk result (records_in self.new ≡ records_in self.old ++ done ∷ []) }
        ensures tied { OnOk result (AreTied self.new) }
        ensures rest { OnOk result (self.new ≡ with_done self.old self.new) }
        ensures noted { OnOk result (self.new.ended.items ≡ self.old.ended.items) }
        ensures none { OnOk result (meter.new ≡ meter.old) }
        ensures refused { OnErr result (meter.new ≡ one_more meter.old) }
    {
        self.recall_uses();
        self.make_room(meter)?;
        self.store.reserve_metered(meter)?;
        let none = Files::of(Vec::new(self.alloc));
        register(meter, &mut self.registry, done.id(), acks, &none)?;
        let _ = self.store.complete(done);
        self.make_room_for_files(meter, 0)
    }

    /// Adds a done savepoint. Fails only if memory runs out.
    ///
    /// Conditions: the parts are tied, and have fewer than 2^32 records, all of them older, and
    /// fewer than 2^32 - 1 done savepoints. The record is a savepoint with these acknowledgements.
    /// None of them names a file twice, and no file gets more than 2^32 - 2 uses.
    pub(crate) fn load_savepoint(
        &mut self,
        meter: &mut Meter,
        done: Done,
        acks: &Acks,
    ) -> Result<(), AllocError>
        requires tied { AreTied self.old }
        requires newest { (r : Record) → IsIn r (records_in self.old) → r.id < done.id }
        requires savepoint { done.kind ≡ kind.Savepoint }
        requires fewer { length self.old.store.savepoints + 1 < 2 ^ 32 }
        requires acks { acks.now ≡ done.acks }
        requires files { (a : Acked) → IsIn a acks.now → IsAscendingSet a.files }
        requires few { length (records_in self.old) < 2 ^ 32 }
        requires below { (f : ℕ) → count (uses (records_in self.old ++ done ∷ [])) f < 2 ^ 32 - 1 }
        ensures records { OnOk result (records_in self.new ≡ records_in self.old ++ done ∷ []) }
        ensures tied { OnOk result (AreTied self.new) }
        ensures rest { OnOk result (self.new ≡ with_done self.old self.new) }
        ensures noted { OnOk result (self.new.ended.items ≡ self.old.ended.items) }
        ensures none { OnOk result (meter.new ≡ meter.old) }
        ensures refused { OnErr result (meter.new ≡ one_more meter.old) }
    {
        self.recall_uses();
        self.make_room(meter)?;
        self.store.reserve_metered(meter)?;
        let none = Files::of(Vec::new(self.alloc));
        register(meter, &mut self.registry, done.id(), acks, &none)?;
        self.store.add_savepoint(done);
        self.make_room_for_files(meter, 0)
    }
}

/// Whether each file is above the one before it.
fn rises(files: &Files) -> bool
    ensures { IsTrue result ↔ IsAscendingSet files.now }
{
    !repeats(files.as_slice())
}

/// Whether no acknowledgement and no pin of this record names a file twice.
fn names_each_once(saved: &Saved) -> bool
    ensures yes { IsTrue result → NamesEachOnce (record_in saved.now) }
    ensures no { result ≡ false → NamesEachOnce (record_in saved.now) → ⊥ }
{
    for acked in saved.metadata.acks.as_slice() {
        if !rises(&acked.files) {
            return false;
        }
    }
    rises(&saved.pins)
}

/// Whether the number is from `first` to below `next`.
fn lies_in(id: CheckpointId, first: u64, next: u64) -> bool
    ensures { IsTrue result ↔ ((first ≤ id) × (id < next)) }
{
    CheckpointId(first) <= id && id < CheckpointId(next)
}

/// Whether the moment is before this one.
fn is_before(moment: u64, end: u64) -> bool
    ensures { IsTrue result ↔ (moment < end) }
{
    moment < end
}

impl Parts {
    /// Whether a record may follow those that are there, by its number, its moment and the limits
    /// on their numbers.
    ///
    /// Condition: the records that are there are sound.
    fn may_join(&self, saved: &Saved) -> bool
        requires { HaveSoundRecords self.now }
        ensures yes { IsTrue result → IsRecord (record_in saved.now) → JoinsParts self.now (record_in saved.now) }
        ensures no { result ≡ false → JoinsParts self.now (record_in saved.now) → ⊥ }
    {
        if self.first_from(saved.metadata.id).is_some() {
            return false;
        }
        if !lies_in(saved.metadata.id, self.opened.first, self.next) {
            return false;
        }
        if !is_before(saved.metadata.started, MOMENTS_END) {
            return false;
        }
        self.has_room_for(saved)
    }

    /// Whether one more record of this kind is within the limits on how many there are.
    ///
    /// Condition: the records that are there are sound.
    fn has_room_for(&self, saved: &Saved) -> bool
        requires { HaveSoundRecords self.now }
        ensures yes { IsTrue result → HasRoom (opening_of self.now.opened) (records_in self.now) (record_in saved.now) }
        ensures no { result ≡ false → HasRoom (opening_of self.now.opened) (records_in self.now) (record_in saved.now) → ⊥ }
    {
        self.recall_groups();
        let checkpoints = self.store.checkpoints();
        let pending = self.pending.checkpoints();
        let savepoints = self.pending.savepoints() + self.store.savepoints() as usize;
        match saved.metadata.kind {
            Kind::Savepoint => savepoints < MOST_SAVEPOINTS,
            Kind::Checkpoint => {
                if saved.metadata.done {
                    pending == 0 && checkpoints < self.opened.config.retained()
                } else {
                    pending < limit_of(&self.opened.config) as usize
                }
            }
        }
    }

    /// Adds a record behind those that are there. Tests what needs no memory first.
    ///
    /// Conditions: the parts are tied and without a base, and their records are sound.
    pub(crate) fn load(&mut self, meter: &mut Meter, saved: &Saved) -> Result<(), ImageFault>
        requires tied { AreTied self.old }
        requires sound { HaveSoundRecords self.old }
        requires base { self.old.store.base ≡ None }
        ensures state { OnOk result (state_of self.new ≡ record (state_of self.old) { records = records_in self.old ++ record_in saved.now ∷ [] }) }
        ensures tied { OnOk result (AreTied self.new) }
        ensures noted { OnOk result (self.new.ended.items ≡ self.old.ended.items) }
        ensures joins { OnOk result (JoinsParts self.old (record_in saved.now)) }
        ensures damaged { result ≡ Err ImageFault.Damaged → JoinsParts self.old (record_in saved.now) → ⊥ }
        ensures memory { result ≡ Err ImageFault.Memory → MayJoinParts self.old (record_in saved.now) }
        ensures none { OnOk result (meter.new ≡ meter.old) }
        ensures cause { result ≡ Err ImageFault.Memory → meter.new ≡ one_more meter.old }
    {
        if !self.may_join(saved) {
            return Err(ImageFault::Damaged);
        }
        if !names_each_once(saved) {
            return Err(ImageFault::Damaged);
        }
        let pending = acknowledged(meter, self.alloc, &saved.metadata)?;
        self.load_acknowledged(meter, pending, saved)
    }

    /// Adds a record, which has its acknowledgements.
    ///
    /// Conditions: those of [`Parts::load`]. `pending` has the acknowledgements of the saved
    /// record, which names no file twice in a list, and may follow the others if it is sound by
    /// itself.
    fn load_acknowledged(
        &mut self,
        meter: &mut Meter,
        pending: Pending,
        saved: &Saved,
    ) -> Result<(), ImageFault>
        requires tied { AreTied self.old }
        requires sound { HaveSoundRecords self.old }
        requires base { self.old.store.base ≡ None }
        requires made { IsMade pending saved.now }
        requires once { NamesEachOnce (record_in saved.now) }
        requires place { IsRecord (record_in saved.now) → JoinsParts self.old (record_in saved.now) }
        ensures state { OnOk result (state_of self.new ≡ record (state_of self.old) { records = records_in self.old ++ record_in saved.now ∷ [] }) }
        ensures tied { OnOk result (AreTied self.new) }
        ensures noted { OnOk result (self.new.ended.items ≡ self.old.ended.items) }
        ensures joins { OnOk result (JoinsParts self.old (record_in saved.now)) }
        ensures damaged { result ≡ Err ImageFault.Damaged → IsRecord (record_in saved.now) → ⊥ }
        ensures memory { result ≡ Err ImageFault.Memory → JoinsParts self.old (record_in saved.now) }
        ensures none { OnOk result (meter.new ≡ meter.old) }
        ensures cause { result ≡ Err ImageFault.Memory → meter.new ≡ one_more meter.old }
    {
        recall_limits(&self.opened.config);
        recall_pending(&pending);
        match pending.finish() {
            Ok(done) => {
                if !saved.metadata.done {
                    return Err(ImageFault::Damaged);
                }
                if !saved.pins.is_empty() {
                    return Err(ImageFault::Damaged);
                }
                recall_done(&done);
                self.load_done(meter, done, saved)?;
            }
            Err(pending) => {
                if saved.metadata.done {
                    return Err(ImageFault::Damaged);
                }
                self.load_pending(meter, pending, &saved.metadata.acks, &saved.pins)?;
            }
        }
        Ok(())
    }

    /// Adds a done record. Fails only if memory runs out.
    ///
    /// Conditions: those of [`Parts::load`]. `done` is the saved record, and may follow the others.
    fn load_done(&mut self, meter: &mut Meter, done: Done, saved: &Saved) -> Result<(), AllocError>
        requires tied { AreTied self.old }
        requires sound { HaveSoundRecords self.old }
        requires base { self.old.store.base ≡ None }
        requires done { done ≡ record_in saved.now }
        requires joins { JoinsParts self.old done }
        ensures state { OnOk result (state_of self.new ≡ record (state_of self.old) { records = records_in self.old ++ record_in saved.now ∷ [] }) }
        ensures tied { OnOk result (AreTied self.new) }
        ensures noted { OnOk result (self.new.ended.items ≡ self.old.ended.items) }
        ensures none { OnOk result (meter.new ≡ meter.old) }
        ensures refused { OnErr result (meter.new ≡ one_more meter.old) }
    {
        recall_limits(&self.opened.config);
        self.recall_groups();
        recall_done(&done);
        match saved.metadata.kind {
            Kind::Checkpoint => self.load_checkpoint(meter, done, &saved.metadata.acks),
            Kind::Savepoint => self.load_savepoint(meter, done, &saved.metadata.acks),
        }
    }

    /// Adds records, one after the other.
    ///
    /// Conditions: the parts are tied, and have no record and no base.
    pub(crate) fn load_all(
        &mut self,
        meter: &mut Meter,
        records: &[Saved],
    ) -> Result<(), ImageFault>
        requires tied { AreTied self.old }
        requires none { records_in self.old ≡ [] }
        requires base { self.old.store.base ≡ None }
        ensures state { OnOk result (state_of self.new ≡ record (state_of self.old) { records = map record_in records.now }) }
        ensures tied { OnOk result (AreTied self.new) }
        ensures noted { OnOk result (self.new.ended.items ≡ self.old.ended.items) }
        ensures sound { OnOk result (AreSoundRecords (opening_of self.old.opened) self.old.next (map record_in records.now)) }
        ensures damaged { result ≡ Err ImageFault.Damaged → AreSoundRecords (opening_of self.old.opened) self.old.next (map record_in records.now) → ⊥ }
        ensures none { OnOk result (meter.new ≡ meter.old) }
        ensures cause { result ≡ Err ImageFault.Memory → meter.new ≡ one_more meter.old }
    {
        for saved in records {
            self.load(meter, saved)?;
        }
        Ok(())
    }
}

/// A list of sound records with one more is sound exactly if the tests of the next record hold.
pub(crate) fn joining()
    ensures joined { JoinedAreSound }
    ensures tested { LastJoins }
    ensures front { FrontIsSound }
{}
