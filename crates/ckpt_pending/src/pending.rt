//! A record that waits for acknowledgements.

ghost use Rattle.std.specs.Prelude.{◌≡◌, ◌+◌, ◌↔◌, ◌<◌, ◌≤◌, true, false, [], length, Err, IfOk, IfErr, OnOk, OnErr, IsOk, IsErr, option_copied};
ghost use Rattle.std.specs.List.{flat_map, insert};
ghost use Rattle.ckpt_ids.specs.Ascending.{ascending_set};
ghost use Rattle.ckpt_ids.specs.Records.{Record, acknowledged, has_acknowledged, missing, metadata_of};
ghost use Rattle.ckpt_ids.specs.Shapes.{is_subtask};
ghost use Rattle.ckpt_memory.specs.Refusals.{one_more};
ghost use Rattle.ckpt_pending.specs.Acknowledging.{Expects, HasAlready, IsPending, files_from, without_ack};

use crate::done::Done;
use ckpt_ids::{
    Acked, Acks, CheckpointId, FileId, Files, Keyed, Kind, Metadata, Shape, SubtaskId, place_of,
};
use ckpt_memory::{Meter, list, queue};
use std::alloc::{AllocError, Global};
use std::collections::VecDeque;
use std::marker::Model;
use thiserror::Error;

/// Why an acknowledgement was not accepted: the first of these that applies.
#[derive(Clone, Copy, Debug, PartialEq, Eq, Error)]
pub enum AckFault {
    /// The record's shape has no such subtask.
    #[error("the record has no such subtask")]
    UnknownSubtask,
    /// The subtask has acknowledged already.
    #[error("the subtask has acknowledged already")]
    AlreadyAcknowledged,
    /// Memory ran out.
    #[error("out of memory")]
    Memory,
}

/// A checkpoint or savepoint that some subtasks may not have acknowledged yet.
///
/// Source of the rule: the Flink documentation, "Checkpoints", and Carbone et al. 2015: a snapshot
/// is complete when each task has taken its part.
#[derive(Debug)]
pub struct Pending {
    id: CheckpointId,
    kind: Kind,
    shape: Shape,
    started: u64,
    // in subtask order: most come in this order and go to the end; binary search finds each
    acks: VecDeque<Acked>,
    missing: u32,
    alloc: Global,
}

impl Drop for Pending {
    fn drop(self) {
        let Pending {
            id: _,
            kind: _,
            shape: _,
            started: _,
            acks: _,
            missing: _,
            alloc: _,
        } = self;
    }
}

impl Model for Pending {
    ghost use Rattle.ckpt_ids.specs.Records.{Record};
    ghost use Rattle.ckpt_pending.specs.Acknowledging.{pending_record, IsCounted};

    ghost Value = { Record };

    ghost view = { λ p. pending_record p.id p.kind p.shape p.started p.acks.items };

    ghost invariant = { λ p. IsCounted (pending_record p.id p.kind p.shape p.started p.acks.items) p.missing };
}

impl Keyed for Pending {
    ghost use Rattle.std.specs.Prelude.{nat_lt};
    ghost use Rattle.ckpt_ids.proofs.AscendingLemmas.{numbers_in_order};
    ghost use Rattle.ckpt_ids.proofs.ComparisonLemmas.{numbers_searched};

    type Key = CheckpointId;

    ghost key_of = { λ r. r.id };

    ghost before = { nat_lt };

    ghost is_order = { numbers_in_order };

    ghost goes_by_order = { numbers_searched };

    fn key(&self) -> CheckpointId {
        self.id()
    }
}

impl Pending {
    /// A record with this number and kind that was triggered at the moment `started`, in
    /// milliseconds. No subtask has acknowledged it. Takes no memory.
    pub fn new(alloc: Global, id: CheckpointId, kind: Kind, shape: Shape, started: u64) -> Pending
        ensures { result ≡ record { id = id; kind = kind; done = false; shape = shape; started = started; acks = []; pins = [] } }
    {
        let missing = shape.size();
        Pending {
            id,
            kind,
            shape,
            started,
            acks: VecDeque::new(alloc),
            missing,
            alloc,
        }
    }

    /// Adds the acknowledgement of a subtask, with all files of its part.
    ///
    /// Returns [`AckFault::UnknownSubtask`] exactly if the shape has no such subtask, otherwise
    /// [`AckFault::AlreadyAcknowledged`] exactly if it has acknowledged, otherwise
    /// [`AckFault::Memory`] if memory runs out. After an error the record has not changed.
    pub fn ack(&mut self, subtask: SubtaskId, files: Files) -> Result<(), AckFault>
        ensures unknown { (result ≡ Err AckFault.UnknownSubtask) ↔ (is_subtask self.old.shape subtask ≡ false) }
        ensures already { (result ≡ Err AckFault.AlreadyAcknowledged) ↔ HasAlready self.old subtask }
        ensures ok { OnOk result (self.new ≡ acknowledged self.old subtask files) }
        ensures one_less { OnOk result (missing self.new + 1 ≡ missing self.old) }
        ensures undone_by_retract { OnOk result (without_ack subtask self.new ≡ self.old) }
        ensures err { OnErr result (self.new ≡ self.old) }
    {
        self.ack_metered(&mut Meter::new(), subtask, files)
    }

    /// [`Pending::ack`], which answers [`AckFault::Memory`] exactly if one more request for memory
    /// was refused.
    pub fn ack_metered(
        &mut self,
        meter: &mut Meter,
        subtask: SubtaskId,
        files: Files,
    ) -> Result<(), AckFault>
        ensures unknown { (result ≡ Err AckFault.UnknownSubtask) ↔ (is_subtask self.old.shape subtask ≡ false) }
        ensures already { (result ≡ Err AckFault.AlreadyAcknowledged) ↔ HasAlready self.old subtask }
        ensures ok { OnOk result (self.new ≡ acknowledged self.old subtask files) }
        ensures one_less { OnOk result (missing self.new + 1 ≡ missing self.old) }
        ensures undone_by_retract { OnOk result (without_ack subtask self.new ≡ self.old) }
        ensures err { OnErr result (self.new ≡ self.old) }
        ensures none { OnOk result (meter.new ≡ meter.old) }
        ensures refused { result ≡ Err AckFault.Memory → meter.new ≡ one_more meter.old }
    {
        if !self.expects(subtask) {
            return Err(AckFault::UnknownSubtask);
        }
        if self.has(subtask) {
            return Err(AckFault::AlreadyAcknowledged);
        }
        match self.ack_expected_metered(meter, subtask, files) {
            Ok(()) => Ok(()),
            Err(_) => Err(AckFault::Memory),
        }
    }

    /// Adds the acknowledgement of a subtask that the record waits for, with all files of its part.
    /// Fails only if memory runs out, and then the record has not changed.
    ///
    /// Condition: the shape has the subtask, and it has not acknowledged.
    pub fn ack_expected(&mut self, subtask: SubtaskId, files: Files) -> Result<(), AllocError>
        requires { Expects self.old subtask }
        ensures ok { OnOk result (self.new ≡ acknowledged self.old subtask files) }
        ensures one_less { OnOk result (missing self.new + 1 ≡ missing self.old) }
        ensures undone_by_retract { OnOk result (without_ack subtask self.new ≡ self.old) }
        ensures err { OnErr result (self.new ≡ self.old) }
    {
        self.ack_expected_metered(&mut Meter::new(), subtask, files)
    }

    /// [`Pending::ack_expected`], which fails exactly if one more request for memory was refused.
    ///
    /// Condition: the shape has the subtask, and it has not acknowledged.
    pub fn ack_expected_metered(
        &mut self,
        meter: &mut Meter,
        subtask: SubtaskId,
        files: Files,
    ) -> Result<(), AllocError>
        requires { Expects self.old subtask }
        ensures ok { OnOk result (self.new ≡ acknowledged self.old subtask files) }
        ensures one_less { OnOk result (missing self.new + 1 ≡ missing self.old) }
        ensures undone_by_retract { OnOk result (without_ack subtask self.new ≡ self.old) }
        ensures err { OnErr result (self.new ≡ self.old) }
        ensures none { OnOk result (meter.new ≡ meter.old) }
        ensures refused { OnErr result (meter.new ≡ one_more meter.old) }
    {
        let place = place_of(&self.acks, subtask).unwrap_err();
        add(meter, &mut self.acks, place, Acked { subtask, files })?;
        self.missing -= 1;
        Ok(())
    }

    /// Removes the acknowledgement of this subtask. Takes no memory.
    ///
    /// Condition: it has acknowledged.
    pub fn retract(&mut self, subtask: SubtaskId)
        requires { has_acknowledged self.old subtask ≡ true }
        ensures value { self.new ≡ without_ack subtask self.old }
        ensures one_more { missing self.new ≡ missing self.old + 1 }
    {
        let place = place_of(&self.acks, subtask).unwrap();
        self.acks.remove(place);
        self.missing += 1;
    }

    /// Whether the record's shape has this subtask.
    pub fn expects(&self, subtask: SubtaskId) -> bool
        ensures { result ≡ is_subtask self.now.shape subtask }
    {
        self.shape.contains(subtask)
    }

    /// Whether this subtask has acknowledged.
    pub fn has(&self, subtask: SubtaskId) -> bool
        ensures { result ≡ has_acknowledged self.now subtask }
    {
        place_of(&self.acks, subtask).is_ok()
    }

    /// The files that this subtask acknowledged, in ascending order, or `None` if it has not
    /// acknowledged. Makes a binary search.
    pub fn files_of(&self, subtask: SubtaskId) -> Option<&[FileId]>
        ensures { option_copied result ≡ files_from self.now subtask }
    {
        let place = place_of(&self.acks, subtask).ok()?;
        let acked = self.acks.get(place)?;
        Some(acked.files.as_slice())
    }

    /// The number of subtasks that have not acknowledged, at most 4096.
    pub fn missing(&self) -> u32
        ensures value { result ≡ missing self.now }
        ensures pending { IsPending self.now }
    {
        self.missing
    }

    /// The record's number.
    pub fn id(&self) -> CheckpointId
        ensures value { result ≡ self.now.id }
        ensures pending { IsPending self.now }
    {
        self.id
    }

    /// Whether the record is a checkpoint or a savepoint.
    pub fn kind(&self) -> Kind
        ensures { result ≡ self.now.kind }
    {
        self.kind
    }

    /// The moment of the trigger, in milliseconds.
    pub fn started(&self) -> u64
        ensures { result ≡ self.now.started }
    {
        self.started
    }

    /// The shape that the job had when the record was triggered.
    pub fn shape(&self) -> &Shape
        ensures { result.now ≡ self.now.shape }
    {
        &self.shape
    }

    /// The metadata of the record. Fails only if memory runs out.
    pub fn metadata(&self) -> Result<Metadata, AllocError>
        ensures { IfOk result (λ metadata. metadata ≡ metadata_of self.now) }
    {
        self.metadata_metered(&mut Meter::new())
    }

    /// [`Pending::metadata`], which fails exactly if one more request for memory was refused.
    pub fn metadata_metered(&self, meter: &mut Meter) -> Result<Metadata, AllocError>
        ensures value { IfOk result (λ metadata. metadata ≡ metadata_of self.now) }
        ensures none { OnOk result (meter.new ≡ meter.old) }
        ensures refused { OnErr result (meter.new ≡ one_more meter.old) }
    {
        let acks = copies(meter, self.alloc, &self.acks)?;
        let shape = self.shape.copy_metered(meter)?;
        Ok(Metadata {
            id: self.id,
            kind: self.kind,
            done: false,
            shape,
            started: self.started,
            acks: Acks::of(acks),
        })
    }

    /// The files of all acknowledgements, in ascending order, each once. Fails only if memory runs
    /// out.
    pub(crate) fn files(&self, meter: &mut Meter) -> Result<Files, AllocError>
        ensures files { IfOk result (λ files. files ≡ ascending_set (flat_map (λ a. a.files) self.now.acks)) }
        ensures none { OnOk result (meter.new ≡ meter.old) }
        ensures refused { OnErr result (meter.new ≡ one_more meter.old) }
    {
        let mut all = all_files(meter, self.alloc, &self.acks)?;
        all.sort_unstable();
        all.dedup();
        Ok(Files::of(all))
    }

    /// The complete record, or this one again if a subtask is missing. Takes no memory.
    pub fn finish(self) -> Result<Done, Pending>
        ensures complete { IsOk result ↔ (missing self ≡ 0) }
        ensures missing { IsErr result ↔ (0 < missing self) }
        ensures done { IfOk result (λ done. done ≡ record self { done = true }) }
        ensures pending { IfErr result (λ pending. pending ≡ self) }
    {
        if self.missing == 0 {
            Ok(Done::of(self))
        } else {
            Err(self)
        }
    }
}

/// Adds an acknowledgement at this place. Fails only if memory runs out, and then adds nothing.
///
/// Condition: the place is not past the end.
fn add(
    meter: &mut Meter,
    acks: &mut VecDeque<Acked>,
    place: usize,
    acked: Acked,
) -> Result<(), AllocError>
    requires { place ≤ length acks.old.items }
    ensures ok { OnOk result (acks.new.items ≡ insert acks.old.items place acked) }
    ensures err { OnErr result (acks.new.items ≡ acks.old.items) }
    ensures none { OnOk result (meter.new ≡ meter.old) }
    ensures refused { OnErr result (meter.new ≡ one_more meter.old) }
{
    if place == acks.len() {
        queue::push_back(meter, acks, acked)
    } else {
        queue::insert(meter, acks, place, acked)
    }
}

fn copies(
    meter: &mut Meter,
    alloc: Global,
    acks: &VecDeque<Acked>,
) -> Result<Vec<Acked>, AllocError>
    ensures items { IfOk result (λ copies. copies.items ≡ acks.now.items) }
    ensures none { OnOk result (meter.new ≡ meter.old) }
    ensures refused { OnErr result (meter.new ≡ one_more meter.old) }
{
    let mut copies = list::with_capacity(meter, alloc, acks.len())?;
    for acked in acks {
        let files = acked.files.copy_metered(meter)?;
        let copy = Acked {
            subtask: acked.subtask,
            files,
        };
        list::push(meter, &mut copies, copy)?;
    }
    Ok(copies)
}

fn all_files(
    meter: &mut Meter,
    alloc: Global,
    acks: &VecDeque<Acked>,
) -> Result<Vec<FileId>, AllocError>
    ensures items { IfOk result (λ all. all.items ≡ flat_map (λ a. a.files) acks.now.items) }
    ensures none { OnOk result (meter.new ≡ meter.old) }
    ensures refused { OnErr result (meter.new ≡ one_more meter.old) }
{
    let mut all = Vec::new(alloc);
    for acked in acks {
        list::extend_from_slice(meter, &mut all, acked.files.as_slice())?;
    }
    Ok(all)
}
