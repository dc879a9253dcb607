//! A record that all its subtasks have acknowledged.

ghost use Rattle.std.specs.Prelude.{◌≡◌, ◌∷◌, [], true, map, option_copied, IfOk, OnOk, OnErr};
ghost use Rattle.ckpt_ids.specs.Ascending.{ascending_set};
ghost use Rattle.ckpt_ids.specs.Records.{Record, missing, metadata_of, uses};
ghost use Rattle.ckpt_memory.specs.Refusals.{one_more};
ghost use Rattle.ckpt_pending.specs.Acknowledging.{IsDone, IsPending, files_from};

use crate::pending::Pending;
use ckpt_ids::{CheckpointId, FileId, Files, Keyed, Kind, Metadata, SubtaskId};
use ckpt_memory::Meter;
use std::alloc::AllocError;
use std::marker::Model;

/// A checkpoint or savepoint that all subtasks of its shape have acknowledged, each once.
///
/// Only [`Pending::finish`] makes a value of this type.
#[derive(Debug, Drop)]
pub struct Done {
    record: Pending,
}

impl Model for Done {
    ghost use Rattle.std.specs.Prelude.{true};
    ghost use Rattle.ckpt_ids.specs.Records.{Record};
    ghost use Rattle.ckpt_pending.specs.Acknowledging.{IsDone};

    ghost Value = { Record };

    ghost view = { λ d. record d.record { done = true } };

    ghost invariant = { λ d. IsDone (record d.record { done = true }) };
}

impl Keyed for Done {
    ghost use Rattle.std.specs.Prelude.{nat_lt};
    ghost use Rattle.ckpt_ids.proofs.AscendingLemmas.{numbers_in_order};
    ghost use Rattle.ckpt_ids.proofs.ComparisonLemmas.{numbers_searched};

    type Key = CheckpointId;

    ghost key_of = { λ r. r.id };

    ghost before = { nat_lt };

    ghost is_order = { numbers_in_order };

    ghost goes_by_order = { numbers_searched };

    fn key(&self) -> CheckpointId {
        self.id()
    }
}

impl Done {
    /// Makes a pending record a complete one. Takes no memory.
    ///
    /// Conditions: the record is as a pending one is kept, and none of its subtasks is missing.
    pub(crate) fn of(full: Pending) -> Done
        requires pending { IsPending full }
        requires none_missing { missing full ≡ 0 }
        ensures { result ≡ record full { done = true } }
    {
        Done { record: full }
    }

    /// The record's number.
    pub fn id(&self) -> CheckpointId
        ensures value { result ≡ self.now.id }
        ensures done { IsDone self.now }
    {
        self.record.id()
    }

    /// Whether the record is a checkpoint or a savepoint.
    pub fn kind(&self) -> Kind
        ensures { result ≡ self.now.kind }
    {
        self.record.kind()
    }

    /// The metadata of the record. Fails only if memory runs out.
    pub fn metadata(&self) -> Result<Metadata, AllocError>
        ensures { IfOk result (λ metadata. metadata ≡ metadata_of self.now) }
    {
        self.metadata_metered(&mut Meter::new())
    }

    /// [`Done::metadata`], which fails exactly if one more request for memory was refused.
    pub fn metadata_metered(&self, meter: &mut Meter) -> Result<Metadata, AllocError>
        ensures value { IfOk result (λ metadata. metadata ≡ metadata_of self.now) }
        ensures none { OnOk result (meter.new ≡ meter.old) }
        ensures refused { OnErr result (meter.new ≡ one_more meter.old) }
    {
        let mut metadata = self.record.metadata_metered(meter)?;
        metadata.done = true;
        Ok(metadata)
    }

    /// The files that this subtask acknowledged, in ascending order, or `None` if the record's
    /// shape has no such subtask. Makes a binary search.
    pub fn files_of(&self, subtask: SubtaskId) -> Option<&[FileId]>
        ensures { option_copied result ≡ files_from self.now subtask }
    {
        self.record.files_of(subtask)
    }

    /// All files that the subtasks acknowledged, in ascending order, each once. Fails only if
    /// memory runs out.
    pub fn files(&self) -> Result<Files, AllocError>
        ensures { IfOk result (λ files. files ≡ ascending_set (map (λ u. u.file) (uses (self.now ∷ [])))) }
    {
        self.files_metered(&mut Meter::new())
    }

    /// [`Done::files`], which fails exactly if one more request for memory was refused.
    pub fn files_metered(&self, meter: &mut Meter) -> Result<Files, AllocError>
        ensures files { IfOk result (λ files. files ≡ ascending_set (map (λ u. u.file) (uses (self.now ∷ [])))) }
        ensures none { OnOk result (meter.new ≡ meter.old) }
        ensures refused { OnErr result (meter.new ≡ one_more meter.old) }
    {
        self.record.files(meter)
    }
}
