//! Calls that take, report, show and count.
ghost use Rattle.std.specs.Prelude.{◌≡◌, ◌↔◌, true, Some, Err, IsSome, IfOk, IfErr, OnErr, option_map, OnOk};
ghost use Rattle.ckpt_ids.specs.Records.{metadata_of};
ghost use Rattle.ckpt_ids.specs.declared.call.Call.TheVariants as call;
ghost use Rattle.ckpt_ids.specs.declared.reply.Refusal.{Refusal};
ghost use Rattle.ckpt_memory.specs.Refusals.{one_more};
ghost use Rattle.ckpt_model.specs.declared.faults.CoreFault.TheVariants.{Memory};
ghost use Rattle.ckpt_model.specs.Coordinator.{may_want_memory};
ghost use Rattle.ckpt_core.specs.Inside.Parts.{Answers, AreSound, IsAccepted, Stays, records_in, state_of};
ghost use Rattle.ckpt_core.specs.Inside.RecordFacts.{IsInOrder, id_before};
ghost use Rattle.ckpt_model.specs.Refusals.{refusal};
ghost use Rattle.ckpt_model.specs.State.{record_of};

use crate::parts::Parts;
use ckpt_ids::{CheckpointId, FileId, Metadata, Refusal, Reply};
use ckpt_memory::Meter;
use ckpt_model::CoreFault;
use std::alloc::AllocError;

impl Parts {
    /// Fetches files that wait for deletion.
    ///
    /// Conditions: the parts are sound, and the call is accepted.
    #[inline(never)]
    pub(crate) fn take(&mut self, meter: &mut Meter, most: u64) -> Result<Reply, CoreFault>
        requires sound { AreSound self.old }
        requires accepted { IsAccepted self.old (call.Take most) }
        ensures ok { IfOk result (Answers self.old self.new (call.Take most)) }
        ensures err { OnErr result (Stays self.old self.new) }
        ensures fault { IfErr result (λ fault. fault ≡ Memory) }
        ensures none { OnOk result (meter.new ≡ meter.old) }
        ensures refused { OnErr result (meter.new ≡ one_more meter.old) }
    {
        Ok(Reply::Taken(self.outbox.take_metered(meter, most)?))
    }

    /// A fetched file is deleted. Refuses exactly if the file is not taken.
    ///
    /// Condition: the parts are sound.
    #[inline(always)]
    pub(crate) fn deleted(&mut self, file: FileId) -> Result<Reply, Refusal>
        requires { AreSound self.old }
        ensures ok { IfOk result (Answers self.old self.new (call.Deleted file)) }
        ensures err { OnErr result (Stays self.old self.new) }
        ensures refused { IfErr result (λ why. refusal (state_of self.old) (call.Deleted file) ≡ Some why) }
    {
        match self.outbox.deleted(file) {
            Ok(()) => Ok(Reply::Deleted(file)),
            Err(_) => Err(Refusal::NotTaken),
        }
    }

    /// A fetched file could not be deleted. Refuses exactly if the file is not taken.
    ///
    /// Condition: the parts are sound.
    #[inline(always)]
    pub(crate) fn undeleted(&mut self, file: FileId) -> Result<Reply, Refusal>
        requires { AreSound self.old }
        ensures ok { IfOk result (Answers self.old self.new (call.Undeleted file)) }
        ensures err { OnErr result (Stays self.old self.new) }
        ensures refused { IfErr result (λ why. refusal (state_of self.old) (call.Undeleted file) ≡ Some why) }
    {
        match self.outbox.undeleted(file) {
            Ok(()) => Ok(Reply::Undeleted(file)),
            Err(_) => Err(Refusal::NotTaken),
        }
    }

    /// Shows the metadata of a live record. Refuses exactly if no live record has this number.
    ///
    /// Condition: the parts are sound.
    #[inline(never)]
    pub(crate) fn show(&self, meter: &mut Meter, id: CheckpointId) -> Result<Reply, CoreFault>
        requires { AreSound self.now }
        ensures ok { IfOk result (Answers self.now self.now (call.Show id)) }
        ensures refused { (why : Refusal) → (result ≡ Err (CoreFault.Refused why)) ↔ (refusal (state_of self.now) (call.Show id) ≡ Some why) }
        ensures memory { result ≡ Err CoreFault.Memory → may_want_memory (state_of self.now) (call.Show id) ≡ true }
        ensures none { OnOk result (meter.new ≡ meter.old) }
        ensures cause { result ≡ Err CoreFault.Memory → meter.new ≡ one_more meter.old }
        ensures kept { (why : Refusal) → result ≡ Err (CoreFault.Refused why) → meter.new ≡ meter.old }
    {
        match self.metadata(meter, id) {
            Ok(Some(metadata)) => Ok(Reply::Shown(metadata)),
            Ok(None) => Err(CoreFault::Refused(Refusal::NoSuchRecord)),
            Err(_) => Err(CoreFault::Memory),
        }
    }

    /// How often a file is used.
    ///
    /// Conditions: the parts are sound, and the call is accepted.
    #[inline(never)]
    pub(crate) fn count(&mut self, file: FileId) -> Reply
        requires sound { AreSound self.old }
        requires accepted { IsAccepted self.old (call.Count file) }
        ensures { Answers self.old self.new (call.Count file) result }
    {
        Reply::Counted(file, self.registry.count(file))
    }

    /// The metadata of the live record of this number, which is pending or done. Fails only if there
    /// is one and memory runs out.
    ///
    /// Condition: the records are in rising number.
    pub(crate) fn metadata(
        &self,
        meter: &mut Meter,
        id: CheckpointId,
    ) -> Result<Option<Metadata>, AllocError>
        requires { IsInOrder id_before (records_in self.now) }
        ensures value { IfOk result (λ metadata. metadata ≡ option_map metadata_of (record_of (state_of self.now) id)) }
        ensures memory { OnErr result (IsSome (record_of (state_of self.now) id)) }
        ensures none { OnOk result (meter.new ≡ meter.old) }
        ensures refused { OnErr result (meter.new ≡ one_more meter.old) }
    {
        if let Some(record) = self.pending.get(id) {
            return Ok(Some(record.metadata_metered(meter)?));
        }
        match self.store.get(id) {
            Some(record) => Ok(Some(record.metadata_metered(meter)?)),
            None => Ok(None),
        }
    }
}
