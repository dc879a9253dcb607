//! Acknowledgements of records that are done or have ended.
ghost use Rattle.std.specs.Prelude.{◌≡◌, ◌<◌, ◌≤◌, ℕ, not, filter, length, count_by, IfOk, OnOk, OnErr, None, true, false, IfErr};
ghost use Rattle.ckpt_ids.specs.declared.call.Call.TheVariants as call;
ghost use Rattle.ckpt_memory.specs.Refusals.{one_more};
ghost use Rattle.ckpt_model.specs.declared.faults.CoreFault.TheVariants.{Memory};
ghost use Rattle.ckpt_model.specs.Coordinator.{may_want_memory, pending_of};
ghost use Rattle.ckpt_core.specs.Inside.FileFacts.{AreDistinct, is_in, is_known};
ghost use Rattle.ckpt_core.specs.Inside.Moving.{with_waiting};
ghost use Rattle.ckpt_core.specs.Inside.Parts.{Answers, AreSound, IsAccepted, Stays, is_known_in, state_of};
ghost use Rattle.ckpt_model.specs.Reads.{present_in};

use crate::parts::Parts;
use ckpt_ids::{CheckpointId, FileId, Files, Reply, SubtaskId};
use ckpt_memory::{Meter, list};
use ckpt_model::CoreFault;
use std::alloc::AllocError;

impl Parts {
    /// The record is done or has ended: what is not known of its fresh files waits for deletion.
    ///
    /// Conditions: the parts are sound, the call is accepted, and no pending record has the number.
    #[inline(never)]
    pub(crate) fn ack_late(
        &mut self,
        meter: &mut Meter,
        now: u64,
        id: CheckpointId,
        subtask: SubtaskId,
        fresh: &Files,
        reused: &Files,
    ) -> Result<Reply, CoreFault>
        requires sound { AreSound self.old }
        requires accepted { IsAccepted self.old (call.Ack now id subtask fresh.now reused.now) }
        requires ended { pending_of (state_of self.old).records id ≡ None }
        ensures ok { IfOk result (Answers self.old self.new (call.Ack now id subtask fresh.now reused.now)) }
        ensures err { OnErr result (Stays self.old self.new) }
        ensures fault { IfErr result (λ fault. fault ≡ Memory) }
        ensures memory { OnErr result (may_want_memory (state_of self.old) (call.Ack now id subtask fresh.now reused.now) ≡ true) }
        ensures none { OnOk result (meter.new ≡ meter.old) }
        ensures refused { OnErr result (meter.new ≡ one_more meter.old) }
    {
        let unknown = self.unknown_files(meter, fresh)?;
        self.put_unknown(meter, &unknown)?;
        self.clock.see(now);
        Ok(Reply::AckLate(unknown.len() as u64))
    }

    /// The unknown ones among these files. Fails only if there are any and memory runs out.
    fn unknown_files(&self, meter: &mut Meter, files: &Files) -> Result<Vec<FileId>, AllocError>
        ensures ok { IfOk result (λ unknown. unknown.items ≡ filter (λ f. not (is_known_in self.now f)) files.now) }
        ensures memory { OnErr result (0 < count_by (λ f. not (is_known_in self.now f)) files.now) }
        ensures none { OnOk result (meter.new ≡ meter.old) }
        ensures refused { OnErr result (meter.new ≡ one_more meter.old) }
    {
        let mut unknown = Vec::new(self.alloc);
        for file in files.as_slice() {
            if !self.knows(*file) {
                list::push(meter, &mut unknown, *file)?;
            }
        }
        Ok(unknown)
    }

    /// Hands out these files. Fails only if there are any and memory runs
    /// out, and then changes nothing.
    ///
    /// Conditions: each file is named once, the outbox knows none of them, and it has room for the
    /// files in use.
    fn put_unknown(&mut self, meter: &mut Meter, files: &[FileId]) -> Result<(), AllocError>
        requires distinct { AreDistinct files.now }
        requires unknown { (f : ℕ) → is_in f files.now ≡ true → is_known self.old.outbox f ≡ false }
        requires spare { present_in self.old.registry ≤ self.old.outbox.spare }
        ensures ok { OnOk result (self.new ≡ with_waiting self.old files.now self.new.outbox.spare) }
        ensures spare { present_in self.old.registry ≤ self.new.outbox.spare }
        ensures err { OnErr result (self.new ≡ self.old) }
        ensures memory { OnErr result (0 < length files.now) }
        ensures none { OnOk result (meter.new ≡ meter.old) }
        ensures refused { OnErr result (meter.new ≡ one_more meter.old) }
    {
        if files.is_empty() {
            return Ok(());
        }
        self.make_room_for_files(meter, files.len())?;
        self.outbox.put(files);
        Ok(())
    }
}
