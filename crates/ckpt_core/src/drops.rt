//! The end of records: their uses are released, and the files that nothing uses are handed out.
ghost use Rattle.std.specs.Prelude.{◌≡◌, ◌≤◌, ◌++◌, ◌||◌, ◌==◌, ◌+◌, [], length, map, vec_capacity, vec_len};
ghost use Rattle.ckpt_core.specs.Inside.FileFacts.{after_end, released, without};
ghost use Rattle.ckpt_core.specs.Inside.Moving.{releasing, without_checkpoints};
ghost use Rattle.ckpt_core.specs.Inside.Parts.{AreInUseAlone, AreSound, AreTied, Drops, NotesPendingOnly, is_noted, records_in};
ghost use Rattle.ckpt_model.specs.Reads.{present_in};
ghost use Rattle.ckpt_core.specs.Inside.RecordFacts.{IsInOrder, id_before, is_done_checkpoint, is_pending};
ghost use Rattle.ckpt_ids.specs.Places.{LiesAt};
ghost use Rattle.ckpt_store.specs.Storing.{id_of};

use crate::parts::Parts;
use ckpt_ids::CheckpointId;

impl Parts {
    /// Releases the uses of the noted records, hands out the files that no record uses any more,
    /// and returns how many these are. Takes no memory.
    ///
    /// Condition: the outbox has room for the files in use, and knows none of them.
    #[inline(never)]
    pub(crate) fn hand_out(&mut self) -> u64
        requires unknown { AreInUseAlone self.old }
        requires room { present_in self.old.registry ≤ self.old.outbox.spare }
        ensures parts { self.new ≡ releasing self.old (without self.old.ended.items self.old.registry) self.new }
        ensures cleared { self.new.ended.items ≡ [] }
        ensures capacity { vec_capacity self.new.ended ≡ vec_capacity self.old.ended }
        ensures count { result ≡ length (released self.old.registry (without self.old.ended.items self.old.registry)) }
    {
        let files = self.registry.release(&self.ended);
        let count = files.len() as u64;
        self.outbox.put(files);
        self.ended.clear();
        count
    }

    /// The same, if the record `id` ends too and gives up its pins.
    ///
    /// Condition: the outbox has room for the files in use, and knows none of them.
    pub(crate) fn hand_out_after(&mut self, id: CheckpointId) -> u64
        requires unknown { AreInUseAlone self.old }
        requires room { present_in self.old.registry ≤ self.old.outbox.spare }
        ensures parts { self.new ≡ releasing self.old (after_end id self.old.ended.items self.old.registry) self.new }
        ensures cleared { self.new.ended.items ≡ [] }
        ensures capacity { vec_capacity self.new.ended ≡ vec_capacity self.old.ended }
        ensures count { result ≡ length (released self.old.registry (after_end id self.old.ended.items self.old.registry)) }
    {
        let files = self.registry.end(id, &self.ended);
        let count = files.len() as u64;
        self.outbox.put(files);
        self.ended.clear();
        count
    }

    /// Drops the noted pending records, and returns how many files were released. Takes no memory.
    ///
    /// Conditions: the parts are tied, the records are in rising number, the outbox knows no file in use,
    /// and no other records are noted.
    #[inline(always)]
    pub(crate) fn drop_noted(&mut self) -> u64
        requires tied { AreTied self.old }
        requires in_order { IsInOrder id_before (records_in self.old) }
        requires unknown { AreInUseAlone self.old }
        requires pending_only { NotesPendingOnly self.old }
        ensures { Drops self.old self.new (is_noted self.old.ended.items) result }
    {
        // Most ticks drop nothing.
        if self.ended.is_empty() {
            return 0;
        }
        self.pending.remove_all(&self.ended);
        self.hand_out()
    }

    /// Drops all pending records, and returns how many files were released. Takes no memory.
    ///
    /// Condition: the parts are sound.
    pub(crate) fn drop_all_pending(&mut self) -> u64
        requires { AreSound self.old }
        ensures { Drops self.old self.new is_pending result }
    {
        self.recall_groups();
        self.pending.note_all(&mut self.ended);
        self.drop_noted()
    }

    /// Drops the pending record `id`, and returns how many files were released. Takes no memory.
    ///
    /// Conditions: the parts are sound, and the record is at this place.
    pub(crate) fn drop_pending(&mut self, id: CheckpointId, place: usize) -> u64
        requires sound { AreSound self.old }
        requires place { LiesAt id_of id self.old.pending place }
        ensures { Drops self.old self.new (λ r. r.id == id) result }
    {
        self.pending.take_out(place);
        self.ended.push_reserved(id);
        self.hand_out()
    }

    /// Drops all pending records and all completed checkpoints, and returns how many files were
    /// released. Takes no memory.
    ///
    /// Condition: the parts are sound.
    pub(crate) fn drop_all_but_savepoints(&mut self) -> u64
        requires { AreSound self.old }
        ensures { Drops self.old self.new (λ r. is_pending r || is_done_checkpoint r) result }
    {
        self.recall_groups();
        self.pending.note_all(&mut self.ended);
        self.pending.remove_all(&self.ended);
        self.note_and_pop_checkpoints();
        self.hand_out()
    }

    /// Takes all completed checkpoints out of the store and notes their numbers.
    ///
    /// Condition: there is room for their numbers.
    fn note_and_pop_checkpoints(&mut self)
        requires room { vec_len self.old.ended + length self.old.store.checkpoints ≤ vec_capacity self.old.ended }
        ensures parts { self.new ≡ without_checkpoints self.old self.new }
        ensures noted { self.new.ended.items ≡ self.old.ended.items ++ map (λ r. r.id) self.old.store.checkpoints }
        ensures capacity { vec_capacity self.new.ended ≡ vec_capacity self.old.ended }
    {
        while let Some(id) = self.store.pop_lowest() {
            self.ended.push_reserved(id);
        }
    }
}
