//! What an engine asks of a coordinator when it recovers: which records are live, what a number is,
//! which files a record has, and which wait for deletion or were fetched for it. None of it changes
//! anything, and only `pins_of` and `taken_files`, which sort what they return, take memory.

ghost use Rattle.std.specs.Prelude.{◌≡◌, find, nat_le, option_copied, option_map, slice_get, IfOk, IsSome, OnErr, OnOk};
ghost use Rattle.std.specs.Option.{option_and_then};
ghost use Rattle.ckpt_ids.specs.Ascending.{ascending};
ghost use Rattle.ckpt_pending.specs.Acknowledging.{files_from};
ghost use Rattle.ckpt_core.specs.Inside.Parts.{AreSound, records_in, state_of};
ghost use Rattle.ckpt_memory.specs.Refusals.{one_more};
ghost use Rattle.ckpt_model.specs.Reads.{live_of, pins_in, standing, standing_without};
ghost use Rattle.ckpt_model.specs.Refusals.{pending_of};
ghost use Rattle.ckpt_model.specs.State.{record_of};

use crate::coordinator::Core;
use crate::parts::Parts;
use ckpt_ids::{CheckpointId, FileId, Files, SubtaskId};
use ckpt_memory::Meter;
use ckpt_model::Live;
pub use ckpt_model::Standing;
use std::alloc::AllocError;

impl Core {
    /// The first live record whose number is at least this one, or `None` if there is none. Makes a
    /// binary search.
    #[tactic(auto, unfolding(crate::specs::Inside::Parts::state_of))]
    pub fn live_from(&self, id: CheckpointId) -> Option<Live>
        ensures { result ≡ option_map live_of (find (λ r. nat_le id r.id) self.now.records) }
    {
        self.parts.first_from(id)
    }

    /// Whether the record with this number is pending, done or ended, or no record has had the
    /// number. Makes a binary search.
    pub fn standing(&self, id: CheckpointId) -> Standing
        ensures { result ≡ standing self.now id }
    {
        self.parts.standing(id)
    }

    /// The files that this subtask acknowledged in the live record with this number, in ascending
    /// order, each once. `None` if no live record has the number, or if the subtask has not
    /// acknowledged in it. Makes a binary search for each.
    pub fn files_of(&self, id: CheckpointId, subtask: SubtaskId) -> Option<&[FileId]>
        ensures { option_copied result ≡ option_and_then (λ r. files_from r subtask) (record_of self.now id) }
    {
        self.parts.files_of(id, subtask)
    }

    /// The files that the pending record with this number pins, in ascending order, each once:
    /// those of the choice at its trigger. Empty if no record with this number is pending. Fails
    /// only if one is and memory runs out.
    #[tactic(auto, unfolding(crate::specs::Inside::Parts::state_of))]
    pub fn pins_of(&self, id: CheckpointId) -> Result<Files, AllocError>
        ensures value { IfOk result (λ files. files ≡ pins_in (pending_of self.now.records id)) }
        ensures memory { OnErr result (IsSome (pending_of self.now.records id)) }
    {
        self.pins_of_metered(&mut Meter::new(), id)
    }

    /// [`Core::pins_of`], which fails exactly if one more request for memory was refused.
    #[tactic(auto, unfolding(crate::specs::Inside::Parts::state_of))]
    pub fn pins_of_metered(&self, meter: &mut Meter, id: CheckpointId) -> Result<Files, AllocError>
        ensures value { IfOk result (λ files. files ≡ pins_in (pending_of self.now.records id)) }
        ensures memory { OnErr result (IsSome (pending_of self.now.records id)) }
        ensures none { OnOk result (meter.new ≡ meter.old) }
        ensures refused { OnErr result (meter.new ≡ one_more meter.old) }
    {
        self.parts.pins_of_pending(meter, id)
    }

    /// The file at this place among those that wait for deletion, or `None` past the last. The
    /// first is fetched next. Takes constant time.
    #[tactic(auto, unfolding(crate::specs::Inside::Parts::state_of))]
    pub fn waiting_file(&self, place: usize) -> Option<FileId>
        ensures { result ≡ slice_get self.now.waiting place }
    {
        self.parts.outbox.waiting_file(place)
    }

    /// The files that were fetched for deletion and are not yet reported, in ascending order.
    /// Visits each file of the outbox. Fails only if memory runs out.
    #[tactic(auto, unfolding(crate::specs::Inside::Parts::state_of))]
    pub fn taken_files(&self) -> Result<Files, AllocError>
        ensures { IfOk result (λ files. files ≡ ascending self.now.taken) }
    {
        self.taken_files_metered(&mut Meter::new())
    }

    /// [`Core::taken_files`], which fails exactly if one more request for memory was refused.
    #[tactic(auto, unfolding(crate::specs::Inside::Parts::state_of))]
    pub fn taken_files_metered(&self, meter: &mut Meter) -> Result<Files, AllocError>
        ensures files { IfOk result (λ files. files ≡ ascending self.now.taken) }
        ensures none { OnOk result (meter.new ≡ meter.old) }
        ensures refused { OnErr result (meter.new ≡ one_more meter.old) }
    {
        self.parts.outbox.taken_files_metered(meter)
    }
}

impl Parts {
    /// Condition: the parts are sound.
    fn standing(&self, id: CheckpointId) -> Standing
        requires { AreSound self.now }
        ensures { result ≡ standing (state_of self.now) id }
    {
        if self.pending.get(id).is_some() {
            return Standing::Pending;
        }
        if self.store.get(id).is_some() {
            return Standing::Done;
        }
        self.standing_without(id)
    }

    /// What a number is that no live record has.
    #[tactic(auto, unfolding(crate::specs::Inside::Parts::state_of))]
    fn standing_without(&self, id: CheckpointId) -> Standing
        ensures { result ≡ standing_without (state_of self.now) id }
    {
        if id.0 < self.opened.first {
            Standing::Never
        } else if id.0 < self.next {
            Standing::Ended
        } else {
            Standing::NotYet
        }
    }

    /// Condition: the parts are sound.
    fn files_of(&self, id: CheckpointId, subtask: SubtaskId) -> Option<&[FileId]>
        requires { AreSound self.now }
        ensures { option_copied result ≡ option_and_then (λ r. files_from r subtask) (record_of (state_of self.now) id) }
    {
        if let Some(pending) = self.pending.get(id) {
            return pending.files_of(subtask);
        }
        self.store.get(id)?.files_of(subtask)
    }

    /// Condition: the parts are sound.
    fn pins_of_pending(&self, meter: &mut Meter, id: CheckpointId) -> Result<Files, AllocError>
        requires { AreSound self.now }
        ensures value { IfOk result (λ files. files ≡ pins_in (pending_of (records_in self.now) id)) }
        ensures memory { OnErr result (IsSome (pending_of (records_in self.now) id)) }
        ensures none { OnOk result (meter.new ≡ meter.old) }
        ensures refused { OnErr result (meter.new ≡ one_more meter.old) }
    {
        if self.pending_record(id).is_none() {
            return Ok(Files::of(Vec::new(self.alloc)));
        }
        self.registry.pins_metered(meter, id)
    }
}
