//! The reads of a coordinator. They take no memory and change nothing.

ghost use Rattle.std.specs.Prelude.{◌≡◌, length, find, nat_le, option_map, slice_get};
ghost use Rattle.ckpt_ids.specs.Records.{missing, uses};
ghost use Rattle.ckpt_model.specs.Coordinator.{IsSound, choice_of, pending_of};
ghost use Rattle.ckpt_core.specs.Inside.Parts.{AreSound, records_in, state_of};
ghost use Rattle.ckpt_model.specs.Reads.{IsNextExpiry, NoneIsEarlyFrom, NoneTriggersBefore, live_of, next_due, present_in, sooner};
ghost use Rattle.ckpt_core.specs.Inside.RecordFacts.{IsInOrder, IsStored, id_before};
ghost use Rattle.ckpt_model.specs.State.{is_known};

use crate::coordinator::Core;
use crate::parts::Parts;
use ckpt_ids::{CheckpointId, Choice, FileId, Kind};
pub use ckpt_model::Live;
use ckpt_model::Mode;
use ckpt_pending::{Done, Pending};

impl Core {
    /// What the job is doing. The contract also says that the coordinator is sound.
    #[tactic(auto, unfolding(crate::specs::Inside::Parts::state_of))]
    pub fn mode(&self) -> Mode
        ensures value { result ≡ self.now.mode }
        ensures sound { IsSound self.now }
    {
        self.parts.mode
    }

    /// The greatest moment that the coordinator has seen, in milliseconds: that of its opening, or of
    /// an accepted call. It takes an earlier moment for this one.
    #[tactic(auto, unfolding(crate::specs::Inside::Parts::state_of))]
    pub fn moment(&self) -> u64
        ensures { result ≡ self.now.latest }
    {
        self.parts.clock.latest()
    }

    /// The moment from which neither the interval nor the pause holds a checkpoint back, in
    /// milliseconds. No tick before it triggers one. A tick at it or later triggers one, unless it
    /// is refused, fails the job over, or finds as many pending as may be.
    pub fn due(&self) -> u64
        ensures value { result ≡ next_due self.now }
        ensures before { NoneTriggersBefore self.now result }
        ensures from { NoneIsEarlyFrom self.now result }
    {
        self.parts.due()
    }

    /// The moment at which the first of the pending records expires, in milliseconds, or `None` if
    /// none is pending. Visits each pending record.
    pub fn oldest_expiry(&self) -> Option<u64>
        ensures { IsNextExpiry self.now result }
    {
        self.parts.oldest_expiry()
    }

    /// The record that a restart begins from.
    pub fn choice(&self) -> Choice
        ensures { result ≡ choice_of self.now }
    {
        self.parts.choice()
    }

    /// The live record at this place, in ascending order of their numbers, or `None` past the last.
    /// Makes a binary search for each place before it, and visits the pending records.
    #[tactic(auto, unfolding(crate::specs::Inside::Parts::state_of))]
    pub fn live(&self, place: usize) -> Option<Live>
        ensures { result ≡ option_map live_of (slice_get self.now.records place) }
    {
        self.parts.live(place)
    }

    /// How many files live records use.
    pub fn files_in_use(&self) -> u64
        ensures { result ≡ present_in (uses self.now.records) }
    {
        self.parts.files_in_use()
    }

    /// How many files wait to be fetched for deletion.
    #[tactic(auto, unfolding(crate::specs::Inside::Parts::state_of))]
    pub fn files_waiting(&self) -> u64
        ensures { result ≡ length self.now.waiting }
    {
        self.parts.outbox.waiting()
    }

    /// How many files were fetched for deletion and are not yet reported.
    #[tactic(auto, unfolding(crate::specs::Inside::Parts::state_of))]
    pub fn files_taken(&self) -> u64
        ensures { result ≡ length self.now.taken }
    {
        self.parts.outbox.taken()
    }

    /// Whether a live record uses the file, or it waits for deletion, or was fetched for it.
    #[tactic(auto, unfolding(crate::specs::Inside::Parts::state_of))]
    pub fn knows(&self, file: FileId) -> bool
        ensures { result ≡ is_known self.now file }
    {
        self.parts.knows(file)
    }

    /// How many subtasks of this pending record have not acknowledged, or `None` if no record with
    /// this number is pending.
    #[tactic(auto, unfolding(crate::specs::Inside::Parts::state_of))]
    pub fn missing(&self, id: CheckpointId) -> Option<u32>
        ensures { result ≡ option_map missing (pending_of self.now.records id) }
    {
        self.parts.missing(id)
    }
}

impl Parts {
    fn due(&self) -> u64
        ensures value { result ≡ next_due (state_of self.now) }
        ensures before { NoneTriggersBefore (state_of self.now) result }
        ensures from { NoneIsEarlyFrom (state_of self.now) result }
    {
        self.clock.due(&self.opened.config)
    }

    /// Condition: the parts are sound.
    fn oldest_expiry(&self) -> Option<u64>
        requires { AreSound self.now }
        ensures { IsNextExpiry (state_of self.now) result }
    {
        self.recall_groups();
        let timeout = self.opened.config.timeout();
        let started = self.pending.least_started()?;
        Some(started + timeout)
    }

    /// Condition: the parts are sound.
    fn live(&self, place: usize) -> Option<Live>
        requires { AreSound self.now }
        ensures { result ≡ option_map live_of (slice_get (records_in self.now) place) }
    {
        let mut lowest = CheckpointId(0);
        for _ in 0..place {
            let live = self.first_from(lowest)?;
            lowest = CheckpointId(live.id.0 + 1);
        }
        self.first_from(lowest)
    }

    /// The first live record from this number on.
    ///
    /// Condition: the numbers of the live records rise.
    pub(crate) fn first_from(&self, id: CheckpointId) -> Option<Live>
        requires { IsInOrder id_before (records_in self.now) }
        ensures { result ≡ option_map live_of (find (λ r. nat_le id r.id) (records_in self.now)) }
    {
        let pending = self.pending.first_from(id);
        let done = sooner(self.checkpoint_from(id), self.savepoint_from(id));
        sooner(pending, done)
    }

    fn checkpoint_from(&self, id: CheckpointId) -> Option<Live>
        ensures value { result ≡ option_map live_of (find (λ r. nat_le id r.id) self.now.store.checkpoints) }
        ensures stored { IsStored self.now.store }
    {
        let done = self.store.checkpoint_from(id)?;
        Some(live_done(done))
    }

    fn savepoint_from(&self, id: CheckpointId) -> Option<Live>
        ensures value { result ≡ option_map live_of (find (λ r. nat_le id r.id) self.now.store.savepoints) }
        ensures stored { IsStored self.now.store }
    {
        let done = self.store.savepoint_from(id)?;
        Some(live_done(done))
    }

    /// Condition: the parts are sound.
    fn files_in_use(&self) -> u64
        requires { AreSound self.now }
        ensures { result ≡ present_in (uses (state_of self.now).records) }
    {
        self.registry.present()
    }

    /// Condition: the parts are sound.
    fn missing(&self, id: CheckpointId) -> Option<u32>
        requires { AreSound self.now }
        ensures { result ≡ option_map missing (pending_of (records_in self.now) id) }
    {
        let pending = self.pending_record(id)?;
        Some(pending.missing())
    }
}

/// The one with the lower number, if there are two.
fn sooner(left: Option<Live>, right: Option<Live>) -> Option<Live>
    ensures { result ≡ sooner left right }
{
    match left {
        Some(a) => match right {
            Some(b) => Some(if a.id < b.id { a } else { b }),
            None => Some(a),
        },
        None => right,
    }
}

fn live_done(done: &Done) -> Live
    ensures { result ≡ live_of done.now }
{
    Live {
        id: done.id(),
        kind: done.kind(),
        done: true,
    }
}

pub(crate) fn live_pending(pending: &Pending) -> Live
    ensures { result ≡ live_of pending.now }
{
    Live {
        id: pending.id(),
        kind: pending.kind(),
        done: false,
    }
}
