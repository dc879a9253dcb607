//! The pending records, in rising number.
ghost use Rattle.std.specs.Prelude.{◌≡◌, ℕ, ◌+◌, ◌<◌, ◌≤◌, true, false, not, ◌&&◌, ◌||◌, nat_lt, nat_le, ◌==◌, [], ◌∷◌, ◌++◌, map, filter, find, length, count_by};
ghost use Rattle.std.specs.Prelude.{Some, IfSome, IfNone, OnOk, OnErr, option_copied, option_map, slice_get, vec_capacity, vec_len};
ghost use Rattle.std.specs.List.{list_any};
ghost use Rattle.ckpt_core.specs.Inside.PendingRecords.{acked, retracted};
ghost use Rattle.ckpt_core.specs.Inside.RecordFacts.{IsIn, IsInOrder, IsPending, Record, has_acknowledged, id_before, is_checkpoint};
ghost use Rattle.ckpt_memory.specs.Refusals.{one_more};
ghost use Rattle.ckpt_model.specs.Reads.{has_come, live_of};
ghost use Rattle.ckpt_ids.specs.Places.{LiesAt};
ghost use Rattle.ckpt_pending.specs.Acknowledging.{Expects};
ghost use Rattle.ckpt_store.specs.Storing.{has_id, id_of};

use crate::queries::{Live, live_pending};
use crate::recall::recall_pending;
use ckpt_ids::{CheckpointId, Files, Kind, SubtaskId, place_of, take_out};
use ckpt_memory::{Meter, queue};
use ckpt_pending::Pending;
use std::alloc::{AllocError, Global};
use std::collections::VecDeque;
use std::marker::Model;

/// The records that wait for acknowledgements.
#[derive(Debug, Drop)]
pub(crate) struct PendingRecords {
    // in ascending order of their numbers: a new record is the last, and a binary search finds each
    // other one
    records: VecDeque<Pending>,
    // of these records, how many are checkpoints
    checkpoints: usize,
}

impl Model for PendingRecords {
    ghost use Rattle.std.specs.Prelude.{List};
    ghost use Rattle.ckpt_ids.specs.Records.{Record};
    ghost use Rattle.ckpt_core.specs.Inside.PendingRecords.{AreKept};

    ghost Value = { List Record };

    ghost view = { λ p. p.records.items };

    ghost invariant = { λ p. AreKept p.records.items p.checkpoints };
}

impl PendingRecords {
    /// No records. Takes no memory.
    pub(crate) fn new(alloc: Global) -> PendingRecords
        ensures { result ≡ [] }
    {
        PendingRecords {
            records: VecDeque::new(alloc),
            checkpoints: 0,
        }
    }

    /// Does nothing. Its contract says what holds for the records.
    pub(crate) fn recall(&self)
        ensures in_order { IsInOrder id_before self.now }
        ensures pending { (r : Record) → IsIn r self.now → IsPending r }
    {
        let _counted = self.checkpoints;
    }

    /// The record of this number.
    pub(crate) fn get(&self, id: CheckpointId) -> Option<&Pending>
        ensures value { option_copied result ≡ find (λ r. r.id == id) self.now }
        ensures in_order { IsInOrder id_before self.now }
        ensures pending { (r : Record) → IsIn r self.now → IsPending r }
    {
        match place_of(&self.records, id) {
            Ok(place) => self.records.get(place),
            Err(_) => None,
        }
    }

    /// The place of the record of this number.
    #[inline(always)]
    pub(crate) fn place(&self, id: CheckpointId) -> Option<usize>
        ensures found { IfSome result (LiesAt id_of id self.now) }
        ensures absent { IfNone result (list_any (has_id id) self.now ≡ false) }
        ensures in_order { IsInOrder id_before self.now }
        ensures pending { (r : Record) → IsIn r self.now → IsPending r }
    {
        match place_of(&self.records, id) {
            Ok(place) => Some(place),
            Err(_) => None,
        }
    }

    /// The record at this place.
    ///
    /// Condition: there is one.
    #[inline(always)]
    pub(crate) fn at(&self, place: usize) -> &Pending
        requires { place < length self.now }
        ensures { slice_get self.now place ≡ Some result.now }
    {
        &self.records[place]
    }

    /// Adds a record. Fails only if memory runs out, and then adds none.
    ///
    /// Condition: its number is greater than all others.
    pub(crate) fn add(&mut self, meter: &mut Meter, pending: Pending) -> Result<(), AllocError>
        requires newest { (r : Record) → IsIn r self.old → r.id < pending.id }
        ensures ok { OnOk result (self.new ≡ self.old ++ pending ∷ []) }
        ensures err { OnErr result (self.new ≡ self.old) }
        ensures none { OnOk result (meter.new ≡ meter.old) }
        ensures refused { OnErr result (meter.new ≡ one_more meter.old) }
    {
        recall_pending(&pending);
        let added = usize::from(is_checkpoint(&pending));
        queue::push_back(meter, &mut self.records, pending)?;
        self.checkpoints += added;
        Ok(())
    }

    /// Adds the acknowledgement of a subtask, with all files of its part, to the record at this
    /// place. Fails only if memory runs out, and then changes nothing.
    ///
    /// Conditions: there is one, its shape has the subtask, and it lacks this acknowledgement.
    pub(crate) fn ack(
        &mut self,
        meter: &mut Meter,
        place: usize,
        subtask: SubtaskId,
        files: Files,
    ) -> Result<(), AllocError>
        requires there { place < length self.old }
        requires expected { (r : Record) → slice_get self.old place ≡ Some r → Expects r subtask }
        ensures ok { (id : ℕ) → LiesAt id_of id self.old place → OnOk result (self.new ≡ acked id subtask files self.old) }
        ensures err { OnErr result (self.new ≡ self.old) }
        ensures none { OnOk result (meter.new ≡ meter.old) }
        ensures refused { OnErr result (meter.new ≡ one_more meter.old) }
    {
        self.records[place].ack_expected_metered(meter, subtask, files)
    }

    /// Takes back the acknowledgement of a subtask in the record at this place. Takes no memory.
    ///
    /// Conditions: there is one, and it has this acknowledgement.
    pub(crate) fn retract(&mut self, place: usize, subtask: SubtaskId)
        requires there { place < length self.old }
        requires acknowledged { (r : Record) → slice_get self.old place ≡ Some r → has_acknowledged r subtask ≡ true }
        ensures { (id : ℕ) → LiesAt id_of id self.old place → self.new ≡ retracted id subtask self.old }
    {
        self.records[place].retract(subtask);
    }

    /// Takes out the record at this place. Takes no memory.
    ///
    /// Condition: there is one.
    pub(crate) fn take_out(&mut self, place: usize) -> Pending
        requires { place < length self.old }
        ensures value { slice_get self.old place ≡ Some result }
        ensures found { (id : ℕ) → LiesAt id_of id self.old place → find (λ r. r.id == id) self.old ≡ Some result }
        ensures rest { (id : ℕ) → LiesAt id_of id self.old place → self.new ≡ filter (λ r. not (r.id == id)) self.old }
    {
        let removed = take_out(&mut self.records, place);
        let gone = usize::from(is_checkpoint(&removed));
        self.checkpoints -= gone;
        removed
    }

    /// Takes out the record of this number. Takes no memory.
    pub(crate) fn remove(&mut self, id: CheckpointId) -> Option<Pending>
        ensures value { result ≡ find (λ r. r.id == id) self.old }
        ensures rest { self.new ≡ filter (λ r. not (r.id == id)) self.old }
    {
        match self.place(id) {
            Some(place) => Some(self.take_out(place)),
            None => None,
        }
    }

    /// Removes the records with these numbers, if there are any. Takes no memory.
    pub(crate) fn remove_all(&mut self, ids: &[CheckpointId])
        ensures { self.new ≡ filter (λ r. not (list_any (λ i. r.id == i) ids.now)) self.old }
    {
        // Mostly a checkpoint completes as the last that is pending.
        if self.records.is_empty() {
            return;
        }
        for id in ids {
            self.remove(*id);
        }
    }

    /// How many records there are.
    pub(crate) fn len(&self) -> usize
        ensures { result ≡ length self.now }
    {
        self.records.len()
    }

    /// How many checkpoints there are.
    pub(crate) fn checkpoints(&self) -> usize
        ensures { result ≡ count_by is_checkpoint self.now }
    {
        self.checkpoints
    }

    /// How many savepoints there are.
    pub(crate) fn savepoints(&self) -> usize
        ensures { result ≡ count_by (λ r. not (is_checkpoint r)) self.now }
    {
        self.records.len() - self.checkpoints
    }

    /// The first record from this number on. Makes a binary search.
    pub(crate) fn first_from(&self, id: CheckpointId) -> Option<Live>
        ensures value { result ≡ option_map live_of (find (λ r. nat_le id r.id) self.now) }
        ensures in_order { IsInOrder id_before self.now }
    {
        let place = self.records.partition_point(|pending| pending.id() < id);
        let pending = self.records.get(place)?;
        Some(live_pending(pending))
    }

    /// The least moment at which a record started, in milliseconds.
    pub(crate) fn least_started(&self) -> Option<u64>
        ensures { (t : ℕ) → list_any (λ r. nat_le r.started t) self.now ≡ has_come result t }
    {
        let mut least = None;
        for pending in &self.records {
            least = Some(earlier(least, pending.started()));
        }
        least
    }

    /// Notes the numbers of all records. Takes no memory.
    ///
    /// Condition: there is room for as many numbers as there are records.
    pub(crate) fn note_all(&self, ended: &mut Vec<CheckpointId>)
        requires room { vec_len ended.old + length self.now ≤ vec_capacity ended.old }
        ensures items { ended.new.items ≡ ended.old.items ++ map (λ r. r.id) self.now }
        ensures capacity { vec_capacity ended.new ≡ vec_capacity ended.old }
    {
        for pending in &self.records {
            ended.push_reserved(pending.id());
        }
    }

    /// Notes the numbers of the records that started `timeout` milliseconds before `moment` or
    /// earlier. Returns how many of these are checkpoints. Takes no memory.
    ///
    /// Condition: there is room for as many numbers as there are records.
    pub(crate) fn note_expired(
        &self,
        moment: u64,
        timeout: u64,
        ended: &mut Vec<CheckpointId>,
    ) -> usize
        requires room { vec_len ended.old + length self.now ≤ vec_capacity ended.old }
        ensures items { ended.new.items ≡ ended.old.items ++ map (λ r. r.id) (filter (λ r. nat_le (r.started + timeout) moment) self.now) }
        ensures capacity { vec_capacity ended.new ≡ vec_capacity ended.old }
        ensures checkpoints { result ≡ count_by (λ r. nat_le (r.started + timeout) moment && is_checkpoint r) self.now }
    {
        let mut checkpoints = 0;
        for pending in &self.records {
            if is_expired(pending, moment, timeout) {
                ended.push_reserved(pending.id());
                checkpoints += usize::from(is_checkpoint(pending));
            }
        }
        checkpoints
    }

    /// Notes the numbers of the checkpoints before this number. Takes no memory.
    ///
    /// Condition: there is room for as many numbers as there are records.
    pub(crate) fn note_subsumed(&self, id: CheckpointId, ended: &mut Vec<CheckpointId>)
        requires room { vec_len ended.old + length self.now ≤ vec_capacity ended.old }
        ensures items { ended.new.items ≡ ended.old.items ++ map (λ r. r.id) (filter (λ r. is_checkpoint r && nat_lt r.id id) self.now) }
        ensures capacity { vec_capacity ended.new ≡ vec_capacity ended.old }
    {
        for pending in &self.records {
            if is_checkpoint(pending) && pending.id() < id {
                ended.push_reserved(pending.id());
            }
        }
    }
}

/// The earlier of two moments, if there are two.
fn earlier(least: Option<u64>, moment: u64) -> u64
    ensures { (t : ℕ) → nat_le result t ≡ (has_come least t || nat_le moment t) }
{
    match least {
        Some(least) => least.min(moment),
        None => moment,
    }
}

fn is_checkpoint(pending: &Pending) -> bool
    ensures { result ≡ is_checkpoint pending.now }
{
    pending.kind() == Kind::Checkpoint
}

fn is_expired(pending: &Pending, moment: u64, timeout: u64) -> bool
    ensures { result ≡ nat_le (pending.now.started + timeout) moment }
{
    // the sum may be past 2^64
    match moment.checked_sub(timeout) {
        Some(latest) => pending.started() <= latest,
        None => false,
    }
}
