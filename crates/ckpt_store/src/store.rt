//! The done records: retained checkpoints, savepoints and the base.

ghost use Rattle.std.specs.Prelude.{◌≡◌, ◌+◌, ◌^◌, ◌↔◌, ◌<◌, ◌≤◌, true, false, not, nat_le, ◌==◌, [], ◌∷◌, ◌++◌, length, drop, filter, Err, Some, None, OnOk, OnErr};
ghost use Rattle.std.specs.List.{find};
ghost use Rattle.std.specs.Option.{option_copied};
ghost use Rattle.ckpt_ids.specs.declared.numbers.Kind.TheVariants as kind;
ghost use Rattle.ckpt_ids.specs.Ordered.{put};
ghost use Rattle.ckpt_memory.specs.Refusals.{one_more};
ghost use Rattle.ckpt_store.specs.Storing.{Stored, IsStored, IsAbove, by_id, has_savepoint, completing, past_retained, lowest, choice_of, record_of};

use crate::places::{make_room, place_for};
use ckpt_ids::{CheckpointId, Choice, place_of};
use ckpt_memory::Meter;
use ckpt_pending::Done;
use std::alloc::{AllocError, Global};
use std::collections::VecDeque;
use std::marker::Model;
use thiserror::Error;

/// Why a savepoint was not dropped: the first of these that applies.
#[derive(Clone, Copy, Debug, PartialEq, Eq, Error)]
pub enum DisposeFault {
    /// No completed savepoint has this number.
    #[error("there is no such savepoint")]
    NoSuchSavepoint,
    /// The job was rolled back to this savepoint: it is the base.
    #[error("the job was rolled back to this savepoint")]
    InUse,
}

/// The completed checkpoints that are retained and the completed savepoints, by number, and the
/// base: the savepoint that the job was rolled back to, until its next checkpoint completes.
///
/// Source of the rules: the Flink documentation, "Checkpoints", on retained checkpoints, and
/// "Checkpoints vs. Savepoints"; the base is this project's own.
#[derive(Debug)]
pub struct Store {
    retained: u32,
    checkpoints: VecDeque<Done>,
    savepoints: VecDeque<Done>,
    base: Option<CheckpointId>,
}

impl Drop for Store {
    fn drop(self) {
        let Store {
            retained: _,
            checkpoints: _,
            savepoints: _,
            base: _,
        } = self;
    }
}

impl Model for Store {
    ghost use Rattle.ckpt_store.specs.Storing.{Stored, IsStored, stored};

    ghost Value = { Stored };

    ghost view = { λ s. stored s.retained s.checkpoints s.savepoints s.base };

    ghost invariant = { λ s. IsStored (stored s.retained s.checkpoints s.savepoints s.base) };
}

impl Store {
    /// An empty store that keeps at most this many completed checkpoints. Takes no memory.
    ///
    /// Condition: it keeps at least 1.
    pub fn new(alloc: Global, retained: u32) -> Store
        requires { 1 ≤ retained }
        ensures { result ≡ record { retained = retained; checkpoints = []; savepoints = []; base = None; spare = result.spare } }
    {
        Store {
            retained,
            checkpoints: VecDeque::new(alloc),
            savepoints: VecDeque::new(alloc),
            base: None,
        }
    }

    /// Makes room for one more checkpoint or savepoint. Fails only if memory runs out.
    pub fn reserve(&mut self) -> Result<(), AllocError>
        ensures ok { OnOk result (1 ≤ self.new.spare) }
        ensures kept { self.new ≡ record self.old { spare = self.new.spare } }
        ensures room { self.old.spare ≤ self.new.spare }
    {
        self.reserve_metered(&mut Meter::new())
    }

    /// [`Store::reserve`], which fails exactly if one more request for memory was refused.
    pub fn reserve_metered(&mut self, meter: &mut Meter) -> Result<(), AllocError>
        ensures ok { OnOk result (1 ≤ self.new.spare) }
        ensures kept { self.new ≡ record self.old { spare = self.new.spare } }
        ensures room { self.old.spare ≤ self.new.spare }
        ensures none { OnOk result (meter.new ≡ meter.old) }
        ensures refused { OnErr result (meter.new ≡ one_more meter.old) }
    {
        make_room(meter, &mut self.checkpoints)?;
        make_room(meter, &mut self.savepoints)
    }

    /// Adds a completed checkpoint. From then on there is no base. If there are now more
    /// checkpoints than are retained, drops the one with the least number and returns that number.
    /// Takes no memory.
    ///
    /// Conditions: [`Store::reserve`] made room for the record, it is a checkpoint, and its number
    /// is above those of all other checkpoints.
    pub fn complete(&mut self, done: Done) -> Option<CheckpointId>
        requires room { 1 ≤ self.old.spare }
        requires checkpoint { done.kind ≡ kind.Checkpoint }
        requires above { IsAbove self.old.checkpoints done.id }
        ensures value { self.new ≡ completing self.old done self.new.spare }
        ensures dropped { result ≡ past_retained self.old.retained (self.old.checkpoints ++ done ∷ []) }
        ensures room { self.old.spare ≤ self.new.spare + 1 }
    {
        // Does nothing. Its contract says that the record is done and full.
        let _ = done.id();
        self.clear_base();
        let dropped = if self.checkpoints.len() < self.retained as usize {
            None
        } else {
            self.checkpoints.pop_front()
        };
        self.checkpoints.push_back_reserved(done);
        dropped.map(|done| done.id())
    }

    /// Adds a completed savepoint. Takes no memory.
    ///
    /// Conditions: [`Store::reserve`] made room for the record, it is a savepoint, no other
    /// savepoint has its number, and the number of savepoints then fits a `u32`.
    pub fn add_savepoint(&mut self, done: Done)
        requires room { 1 ≤ self.old.spare }
        requires savepoint { done.kind ≡ kind.Savepoint }
        requires new { has_savepoint self.old done.id ≡ false }
        requires few { length self.old.savepoints + 1 < 2 ^ 32 }
        ensures value { self.new ≡ record self.old { savepoints = put by_id done self.old.savepoints; spare = self.new.spare } }
        ensures room { self.old.spare ≤ self.new.spare + 1 }
    {
        let place = place_for(&self.savepoints, done.id());
        let _ = self.savepoints.insert(place, done);
    }

    /// Drops a savepoint. Takes no memory.
    ///
    /// Returns [`DisposeFault::NoSuchSavepoint`] exactly if no savepoint has this number, otherwise
    /// [`DisposeFault::InUse`] exactly if it is the base. After an error the store has not changed.
    pub fn dispose(&mut self, id: CheckpointId) -> Result<(), DisposeFault>
        ensures absent { (result ≡ Err DisposeFault.NoSuchSavepoint) ↔ (has_savepoint self.old id ≡ false) }
        ensures in_use { (result ≡ Err DisposeFault.InUse) ↔ ((has_savepoint self.old id ≡ true) × (self.old.base ≡ Some id)) }
        ensures ok { OnOk result (self.new ≡ record self.old { savepoints = filter (λ r. not (r.id == id)) self.old.savepoints; spare = self.new.spare }) }
        ensures err { OnErr result (self.new ≡ self.old) }
        ensures room { self.old.spare ≤ self.new.spare }
    {
        let Ok(place) = place_of(&self.savepoints, id) else {
            return Err(DisposeFault::NoSuchSavepoint);
        };
        if self.base == Some(id) {
            return Err(DisposeFault::InUse);
        }
        self.savepoints.remove(place);
        Ok(())
    }

    /// Whether a completed savepoint has this number.
    pub fn has_savepoint(&self, id: CheckpointId) -> bool
        ensures { result ≡ has_savepoint self.now id }
    {
        place_of(&self.savepoints, id).is_ok()
    }

    /// The number of completed savepoints.
    pub fn savepoints(&self) -> u32
        ensures value { result ≡ length self.now.savepoints }
        ensures stored { IsStored self.now }
    {
        self.savepoints.len() as u32
    }

    /// The number of completed checkpoints.
    pub fn checkpoints(&self) -> u32
        ensures value { result ≡ length self.now.checkpoints }
        ensures stored { IsStored self.now }
    {
        self.checkpoints.len() as u32
    }

    /// What the job would restart from: the completed checkpoint with the greatest number,
    /// otherwise the base, otherwise nothing. Takes constant time.
    pub fn choice(&self) -> Choice
        ensures value { result ≡ choice_of self.now }
        ensures stored { IsStored self.now }
    {
        if let Some(done) = self.checkpoints.back() {
            return Choice::Checkpoint(done.id());
        }
        match self.base {
            Some(id) => Choice::Savepoint(id),
            None => Choice::Fresh,
        }
    }

    /// The job is rolled back to this savepoint.
    ///
    /// Condition: a completed savepoint has this number.
    pub fn set_base(&mut self, id: CheckpointId)
        requires { has_savepoint self.old id ≡ true }
        ensures { self.new ≡ record self.old { base = Some id } }
    {
        self.base = Some(id);
    }

    /// The job is no longer rolled back to a savepoint.
    pub fn clear_base(&mut self)
        ensures { self.new ≡ record self.old { base = None } }
    {
        self.base = None;
    }

    /// The savepoint that the job was rolled back to, if no checkpoint has completed since.
    pub fn base(&self) -> Option<CheckpointId>
        ensures value { result ≡ self.now.base }
        ensures stored { IsStored self.now }
    {
        self.base
    }

    /// Retains this many checkpoints from now on. Takes no memory.
    ///
    /// Condition: there are no more than that.
    pub fn retain(&mut self, retained: u32)
        requires some { 1 ≤ retained }
        requires few { length self.old.checkpoints ≤ retained }
        ensures value { self.new ≡ record self.old { retained = retained; spare = self.new.spare } }
        ensures room { self.old.spare ≤ self.new.spare }
    {
        self.retained = retained;
    }

    /// Drops the completed checkpoint with the least number, and returns that number. Takes no
    /// memory.
    pub fn pop_lowest(&mut self) -> Option<CheckpointId>
        ensures value { self.new ≡ record self.old { checkpoints = drop 1 self.old.checkpoints; spare = self.new.spare } }
        ensures dropped { result ≡ lowest self.old.checkpoints }
        ensures room { self.old.spare ≤ self.new.spare }
    {
        let done = self.checkpoints.pop_front()?;
        Some(done.id())
    }

    /// The first completed checkpoint from this number on. Uses binary search.
    pub fn checkpoint_from(&self, id: CheckpointId) -> Option<&Done>
        ensures value { option_copied result ≡ find (λ r. nat_le id r.id) self.now.checkpoints }
        ensures stored { IsStored self.now }
    {
        let place = self.checkpoints.partition_point(|done| done.id() < id);
        self.checkpoints.get(place)
    }

    /// The first completed savepoint from this number on. Uses binary search.
    pub fn savepoint_from(&self, id: CheckpointId) -> Option<&Done>
        ensures value { option_copied result ≡ find (λ r. nat_le id r.id) self.now.savepoints }
        ensures stored { IsStored self.now }
    {
        let place = self.savepoints.partition_point(|done| done.id() < id);
        self.savepoints.get(place)
    }

    /// The completed checkpoint with this number, otherwise the completed savepoint. Makes a binary
    /// search.
    pub fn get(&self, id: CheckpointId) -> Option<&Done>
        ensures value { option_copied result ≡ record_of self.now id }
        ensures stored { IsStored self.now }
    {
        if let Ok(place) = place_of(&self.checkpoints, id) {
            return self.checkpoints.get(place);
        }
        match place_of(&self.savepoints, id) {
            Ok(place) => self.savepoints.get(place),
            Err(_) => None,
        }
    }
}
