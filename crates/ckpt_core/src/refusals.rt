//! The tests of a call before it is made: what is refused, in the order of the rules.
ghost use Rattle.std.specs.Prelude.{◌≡◌, ◌++◌, ◌==◌, ℕ, List, find, not, nat_le, option_copied, option_map, IfOk, IfSome, None, Option, Some};
ghost use Rattle.std.specs.List.{list_any};
ghost use Rattle.std.specs.Result.{result_err};
ghost use Rattle.ckpt_ids.specs.declared.call.Call.TheVariants.{Tick, Savepoint, Ack, Decline, Restore, Cancel, Trigger, Configure};
ghost use Rattle.ckpt_ids.specs.declared.reply.Refusal.TheVariants.{NotRunning, UnknownCheckpoint, NameTaken, FileGone, IdsUsedUp};
ghost use Rattle.ckpt_core.specs.Inside.FileFacts.{IsAscending, is_present};
ghost use Rattle.ckpt_core.specs.Inside.RecordFacts.{Record};
ghost use Rattle.ckpt_core.specs.Inside.Parts.{AreSound, IsPendingAt, IsPlaceIn, IsPlaceOf, early_refusal, is_known_in, part_refusal, records_in, state_of, with_pins};
ghost use Rattle.ckpt_model.specs.Refusals.{files_refusal, has_repeats, is_cancelled, is_done_savepoint, is_foreign, is_running, moment_too_large};
ghost use Rattle.ckpt_model.specs.Refusals.{named, pending_checkpoints, pending_of, refusal, refuse_if, savepoints, was_not_given};

use crate::parts::Parts;
use ckpt_ids::{
    Call, CheckpointId, Config, FileId, Files, MOMENTS_END, MOST_FILES, MOST_SAVEPOINTS,
    NUMBERS_END, Refusal, SubtaskId, Target,
};
use ckpt_model::Mode;
use ckpt_pending::Pending;
use ckpt_rules::limit_of;

/// An `Err` with the refusal if the test holds.
fn refuse_if(test: bool, why: Refusal) -> Result<(), Refusal>
    ensures { result_err result ≡ refuse_if test why }
{
    if test { Err(why) } else { Ok(()) }
}

/// The result of a test that has found a record at this place, or none.
fn at_place(tested: Result<(), Refusal>, place: Option<usize>) -> Result<Option<usize>, Refusal>
    ensures refused { result_err result ≡ result_err tested }
    ensures place { IfOk result (λ found. found ≡ place) }
{
    match tested {
        Ok(()) => Ok(place),
        Err(why) => Err(why),
    }
}

fn test_moment(now: u64) -> Result<(), Refusal>
    ensures { result_err result ≡ moment_too_large (Some now) }
{
    refuse_if(now >= MOMENTS_END, Refusal::MomentTooLarge)
}

/// Tests that the subtask is one of the record's.
fn test_subtask(pending: &Pending, subtask: SubtaskId) -> Result<(), Refusal>
    ensures { result_err result ≡ is_foreign (Some pending.now) subtask }
{
    refuse_if(!pending.expects(subtask), Refusal::UnknownSubtask)
}

/// Tests the number of an acknowledgement's files, and that each is named once.
///
/// Returns [`Refusal::TooManyFiles`] exactly if there are more than [`MOST_FILES`]. Otherwise
/// returns [`Refusal::RepeatedFile`] exactly if a file is named twice. Every coordinator refuses an
/// acknowledgement with such files this way.
pub fn test_files(fresh: &Files, reused: &Files) -> Result<(), Refusal>
    ensures { result_err result ≡ files_refusal fresh.now reused.now }
{
    let count = fresh.len().saturating_add(reused.len());
    refuse_if(count > MOST_FILES, Refusal::TooManyFiles)?;
    refuse_if(has_repeats(fresh, reused), Refusal::RepeatedFile)
}

/// Whether a file is named twice. Takes time in O(k log k) for k files.
fn has_repeats(fresh: &Files, reused: &Files) -> bool
    ensures { result ≡ has_repeats (fresh.now ++ reused.now) }
{
    let fresh = fresh.as_slice();
    let reused = reused.as_slice();
    repeats(fresh) || repeats(reused) || share(fresh, reused)
}

/// Whether a file is named twice. In ascending order its two places are neighbours.
///
/// Condition: the files are in ascending order.
pub(crate) fn repeats(files: &[FileId]) -> bool
    requires { IsAscending files.now }
    ensures { result ≡ has_repeats files.now }
{
    !files.is_sorted_by(|file, next| file < next)
}

/// Whether a file is in both lists.
///
/// Condition: the fresh ones are in ascending order.
fn share(fresh: &[FileId], reused: &[FileId]) -> bool
    requires { IsAscending fresh.now }
    ensures { result ≡ list_any (λ f. list_any (λ g. f == g) fresh.now) reused.now }
{
    reused.iter().any(|file| is_among(*file, fresh))
}

/// Whether the file is one of these. Makes a binary search.
///
/// Condition: they are in ascending order.
fn is_among(file: FileId, files: &[FileId]) -> bool
    requires { IsAscending files.now }
    ensures { result ≡ list_any (λ f. file == f) files.now }
{
    files.binary_search(&file).is_ok()
}

impl Parts {
    /// Tests the call before it is made, and returns the place of the pending record that it names,
    /// if it names one. Not tested are a disposal, a show and a report: each looks its record or
    /// file up anyway, and refuses it then. Takes no memory, and changes nothing.
    ///
    /// Condition: the parts are sound.
    pub(crate) fn test(&self, call: &Call) -> Result<Option<usize>, Refusal>
        requires { AreSound self.now }
        ensures refused { result_err result ≡ early_refusal (state_of self.now) call.now }
        ensures place { IfOk result (IsPlaceIn self.now call.now) }
    {
        match call {
            Call::Tick { now } => at_place(self.test_tick(*now), None),
            Call::Savepoint { now } => at_place(self.test_savepoint(*now), None),
            Call::Ack {
                now,
                id,
                subtask,
                fresh,
                reused,
            } => { self.test_ack(*now, *id, *subtask, fresh, reused) }
            Call::Decline { now, id, subtask } => self.test_decline(*now, *id, *subtask),
            Call::Restore { now, target, .. } => at_place(self.test_restore(*now, *target), None),
            Call::Cancel { now } => at_place(self.test_cancel(*now), None),
            Call::Trigger { now } => at_place(self.test_trigger(*now), None),
            Call::Configure { now, config } => at_place(self.test_configure(*now, config), None),
            Call::Dispose { .. }
            | Call::Show { .. }
            | Call::Take { .. }
            | Call::Deleted { .. }
            | Call::Undeleted { .. }
            | Call::Count { .. } => Ok(None),
        }
    }

    fn test_tick(&self, now: u64) -> Result<(), Refusal>
        ensures { result_err result ≡ refusal (state_of self.now) (Tick now) }
    {
        test_moment(now)?;
        self.test_running()?;
        self.test_next()
    }

    /// Condition: the parts are sound.
    fn test_savepoint(&self, now: u64) -> Result<(), Refusal>
        requires { AreSound self.now }
        ensures { result_err result ≡ refusal (state_of self.now) (Savepoint now) }
    {
        test_moment(now)?;
        self.test_running()?;
        refuse_if(
            self.savepoints() >= MOST_SAVEPOINTS,
            Refusal::TooManySavepoints,
        )?;
        self.test_next()
    }

    /// Condition: the parts are sound.
    fn test_trigger(&self, now: u64) -> Result<(), Refusal>
        requires { AreSound self.now }
        ensures { result_err result ≡ refusal (state_of self.now) (Trigger now) }
    {
        test_moment(now)?;
        self.test_running()?;
        self.test_next()?;
        refuse_if(
            self.pending_checkpoints() >= limit_of(&self.opened.config) as usize,
            Refusal::AtOnce,
        )
    }

    /// Condition: the parts are sound.
    fn test_configure(&self, now: u64, config: &Config) -> Result<(), Refusal>
        requires { AreSound self.now }
        ensures { result_err result ≡ refusal (state_of self.now) (Configure now config.now) }
    {
        test_moment(now)?;
        self.test_not_cancelled()?;
        refuse_if(
            self.pending_checkpoints() > limit_of(config) as usize,
            Refusal::AtOnce,
        )
    }

    /// Tests an acknowledgement, and returns the place of its record if that is pending.
    ///
    /// Condition: the parts are sound.
    fn test_ack(
        &self,
        now: u64,
        id: CheckpointId,
        subtask: SubtaskId,
        fresh: &Files,
        reused: &Files,
    ) -> Result<Option<usize>, Refusal>
        requires { AreSound self.now }
        ensures refused { result_err result ≡ refusal (state_of self.now) (Ack now id subtask fresh.now reused.now) }
        ensures place { IfOk result (IsPlaceOf self.now id) }
    {
        test_moment(now)?;
        test_files(fresh, reused)?;
        self.test_given(id)?;
        let Some(place) = self.pending_place(id) else {
            return Ok(None);
        };
        let pending = self.pending.at(place);
        at_place(self.test_part(pending, subtask, fresh, reused), Some(place))
    }

    /// Tests the acknowledgement of a subtask for a pending record.
    fn test_part(
        &self,
        pending: &Pending,
        subtask: SubtaskId,
        fresh: &Files,
        reused: &Files,
    ) -> Result<(), Refusal>
        ensures { result_err result ≡ part_refusal self.now pending.now subtask fresh.now reused.now }
    {
        test_subtask(pending, subtask)?;
        refuse_if(pending.has(subtask), Refusal::AlreadyAcknowledged)?;
        self.test_fresh(fresh)?;
        self.test_reused(reused)
    }

    /// Tests a decline, and returns the place of its record if that is pending.
    ///
    /// Condition: the parts are sound.
    fn test_decline(
        &self,
        now: u64,
        id: CheckpointId,
        subtask: SubtaskId,
    ) -> Result<Option<usize>, Refusal>
        requires { AreSound self.now }
        ensures refused { result_err result ≡ refusal (state_of self.now) (Decline now id subtask) }
        ensures place { IfOk result (IsPlaceOf self.now id) }
    {
        test_moment(now)?;
        self.test_given(id)?;
        let Some(place) = self.pending_place(id) else {
            return Ok(None);
        };
        at_place(test_subtask(self.pending.at(place), subtask), Some(place))
    }

    /// Condition: the parts are sound.
    fn test_restore(&self, now: u64, target: Target) -> Result<(), Refusal>
        requires { AreSound self.now }
        ensures { (shape : Option (List ℕ)) → result_err result ≡ refusal (state_of self.now) (Restore now target shape) }
    {
        test_moment(now)?;
        self.test_not_cancelled()?;
        match target {
            Target::Latest => Ok(()),
            Target::Savepoint(id) => refuse_if(!self.has_savepoint(id), Refusal::NoSuchSavepoint),
        }
    }

    fn test_cancel(&self, now: u64) -> Result<(), Refusal>
        ensures { result_err result ≡ refusal (state_of self.now) (Cancel now) }
    {
        test_moment(now)?;
        self.test_not_cancelled()
    }

    fn test_running(&self) -> Result<(), Refusal>
        ensures { result_err result ≡ refuse_if (not (is_running self.now.mode)) NotRunning }
    {
        refuse_if(self.mode != Mode::Running, Refusal::NotRunning)
    }

    fn test_not_cancelled(&self) -> Result<(), Refusal>
        ensures { result_err result ≡ refuse_if (is_cancelled self.now.mode) NotRunning }
    {
        refuse_if(self.mode == Mode::Cancelled, Refusal::NotRunning)
    }

    /// Tests that a number is left.
    fn test_next(&self) -> Result<(), Refusal>
        ensures { result_err result ≡ refuse_if (nat_le NUMBERS_END self.now.next) IdsUsedUp }
    {
        refuse_if(self.next >= NUMBERS_END, Refusal::IdsUsedUp)
    }

    /// Tests that a record was given this number.
    fn test_given(&self, id: CheckpointId) -> Result<(), Refusal>
        ensures { result_err result ≡ refuse_if (was_not_given (state_of self.now) id) UnknownCheckpoint }
    {
        let given = self.opened.first <= id.0 && id.0 < self.next;
        refuse_if(!given, Refusal::UnknownCheckpoint)
    }

    /// Tests that no fresh file has a name that is taken.
    fn test_fresh(&self, fresh: &Files) -> Result<(), Refusal>
        ensures { result_err result ≡ named NameTaken (find (is_known_in self.now) fresh.now) }
    {
        match self.first_known(fresh.as_slice()) {
            Some(file) => Err(Refusal::NameTaken(file)),
            None => Ok(()),
        }
    }

    fn first_known(&self, files: &[FileId]) -> Option<FileId>
        ensures { result ≡ find (is_known_in self.now) files.now }
    {
        files.iter().copied().find(|file| self.knows(*file))
    }

    /// Tests that all reused files are there.
    fn test_reused(&self, reused: &Files) -> Result<(), Refusal>
        ensures { result_err result ≡ named FileGone (find (λ f. not (is_present self.now.registry f)) reused.now) }
    {
        match self.first_absent(reused.as_slice()) {
            Some(file) => Err(Refusal::FileGone(file)),
            None => Ok(()),
        }
    }

    fn first_absent(&self, files: &[FileId]) -> Option<FileId>
        ensures { result ≡ find (λ f. not (is_present self.now.registry f)) files.now }
    {
        files
            .iter()
            .copied()
            .find(|file| !self.registry.contains(*file))
    }

    /// The place of the pending record of this number.
    ///
    /// Condition: the parts are sound.
    fn pending_place(&self, id: CheckpointId) -> Option<usize>
        requires { AreSound self.now }
        ensures place { IsPlaceOf self.now id result }
        ensures found { (r : Record) → IfSome result (IsPendingAt self.now id r) }
    {
        self.recall_groups();
        self.pending.place(id)
    }

    /// The pending record of this number.
    ///
    /// Condition: the parts are sound.
    pub(crate) fn pending_record(&self, id: CheckpointId) -> Option<&Pending>
        requires { AreSound self.now }
        ensures { pending_of (records_in self.now) id ≡ option_map (with_pins self.now.registry) (option_copied result) }
    {
        self.recall_groups();
        self.pending.get(id)
    }

    /// Whether there is a completed savepoint of this number.
    ///
    /// Condition: the parts are sound.
    fn has_savepoint(&self, id: CheckpointId) -> bool
        requires { AreSound self.now }
        ensures { result ≡ is_done_savepoint (state_of self.now) id }
    {
        self.recall_groups();
        self.store.has_savepoint(id)
    }

    /// How many checkpoints are pending.
    ///
    /// Condition: the parts are sound.
    fn pending_checkpoints(&self) -> usize
        requires { AreSound self.now }
        ensures { result ≡ pending_checkpoints (state_of self.now) }
    {
        self.recall_groups();
        self.pending.checkpoints()
    }

    /// How many savepoints are pending or done.
    ///
    /// Condition: the parts are sound.
    fn savepoints(&self) -> usize
        requires { AreSound self.now }
        ensures { result ≡ savepoints (state_of self.now) }
    {
        self.recall_groups();
        self.pending.savepoints() + self.store.savepoints() as usize
    }
}
