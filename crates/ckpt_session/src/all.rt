//! The `all` line: each missing subtask of a pending record acknowledges, with one new file each.
ghost use Rattle.std.specs.Prelude.{◌≡◌, ◌≤◌, ◌<◌, ◌^◌, ◌+◌, Some, length, IfOk, OnOk};
ghost use Rattle.std.specs.List.{list_any};
ghost use Rattle.ckpt_ids.specs.Shapes.{same_subtask};
ghost use Rattle.ckpt_model.specs.Soundness.{IsSound};
ghost use Rattle.ckpt_locked.specs.Books.{state_of_book};
ghost use Rattle.ckpt_answers.specs.MetadataTexts.{missing_subtasks};
ghost use Rattle.ckpt_session.specs.AllLines.{ack_with, missing_now, pending_metadata, shown_pending, acks_for, outcome_of_made, all_of, all_obeyed};
ghost use Rattle.ckpt_session.specs.Seating.{Asks, EntersAll};

use crate::outcome::{AllEnd, Outcome, ScriptRefusal};
use ckpt_ids::{Acks, Answer, Call, CheckpointId, FileId, Files, Metadata, Reply, SubtaskId};
use ckpt_locked::{Book, MOST_SEATS};
use ckpt_workers::{Made, Team};
use std::alloc::{AllocError, Global};

/// The seat of the calls that a line makes itself. No lock gives this seat, and no thread of an
/// `all` line has it.
pub(crate) const LINE_SEAT: u32 = MOST_SEATS;

/// How many threads an `all` line may have: each has a seat.
const MOST_THREADS: u64 = MOST_SEATS as u64;

/// An `all` line: each missing subtask of the pending record `id` acknowledges at `moment`, in
/// milliseconds, with one new file each, numbered from `first` on. The calls are shared out to
/// `threads` threads.
#[derive(Clone, Copy, Debug)]
pub(crate) struct AllLine {
    pub(crate) moment: u64,
    pub(crate) id: CheckpointId,
    pub(crate) threads: u64,
    pub(crate) first: u64,
}

impl AllLine {
    /// Runs the line over a book, and returns the book and the line's outcome.
    ///
    /// Fails only if memory runs out, and then the book is lost.
    #[tactic(auto, using(crate::proofs::SeatingLemmas::all_none, crate::proofs::SeatingLemmas::all_asked), unfolding(crate::specs::AllLines::all_obeyed, crate::specs::AllLines::all_of))]
    pub(crate) fn obey<T: Team>(
        &self,
        alloc: Global,
        mut book: Book,
        team: &mut T,
    ) -> Result<(Book, Outcome), AllocError>
        ensures said { IfOk result (λ said. (state_of_book said.0, said.1) ≡ all_obeyed (state_of_book book) self.now) }
        ensures entered { IfOk result (λ said. EntersAll book.entries said.0.entries self.now.id self.now.threads) }
    {
        if self.threads < 1 || MOST_THREADS < self.threads {
            return Ok((book, Outcome::Refused(ScriptRefusal::BadThreads)));
        }
        match pending_metadata(&mut book, self.id)? {
            Some(metadata) => self.acknowledge(alloc, book, &metadata, team),
            None => Ok((book, Outcome::Refused(ScriptRefusal::NotPending))),
        }
    }

    /// Has the missing subtasks of the record acknowledge, unless a file would be above 2^64 - 1.
    ///
    /// Conditions: the line has 1 to [`MOST_SEATS`] threads, and its record is pending and has this
    /// metadata.
    #[tactic(auto, using(crate::proofs::SeatingLemmas::all_none), unfolding(crate::specs::AllLines::all_of))]
    fn acknowledge<T: Team>(
        &self,
        alloc: Global,
        book: Book,
        metadata: &Metadata,
        team: &mut T,
    ) -> Result<(Book, Outcome), AllocError>
        requires threads { (1 ≤ self.now.threads) × (self.now.threads ≤ MOST_SEATS) }
        requires pending { pending_metadata (state_of_book book) self.now.id ≡ Some metadata.now }
        ensures said { IfOk result (λ said. (state_of_book said.0, said.1) ≡ all_of (state_of_book book) self.now (Some metadata.now)) }
        ensures entered { IfOk result (λ said. EntersAll book.entries said.0.entries self.now.id self.now.threads) }
    {
        let missing = missing_subtasks(alloc, metadata)?;
        let last = (missing.len() as u64).saturating_sub(1);
        if u64::MAX - self.first < last {
            return Ok((book, Outcome::Refused(ScriptRefusal::FilesUsedUp)));
        }
        // In a sound state the calls have the same outcome in every order.
        recall_sound(&book);
        let acks = self.acks(alloc, &missing)?;
        let mut made = team.make(book, acks, self.threads as u32)?;
        let outcome = self.tell(alloc, &mut made)?;
        Ok((made.book, outcome))
    }

    /// The acknowledgements of these subtasks, in their order.
    ///
    /// Condition: no file is above 2^64 - 1.
    fn acks(&self, alloc: Global, missing: &[SubtaskId]) -> Result<Vec<Call>, AllocError>
        requires files { self.now.first + length missing.now ≤ 2 ^ 64 }
        ensures { IfOk result (λ acks. acks.items ≡ acks_for self.now missing.now) }
    {
        let mut acks = Vec::new(alloc);
        let mut place = 0;
        for subtask in missing {
            acks.push(self.ack(alloc, place, *subtask)?)?;
            place += 1;
        }
        Ok(acks)
    }

    /// The acknowledgement of the subtask at this place.
    ///
    /// Condition: its file is not above 2^64 - 1.
    fn ack(&self, alloc: Global, place: u64, subtask: SubtaskId) -> Result<Call, AllocError>
        requires file { self.now.first + place < 2 ^ 64 }
        ensures { IfOk result (λ ack. ack ≡ ack_with self.now.moment self.now.id (record { subtask = subtask; file = self.now.first + place })) }
    {
        let mut fresh = Vec::with_capacity(alloc, 1)?;
        fresh.push(FileId(self.first + place))?;
        Ok(Call::Ack {
            now: self.moment,
            id: self.id,
            subtask,
            fresh: Files::of(fresh),
            reused: Files::of(Vec::new(alloc)),
        })
    }

    /// The outcome of the calls. If the record is still pending, asks for it once more.
    #[tactic(auto, using(crate::proofs::SeatingLemmas::asks_none), unfolding(crate::specs::AllLines::outcome_of))]
    fn tell(&self, alloc: Global, made: &mut Made) -> Result<Outcome, AllocError>
        ensures state { OnOk result (state_of_book made.new.book ≡ state_of_book made.old.book) }
        ensures outcome { IfOk result (λ outcome. outcome ≡ outcome_of_made self.now made.old) }
        ensures entered { OnOk result (Asks made.old.book.entries made.new.book.entries self.now.id) }
    {
        let end = match made.completed {
            Some((dropped, released)) => AllEnd::Completed { dropped, released },
            None => {
                let missing = missing_now(alloc, &mut made.book, self.id)?;
                AllEnd::Pending { missing }
            }
        };
        Ok(Outcome::Acknowledged {
            accepted: made.accepted,
            refused: made.refused,
            end,
        })
    }
}

/// Does nothing. Its contract says that the state is sound.
fn recall_sound(book: &Book)
    ensures { IsSound (state_of_book book.now) }
{
    let _ = book.core();
}

/// The metadata of the record with this number, if it is pending. Asks for it by a call.
fn pending_metadata(book: &mut Book, id: CheckpointId) -> Result<Option<Metadata>, AllocError>
    ensures state { OnOk result (state_of_book book.new ≡ state_of_book book.old) }
    ensures value { IfOk result (λ metadata. metadata ≡ pending_metadata (state_of_book book.old) id) }
    ensures entered { OnOk result (Asks book.old.entries book.new.entries id) }
{
    // In a sound state a number has one record.
    recall_sound(book);
    match book.apply(LINE_SEAT, Call::Show { id }) {
        Ok(answer) => Ok(pending(answer)),
        Err(_) => Err(AllocError),
    }
}

/// The metadata, if the answer shows a pending record.
#[tactic(auto, unfolding(crate::specs::AllLines::shown_pending))]
fn pending(answer: Answer) -> Option<Metadata>
    ensures { result ≡ shown_pending answer }
{
    match answer {
        Answer::Done(Reply::Shown(metadata)) if !metadata.done => Some(metadata),
        _ => None,
    }
}

/// How many subtasks of the record are missing, if it is pending.
fn missing_now(alloc: Global, book: &mut Book, id: CheckpointId) -> Result<u64, AllocError>
    ensures state { OnOk result (state_of_book book.new ≡ state_of_book book.old) }
    ensures value { IfOk result (λ missing. missing ≡ missing_now (state_of_book book.old) id) }
    ensures entered { OnOk result (Asks book.old.entries book.new.entries id) }
{
    match pending_metadata(book, id)? {
        Some(metadata) => Ok(missing_subtasks(alloc, &metadata)?.len() as u64),
        None => Ok(0),
    }
}

/// The subtasks that have not acknowledged, in subtask order.
#[tactic(auto, unfolding(ckpt_answers::specs::MetadataTexts::missing_subtasks))]
fn missing_subtasks(alloc: Global, metadata: &Metadata) -> Result<Vec<SubtaskId>, AllocError>
    ensures { IfOk result (λ missing. missing.items ≡ missing_subtasks metadata.now) }
{
    let mut missing = Vec::new(alloc);
    for place in 0..metadata.shape.size() {
        if let Some(subtask) = metadata.shape.nth(place) {
            if !has_acknowledged(&metadata.acks, subtask) {
                missing.push(subtask)?;
            }
        }
    }
    Ok(missing)
}

/// Whether the subtask has acknowledged. Makes a binary search.
fn has_acknowledged(acks: &Acks, subtask: SubtaskId) -> bool
    ensures { result ≡ list_any (λ a. same_subtask subtask a.subtask) acks.now }
{
    acks.as_slice()
        .binary_search_by_key(&subtask, |acked| acked.subtask)
        .is_ok()
}
