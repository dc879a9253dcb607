//! A discarder: rounds that delete the files that the coordinator hands out.
ghost use Rattle.std.specs.Prelude.{◌≡◌, ◌≢◌, ◌+◌, ◌^◌, ◌<◌, if◌then◌else◌, [], false, true, Option, Some, length, slice_get};
ghost use Rattle.std.specs.Bool.{OnFalse, OnTrue};
ghost use Rattle.ckpt_ids.specs.declared.reply.Answer.{Answer};
ghost use Rattle.ckpt_locked.specs.Locks.{Made};
ghost use Rattle.ckpt_workers.specs.Rounds.{IsDiscarded, IsEnded, IsReported, IsTried, nothing_taken, report_of, taken_in};

use crate::ask::ask;
use crate::gate::Gate;
use crate::storage::Storage;
use ckpt_ids::{Answer, Call, FileId, Handed, Reply};
use ckpt_locked::Pass;
use std::alloc::Global;
use std::sync::Wait;

/// How a round of the discarder went.
#[derive(Debug, Drop, PartialEq, Eq)]
pub struct Round {
    /// How many files it had to delete.
    pub taken: u64,
    /// How many of them were deleted and reported as deleted.
    pub deleted: u64,
    /// How many of them storage could not delete, and were reported as not deleted.
    pub failed: u64,
    /// The files that are not reported, if a call ran out of memory.
    pub left: Handed,
    /// Whether storage has deleted the first file of `left`.
    pub gone: bool,
    /// Whether the round ended because memory ran out.
    pub memory: bool,
}

/// Takes at most `most` files that wait for deletion, deletes them, and reports each.
///
/// A report is `Deleted` if storage deleted the file, and `Undeleted` if it failed. The first call
/// that runs out of memory ends the round. [`resume_round`] goes on with the files that are left.
///
/// Condition: the pass is of the gate's lock.
pub fn discard_round<R: Wait, G: Gate, S: Storage>(
    rt: &R,
    alloc: Global,
    gate: &G,
    pass: Pass,
    storage: &mut S,
    most: u64,
) -> (Pass, Round)
    requires pass { pass.lock ≡ G.lock gate.now }
    ensures round { (answer : Option Answer) × IsDiscarded most (S.stored storage.old) (S.stored storage.new) pass result.0 result.1 answer }
    ensures ended { IsEnded result.1 }
{
    let (pass, answer) = ask(rt, gate, pass, Call::Take { most });
    match answer {
        Some(answer) => report_each(rt, gate, pass, storage, taken_by(alloc, answer), false),
        None => (pass, nothing_taken(alloc)),
    }
}

/// Goes on with a round that ran out of memory: `left` and `gone` are those of that round.
///
/// It takes no more files. If storage has deleted the first file of `left` already, that file is
/// reported as `Deleted` and not deleted again. The other files are handled as in
/// [`discard_round`].
///
/// Conditions: the pass is of the gate's lock, and if `gone` is set, there is a first file.
pub fn resume_round<R: Wait, G: Gate, S: Storage>(
    rt: &R,
    gate: &G,
    pass: Pass,
    storage: &mut S,
    left: Handed,
    gone: bool,
) -> (Pass, Round)
    requires pass { pass.lock ≡ G.lock gate.now }
    requires gone { gone ≡ true → left ≢ [] }
    ensures reported { IsReported left gone (S.stored storage.old) (S.stored storage.new) pass result.0 result.1 }
    ensures ended { IsEnded result.1 }
{
    report_each(rt, gate, pass, storage, left, gone)
}

/// Deletes and reports each of the files. The first one may be gone already.
///
/// Conditions: the pass is of the gate's lock, and if `gone` is set, there is a first file.
fn report_each<R: Wait, G: Gate, S: Storage>(
    rt: &R,
    gate: &G,
    mut pass: Pass,
    storage: &mut S,
    files: Handed,
    mut gone: bool,
) -> (Pass, Round)
    requires pass { pass.lock ≡ G.lock gate.now }
    requires gone { gone ≡ true → files ≢ [] }
    ensures reported { IsReported files gone (S.stored storage.old) (S.stored storage.new) pass result.0 result.1 }
    ensures ended { IsEnded result.1 }
{
    let count = files.len();
    let mut counts = Counts {
        deleted: 0,
        failed: 0,
    };
    for place in 0..count {
        let file = file_at(&files, place);
        let deleted = try_delete(storage, file, gone);
        let (next, answered) = report(rt, gate, pass, file, deleted);
        if !answered {
            return (next, counts.round(count, files.rest(place), deleted, true));
        }
        pass = next;
        gone = false;
        counts.add(deleted);
    }
    (pass, counts.round(count, files.rest(count), gone, false))
}

/// How many files were reported as deleted, and as not deleted.
#[derive(Clone, Copy)]
struct Counts {
    deleted: u64,
    failed: u64,
}

impl Counts {
    /// Condition: both counts are below 2^64 - 1.
    fn add(&mut self, deleted: bool)
        requires deleted { self.old.deleted + 1 < 2 ^ 64 }
        requires failed { self.old.failed + 1 < 2 ^ 64 }
        ensures deleted { self.new.deleted ≡ self.old.deleted + (if deleted then 1 else 0) }
        ensures failed { self.new.failed ≡ self.old.failed + (if deleted then 0 else 1) }
    {
        if deleted {
            self.deleted += 1;
        } else {
            self.failed += 1;
        }
    }

    fn round(self, taken: usize, left: Handed, gone: bool, memory: bool) -> Round
        ensures { result ≡ record { taken = taken; deleted = self.deleted; failed = self.failed; left = left; gone = gone; memory = memory } }
    {
        Round {
            taken: taken as u64,
            deleted: self.deleted,
            failed: self.failed,
            left,
            gone,
            memory,
        }
    }
}

/// The file at this place.
///
/// Condition: there is one.
fn file_at(files: &Handed, place: usize) -> FileId
    requires { place < length files.now }
    ensures { slice_get files.now place ≡ Some result }
{
    let Some(file) = files.get(place) else {
        unreachable!()
    };
    file
}

/// Deletes the file, unless it is gone, and returns whether it is deleted.
fn try_delete<S: Storage>(storage: &mut S, file: FileId, gone: bool) -> bool
    ensures { IsTried file gone (S.stored storage.old) (S.stored storage.new) result }
{
    gone || storage.delete(file).is_ok()
}

/// Reports the file, and returns whether the report was answered.
///
/// Condition: the pass is of the gate's lock.
fn report<R: Wait, G: Gate>(
    rt: &R,
    gate: &G,
    pass: Pass,
    file: FileId,
    deleted: bool,
) -> (Pass, bool)
    requires pass { pass.lock ≡ G.lock gate.now }
    ensures answered { OnTrue result.1 ((answer : Answer) × Made pass (report_of file deleted) result.0 answer) }
    ensures unanswered { OnFalse result.1 (result.0 ≡ pass) }
{
    let call = if deleted {
        Call::Deleted { file }
    } else {
        Call::Undeleted { file }
    };
    match gate.call(rt, pass, call) {
        Ok((pass, _answer)) => (pass, true),
        Err((pass, _call)) => (pass, false),
    }
}

/// The files that a take returned.
fn taken_by(alloc: Global, answer: Answer) -> Handed
    ensures { result ≡ taken_in answer }
{
    match answer {
        Answer::Done(Reply::Taken(files)) => files,
        _ => Handed::of(Vec::new(alloc)),
    }
}

/// A round whose take ran out of memory.
fn nothing_taken(alloc: Global) -> Round
    ensures { result ≡ nothing_taken }
{
    Round {
        taken: 0,
        deleted: 0,
        failed: 0,
        left: Handed::of(Vec::new(alloc)),
        gone: false,
        memory: true,
    }
}
