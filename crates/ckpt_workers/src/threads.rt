//! A team with a thread for each seat.
ghost use Rattle.std.specs.Prelude.{◌≡◌, ◌<◌, ◌≤◌, ◌++◌, [], ◌∷◌, length, map, All, IfOk, OnOk};
ghost use Rattle.ckpt_ids.specs.declared.reply.Answer.{Answer};
ghost use Rattle.ckpt_locked.specs.Locks.{newcomers, lock_of};
ghost use Rattle.ckpt_workers.specs.Deals.{IsDeal, IsDealOf, IsTallied};

use crate::shares::{Report, Share, spread};
use crate::team::{Made, Team};
use ckpt_ids::{Answer, Call};
use ckpt_locked::{Book, Locked, MOST_SEATS, Pass};
use std::alloc::{AllocError, Global};
use std::marker::PhantomData;
use std::sync::Wait;
use std::thread;

/// Makes each seat's calls in a thread of its own, over a lock with a seat for each thread.
///
/// If a thread can't be started, its calls are made in turn with those of others.
#[derive(Clone, Copy)]
pub struct Threads<R> {
    rt: R,
    alloc: Global,
}

/// The permission of a runtime to start threads and to wait, without the runtime: threads share it.
#[derive(Drop)]
struct Leave<R> {
    runtime: PhantomData<R>,
}

impl<R: thread::Threads> thread::Threads for Leave<R> {}

impl<R: Wait> Wait for Leave<R> {}

impl<R: thread::Threads + Wait + Sync> Threads<R> {
    /// A team that starts its threads with `rt`, and takes memory from `alloc`.
    pub fn new(rt: R, alloc: Global) -> Threads<R> {
        Threads { rt, alloc }
    }
}

impl<R: thread::Threads + Wait + Sync> Team for Threads<R> {
    fn make(&mut self, book: Book, calls: Vec<Call>, threads: u32) -> Result<Made, AllocError> {
        let leave = Leave::<R> {
            runtime: PhantomData,
        };
        let count = calls.len();
        let (lock, passes) = lock_over(&self.rt, book, threads)?;
        let shares = deal(self.alloc, calls, passes)?;
        let reports = spread(&leave, self.alloc, &lock, shares)?;
        let (passes, answers) = parted(self.alloc, reports)?;
        let Ok(book) = lock.close(&self.rt, passes) else {
            unreachable!()
        };
        Ok(counted(book, &answers, count))
    }
}

/// A lock over the book with this many seats. Fails only if memory runs out.
///
/// Condition: there are 1 to [`MOST_SEATS`] seats.
fn lock_over<R: Wait>(rt: &R, book: Book, seats: u32) -> Result<(Locked, Vec<Pass>), AllocError>
    requires seats { (0 < seats) × (seats ≤ MOST_SEATS) }
    ensures lock { IfOk result (λ made. made.0 ≡ lock_of book seats made.0.table_id) }
    ensures passes { IfOk result (λ made. made.1.items ≡ newcomers made.0 seats) }
{
    match Locked::new(rt, book, seats) {
        Ok(made) => Ok(made),
        Err(_) => Err(AllocError),
    }
}

/// A share for each pass, with no calls.
fn without_calls(alloc: Global, passes: Vec<Pass>) -> Result<Vec<Share>, AllocError>
    ensures passes { IfOk result (λ shares. map (λ s. s.pass) shares.items ≡ passes.items) }
    ensures calls { IfOk result (λ shares. All (λ s. s.calls.items ≡ []) shares.items) }
{
    let mut shares = Vec::with_capacity(alloc, passes.len())?;
    for pass in passes {
        let calls = Vec::new(alloc);
        shares.push(Share { pass, calls })?;
    }
    Ok(shares)
}

/// Adds a call to a share.
fn give(share: &mut Share, call: Call) -> Result<(), AllocError>
    ensures pass { OnOk result (share.new.pass ≡ share.old.pass) }
    ensures calls { OnOk result (share.new.calls.items ≡ share.old.calls.items ++ call ∷ []) }
{
    share.calls.push(call)?;
    Ok(())
}

/// A share for each pass. The calls are dealt out to them in turn.
///
/// Condition: there is a pass.
fn deal(alloc: Global, calls: Vec<Call>, passes: Vec<Pass>) -> Result<Vec<Share>, AllocError>
    requires some { 0 < length passes.items }
    ensures passes { IfOk result (λ shares. map (λ s. s.pass) shares.items ≡ passes.items) }
    ensures calls { IfOk result (λ shares. IsDeal (map (λ s. s.calls.items) shares.items) calls.items) }
{
    let mut shares = without_calls(alloc, passes)?;
    let mut place = 0;
    for call in calls {
        let seat = place % shares.len();
        give(&mut shares[seat], call)?;
        place += 1;
    }
    Ok(shares)
}

/// The passes of the reports, and their answers.
fn parted(alloc: Global, reports: Vec<Report>) -> Result<(Vec<Pass>, Vec<Vec<Answer>>), AllocError>
    ensures passes { IfOk result (λ parts. parts.0.items ≡ map (λ r. r.pass) reports.items) }
    ensures answers { IfOk result (λ parts. parts.1.items ≡ map (λ r. r.answers) reports.items) }
{
    let mut passes = Vec::with_capacity(alloc, reports.len())?;
    let mut answers = Vec::with_capacity(alloc, reports.len())?;
    for report in reports {
        passes.push(report.pass)?;
        answers.push(report.answers)?;
    }
    Ok((passes, answers))
}

/// Counts the answers of all seats in the order of the calls.
///
/// Conditions: there is a seat, and each has as many answers as it had calls.
fn counted(book: Book, answers: &[Vec<Answer>], count: usize) -> Made
    requires some { 0 < length answers.now }
    requires dealt { IsDealOf (map (λ a. a.items) answers.now) count }
    ensures book { result.book ≡ book }
    ensures tallied { IsTallied (map (λ a. a.items) answers.now) count result }
{
    let mut made = Made::none(book);
    for place in 0..count {
        made.count(&answers[place % answers.len()][place / answers.len()]);
    }
    made
}
