//! Shares of calls, each made by a thread of its own.
ghost use Rattle.std.specs.Prelude.{◌≡◌, Ok, All, IfOk, map, vec_len};
ghost use Rattle.ckpt_workers.specs.Spreads.{AreTried, AreWorked, IsWorked};

use crate::gate::Gate;
use ckpt_ids::{Answer, Call};
use ckpt_locked::Pass;
use std::alloc::{AllocError, Global};
use std::sync::Wait;
use std::thread;
use std::thread::Threads;

/// The calls of one thread.
#[derive(Drop)]
pub struct Share {
    /// The pass that the thread calls with.
    pub pass: Pass,
    /// The calls, in order.
    pub calls: Vec<Call>,
}

/// The result of a share.
#[derive(Drop)]
pub struct Report {
    /// The pass after the calls.
    pub pass: Pass,
    /// The answers, in the order of the calls.
    pub answers: Vec<Answer>,
}

/// Makes the calls of each share in a thread of its own, in order. Report i is that of share i.
///
/// Shares for which no thread can be started are made in turn. Then calls that wait for each other
/// at a gate may wait forever. Fails only if memory runs out, even in a call, and then the passes
/// are lost.
///
/// Condition: the passes of the shares are of the gate's lock.
pub fn spread<R: Threads + Wait + Sync, G: Gate + Sync>(
    rt: &R,
    alloc: Global,
    gate: &G,
    shares: Vec<Share>,
) -> Result<Vec<Report>, AllocError>
    requires passes { All (λ s. s.pass.lock ≡ G.lock gate.now) shares.items }
    ensures count { IfOk result (λ reports. vec_len reports ≡ vec_len shares) }
    ensures each { IfOk result (λ reports. AreWorked shares.items reports.items) }
{
    let outcomes = work_on_all(rt, alloc, gate, shares)?;
    all_of(alloc, outcomes)
}

/// The result of each share. Each share has a thread of its own.
///
/// Condition: the passes of the shares are of the gate's lock.
fn work_on_all<R: Threads + Wait + Sync, G: Gate + Sync>(
    rt: &R,
    alloc: Global,
    gate: &G,
    shares: Vec<Share>,
) -> Result<Vec<Result<Report, AllocError>>, AllocError>
    requires passes { All (λ s. s.pass.lock ≡ G.lock gate.now) shares.items }
    ensures count { IfOk result (λ outcomes. vec_len outcomes ≡ vec_len shares) }
    ensures each { IfOk result (λ outcomes. AreTried shares.items outcomes.items) }
{
    thread::map_vec(
        rt,
        shares,
        &|share: Share| -> Result<Report, AllocError>
            requires { share.pass.lock ≡ G.lock gate.now }
            ensures { IfOk result (λ r. IsWorked share r) }
        { work(rt, alloc, gate, share) },
    )
}

/// Makes the calls of one share, in order.
///
/// Condition: the pass of the share is of the gate's lock.
fn work<R: Wait, G: Gate>(
    rt: &R,
    alloc: Global,
    gate: &G,
    share: Share,
) -> Result<Report, AllocError>
    requires { share.pass.lock ≡ G.lock gate.now }
    ensures { IfOk result (λ r. IsWorked share r) }
{
    let Share { mut pass, calls } = share;
    let mut answers = Vec::with_capacity(alloc, calls.len())?;
    for call in calls {
        match gate.call(rt, pass, call) {
            Ok((next, answer)) => {
                pass = next;
                answers.push(answer)?;
            }
            Err(_) => return Err(AllocError),
        }
    }
    Ok(Report { pass, answers })
}

/// The reports, if there is one for each share.
fn all_of(
    alloc: Global,
    outcomes: Vec<Result<Report, AllocError>>,
) -> Result<Vec<Report>, AllocError>
    ensures { IfOk result (λ reports. map (λ r. Ok r) reports.items ≡ outcomes.items) }
{
    let mut reports = Vec::with_capacity(alloc, outcomes.len())?;
    for outcome in outcomes {
        reports.push(outcome?)?;
    }
    Ok(reports)
}
