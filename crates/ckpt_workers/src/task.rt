//! A task worker: makes the acknowledgements of its orders.
ghost use Rattle.std.specs.Prelude.{◌≡◌, ◌+◌, if◌then◌else◌};
ghost use Rattle.ckpt_workers.specs.Shifts.{capped};
ghost use Rattle.ckpt_workers.specs.Tasks.{IsTasked, answers, is_late, is_other, is_taken_in};

use crate::ask::ask;
use crate::gate::Gate;
use crate::order::Order;
use ckpt_ids::{Answer, Reply};
use ckpt_locked::Pass;
use crossbeam_channel::Receiver;
use std::sync::Wait;

/// How the acknowledgements of a task went. A count that reaches 2^64 - 1 stays there.
#[derive(Clone, Copy, Debug, PartialEq, Eq)]
pub struct Tally {
    /// Accepted acknowledgements of a pending record.
    pub accepted: u64,
    /// Accepted acknowledgements of a record that had ended.
    pub late: u64,
    /// Refused acknowledgements.
    pub refused: u64,
    /// Acknowledgements that ran out of memory.
    pub unanswered: u64,
}

impl Tally {
    fn none() -> Tally
        ensures { result ≡ record { accepted = 0; late = 0; refused = 0; unanswered = 0 } }
    {
        Tally {
            accepted: 0,
            late: 0,
            refused: 0,
            unanswered: 0,
        }
    }

    /// Counts one more acknowledgement.
    fn count(&mut self, answer: Option<Answer>)
        ensures accepted { self.new.accepted ≡ (if answers is_taken_in answer then capped (self.old.accepted + 1) else self.old.accepted) }
        ensures late { self.new.late ≡ (if answers is_late answer then capped (self.old.late + 1) else self.old.late) }
        ensures refused { self.new.refused ≡ (if answers is_other answer then capped (self.old.refused + 1) else self.old.refused) }
    {
        match answer {
            Some(Answer::Done(Reply::AckPending(_) | Reply::AckCompleted { .. })) => {
                self.accepted = self.accepted.saturating_add(1);
            }
            Some(Answer::Done(Reply::AckLate(_))) => self.late = self.late.saturating_add(1),
            Some(_) => self.refused = self.refused.saturating_add(1),
            None => self.unanswered = self.unanswered.saturating_add(1),
        }
    }
}

/// Makes an `Ack` of each order that comes, until the channel is closed and empty.
///
/// An acknowledgement that runs out of memory is counted and not tried again. No clause says which
/// orders come.
///
/// Condition: the pass is of the gate's lock.
pub fn task_worker<R: Wait, G: Gate>(
    rt: &R,
    gate: &G,
    mut pass: Pass,
    orders: Receiver<Order>,
) -> (Pass, Tally)
    requires pass { pass.lock ≡ G.lock gate.now }
    ensures { IsTasked pass result.0 result.1 }
{
    let mut tally = Tally::none();
    for _ in rt.forever() {
        let Ok(order) = orders.recv(rt) else {
            return (pass, tally);
        };
        let (next, answer) = ask(rt, gate, pass, order.into_call());
        pass = next;
        tally.count(answer);
    }
    unreachable!()
}
