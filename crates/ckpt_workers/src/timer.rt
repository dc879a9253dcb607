//! A timer worker: a tick at each moment.
ghost use Rattle.std.specs.Prelude.{◌≡◌, ◌+◌, not, if◌then◌else◌, is_some};
ghost use Rattle.ckpt_workers.specs.Shifts.{capped};
ghost use Rattle.ckpt_workers.specs.Timers.{IsTimed, is_refused};

use crate::ask::ask;
use crate::gate::Gate;
use crate::moments::Moments;
use ckpt_ids::{Answer, Call};
use ckpt_locked::Pass;
use std::sync::Wait;

/// How the ticks of a timer went. A count that reaches 2^64 - 1 stays there.
#[derive(Clone, Copy, Debug, PartialEq, Eq)]
pub struct TimerTally {
    /// Ticks that were answered, refused ones included.
    pub ticks: u64,
    /// Refused ticks.
    pub refused: u64,
    /// Ticks that ran out of memory.
    pub unanswered: u64,
}

impl TimerTally {
    fn none() -> TimerTally
        ensures { result ≡ record { ticks = 0; refused = 0; unanswered = 0 } }
    {
        TimerTally {
            ticks: 0,
            refused: 0,
            unanswered: 0,
        }
    }

    /// Counts one more tick.
    fn count(&mut self, answer: Option<Answer>)
        ensures ticks { self.new.ticks ≡ (if is_some answer then capped (self.old.ticks + 1) else self.old.ticks) }
        ensures refused { self.new.refused ≡ (if is_refused answer then capped (self.old.refused + 1) else self.old.refused) }
        ensures unanswered { self.new.unanswered ≡ (if not (is_some answer) then capped (self.old.unanswered + 1) else self.old.unanswered) }
    {
        match answer {
            Some(Answer::Done(_)) => self.ticks = self.ticks.saturating_add(1),
            Some(Answer::Refused(_)) => {
                self.ticks = self.ticks.saturating_add(1);
                self.refused = self.refused.saturating_add(1);
            }
            None => self.unanswered = self.unanswered.saturating_add(1),
        }
    }
}

/// Makes a `Tick` at each moment that `moments` returns, in order, until it returns none.
///
/// A tick that runs out of memory is counted. Then the worker waits for the next moment.
///
/// Condition: the pass is of the gate's lock.
pub fn timer_worker<R: Wait, G: Gate, M: Moments>(
    rt: &R,
    gate: &G,
    mut pass: Pass,
    moments: &mut M,
) -> (Pass, TimerTally)
    requires pass { pass.lock ≡ G.lock gate.now }
    ensures timed { IsTimed (M.given moments.old) (M.given moments.new) pass result.0 result.1 }
    ensures all { M.left moments.new ≡ 0 }
{
    let mut tally = TimerTally::none();
    while let Some(now) = moments.next() {
        let (next, answer) = ask(rt, gate, pass, Call::Tick { now });
        pass = next;
        tally.count(answer);
    }
    (pass, tally)
}
