//! When the next checkpoint may start.

ghost use Rattle.std.specs.Prelude.{◌≡◌, ◌+◌, ◌*◌, ◌<◌, max, min, Some, None};
ghost use Rattle.ckpt_ids.specs.declared.limits.TheConstants.{LONGEST_DURATION, MOMENTS_END};
ghost use Rattle.ckpt_rules.specs.Moments.{Moments, IsInRange};
ghost use Rattle.ckpt_rules.specs.Trigger.{gap, limit, hold, pause_ends};

use crate::hold::Hold;
use ckpt_ids::Config;
use std::marker::Model;

/// The moments that decide when the next checkpoint may start, in milliseconds.
///
/// The caller passes moments below [`MOMENTS_END`](ckpt_ids::MOMENTS_END). No call takes memory.
#[derive(Clone, Copy, Debug, PartialEq, Eq)]
pub struct Clock {
    latest: u64,
    due: u64,
    completed: Option<u64>,
}

impl Model for Clock {
    ghost use Rattle.ckpt_rules.specs.Moments.{Moments, IsInRange};

    ghost Value = { Moments };

    ghost view = { λ c. record { latest = c.latest; due = c.due; completed = c.completed } };

    ghost invariant = { λ c. IsInRange (record { latest = c.latest; due = c.due; completed = c.completed }) };

    ghost inverse = { λ m. record { latest = m.latest; due = m.due; completed = m.completed } };
}

/// Milliseconds from one trigger to the next: the greater of the interval and the pause.
fn gap_of(config: &Config) -> u64
    ensures value { result ≡ gap config.now }
    ensures limit { result < 2 * LONGEST_DURATION }
{
    config.interval().max(config.pause())
}

/// How many checkpoints may be pending at once: only one if there is a pause between them.
pub fn limit_of(config: &Config) -> u32
    ensures { result ≡ limit config.now }
{
    if config.pause() > 0 {
        1
    } else {
        config.at_once()
    }
}

impl Clock {
    /// The clock of a job that starts at this moment, without a completed checkpoint.
    ///
    /// Condition: the moment is below 2^62.
    pub fn new(config: &Config, start: u64) -> Clock
        requires { start < MOMENTS_END }
        ensures { result ≡ record { latest = start; due = start + gap config.now; completed = None } }
    {
        Clock {
            latest: start,
            due: start + gap_of(config),
            completed: None,
        }
    }

    /// A clock with these moments: the greatest one seen, the one before which no checkpoint
    /// starts, and the last completion since the job was started, if there was one.
    ///
    /// Condition: each is within its limit, so that a sum with a duration fits 64 bits.
    pub fn of(latest: u64, due: u64, completed: Option<u64>) -> Clock
        requires { IsInRange (record { latest = latest; due = due; completed = completed }) }
        ensures { result ≡ record { latest = latest; due = due; completed = completed } }
    {
        Clock {
            latest,
            due,
            completed,
        }
    }

    /// The greatest moment seen.
    pub fn latest(&self) -> u64
        ensures value { result ≡ self.now.latest }
        ensures moments { IsInRange self.now }
    {
        self.latest
    }

    /// The moment from which the interval no longer holds a checkpoint back.
    pub fn interval_ends(&self) -> u64
        ensures { result ≡ self.now.due }
    {
        self.due
    }

    /// The moment of the last completed checkpoint since the job was started, or `None` if none
    /// has completed.
    pub fn last_completion(&self) -> Option<u64>
        ensures { result ≡ self.now.completed }
    {
        self.completed
    }

    /// The greater of `now` and the greatest moment seen.
    ///
    /// Condition: the moment is below 2^62.
    pub fn read(&self, now: u64) -> u64
        requires { now < MOMENTS_END }
        ensures value { result ≡ max now self.now.latest }
        ensures limit { result < MOMENTS_END }
        ensures moments { IsInRange self.now }
    {
        self.latest.max(now)
    }

    /// Records this moment. The clock keeps the greatest one.
    ///
    /// Condition: the moment is below 2^62.
    pub fn see(&mut self, now: u64)
        requires { now < MOMENTS_END }
        ensures { self.new ≡ record self.old { latest = max now self.old.latest } }
    {
        self.latest = self.latest.max(now);
    }

    /// Whether a checkpoint may start `now`, while `pending` checkpoints are pending.
    ///
    /// Source of the rule: the Flink documentation, "Configuration", and this project, as
    /// `specs/Trigger.antt` says.
    ///
    /// Condition: the moment is below 2^62.
    pub fn held(&self, config: &Config, now: u64, pending: u32) -> Hold
        requires { now < MOMENTS_END }
        ensures { result ≡ hold config.now self.now.due self.now.completed now pending }
    {
        if now < self.due {
            return Hold::Interval;
        }
        if pending >= limit_of(config) {
            return Hold::AtOnce;
        }
        match self.completed {
            Some(completed) if now < completed + config.pause() => Hold::Pause,
            _ => Hold::Go,
        }
    }

    /// The moment from which neither the interval nor the pause holds a checkpoint back.
    pub fn due(&self, config: &Config) -> u64
        ensures { result ≡ max self.now.due (pause_ends config.now self.now.completed) }
    {
        match self.completed {
            Some(completed) => self.due.max(completed + config.pause()),
            None => self.due,
        }
    }

    /// A checkpoint was triggered `now`. The next is due after the interval, or the pause if that
    /// is longer.
    ///
    /// Condition: the moment is below 2^62.
    pub fn triggered(&mut self, config: &Config, now: u64)
        requires { now < MOMENTS_END }
        ensures { self.new ≡ record self.old { due = now + gap config.now } }
    {
        self.due = now + gap_of(config);
    }

    /// The job is configured anew `now`. The next checkpoint is due when it was, and at the latest as
    /// after a trigger now.
    ///
    /// Condition: the moment is below 2^62.
    pub fn configured(&mut self, config: &Config, now: u64)
        requires { now < MOMENTS_END }
        ensures { self.new ≡ record self.old { due = min self.old.due (now + gap config.now) } }
    {
        self.due = self.due.min(now + gap_of(config));
    }

    /// A checkpoint completed `now`: the pause begins.
    ///
    /// Condition: the moment is below 2^62.
    pub fn completed(&mut self, now: u64)
        requires { now < MOMENTS_END }
        ensures { self.new ≡ record self.old { completed = Some now } }
    {
        self.completed = Some(now);
    }

    /// The job was restarted `now`. The next checkpoint is due as after a trigger, and there is no
    /// last completion.
    ///
    /// Condition: the moment is below 2^62.
    pub fn restarted(&mut self, config: &Config, now: u64)
        requires { now < MOMENTS_END }
        ensures { self.new ≡ record self.old { due = now + gap config.now; completed = None } }
    {
        self.triggered(config, now);
        self.completed = None;
    }
}
