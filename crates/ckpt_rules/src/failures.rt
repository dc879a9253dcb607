//! How many failures in a row a job tolerates.

ghost use Rattle.std.specs.Prelude.{◌≡◌, ◌+◌, ◌<◌, ◌^◌, ◌↔◌, min, IsTrue};
ghost use Rattle.ckpt_rules.specs.FailureCount.{FailureCount};

use std::marker::Model;

/// How many checkpoints have failed in a row, and how many a job tolerates.
///
/// Source of the rule: the Flink documentation, "Configuration",
/// `execution.checkpointing.tolerable-failed-checkpoints`. No call takes memory.
#[derive(Clone, Copy, Debug, PartialEq, Eq)]
pub struct Failures {
    tolerable: u32,
    number: u32,
}

impl Model for Failures {
    ghost use Rattle.ckpt_rules.specs.FailureCount.{FailureCount};

    ghost Value = { FailureCount };

    ghost view = { λ f. record { tolerable = f.tolerable; number = f.number } };

    ghost inverse = { λ f. record { tolerable = f.tolerable; number = f.number } };
}

impl Failures {
    /// No failures yet. The job tolerates this many in a row.
    pub fn new(tolerable: u32) -> Failures
        ensures { result ≡ record { tolerable = tolerable; number = 0 } }
    {
        Failures {
            tolerable,
            number: 0,
        }
    }

    /// Adds `more` failures. Returns whether there are now more than the job tolerates.
    ///
    /// Condition: the new number of failures fits a `u32`.
    pub fn add(&mut self, more: u32) -> bool
        requires { self.old.number + more < 2 ^ 32 }
        ensures number { self.new ≡ record self.old { number = self.old.number + more } }
        ensures intolerable { IsTrue result ↔ (self.new.tolerable < self.new.number) }
    {
        self.number += more;
        self.tolerable < self.number
    }

    /// How many checkpoints have failed in a row.
    pub fn number(&self) -> u32
        ensures { result ≡ self.now.number }
    {
        self.number
    }

    /// The job tolerates this many failures in a row from now on. Of those so far as many count.
    pub fn tolerate(&mut self, tolerable: u32)
        ensures { self.new ≡ record { tolerable = tolerable; number = min self.old.number tolerable } }
    {
        self.tolerable = tolerable;
        self.number = self.number.min(tolerable);
    }

    /// Sets the failures to 0: a checkpoint completed, or the job was restarted.
    pub fn reset(&mut self)
        ensures { self.new ≡ record self.old { number = 0 } }
    {
        self.number = 0;
    }
}
