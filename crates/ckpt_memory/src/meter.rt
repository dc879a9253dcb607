//! The meter: how many requests for memory were refused. Only clauses read it.

ghost use Rattle.std.specs.Prelude.{◌≡◌};
ghost use Rattle.ckpt_memory.specs.Refusals.{one_more};

use crate::past::Past;
use std::alloc::AllocError;
use std::marker::Model;
use std::snapshot::Snapshot;

/// How many requests for memory were refused. It has no bytes: only clauses read it.
///
/// It also says whose it is, and no clause says that of two meters alike. So no function can put
/// another meter, which it kept from an earlier refusal, in the place of the one that it was given.
#[derive(Drop)]
pub struct Meter {
    whose: Snapshot<u64>,
    refused: Past<AllocError>,
}

impl Model for Meter {
    ghost use Rattle.std.specs.Prelude.{length};
    ghost use Rattle.ckpt_memory.specs.Refusals.{Refusals};

    ghost Value = { Refusals };

    ghost view = { λ m. record { whose = m.whose.value; count = length m.refused } };
}

impl Meter {
    /// A meter of its own. No request was refused yet.
    pub fn new() -> Meter
        ensures { result.count ≡ 0 }
    {
        Meter {
            whose: Snapshot::of(&0),
            refused: Past::new(),
        }
    }

    /// One more request was refused: the error that says so.
    pub(crate) fn refuse(&mut self) -> AllocError
        ensures { self.new ≡ one_more self.old }
    {
        self.refused.push(&AllocError);
        AllocError
    }
}
