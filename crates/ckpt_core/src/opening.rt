//! The parts of a coordinator that is opened.
ghost use Rattle.std.specs.Prelude.{◌≡◌, ◌<◌, ◌≤◌};
ghost use Rattle.ckpt_ids.specs.declared.limits.TheConstants.{MOMENTS_END, NUMBERS_END};
ghost use Rattle.ckpt_core.specs.Inside.Parts.{AreSound, state_of};
ghost use Rattle.ckpt_model.specs.State.{opened};

use crate::parts::{Opened, Parts};
use crate::pending_records::PendingRecords;
use ckpt_hash::Secret;
use ckpt_ids::{Config, Shape};
use ckpt_model::Mode;
use ckpt_outbox::Outbox;
use ckpt_registry::Registry;
use ckpt_rules::{Clock, Failures};
use ckpt_store::Store;
use std::alloc::Global;

impl Parts {
    /// The parts of a coordinator that is opened now, at `start` in milliseconds, and whose first
    /// record has the number `first`. The files' numbers are hashed under the secret. Takes no
    /// memory.
    ///
    /// Conditions: `start` is below 2^62, and `first` is at least 1 and below 2^62.
    pub(crate) fn new(
        alloc: Global,
        config: Config,
        shape: Shape,
        start: u64,
        first: u64,
        secret: Secret,
    ) -> Parts
        requires start { start < MOMENTS_END }
        requires from { 1 ≤ first }
        requires to { first < NUMBERS_END }
        ensures sound { AreSound result }
        ensures state { state_of result ≡ opened (record { config = config; shape = shape; start = start; first = first }) }
    {
        shape.recall();
        Parts {
            alloc,
            clock: Clock::new(&config, start),
            failures: Failures::new(config.tolerable()),
            store: Store::new(alloc, config.retained()),
            opened: Opened {
                config,
                shape,
                start,
                first,
            },
            reshaped: None,
            mode: Mode::Running,
            next: first,
            pending: PendingRecords::new(alloc),
            registry: Registry::keyed(alloc, secret),
            outbox: Outbox::keyed(alloc, secret),
            ended: Vec::new(alloc),
        }
    }
}
