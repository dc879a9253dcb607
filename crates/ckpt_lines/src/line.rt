//! What the lines of a job script say.
use crate::numbers::Numbers;
use ckpt_ids::{Call, CheckpointId};

/// What a line of a job script says. Moments and durations are milliseconds.
///
/// The variants say which line each is. `Call` is twelve of them, and a script has no line for the
/// other two calls: `tick now`, `savepoint now`,
/// `ack now id v.s` and then file words, `decline now id v.s`, `dispose id`,
/// `restore now latest|id` and then the parallelisms of a new shape if there is one, `cancel now`,
/// `take n`, `deleted f`, `undeleted f`, `show id` and `count f`.
#[derive(Debug, Drop, PartialEq, Eq)]
pub enum Line {
    /// Nothing: a line without words, or a comment.
    Skip,
    /// `config interval pause at_once timeout tolerable retained keep|delete`: how the job takes
    /// checkpoints. A value may be outside the limits of [`Config::new`](ckpt_ids::Config::new).
    Config {
        /// Milliseconds between two triggers.
        interval: u64,
        /// Milliseconds between a completion and the next trigger.
        pause: u64,
        /// How many checkpoints may be pending.
        at_once: u64,
        /// Milliseconds after which a pending record expires.
        timeout: u64,
        /// How many failed checkpoints in a row are tolerated.
        tolerable: u64,
        /// How many completed checkpoints are kept.
        retained: u64,
        /// Whether completed checkpoints are kept when the job is cancelled.
        keep_on_cancel: bool,
    },
    /// `job p1 p2 ..`: the parallelisms of the job, at least one. They may be outside the limits of
    /// a [`Shape`](ckpt_ids::Shape).
    Job {
        /// The parallelism of each vertex.
        parallelisms: Numbers,
    },
    /// `start now`: opens the coordinator.
    Start {
        /// The moment.
        now: u64,
    },
    /// A call of the coordinator.
    Call(Call),
    /// A `restore` whose parallelisms [`Shape::new`](ckpt_ids::Shape::new) refuses as a shape. It
    /// makes no call.
    BadShape,
    /// `all now id threads first`: an acknowledgement for each missing subtask of the pending
    /// record `id`, with one new file each, numbered from `first` on.
    All {
        /// The moment.
        now: u64,
        /// The number of the record.
        id: CheckpointId,
        /// How many threads make the calls.
        threads: u64,
        /// The first file number.
        first: u64,
    },
}
