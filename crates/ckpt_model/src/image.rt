//! The state of a coordinator as plain data.

use crate::mode::Mode;
use ckpt_ids::{CheckpointId, Config, Files, Handed, Metadata, Shape};

/// A live record of an image.
#[derive(Debug, Drop)]
pub struct Saved {
    /// Its number, kind, shape and acknowledgements, and whether it is done.
    pub metadata: Metadata,
    /// The files that a pending record holds until it ends, beside those of its acknowledgements:
    /// each once, in ascending order. A done record has none.
    pub pins: Files,
}

/// The state of a coordinator as plain data. Moments are in milliseconds.
///
/// `specs/Images.antt` defines the state of an image, and which states an image may have.
#[derive(Debug, Drop)]
pub struct Image {
    /// The configuration that the job was opened with.
    pub config: Config,
    /// The shape that the job was opened with.
    pub first_shape: Shape,
    /// The moment at which the job was opened.
    pub start: u64,
    /// The number of the job's first record.
    pub first: u64,
    /// The shape of the records that are triggered next.
    pub shape: Shape,
    /// What the job is doing.
    pub mode: Mode,
    /// The greatest moment seen.
    pub latest: u64,
    /// The moment from which the interval no longer holds a checkpoint back.
    pub due: u64,
    /// The moment of the last completed checkpoint since the job was started, if there was one.
    pub completed: Option<u64>,
    /// How many checkpoints have failed in a row.
    pub failures: u32,
    /// The number of the next record.
    pub next: u64,
    /// The savepoint that the job was rolled back to, until its next checkpoint completes.
    pub base: Option<CheckpointId>,
    /// The live records, in rising number.
    pub records: Vec<Saved>,
    /// The files that wait to be fetched for deletion, the next to be fetched first.
    pub waiting: Handed,
    /// The files that were fetched for deletion and not yet reported.
    pub taken: Files,
}
