//! What the members `clock`, `opening` and `outbox` of an image hold.

use ckpt_ids::{Config, Files, Handed, Shape};

/// The number of the format of an image.
pub const VERSION: u64 = 1;

/// The moments of a coordinator, in milliseconds.
#[derive(Clone, Copy)]
pub(crate) struct Moments {
    pub(crate) completed: Option<u64>,
    pub(crate) due: u64,
    pub(crate) latest: u64,
}

/// What the coordinator was opened with.
#[derive(Drop)]
pub(crate) struct Opened {
    pub(crate) config: Config,
    pub(crate) first: u64,
    pub(crate) shape: Shape,
    pub(crate) start: u64,
}

/// The files that were fetched for deletion, and those that wait for it.
#[derive(Drop)]
pub(crate) struct Outbox {
    pub(crate) taken: Files,
    pub(crate) waiting: Handed,
}
