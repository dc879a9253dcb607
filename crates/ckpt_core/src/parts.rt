//! The parts that a coordinator is made of.

ghost use Rattle.std.specs.Prelude.{◌<◌};
ghost use Rattle.ckpt_ids.specs.declared.limits.TheConstants.{MOMENTS_END, NUMBERS_END};

use crate::pending_records::PendingRecords;
use ckpt_ids::{CheckpointId, Config, Shape};
use ckpt_model::Mode;
use ckpt_outbox::Outbox;
use ckpt_registry::Registry;
use ckpt_rules::{Clock, Failures};
use ckpt_store::Store;
use std::alloc::Global;

/// What a coordinator was opened with, which no call changes.
#[derive(Debug, Drop)]
pub(crate) struct Opened {
    pub(crate) config: Config,
    pub(crate) shape: Shape,
    pub(crate) start: u64,
    pub(crate) first: u64,
    ghost start_to: { start < MOMENTS_END },
    ghost first_to: { first < NUMBERS_END },
}

/// The parts of a coordinator, which `specs/Inside/Parts.antt` sees as its state.
#[derive(Debug, Drop)]
pub(crate) struct Parts {
    pub(crate) alloc: Global,
    pub(crate) opened: Opened,
    /// The shape that a restore gave the job, in place of the first.
    pub(crate) reshaped: Option<Shape>,
    pub(crate) mode: Mode,
    pub(crate) clock: Clock,
    pub(crate) failures: Failures,
    pub(crate) next: u64,
    pub(crate) pending: PendingRecords,
    pub(crate) store: Store,
    pub(crate) registry: Registry,
    pub(crate) outbox: Outbox,
    /// The numbers of the records that end in a call, in room for all live ones.
    pub(crate) ended: Vec<CheckpointId>,
}
