//! A task of an engine, turn by turn, and the loop that takes the turns.
//!
//! A [`Task`] has a program and an aligner. Each call of [`Task::turn`] is one turn of `ckpt_once`: it
//! processes an element, holds it, or cuts a record, and its snapshot is saved before anybody can
//! acknowledge the record. A [`SinkTask`] has a ledger too. [`laws`] say that a job of such tasks over
//! channels that keep their order makes the histories of `ckpt_once`, so each law there holds of it.
//! [`Task::run`] and [`SinkTask::run`] take turns over an engine's [`Channels`].
//! `docs/ALIGNMENT.md` says what is left to the engine.
#![tactic(auto)]

pub mod channels;
pub mod deed;
pub mod laws;
pub mod log;
pub mod loops;
pub mod program;
pub mod restarts;
pub mod runner;
mod sink_runner;
pub mod sink_task;
pub mod snapshots;
pub mod task;
pub mod turn;

pub use channels::{ChannelFault, Channels};
pub use deed::Deed;
pub use log::Log;
pub use program::{Emitted, Program};
pub use runner::RunFault;
pub use sink_task::{SinkFault, SinkTask};
pub use snapshots::{Loaded, SnapshotFault, Snapshots};
pub use task::{StartFault, Task};
pub use turn::{Next, Outcome, TurnFault};
