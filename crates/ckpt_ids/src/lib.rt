//! The names of the checkpoint coordinator: numbers of checkpoints, state files and subtasks, the
//! shape and the configuration of a job, and the calls and replies of the coordinator.
//!
//! Begin with [`Call`] and [`Reply`], the calls of the coordinator and what they return, and with
//! [`Config`] and [`Shape`], which the coordinator is opened with. The other crates of this
//! project use these types. `specs/Records.antt` defines what a record is, and what uses a
//! file.
#![tactic(auto)]

pub mod ack;
pub mod call;
pub mod config;
pub mod files;
pub mod handed;
pub mod limits;
pub mod numbers;
pub mod places;
mod refusal_text;
pub mod reply;
pub mod shape;
pub mod subtask;

pub use ack::{Acked, Acks, Metadata};
pub use call::{Call, Target};
pub use config::{BadConfig, Config, ConfigValues};
pub use files::Files;
pub use handed::Handed;
pub use limits::{
    LEAST_INTERVAL, LONGEST_DURATION, MOMENTS_END, MOST_AT_ONCE, MOST_FILES, MOST_RETAINED,
    MOST_SAVEPOINTS, MOST_SUBTASKS, MOST_TOLERABLE, MOST_VERTICES, NUMBERS_END,
};
pub use numbers::{CheckpointId, FileId, Kind};
pub use places::{Keyed, place_of, take_out};
pub use reply::{Answer, Choice, Refusal, Reply, TickEnd};
pub use shape::{Shape, ShapeFault};
pub use subtask::SubtaskId;
