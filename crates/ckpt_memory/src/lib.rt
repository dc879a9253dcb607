//! Requests for memory, each of which is counted if it is refused.
//!
//! A function that may run out of memory takes a [`Meter`], and its contract says that it fails
//! exactly if one more request was refused. Nothing but the functions of this crate adds to a
//! meter, and each does so only where its own request failed. So a proved caller cannot answer
//! "out of memory" for another reason.
#![tactic(auto)]

pub mod index;
pub mod list;
pub mod map;
pub mod meter;
mod past;
pub mod queue;
pub mod shared;

pub use meter::Meter;
