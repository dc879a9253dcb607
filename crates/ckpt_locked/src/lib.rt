//! The checkpoint coordinator with a log of all its calls, for one thread or for many.
//!
//! [`Book`] is the coordinator with its log, for one thread. `specs/Books.antt` says what
//! contracts see of a book. `specs/Promises.antt` says what every book promises, beyond the laws of
//! `ckpt_core`. [`Locked`] is a book that up to [`MOST_SEATS`] threads share, each with a [`Pass`].
//! `specs/Locks.antt` says what a pass knows.
#![tactic(auto)]

pub mod book;
pub mod limits;
mod lock;
mod past;
mod recent;
mod steps;
mod view;

pub use book::{Book, Entry};
pub use limits::{MOST_SEATS, TICKETS_END};
pub use lock::{LockFault, Locked, MissingPass, Pass};
