//! The coordinator for C: `include/relkvanu.h` declares the exported functions.
//!
//! A C program holds a [`Handle`](handle::Handle): one pointer, null if the handle is closed.
//! `relkvanu_open` gives it a coordinator, the calls go through it, and `relkvanu_close` drops the
//! coordinator. Each call returns an [`Answer`](answer::Answer) by value, and no memory leaves the
//! handle. [`reads`] return the same, take no memory and change nothing. [`aligning`] and
//! [`recording`] need no handle, and are a crate of their own.
#![tactic(auto)]

pub mod answer;
mod asked;
pub mod buffers;
pub mod calls;
pub mod fenced;
pub mod fencing;
pub mod group;
pub mod handle;
pub mod images;
pub mod lines;
pub mod making;
pub mod names;
pub mod opening;
pub mod plain_calls;
mod raw_box;
pub mod reads;
pub mod recovery;
mod requests;
pub mod saying;
pub mod sweep;
pub mod writing;

pub use relkvanu_barriers::{aligning, recording};
