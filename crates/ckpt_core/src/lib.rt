//! The checkpoint coordinator of one job, for one thread.
//!
//! [`Core`] is the coordinator: `Core::apply` makes one [`ckpt_ids::Call`], which is exactly the
//! step that `ckpt_model` defines. That crate has the definitions, and [`laws`] over all lists of
//! calls. This one has the code, and the proofs that it makes these steps: `specs/Inside` has what
//! its private functions promise one another.
#![tactic(auto)]

mod acks;
mod completions;
mod coordinator;
mod drops;
mod endings;
mod image;
mod late_acks;
mod loading;
mod opening;
mod parts;
mod pending_records;
pub mod queries;
mod reads;
mod recall;
pub mod recovery;
mod refusals;
mod reopening;
mod saving;
mod settings;
mod triggers;

pub use ckpt_hash::Secret;
pub use ckpt_model::{CoreFault, Image, Live, Mode, OpenFault, Saved, Standing, laws, mode};
pub use coordinator::Core;
pub use image::ImageFault;
pub use refusals::test_files;
