//! What each line of a script does, and what it prints.
//!
//! [`Session`] runs the lines of a script one after the other. What a line does is an [`Outcome`],
//! which has a text that the line prints. `specs/Sessions.antt` defines both, by the coordinator's
//! answers and their texts (crate `ckpt_answers`).
#![tactic(auto)]

mod all;
mod outcome;
mod session;
mod texts;

pub use ckpt_core::Secret;
pub use outcome::{AllEnd, Outcome, ScriptRefusal};
pub use session::Session;
pub use texts::{write_fault, write_outcome};
