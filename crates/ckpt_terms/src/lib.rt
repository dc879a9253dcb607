//! Names of files that are given out once, and terms that a restart ends, above the coordinator.
//!
//! Tasks reserve the names of the files that they will write. A restart or a cancel ends the term
//! of the tasks that ran: what they send later is refused, and what they wrote and never
//! acknowledged can be told from what is in use. `specs/Fencing.antt` defines the state and the
//! step, and [`laws`] has what holds over all lists of calls.
#![tactic(auto)]

pub mod call;
pub mod image;
pub mod laws;
pub mod machine;
pub mod names;
mod scan;
mod spending;
pub mod terms;

pub use call::{FencedAnswer, FencedCall, FencedRefusal};
pub use image::TermsImage;
pub use machine::{FenceFault, Machine};
pub use names::{Names, Span};
pub use terms::Terms;
