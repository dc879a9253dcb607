//! Barrier alignment at a task with several inputs.
//!
//! An [`Aligner`] tells an engine which elements a task may process, and when the task takes its
//! snapshot for a record: once each input has delivered the record's barrier or has ended, and
//! before anything that came behind a barrier. `specs/Steps.antt` defines each answer. [`laws`] has
//! what holds over all lists of actions: at the cut the task has processed exactly what came before
//! the barrier on each input, and if channels keep their order, the cuts of all tasks form one
//! consistent cut. `docs/ALIGNMENT.md` says what is left to the engine.
#![tactic(auto)]

pub mod aligner;
pub mod cut;
pub mod event;
pub mod input;
pub mod laws;

pub use aligner::{Aligner, MOST_INPUTS, OpenFault};
pub use cut::Cut;
pub use event::{Answer, Event, Refusal};
pub use input::Input;
