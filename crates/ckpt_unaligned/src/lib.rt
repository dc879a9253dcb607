//! Unaligned barriers: a task may take its snapshot before each barrier has come, and records the
//! elements that come before the others.
//!
//! `specs/Steps.antt` defines what a *recorder* answers. It is an aligner until a record overtakes.
//! [`laws`] has what holds over all lists of actions: what a task had processed at its snapshot of a
//! record, and what it recorded for it, is what came before the record's barrier on each input, and
//! so the parts of all tasks form one consistent cut with its channels. `relkvanu` has the code.
#![tactic(auto)]

pub mod answer;
pub mod laws;

pub use answer::{Answer, Phase};
