//! Barriers at a task, for C, in plain memory of the caller: [`aligning`] holds inputs back, and
//! [`recording`] lets barriers overtake elements.
#![tactic(auto)]

pub mod aligning;
pub mod recording;
