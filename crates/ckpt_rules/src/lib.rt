//! When a checkpoint may start, and how many failed ones a job tolerates.
//!
//! [`Clock`] keeps the moments of a coordinator. [`Clock::held`] says whether the next
//! checkpoint may start. [`Failures`] counts the failed ones in a row. Neither takes memory.
//! `specs/Trigger.antt` defines the rule.
#![tactic(auto)]

pub mod clock;
pub mod failures;
pub mod hold;

pub use clock::{Clock, limit_of};
pub use failures::Failures;
pub use hold::Hold;
