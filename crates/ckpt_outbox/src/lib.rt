//! The outbox of a coordinator: the state files that nothing uses any more and that wait for
//! deletion, and those that were fetched and not yet reported.
//!
//! [`Outbox`] keeps the waiting files in a queue, and an index with a ticket for each file that
//! waits or is taken. The ticket of a waiting file says its place in the queue. So a report costs
//! one look-up, and no call scans the queue. Only the number of taken files is kept: contracts know
//! their order, and no call asks for it.
#![tactic(auto)]

pub mod outbox;
mod places;
mod taken;

pub use outbox::{NotTaken, Outbox};
