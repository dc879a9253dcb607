//! A coordinator, with names or without, and, for clauses alone, the list of what it was asked.
#![tactic(auto)]

pub mod logged;
mod noted;
mod past;

pub use logged::Logged;
