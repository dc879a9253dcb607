//! The printed texts of the coordinator: one line for each answer, and the metadata of a record as
//! JSON.
//!
//! [`write_answer`] appends the line, and [`metadata_text`] returns the JSON. `specs/Texts.antt` and
//! `specs/MetadataTexts.antt` define them byte for byte. [`write_number`] and [`write_two`] append
//! words and numbers.
#![tactic(auto)]

pub mod answers;
pub mod metadata;
pub mod numbers;
mod refusals;
mod replies;

pub use answers::write_answer;
pub use metadata::metadata_text;
pub use numbers::{write_number, write_two};
