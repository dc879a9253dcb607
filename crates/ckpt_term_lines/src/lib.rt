//! The lines of a log whose job gives out names: `fence`, `reserve`, `forfeit`, `advance`, `in`,
//! `trigger` and `configure`, and the lines of scripts.
//!
//! [`parse_term_line`] reads one line, and returns what it says, a [`TermLine`], or the first fault
//! from the left. `specs/TermReading.antt` defines how it is read: a line whose first word is none
//! of these seven is read as a line of a script. [`term_line`] and [`fence_line`] write lines, and a
//! clause of each says that its line reads back as what was written. [`write_fenced_answer`] appends
//! the text of an answer. [`laws`] has what ties the two languages.
#![tactic(auto)]

mod answers;
mod keyword;
pub mod laws;
mod line;
mod parse;
mod rows;
mod writing;

pub use answers::write_fenced_answer;
pub use line::TermLine;
pub use parse::parse_term_line;
pub use writing::{fence_line, term_line};
