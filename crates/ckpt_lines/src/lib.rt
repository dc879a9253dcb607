//! The lines of a job script: what they say, and how a call is written as one.
//!
//! [`parse_line`] reads one line, and returns what it says, a [`Line`], or the first [`LineFault`]
//! from the left. `specs/Reading.antt` defines that, over the list of its words. [`usual_call`]
//! returns the call of a usual line without a [`Line`], and `specs/Usual.antt` defines which lines
//! are usual.
//!
//! [`call_line`] writes a call. [`config_line`], [`job_line`] and [`start_line`] write the opening of a
//! job. `specs/CallTexts.antt` has the texts. A clause of each function says that its line reads back
//! as what was written.
//!
//! A language with more lines reads their words by [`Words`], and the other lines by [`line_of`]. It
//! writes calls by [`write_call`] and [`write_number`]. [`write_call`] also writes the two calls that
//! only such a language has lines for, a trigger and another configuration.
#![tactic(auto)]

mod calls;
mod fault;
mod keyword;
pub mod laws;
pub mod limits;
mod line;
mod lists;
mod numbers;
mod opening;
mod parse;
mod pieces;
mod places;
mod restoring;
mod rows;
mod usual;
mod values;
mod words;

pub use calls::{call_line, write_call};
pub use fault::LineFault;
pub use limits::LONGEST_LINE;
pub use line::Line;
pub use numbers::Numbers;
pub use opening::{config_line, job_line, start_line};
pub use parse::{line_of, parse_line, without_return};
pub use pieces::write_number;
pub use rows::{end, only_number, settings};
pub use usual::usual_call;
pub use values::number_of;
pub use words::Words;
