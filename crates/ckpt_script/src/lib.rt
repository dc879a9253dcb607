//! Runs scripts of a job's calls: reads their lines, makes their calls, and writes what they print.
//!
//! [`run`] runs a script from a reader to a writer. If the script comes from outside, [`run_keyed`]
//! does the same under a secret. [`run_between_keyed`] runs it from a source to a sink, which count
//! their calls (`specs/Devices.antt`). `specs/Outputs.antt` defines what is written, by the readings
//! of the lines (crate `ckpt_lines`), and by what each line does and prints (crate `ckpt_session`).
#![tactic(auto)]

mod ahead;
mod fault;
pub mod limits;
mod printed;
mod runner;
mod runs;
mod sink;
mod source;
mod streams;
mod summary;

pub use ahead::newline_place;
pub use ckpt_lines::{LONGEST_LINE, Line, LineFault, Numbers, parse_line};
pub use ckpt_session::Secret;
pub use fault::RunFault;
pub use limits::{MOST_LINES, MOST_READS};
pub use runs::{run, run_between_keyed, run_keyed};
pub use sink::Sink;
pub use source::{DeviceFailed, Source};
pub use summary::Summary;
