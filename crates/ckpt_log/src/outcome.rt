//! The outcome of a line of a log.
use ckpt_session::Outcome;
use ckpt_terms::{FenceFault, FencedAnswer};

/// Why a log itself refuses a line, before the coordinator sees it. Nothing has changed.
#[derive(Clone, Copy, Debug, PartialEq, Eq)]
pub enum LogRefusal {
    /// `reserve`, `forfeit`, `advance`, or `in` with a term other than 0, before an accepted `fence`.
    NoNames,
    /// `in` with a line that is no call, or `all`.
    NoCall,
    /// `fence` with a fault of its own.
    NoFence(FenceFault),
}

/// The outcome of a line of a log.
#[derive(Debug, Drop, PartialEq, Eq)]
pub enum LogOutcome {
    /// The line did what it does in a script.
    Script(Outcome),
    /// The log refused the line.
    Refused(LogRefusal),
    /// From here on names are given out.
    Began,
    /// The call of the line was made, once names are given out.
    Answered(FencedAnswer),
}
