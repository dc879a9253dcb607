//! The limits of a run. They are this project's own: docs/SCRIPT.md, sections 10 and 11.

/// How many lines of a script are run at most.
pub const MOST_LINES: u64 = 1_000_000;

/// How often a reader is asked at most.
pub const MOST_READS: u64 = 1 << 32;
