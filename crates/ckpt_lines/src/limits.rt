//! The limit of a line. It is this project's own: docs/SCRIPT.md, section 11.

/// The most bytes of a line, a carriage return at its end included.
pub const LONGEST_LINE: usize = 131_072;
