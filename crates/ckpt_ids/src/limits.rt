//! The limits of a job and of its calls. They are this project's own: docs/RULES.md, section 9.

/// The most vertices of a shape.
pub const MOST_VERTICES: usize = 256;

/// The most subtasks of a shape, all vertices together.
pub const MOST_SUBTASKS: u64 = 4096;

/// The most files of an acknowledgement, fresh and reused ones together.
pub const MOST_FILES: usize = 4096;

/// The most savepoints, pending and done ones together.
pub const MOST_SAVEPOINTS: usize = 1000;

/// The shortest interval, in milliseconds.
pub const LEAST_INTERVAL: u64 = 10;

/// The longest interval, pause and timeout, in milliseconds.
pub const LONGEST_DURATION: u64 = 1 << 40;

/// The most checkpoints that may be pending at once.
pub const MOST_AT_ONCE: u64 = 64;

/// The most failed checkpoints in a row that a job may tolerate.
pub const MOST_TOLERABLE: u64 = 1000;

/// The most completed checkpoints that a job may keep.
pub const MOST_RETAINED: u64 = 1000;

/// Each moment is below this number, in milliseconds.
pub const MOMENTS_END: u64 = 1 << 62;

/// The number of each record is below this one.
pub const NUMBERS_END: u64 = 1 << 62;
