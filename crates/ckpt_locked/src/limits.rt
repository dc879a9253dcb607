//! The limits of a lock. They are this project's own.

/// The most seats of a lock, that is, the most threads that share a book.
pub const MOST_SEATS: u32 = 64;

/// Each ticket that is served is below this number. A later ticket waits forever, so tickets never
/// wrap. With a call each nanosecond that is after 146 years.
pub const TICKETS_END: u64 = 1 << 62;
