//! Whether a checkpoint may start.

/// Whether a checkpoint may start, and if not, why not.
#[derive(Clone, Copy, Debug, PartialEq, Eq)]
pub enum Hold {
    /// The interval since the last trigger has not passed.
    Interval,
    /// As many checkpoints are pending as may be.
    AtOnce,
    /// The pause since the last completion has not passed.
    Pause,
    /// The next checkpoint may start.
    Go,
}
