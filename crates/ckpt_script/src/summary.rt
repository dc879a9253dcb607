//! The result of a run.
/// What a run has counted.
#[derive(Clone, Copy, Debug, PartialEq, Eq)]
pub struct Summary {
    /// The lines that were read, at most 1,000,000.
    pub lines: u64,
    /// The lines among them that have a fault.
    pub faults: u64,
}
