//! The numbers of records and files, and the kinds of records.

ghost use Rattle.std.specs.Prelude.{ℕ};

use std::marker::Model;

/// The number of a checkpoint or savepoint. The coordinator gives numbers from 1 to 2^62 - 1.
///
/// Checkpoints and savepoints share one sequence of numbers, which rises by one with each trigger.
#[derive(Clone, Copy, Debug, PartialEq, Eq, PartialOrd, Ord, Hash)]
pub struct CheckpointId(pub u64);

impl Model for CheckpointId {
    ghost Value = { ℕ };

    ghost view = { λ c. c.0 };

    ghost inverse = { λ n. record { 0 = n } };
}

/// A state file, by the number that the state backend gave it: any `u64`.
#[derive(Clone, Copy, Debug, PartialEq, Eq, PartialOrd, Ord, Hash)]
pub struct FileId(pub u64);

impl Model for FileId {
    ghost Value = { ℕ };

    ghost view = { λ f. f.0 };

    ghost inverse = { λ n. record { 0 = n } };
}

/// Whether a record is a checkpoint or a savepoint. The coordinator owns checkpoints, and users own
/// savepoints.
///
/// Source of the rule: the Flink documentation, "Checkpoints vs. Savepoints".
#[derive(Clone, Copy, Debug, PartialEq, Eq, Hash)]
pub enum Kind {
    /// Triggered by a tick, and dropped when later ones replace it.
    Checkpoint,
    /// Asked for by a user, and kept until it is disposed of.
    Savepoint,
}
