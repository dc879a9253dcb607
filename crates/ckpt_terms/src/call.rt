//! The calls of a fenced coordinator, and their answers.

use ckpt_ids::{Answer, Call, FileId, Files};

/// The most names that one call reserves.
pub const MOST_NAMES: u64 = 1 << 16;

/// Each name is below this number.
pub const NAMES_END: u64 = 1 << 62;

/// Each term is at most this number.
pub const LAST_TERM: u64 = 1 << 62;

/// A call. `term` is the term that the caller was told; only calls of tasks are tested for it.
#[derive(Debug, Drop, PartialEq, Eq)]
pub enum FencedCall {
    /// A task reserves this many names for files that it will write.
    Reserve {
        /// The term of the task.
        term: u64,
        /// How many names.
        count: u64,
    },
    /// A task gives up names that it will not acknowledge, as after a failed upload. Names that the
    /// running term does not hold are passed over, so the call can be repeated.
    Forfeit {
        /// The term of the task.
        term: u64,
        /// The names.
        names: Files,
    },
    /// A call of the coordinator. Of an acknowledgement and a decline the term is tested.
    Make {
        /// The term of the caller.
        term: u64,
        /// The call.
        call: Call,
    },
    /// The job begins again from its choice, as a restore of the latest does, in a term above all
    /// that were told, and with names above all that were given out. It is for a job that goes on
    /// from an older image: there `term` and `first` come from outside.
    Advance {
        /// The moment of the call.
        now: u64,
        /// The term that runs then is above this one, and above the one that runs now.
        term: u64,
        /// The next name is then at least this one, and at least the one that it is now.
        first: u64,
    },
}

/// Why a call did not reach the coordinator: the first of these that applies. Nothing changed.
#[derive(Clone, Copy, Debug, PartialEq, Eq)]
pub enum FencedRefusal {
    /// The term of the task has ended, or has not begun.
    OldTerm,
    /// The job was cancelled, and no task runs.
    Ended,
    /// It would reserve no name, or more than 65536.
    BadCount,
    /// All names up to 2^62 - 1 were reserved.
    NamesUsedUp,
    /// As many terms have ended as can be counted, 2^62.
    TermsUsedUp,
    /// The first name of an advance is 0 or above 2^62.
    BadName,
    /// The first fresh file whose name the running term does not hold. The name was given out, so an
    /// accepted acknowledgement has named it (this one, if it was sent before), or it was given up,
    /// or its term has ended. Nobody deletes the file for this answer.
    Spent(FileId),
    /// The same of a name that was not given out.
    NeverReserved(FileId),
}

/// The answer to a call.
#[derive(Debug, Drop, PartialEq, Eq)]
pub enum FencedAnswer {
    /// The names from this one on are reserved.
    Reserved(FileId),
    /// The names are given up.
    Forfeited,
    /// The coordinator's answer, and the term that runs after the call.
    Made {
        /// The term.
        term: u64,
        /// The answer.
        answer: Answer,
    },
    /// The call did not reach the coordinator.
    Fenced(FencedRefusal),
}
