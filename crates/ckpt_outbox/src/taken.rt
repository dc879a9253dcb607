//! The taken files: a list for contracts, and at run time their number.
ghost use Rattle.std.specs.Prelude.{◌≡◌, ◌+◌, ◌<◌, ◌^◌, [], ◌∷◌, ◌++◌, true, length};
ghost use Rattle.std.specs.Option.{option_map_or};
ghost use Rattle.ckpt_outbox.specs.Changes.{changed, unchanged};
ghost use Rattle.ckpt_outbox.specs.Queues.{AreDistinct, is_in, without};

use ckpt_ids::FileId;
use std::fmt;
use std::marker::Model;
use std::snapshot::Snapshot;

// One more file is taken, or one fewer. A value lives only for a moment, for its snapshot.
#[derive(Drop)]
struct Change {
    before: Option<Snapshot<Change>>,
    file: FileId,
    is_fetched: bool,
}

impl Model for Change {
    ghost use Rattle.std.specs.Option.{option_map_or};
    ghost use Rattle.std.proofs.Common.{arith};
    ghost use Rattle.ckpt_outbox.specs.Changes.{Changed, changed, unchanged};

    ghost Value = { Changed };

    ghost view = { λ c. changed (option_map_or (λ s. s.value) c.before unchanged) c.file c.is_fetched };

    ghost size = { λ c. c.changes };

    ghost size_decreases = { λ c h. Prim.grind (arith) };
}

/// The taken files, in the order in which they were fetched. Only clauses read the list. At run
/// time only its length is kept.
#[derive(Drop)]
pub(crate) struct Taken {
    changes: Option<Snapshot<Change>>,
    count: usize,
}

impl Model for Taken {
    ghost use Rattle.std.specs.Prelude.{◌≡◌, ℕ, List, length};
    ghost use Rattle.std.specs.Option.{option_map_or};
    ghost use Rattle.ckpt_outbox.specs.Changes.{unchanged};

    ghost Value = { List ℕ };

    ghost view = { λ t. (option_map_or (λ s. s.value) t.changes unchanged).files };

    ghost invariant = { λ t. t.count ≡ length (option_map_or (λ s. s.value) t.changes unchanged).files };
}

impl fmt::Debug for Taken {
    /// Shows the number of taken files.
    fn fmt<W: fmt::Write>(&self, f: &mut fmt::Formatter<W>) -> fmt::Result {
        f.debug_struct("Taken").field("count", &self.count).finish()
    }
}

/// The changes with one more added. No effect at run time.
fn with_change(
    before: Option<Snapshot<Change>>,
    file: FileId,
    is_fetched: bool,
) -> Option<Snapshot<Change>>
    ensures { option_map_or (λ s. s.value) result unchanged ≡ changed (option_map_or (λ s. s.value) before unchanged) file is_fetched }
{
    let change = Change {
        before,
        file,
        is_fetched,
    };
    Some(Snapshot::of(&change))
}

impl Taken {
    /// No file is taken.
    pub(crate) fn new() -> Taken
        ensures { result ≡ [] }
    {
        Taken {
            changes: None,
            count: 0,
        }
    }

    /// The file was fetched.
    ///
    /// Condition: fewer than 2^64 - 1 files are taken.
    pub(crate) fn push(&mut self, file: FileId)
        requires few { length self.old + 1 < 2 ^ 64 }
        ensures { self.new ≡ self.old ++ file ∷ [] }
    {
        self.changes = with_change(self.changes.take(), file, true);
        self.count += 1;
    }

    /// This taken file was reported.
    ///
    /// Conditions: the file is there, and none is there twice.
    pub(crate) fn remove(&mut self, file: FileId)
        requires distinct { AreDistinct self.old }
        requires there { is_in file self.old ≡ true }
        ensures { self.new ≡ without file self.old }
    {
        self.changes = with_change(self.changes.take(), file, false);
        self.count -= 1;
    }

    /// The number of taken files.
    pub(crate) fn len(&self) -> usize
        ensures { result ≡ length self.now }
    {
        self.count
    }
}
