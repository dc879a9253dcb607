//! Where a discarder deletes files.
ghost use Rattle.std.specs.Prelude.{◌≡◌, ◌<◌, ◌≤◌, ◌++◌, [], ◌∷◌, OnErr, OnOk};
ghost use Rattle.ckpt_workers.specs.Rounds.{Stored};

use ckpt_ids::FileId;
use thiserror::Error;

/// A file could not be deleted.
#[derive(Clone, Copy, Debug, PartialEq, Eq, Error)]
#[error("a file could not be deleted")]
pub struct StorageFault;

/// Where files are deleted.
pub trait Storage {
    /// The files that it has deleted, in order, and how often it has failed.
    ghost stored: { Self → Stored };

    /// Deletes a file. After a fault storage still has the file, as far as it knows, and the fault
    /// is counted.
    fn delete(&mut self, file: FileId) -> Result<(), StorageFault>
        ensures deleted { OnOk result ((stored self.new).deleted ≡ (stored self.old).deleted ++ file ∷ []) }
        ensures same { OnErr result ((stored self.new).deleted ≡ (stored self.old).deleted) }
        ensures failed { OnErr result ((stored self.old).failures < (stored self.new).failures) }
        ensures counted { (stored self.old).failures ≤ (stored self.new).failures };
}
