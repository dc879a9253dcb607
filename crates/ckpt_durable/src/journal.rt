//! The device that calls are appended to.

ghost use Rattle.std.specs.Prelude.{◌≡◌, ◌<◌, ◌≤◌, ◌⊎◌, ℕ, List, [], ◌∷◌, ◌++◌, OnErr, OnOk};
ghost use Rattle.ckpt_terms.specs.declared.call.FencedCall.{FencedCall};

use ckpt_terms::FencedCall;
use thiserror::Error;

/// A call could not be appended, or what was appended could not be synced.
#[derive(Clone, Copy, Debug, PartialEq, Eq, Error)]
#[error("the journal failed")]
pub struct JournalFault;

/// What calls are appended to. After a crash it has the calls of `kept`, and of those of `loose` some
/// number of the first ones.
pub trait Journal {
    /// The calls that a crash does not cut, in order.
    ghost kept: { Self → List FencedCall };

    /// The calls that were appended since, in order.
    ghost loose: { Self → List FencedCall };

    /// How often a call of it has failed.
    ghost faults: { Self → ℕ };

    /// Appends a call. After a fault, which is counted, a crash may leave the call or not.
    fn append(&mut self, call: &FencedCall) -> Result<(), JournalFault>
        ensures kept { kept self.new ≡ kept self.old }
        ensures appended { OnOk result (loose self.new ≡ loose self.old ++ call.now ∷ []) }
        ensures failed { OnErr result ((loose self.new ≡ loose self.old) ⊎ (loose self.new ≡ loose self.old ++ call.now ∷ [])) }
        ensures fault { OnErr result (faults self.old < faults self.new) }
        ensures steady { OnOk result (faults self.new ≡ faults self.old) }
        ensures counted { faults self.old ≤ faults self.new };

    /// Syncs what was appended, and what was found when the journal was opened. After a fault, which is
    /// counted, a crash may still cut it.
    fn sync(&mut self) -> Result<(), JournalFault>
        ensures kept { OnOk result (kept self.new ≡ kept self.old ++ loose self.old) }
        ensures synced { OnOk result (loose self.new ≡ []) }
        ensures kept_still { OnErr result (kept self.new ≡ kept self.old) }
        ensures loose_still { OnErr result (loose self.new ≡ loose self.old) }
        ensures fault { OnErr result (faults self.old < faults self.new) }
        ensures steady { OnOk result (faults self.new ≡ faults self.old) }
        ensures counted { faults self.old ≤ faults self.new };
}
