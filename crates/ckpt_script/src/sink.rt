//! The destination of a script's output.
ghost use Rattle.std.specs.Prelude.{◌≡◌, ◌<◌, ◌≤◌, ◌+◌, ℕ, List, Option, length, IfOk, OnOk, OnErr};
ghost use Rattle.std.specs.Io.KnownBytes.{WriteAppends, Keeps};

use crate::source::DeviceFailed;

/// The destination of a script's output. It serves one run.
pub trait Sink {
    // The bytes that it has, if they are known.
    ghost contents: { Self → Option (List ℕ) };
    // How often it failed.
    ghost failures: { Self → ℕ };
    // How many of the bytes that it took are not flushed, if it keeps any back.
    ghost unflushed: { Self → ℕ } = { λ _. 0 };
    // Which device it is, if it holds a reference to one. No write changes that.
    ghost device: { Self → ℕ } = { λ _. 0 };

    /// Takes some of the bytes, at least one.
    ///
    /// Conditions: it has not failed, and there are bytes.
    fn write(&mut self, bytes: &[u8]) -> Result<usize, DeviceFailed>
        requires going_on { failures self.old ≡ 0 }
        requires some { 0 < length bytes.now }
        ensures bound { IfOk result (λ count. (0 < count) × (count ≤ length bytes.now)) }
        ensures bytes { WriteAppends (contents self.old) (contents self.new) result bytes.now }
        ensures going_on { OnOk result (failures self.new ≡ failures self.old) }
        ensures failed { OnErr result (failures self.new ≡ failures self.old + 1) }
        ensures same { device self.new ≡ device self.old };

    /// Flushes what it took.
    ///
    /// Condition: it has not failed.
    fn flush(&mut self) -> Result<(), DeviceFailed>
        requires going_on { failures self.old ≡ 0 }
        ensures bytes { Keeps (contents self.old) (contents self.new) }
        ensures flushed { OnOk result (unflushed self.new ≡ 0) }
        ensures going_on { OnOk result (failures self.new ≡ failures self.old) }
        ensures failed { OnErr result (failures self.new ≡ failures self.old + 1) }
        ensures same { device self.new ≡ device self.old };
}
