//! The origin of a script's bytes.
ghost use Rattle.std.specs.Prelude.{◌≡◌, ◌<◌, ℕ, List, Option, length};
ghost use Rattle.std.specs.Io.{ReadsAtMost};
ghost use Rattle.std.specs.Io.KnownBytes.{ReadConsumes};
ghost use Rattle.ckpt_script.specs.Devices.{Asked, MayBeAsked, asked_again};

use std::fmt::Debug;

/// A source or a sink failed.
#[derive(Clone, Copy, Debug, PartialEq, Eq)]
pub struct DeviceFailed;

/// The origin of a script's bytes. It serves one run.
pub trait Source {
    // The bytes that are left, if they are known.
    ghost remaining: { Self → Option (List ℕ) };
    // How often it was asked, how often it failed, how often it said that nothing is left, and how
    // many bytes it gave.
    ghost asked: { Self → Asked };
    // Which device it is, if it holds a reference to one. No read changes that.
    ghost device: { Self → ℕ } = { λ _. 0 };

    /// Reads once. No bytes are the end of the script.
    ///
    /// Conditions: it was asked fewer than 2^32 times, has neither failed nor said that nothing is
    /// left, and the buffer has room.
    fn read(&mut self, buffer: &mut [u8]) -> Result<usize, DeviceFailed>
        requires turn { MayBeAsked (asked self.old) }
        requires room { 0 < length buffer.old }
        ensures bound { ReadsAtMost result buffer.new }
        ensures bytes { ReadConsumes (remaining self.old) (remaining self.new) result buffer.new }
        ensures asked { asked self.new ≡ asked_again (asked self.old) result }
        ensures same { device self.new ≡ device self.old };
}
