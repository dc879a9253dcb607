//! A law about reading any line, as the contract of a function that does nothing.

ghost use Rattle.std.specs.Prelude.{◌≡◌, ◌+◌, ℕ, List, take};
ghost use Rattle.ckpt_lines.specs.declared.limits.TheConstants.{LONGEST_LINE};
ghost use Rattle.ckpt_lines.specs.Reading.{reading};

/// Only a prefix of a line is read, one byte longer than the longest line. A reader that holds only
/// this prefix reads the same.
pub fn front()
    ensures { (line : List ℕ) → reading (take (LONGEST_LINE + 1) line) ≡ reading line }
{}
