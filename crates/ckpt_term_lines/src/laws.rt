//! Laws about reading any line, each as the contract of a function that does nothing.

ghost use Rattle.std.specs.Prelude.{◌≡◌, ◌+◌, ℕ, List, Ok, take};
ghost use Rattle.ckpt_lines.specs.{declared.limits.TheConstants.LONGEST_LINE, declared.line.Line.Line, Reading.reading};
ghost use Rattle.ckpt_term_lines.specs.TermReading.{term_reading, without_term};

/// Each line of a script is a line of a log, and says the same there.
pub fn extends()
    ensures { (line : List ℕ) (read : Line) → reading line ≡ Ok read → term_reading line ≡ Ok (without_term read) }
{}

/// Only a prefix of a line is read, one byte longer than the longest line. A reader that holds only
/// this prefix reads the same.
pub fn front()
    ensures { (line : List ℕ) → term_reading (take (LONGEST_LINE + 1) line) ≡ term_reading line }
{}
