//! A law of a lock, on a function that does nothing.

ghost use Rattle.std.specs.Prelude.{List};
ghost use Rattle.ckpt_locked.specs.Books.{History};
ghost use Rattle.ckpt_locked.specs.Locks.{Lock};
ghost use Rattle.ckpt_workers.specs.Sequences.{AreInOneSequence, Run};

/// All calls that were answered through one lock stand in one sequence, those of each pass in their
/// order. Each answer is that of the step at the call's place there.
pub fn one_sequence()
    ensures { (lock : Lock) (book : History) (runs : List Run) → AreInOneSequence lock book runs }
{}
