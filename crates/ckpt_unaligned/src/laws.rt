//! The laws of unaligned barriers, each on a function that does nothing.

ghost use Rattle.std.specs.Prelude.{ℕ, List};
ghost use Rattle.ckpt_align.specs.Histories.{Item};
ghost use Rattle.ckpt_align.specs.Laws.{Channel};
ghost use Rattle.ckpt_unaligned.specs.Histories.{Action};
ghost use Rattle.ckpt_unaligned.specs.Laws.{GlobalPart, LocalPart, Network};

/// When a record is whole at a task, the task's part of it has, of each input, exactly the elements
/// before the record's barrier: those in the snapshot, and then those that were recorded.
pub fn local_part()
    ensures { (inputs : ℕ) (actions : List Action) (action : Action) (n j : ℕ) (rest : List Item) → LocalPart inputs actions action n j rest }
{}

/// If a channel keeps its order, the receiver's part of a record has exactly the elements that the
/// sender sent before its snapshot.
pub fn global_part()
    ensures { (n : ℕ) (w : Network) (c : Channel) → GlobalPart n w c }
{}
