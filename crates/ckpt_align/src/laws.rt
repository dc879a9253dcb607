//! The laws of alignment, each on a function that does nothing.

ghost use Rattle.std.specs.Prelude.{ℕ, List};
ghost use Rattle.ckpt_align.specs.Histories.{Action, Item};
ghost use Rattle.ckpt_align.specs.Laws.{ComesToCut, CutsRise, GlobalCut, GoesOn, LocalCut, Network};

/// At its cut of a record a task has processed, of each input, exactly the elements before the
/// record's barrier, and of an input that has ended all.
pub fn local_cut()
    ensures { (inputs : ℕ) (actions : List Action) (action : Action) (n j : ℕ) (rest : List Item) → LocalCut inputs actions action n j rest }
{}

/// A task cuts each record at most once, and in rising order.
pub fn cuts_rise()
    ensures { (inputs : ℕ) (actions : List Action) (first : Action) (between : List Action) (last : Action) → CutsRise inputs actions first between last }
{}

/// While an input is held another one is open, so a task can always read on.
pub fn goes_on()
    ensures { (inputs : ℕ) (actions : List Action) → GoesOn inputs actions }
{}

/// If each open input delivers the barrier of a record that is not late, in any order, the last of
/// these is its cut.
pub fn comes_to_cut()
    ensures { (inputs : ℕ) (actions : List Action) (n last : ℕ) (order : List ℕ) → ComesToCut inputs actions n last order }
{}

/// If the channels of a network keep their order, the tasks' cuts of one record are a consistent
/// cut: no element is lost between them, and none comes twice.
pub fn global_cut()
    ensures { (n : ℕ) (w : Network) → GlobalCut n w }
{}
