//! What a durable coordinator keeps through crashes, each law on a function that does nothing.

ghost use Rattle.std.specs.Prelude.{List};
ghost use Rattle.ckpt_durable.specs.Crashes.{AreEvents, BeginsTermsOnce, Event, GivesNamesOnce, IsDurable, KeepsAll, Life, ReadsAreSafe, UsesNoneAgain, World, goes_on, world};
ghost use Rattle.ckpt_durable.specs.Operations.{IsAWorld, Operation};
ghost use Rattle.ckpt_terms.specs.{Fencing.Fenced, FencedLaws.IsFenced};

/// After any number of crashes the state is the replay of calls that were made, and among these are
/// all that were told, in order and with the same answers.
pub fn durable()
    ensures { (m : Fenced) (events : List Event) → IsDurable m (world m events) }
{}

/// What was synced stays.
pub fn keeps_all()
    ensures { (m : Fenced) (w : World) (later : List Event) → KeepsAll m w later }
{}

/// A file that might be deleted by what was synced is used by no live record, through all crashes.
pub fn uses_none_again()
    ensures { (m : Fenced) (events later : List Event) → IsFenced m → AreEvents events → AreEvents later → UsesNoneAgain m events later }
{}

/// What is read while no call waits for a sync may be told: a file that may be deleted then is used
/// by no live record, through all crashes.
pub fn reads_are_safe()
    ensures { (m : Fenced) (events later : List Event) → IsFenced m → AreEvents events → AreEvents later → ReadsAreSafe m events later }
{}

/// A name that was told is told once, through all crashes.
pub fn gives_names_once()
    ensures { (m : Fenced) (events : List Event) → GivesNamesOnce m events }
{}

/// A term that was told is begun once, through all crashes.
pub fn begins_terms_once()
    ensures { (m : Fenced) (events : List Event) → BeginsTermsOnce m events }
{}

/// What a program does with durable coordinators over one journal, by their clauses, is a list of
/// events. So the laws hold of it, if its callers are told what `commit` returns and nothing else.
pub fn is_a_world()
    ensures { (m : Fenced) (operations : List Operation) (last : Life) → IsAWorld m operations last }
{}
