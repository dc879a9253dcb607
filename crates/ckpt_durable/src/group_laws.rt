//! What a coordinator that commits in groups keeps through crashes, with names or without, each law on
//! a function that does nothing.

ghost use Rattle.std.specs.Prelude.{List};
ghost use Rattle.ckpt_durable.specs.Groups.{AreTurns, BeginsTermsOnce, GivesNamesOnce, IsDurable, IsExact, KeepsAll, ReadsAreSafe, Turn, UsesNoneAgain, World, world};
ghost use Rattle.ckpt_logged.specs.Events.{IsWell};
ghost use Rattle.ckpt_terms.specs.declared.machine.Machine.{Machine};

/// After any number of crashes, and of images that cut the log, the state is the replay of what is on
/// the device. What callers were told stands in its synced part, in order. An image has the fetched
/// files in ascending order: but for their order, and without images in that too.
pub fn groups_durable()
    ensures durable { (m : Machine) (turns : List Turn) → IsDurable m (world m turns) }
    ensures exact { (m : Machine) (turns : List Turn) → IsExact m turns }
{}

/// What was synced stays, on the device or in an image.
pub fn groups_keep_all()
    ensures { (w : World) (later : List Turn) → KeepsAll w later }
{}

/// A file that might be deleted by what was synced is used by no live record, through all crashes.
pub fn groups_use_none_again()
    ensures { (m : Machine) (turns later : List Turn) → IsWell m → AreTurns turns → AreTurns later → UsesNoneAgain m turns later }
{}

/// What was read may be told with its receipt: a file that might be deleted then is used by no live
/// record, through all crashes.
pub fn group_reads_are_safe()
    ensures { (m : Machine) (turns later : List Turn) → IsWell m → AreTurns turns → AreTurns later → ReadsAreSafe m turns later }
{}

/// A name that was told is told once, through all crashes.
pub fn groups_give_names_once()
    ensures { (m : Machine) (turns : List Turn) → GivesNamesOnce m turns }
{}

/// A term that was told is begun once, through all crashes.
pub fn groups_begin_terms_once()
    ensures { (m : Machine) (turns : List Turn) → BeginsTermsOnce m turns }
{}
