//! The laws of the chain with the files of a storage, each on a function that does nothing.

ghost use Rattle.std.specs.Prelude.{List, [], ◌∷◌};
ghost use Rattle.ckpt_chain.specs.Storages.{Act, AreAllowed, AreStored, FilesStay, Storage, begun};
ghost use Rattle.ckpt_chain.specs.Stored.{AreReadBack, NothingIsLost, Place, StoredAttempt, now_at, read_from};
ghost use Rattle.ckpt_chain.specs.{Told.NeverGoesBack, WorkedStorage.attempt, WorkedStorage.place};
ghost use Rattle.ckpt_durable.specs.Groups.{synced};
ghost use Rattle.ckpt_logged.specs.Events.{IsWell};
ghost use Rattle.ckpt_once.specs.Jobs.{History, IsHistory, IsJob, Job};
ghost use Rattle.ckpt_once.specs.WorkedExamples.{job};
ghost use Rattle.ckpt_task.specs.{Loops.history_of, WorkedLoops.again};
ghost use Rattle.ckpt_terms.specs.declared.machine.Machine.{Machine};

/// Each file of a live record is there with the content that was written, whatever crashes, if files are
/// written before they are acknowledged, and only those are removed of which the program was told that
/// they may be deleted.
#[tactic(auto, using(crate::proofs::Storing::files_stay_at))]
pub fn files_stay()
    ensures { (m : Machine) (s : Storage) (acts : List Act) → IsWell m → FilesStay m s acts }
{}

/// No lost file, no doubled output, whatever crashes: what restarts read from the files are the snapshots,
/// and so failures are invisible.
#[tactic(auto, using(crate::proofs::ReadingBack::nothing_is_lost))]
pub fn nothing_is_lost()
    ensures { (p : Place) (job : Job) (ks : List StoredAttempt) (h : History) → IsWell p.begin → NothingIsLost p job ks h }
{}

/// The worked example, in which the coordinator crashes twice, and a file that a late task wrote is
/// removed, meets the premises of both.
pub fn worked_files()
    ensures is_well { IsWell place.begin }
    ensures are_stored { AreStored place.begin place.storage }
    ensures are_allowed { AreAllowed (begun place.begin place.storage) place.acts }
    ensures is_job { IsJob job }
    ensures never_goes_back { NeverGoesBack place.begin (synced (now_at place).world) }
    ensures are_read_back { AreReadBack place job (attempt ∷ []) }
    ensures goes_on { IsHistory job (read_from place job (attempt ∷ [])) (history_of again) }
{}
