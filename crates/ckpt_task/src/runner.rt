//! The loop of a task: it takes turns until nothing comes.

ghost use Rattle.std.specs.Prelude.{◌≡◌, ◌∷◌, ◌++◌, ℕ, IfOk, OnErr, OnOk};
ghost use Rattle.ckpt_once.specs.Programs.{Ended};
ghost use Rattle.ckpt_task.specs.declared.deed.Deed.TheVariants as deed;
ghost use Rattle.ckpt_task.specs.Deeds.{IsPart, IsUnfinished, after_sends, deeds_after, sent_in};
ghost use Rattle.ckpt_task.specs.Turns.{puts};
ghost use Rattle.ckpt_task.specs.Runs.{RunStops, RunsOver, TurnStops, TurnsOver};

use crate::channels::{ChannelFault, Channels};
use crate::program::{Emitted, Program};
use crate::sink_task::SinkFault;
use crate::snapshots::Snapshots;
use crate::task::Task;
use crate::turn::{Outcome, TurnFault};
use thiserror::Error;

/// Why a run ended early. The job is restored.
#[derive(Clone, Copy, Debug, PartialEq, Eq, Error)]
pub enum RunFault {
    /// There was no turn.
    #[error("{0}")]
    Turn(TurnFault),
    /// There was no turn of a sink.
    #[error("{0}")]
    Sink(SinkFault),
    /// A channel failed.
    #[error("{0}")]
    Channel(ChannelFault),
}

impl From<TurnFault> for RunFault {
    ghost use Rattle.std.specs.Prelude.{◌≡◌};
    ghost use Rattle.ckpt_task.specs.declared.runner.RunFault.TheVariants.{Turn};

    ghost from_gives = { λ why fault. fault ≡ Turn why };

    fn from(why: TurnFault) -> RunFault {
        RunFault::Turn(why)
    }
}

impl From<SinkFault> for RunFault {
    ghost use Rattle.std.specs.Prelude.{◌≡◌};
    ghost use Rattle.ckpt_task.specs.declared.runner.RunFault.TheVariants.{Sink};

    ghost from_gives = { λ why fault. fault ≡ Sink why };

    fn from(why: SinkFault) -> RunFault {
        RunFault::Sink(why)
    }
}

impl From<ChannelFault> for RunFault {
    ghost use Rattle.std.specs.Prelude.{◌≡◌};
    ghost use Rattle.ckpt_task.specs.declared.runner.RunFault.TheVariants.{Channel};

    ghost from_gives = { λ why fault. fault ≡ Channel why };

    fn from(why: ChannelFault) -> RunFault {
        RunFault::Channel(why)
    }
}

/// Puts these elements on their outputs.
fn send_each<C: Channels>(channels: &mut C, ones: &[Emitted]) -> Result<(), ChannelFault>
    ensures done { OnOk result (C.deeds channels.new ≡ after_sends ones.now (C.deeds channels.old)) }
    ensures stopped { OnErr result (IsUnfinished (C.deeds channels.new) (after_sends ones.now (C.deeds channels.old))) }
{
    for one in ones {
        channels.send(one.output(), one.element())?;
    }
    Ok(())
}

/// Does what an outcome says. After a fault it does nothing more.
pub(crate) fn carry_out<C: Channels>(outcome: Outcome, channels: &mut C) -> Result<(), ChannelFault>
    ensures done { OnOk result (C.deeds channels.new ≡ deeds_after outcome (C.deeds channels.old)) }
    ensures stopped { OnErr result (IsPart (C.deeds channels.old) (C.deeds channels.new) (deeds_after outcome (C.deeds channels.old))) }
{
    match outcome {
        Outcome::Held => Ok(()),
        Outcome::Moved(ones) => {
            channels.take()?;
            send_each(channels, &ones)
        }
        Outcome::Nothing => channels.take(),
        Outcome::Cut(cut) => {
            channels.take()?;
            channels.send_barrier(cut.id())?;
            channels.acknowledge(cut)
        }
        Outcome::Unsaved(id) => {
            channels.take()?;
            channels.send_barrier(id)?;
            channels.decline(id)
        }
        Outcome::Abandoned(id) => {
            channels.take()?;
            channels.decline(id)
        }
    }
}

impl<P: Program> Task<P> {
    /// Takes turns until nothing comes, and at most this many. Returns how many they were.
    ///
    /// In each turn the task is told what comes, and saves its snapshot if it cuts a record. Then what
    /// came is taken from its channel, unless it is held; what the turn puts on the outputs is put there;
    /// and the record is acknowledged or declined. After a fault nothing more is done: the turns before it
    /// are a run, and of the one that it stopped a part may be done.
    pub fn run<C: Channels, S: Snapshots<P>>(
        &mut self,
        channels: &mut C,
        snapshots: &mut S,
        turns: u64,
    ) -> Result<u64, RunFault>
        ensures ran { IfOk result (RunsOver P.program C.deeds S.saved S.refused self.old channels.old snapshots.old self.new channels.new snapshots.new) }
        ensures stopped { OnErr result (RunStops P.program C.deeds S.saved S.refused self.old channels.old snapshots.old self.new channels.new snapshots.new) }
    {
        for done in 0..turns {
            if !self.run_once(channels, snapshots)? {
                return Ok(done);
            }
        }
        Ok(turns)
    }

    /// Ends the task, after a run: puts the end on each output. What is left is its state.
    pub fn finish<C: Channels>(self, channels: &mut C) -> Result<P, ChannelFault>
        ensures state { IfOk result (λ state. P.number state ≡ self.state) }
        ensures ended { OnOk result (C.deeds channels.new ≡ deed.SentEnd ∷ C.deeds channels.old) }
        ensures sent { OnOk result ((c : ℕ) → sent_in c (C.deeds channels.new) ≡ sent_in c (C.deeds channels.old) ++ puts P.program self Ended c) }
    {
        channels.send_end()?;
        Ok(self.end())
    }

    /// Takes a turn, if anything comes.
    fn run_once<C: Channels, S: Snapshots<P>>(
        &mut self,
        channels: &mut C,
        snapshots: &mut S,
    ) -> Result<bool, RunFault>
        ensures turned { IfOk result (TurnsOver P.program C.deeds S.saved S.refused self.old channels.old snapshots.old self.new channels.new snapshots.new) }
        ensures stopped { OnErr result (TurnStops P.program C.deeds S.saved S.refused self.old channels.old snapshots.old self.new channels.new snapshots.new) }
    {
        let Some(next) = channels.next(self.aligner())? else {
            return Ok(false);
        };
        let outcome = self.turn(next, snapshots)?;
        carry_out(outcome, channels)?;
        Ok(true)
    }
}
