//! The loop of a sink: it takes turns until nothing comes.

ghost use Rattle.std.specs.Prelude.{IfOk, OnErr};
ghost use Rattle.ckpt_task.specs.Runs.{SinkStops, SinksOnce, SinksOver, StopsOnce};

use crate::channels::Channels;
use crate::program::Program;
use crate::runner::{RunFault, carry_out};
use crate::sink_task::SinkTask;
use crate::snapshots::Snapshots;

impl<P: Program> SinkTask<P> {
    /// Takes turns until nothing comes, and at most this many, as [`Task::run`] does. Returns how many
    /// they were. The ledger is told each write and each cut, and each snapshot has what it holds back.
    /// After a fault nothing more is done.
    pub fn run<C: Channels, S: Snapshots<P>>(
        &mut self,
        channels: &mut C,
        snapshots: &mut S,
        turns: u64,
    ) -> Result<u64, RunFault>
        ensures ran { IfOk result (SinksOver P.program C.deeds S.saved S.refused self.old channels.old snapshots.old self.new channels.new snapshots.new) }
        ensures stopped { OnErr result (SinkStops P.program C.deeds S.saved S.refused self.old channels.old snapshots.old self.new channels.new snapshots.new) }
    {
        for done in 0..turns {
            if !self.run_once(channels, snapshots)? {
                return Ok(done);
            }
        }
        Ok(turns)
    }

    /// Takes a turn, if anything comes.
    fn run_once<C: Channels, S: Snapshots<P>>(
        &mut self,
        channels: &mut C,
        snapshots: &mut S,
    ) -> Result<bool, RunFault>
        ensures turned { IfOk result (SinksOnce P.program C.deeds S.saved S.refused self.old channels.old snapshots.old self.new channels.new snapshots.new) }
        ensures stopped { OnErr result (StopsOnce P.program C.deeds S.saved S.refused self.old channels.old snapshots.old self.new channels.new snapshots.new) }
    {
        let Some(next) = channels.next(self.aligner())? else {
            return Ok(false);
        };
        let outcome = self.turn(next, snapshots)?;
        carry_out(outcome, channels)?;
        Ok(true)
    }
}
