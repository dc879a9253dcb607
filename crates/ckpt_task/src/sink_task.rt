//! A task whose elements on one output are published once their record is completed.

ghost use Rattle.std.specs.Prelude.{◌≡◌, ◌↔◌, ◌≢◌, ◌++◌, ℕ, None, Some, Err, IfErr, IfOk, OnErr, OnOk, map, true, false};
ghost use Rattle.ckpt_align.specs.{Alignment.is_a_task, Alignment.opened, declared.event.Refusal.Refusal};
ghost use Rattle.ckpt_align.specs.declared.aligner.OpenFault.TheVariants as open_fault;
ghost use Rattle.ckpt_ledger.specs.Ledgers.{Completes, Writes, after_entries, after_entry, nothing};
ghost use Rattle.ckpt_once.specs.{Programs.on_output, Sinks.up_to};
ghost use Rattle.ckpt_task.specs.Saving.{state_under, waiting_under};
ghost use Rattle.ckpt_task.specs.SinkTurns.{IsRefusedAs, SaysRefusal, after_outcome, after_turn};
ghost use Rattle.ckpt_task.specs.Turns.{IsSaved, abandoned_as, abandoned_in, answer_in, as_turn, cut_in, cut_of, is_held, is_left, put_on, puts, refusal_as, refusals_of, turned};
ghost use Rattle.ckpt_task.specs.declared.sink_task.SinkFault.TheVariants as sink_fault;

use crate::program::{Emitted, Program};
use crate::snapshots::Snapshots;
use crate::task::{StartFault, Task};
use crate::turn::{Next, Outcome, TurnFault};
use ckpt_align::{Aligner, OpenFault, Refusal};
use ckpt_ids::CheckpointId;
use ckpt_ledger::{Ledger, Transaction};
use std::alloc::{AllocError, Global};
use std::marker::Model;
use thiserror::Error;

/// Why there was no turn of a sink.
#[derive(Clone, Copy, Debug, PartialEq, Eq, Error)]
pub enum SinkFault {
    /// The aligner refuses it: the engine broke the rules. Nothing has changed.
    #[error("{0}")]
    Refused(Refusal),
    /// Memory ran out. Nothing has changed.
    #[error("out of memory")]
    Memory,
    /// Memory ran out in the middle of a turn, now or before. The job is restored.
    #[error("the sink has failed")]
    Failed,
}

/// A task with one output that no channel carries: what it puts there is held back by its ledger, and
/// published once the record that seals it is completed.
pub struct SinkTask<P: Program> {
    task: Task<P>,
    ledger: Ledger,
    output: u32,
    // memory ran out in the middle of a turn
    has_failed: bool,
}

impl<P: Program> Drop for SinkTask<P> {
    fn drop(self) {
        let SinkTask {
            task: _,
            ledger: _,
            output: _,
            has_failed: _,
        } = self;
    }
}

impl<P: Program> Model for SinkTask<P> {
    ghost use Rattle.ckpt_task.specs.SinkTurns.{SinkAt};

    ghost Value = { SinkAt };

    ghost view = { λ s. record { task = s.task; held = s.ledger; output = s.output; has_failed = s.has_failed } };
}

/// Writes the elements that are on this output.
fn write_each(ledger: &mut Ledger, output: u32, ones: &[Emitted]) -> Result<(), AllocError>
    ensures { OnOk result (ledger.new ≡ after_entries ledger.old (map Writes (on_output output ones.now))) }
{
    for one in ones {
        if one.output() == output {
            ledger.write(one.element())?;
        }
    }
    Ok(())
}

impl<P: Program> SinkTask<P> {
    /// The sink of a job that starts for the first time, for this output. It has this many inputs.
    ///
    /// Condition: the state is the one that the program starts with.
    pub fn start(
        alloc: Global,
        inputs: u32,
        output: u32,
        state: P,
    ) -> Result<SinkTask<P>, OpenFault>
        requires { P.number state ≡ P.program.start }
        ensures state { IfOk result (λ sink. sink.task.state ≡ P.program.start) }
        ensures opened { IfOk result (λ sink. sink.task.alignment ≡ opened inputs) }
        ensures nothing { IfOk result (λ sink. sink.held ≡ nothing) }
        ensures output { IfOk result (λ sink. sink.output ≡ output) }
        ensures going { IfOk result (λ sink. sink.has_failed ≡ false) }
        ensures refused { (result ≡ Err open_fault.BadInputs) ↔ (is_a_task inputs ≡ false) }
    {
        Ok(SinkTask {
            task: Task::start(alloc, inputs, state)?,
            ledger: Ledger::new(alloc),
            output,
            has_failed: false,
        })
    }

    /// The sink of a job that was restored to this record, with the transactions that it publishes
    /// now, unless it has done so: the word of the completion may have been lost. What it finds
    /// prepared beside these it gives up.
    pub fn restored<S: Snapshots<P>>(
        alloc: Global,
        inputs: u32,
        output: u32,
        id: CheckpointId,
        snapshots: &mut S,
    ) -> Result<(SinkTask<P>, Vec<Transaction>), StartFault>
        ensures state { IfOk result (λ r. state_under id (S.saved snapshots.old) ≡ Some r.0.task.state) }
        ensures publish { IfOk result (λ r. waiting_under id (S.saved snapshots.old) ≡ Some r.1.items) }
        ensures opened { IfOk result (λ r. r.0.task.alignment ≡ opened inputs) }
        ensures nothing { IfOk result (λ r. r.0.held ≡ nothing) }
        ensures output { IfOk result (λ r. r.0.output ≡ output) }
        ensures going { IfOk result (λ r. r.0.has_failed ≡ false) }
        ensures kept { S.saved snapshots.new ≡ S.saved snapshots.old }
    {
        let (task, publish) = Task::restored(alloc, inputs, id, snapshots)?;
        let sink = SinkTask {
            task,
            ledger: Ledger::new(alloc),
            output,
            has_failed: false,
        };
        Ok((sink, publish))
    }

    /// Takes a turn, as [`Task::turn`] does. What it puts on its own output is held back, and no
    /// channel carries it. The snapshot has what the ledger holds back, the transaction that the cut
    /// seals too.
    pub fn turn<S: Snapshots<P>>(
        &mut self,
        next: Next,
        snapshots: &mut S,
    ) -> Result<Outcome, SinkFault>
        ensures task { OnOk result (self.new.task ≡ turned P.program self.old.task (as_turn next)) }
        ensures ledger { OnOk result (self.new.held ≡ after_turn P.program self.old (as_turn next)) }
        ensures put { IfOk result (λ o. (c : ℕ) → put_on c o ≡ puts P.program self.old.task (as_turn next) c) }
        ensures held { IfOk result (λ o. is_held o ≡ is_left (answer_in self.old.task.alignment (as_turn next))) }
        ensures cut { IfOk result (λ o. cut_in o ≡ cut_of self.old.task.alignment (as_turn next)) }
        ensures abandoned { IfOk result (λ o. abandoned_in o ≡ abandoned_as (answer_in self.old.task.alignment (as_turn next))) }
        ensures snapshot { IfOk result (λ o. IsSaved o self.old.task.state self.new.held.waiting (S.saved snapshots.old) (S.saved snapshots.new)) }
        ensures refusal { IfOk result (λ o. S.refused snapshots.new ≡ refusals_of o ++ S.refused snapshots.old) }
        ensures refuses_none { OnErr result (S.refused snapshots.new ≡ S.refused snapshots.old) }
        ensures unsaved { OnErr result (S.saved snapshots.new ≡ S.saved snapshots.old) }
        ensures answered { OnOk result (refusal_as (answer_in self.old.task.alignment (as_turn next)) ≡ None) }
        ensures refused { IfErr result (λ why. IsRefusedAs why (answer_in self.old.task.alignment (as_turn next))) }
        ensures output { self.new.output ≡ self.old.output }
        ensures going { OnOk result (self.new.has_failed ≡ false) }
        ensures failed { IfErr result (λ why. why ≡ sink_fault.Failed → self.new.has_failed ≡ true) }
        ensures unchanged { IfErr result (λ why. why ≢ sink_fault.Failed → self.new ≡ self.old) }
        ensures stays { self.old.has_failed ≡ true → result ≡ Err sink_fault.Failed }
        ensures told { SaysRefusal self.old (as_turn next) result }
    {
        if self.has_failed {
            return Err(SinkFault::Failed);
        }
        let outcome = match self.task.step(next) {
            Ok(outcome) => outcome,
            Err(TurnFault::Refused(why)) => return Err(SinkFault::Refused(why)),
            Err(TurnFault::Memory) => return Err(SinkFault::Memory),
        };
        match self.enter(&outcome) {
            Ok(()) => Ok(self.task.saved(outcome, self.ledger.waiting(), snapshots)),
            Err(_) => {
                self.has_failed = true;
                Err(SinkFault::Failed)
            }
        }
    }

    /// The aligner of its task.
    pub fn aligner(&self) -> &Aligner
        ensures { result.now ≡ self.now.task.alignment }
    {
        self.task.aligner()
    }

    /// A record was completed: the sink publishes these transactions, in this order.
    pub fn completed(&mut self, id: CheckpointId) -> Result<Vec<Transaction>, AllocError>
        ensures published { IfOk result (λ ones. ones.items ≡ up_to id self.old.held.waiting) }
        ensures ok { OnOk result (self.new ≡ record self.old { held = after_entry self.old.held (Completes id) }) }
        ensures err { OnErr result (self.new ≡ self.old) }
    {
        self.ledger.completed(id)
    }

    /// What a turn enters into the ledger.
    fn enter(&mut self, outcome: &Outcome) -> Result<(), AllocError>
        ensures entered { OnOk result (self.new ≡ record self.old { held = after_outcome self.old.output self.old.held outcome.now }) }
        ensures output { self.new.output ≡ self.old.output }
    {
        match outcome {
            Outcome::Moved(ones) => write_each(&mut self.ledger, self.output, ones),
            Outcome::Cut(cut) => self.ledger.cut(cut),
            _ => Ok(()),
        }
    }
}
