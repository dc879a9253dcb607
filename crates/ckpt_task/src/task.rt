//! A task that takes one turn after the other.

ghost use Rattle.std.specs.Prelude.{◌≡◌, ◌↔◌, ◌++◌, ℕ, [], ◌∷◌, None, Some, Err, IfOk, OnErr, OnOk, false, map};
ghost use Rattle.ckpt_align.specs.{Alignment.is_a_task, Alignment.opened, declared.event.Refusal.Refusal, Histories.answer_to, Steps.step};
ghost use Rattle.ckpt_align.specs.declared.aligner.OpenFault.TheVariants as open_fault;
ghost use Rattle.ckpt_once.specs.Programs.{aligned, emitted_by, move_in, moves_in, on_output, state};
ghost use Rattle.ckpt_task.specs.Saving.{state_under, waiting_under};
ghost use Rattle.ckpt_task.specs.Turns.{IsSaved, IsToldAs, abandoned_as, abandoned_in, answer_in, as_turn, cut_in, cut_of, emitted_in, is_held, is_left, is_unsaved, offers, put_on, puts, refusal_as, refusal_in, refusals_of, told_as};

use crate::program::Program;
use crate::snapshots::{Loaded, SnapshotFault, Snapshots};
use crate::turn::{Next, Outcome, TurnFault};
use ckpt_align::{Aligner, Answer, Event, OpenFault};
use ckpt_ids::CheckpointId;
use ckpt_ledger::Transaction;
use std::alloc::Global;
use std::marker::Model;
use thiserror::Error;

/// Why a task was not started from a snapshot.
#[derive(Clone, Copy, Debug, PartialEq, Eq, Error)]
pub enum StartFault {
    /// Its aligner was not made.
    #[error("{0}")]
    Aligner(OpenFault),
    /// Its snapshot was not loaded.
    #[error("{0}")]
    Snapshot(SnapshotFault),
}

/// A task: its state, with the program that changes it, and its aligner.
pub struct Task<P: Program> {
    state: P,
    aligner: Aligner,
}

impl<P: Program> Drop for Task<P> {
    fn drop(self) {
        let Task {
            state: _,
            aligner: _,
        } = self;
    }
}

impl<P: Program> Model for Task<P> {
    ghost use Rattle.ckpt_task.specs.Turns.{At};

    ghost Value = { At };

    ghost view = { λ t. record { state = P.number t.state; alignment = t.aligner } };
}

impl<P: Program> Task<P> {
    /// The task of a job that starts for the first time. It has this many inputs.
    ///
    /// Condition: the state is the one that the program starts with.
    pub fn start(alloc: Global, inputs: u32, state: P) -> Result<Task<P>, OpenFault>
        requires { P.number state ≡ P.program.start }
        ensures state { IfOk result (λ task. task.state ≡ P.program.start) }
        ensures opened { IfOk result (λ task. task.alignment ≡ opened inputs) }
        ensures refused { (result ≡ Err open_fault.BadInputs) ↔ (is_a_task inputs ≡ false) }
    {
        Ok(Task {
            state,
            aligner: Aligner::new(alloc, inputs)?,
        })
    }

    /// The task of a job that was restored to this record: it goes on from its snapshot.
    pub fn restored<S: Snapshots<P>>(
        alloc: Global,
        inputs: u32,
        id: CheckpointId,
        snapshots: &mut S,
    ) -> Result<(Task<P>, Vec<Transaction>), StartFault>
        ensures state { IfOk result (λ r. state_under id (S.saved snapshots.old) ≡ Some r.0.state) }
        ensures waiting { IfOk result (λ r. waiting_under id (S.saved snapshots.old) ≡ Some r.1.items) }
        ensures opened { IfOk result (λ r. r.0.alignment ≡ opened inputs) }
        ensures kept { S.saved snapshots.new ≡ S.saved snapshots.old }
    {
        let Loaded { state, waiting } = match snapshots.load(id) {
            Ok(loaded) => loaded,
            Err(fault) => return Err(StartFault::Snapshot(fault)),
        };
        match Aligner::new(alloc, inputs) {
            Ok(aligner) => Ok((Task { state, aligner }, waiting)),
            Err(fault) => Err(StartFault::Aligner(fault)),
        }
    }

    /// Takes a turn. After an error nothing has changed.
    pub fn turn<S: Snapshots<P>>(
        &mut self,
        next: Next,
        snapshots: &mut S,
    ) -> Result<Outcome, TurnFault>
        ensures state { OnOk result (self.new.state ≡ state P.program self.old.state (moves_in self.old.alignment (as_turn next ∷ []))) }
        ensures aligner { OnOk result (self.new.alignment ≡ aligned self.old.alignment (as_turn next ∷ [])) }
        ensures emitted { IfOk result (λ o. emitted_in o ≡ emitted_by P.program self.old.state (move_in self.old.alignment (as_turn next))) }
        ensures put { IfOk result (λ o. (c : ℕ) → put_on c o ≡ puts P.program self.old (as_turn next) c) }
        ensures held { IfOk result (λ o. is_held o ≡ is_left (answer_in self.old.alignment (as_turn next))) }
        ensures cut { IfOk result (λ o. cut_in o ≡ cut_of self.old.alignment (as_turn next)) }
        ensures abandoned { IfOk result (λ o. abandoned_in o ≡ abandoned_as (answer_in self.old.alignment (as_turn next))) }
        ensures snapshot { IfOk result (λ o. IsSaved o self.old.state [] (S.saved snapshots.old) (S.saved snapshots.new)) }
        ensures refusal { IfOk result (λ o. S.refused snapshots.new ≡ refusals_of o ++ S.refused snapshots.old) }
        ensures refused { refusal_in result ≡ refusal_as (answer_in self.old.alignment (as_turn next)) }
        ensures unchanged { OnErr result (self.new ≡ self.old) }
        ensures unsaved { OnErr result (S.saved snapshots.new ≡ S.saved snapshots.old) }
        ensures refuses_none { OnErr result (S.refused snapshots.new ≡ S.refused snapshots.old) }
    {
        match self.step(next) {
            Ok(outcome) => Ok(self.saved(outcome, &[], snapshots)),
            Err(fault) => Err(fault),
        }
    }

    /// Its aligner.
    pub fn aligner(&self) -> &Aligner
        ensures { result.now ≡ self.now.alignment }
    {
        &self.aligner
    }

    /// Ends the task, after a turn: the engine puts the end on each output. What is left is its state.
    pub fn end(self) -> P
        ensures { P.number result ≡ self.state }
    {
        let Task { state, aligner: _ } = self;
        state
    }

    /// A turn, but for the snapshot.
    #[tactic(auto, using(crate::proofs::Turning::sent_sendings))]
    pub(crate) fn step(&mut self, next: Next) -> Result<Outcome, TurnFault>
        ensures state { OnOk result (self.new.state ≡ state P.program self.old.state (moves_in self.old.alignment (as_turn next ∷ []))) }
        ensures aligner { OnOk result (self.new.alignment ≡ aligned self.old.alignment (as_turn next ∷ [])) }
        ensures emitted { IfOk result (λ o. emitted_in o ≡ emitted_by P.program self.old.state (move_in self.old.alignment (as_turn next))) }
        ensures put { IfOk result (λ o. (c : ℕ) → put_on c o ≡ puts P.program self.old (as_turn next) c) }
        ensures held { IfOk result (λ o. is_held o ≡ is_left (answer_in self.old.alignment (as_turn next))) }
        ensures cut { IfOk result (λ o. cut_in o ≡ cut_of self.old.alignment (as_turn next)) }
        ensures abandoned { IfOk result (λ o. abandoned_in o ≡ abandoned_as (answer_in self.old.alignment (as_turn next))) }
        ensures fresh { IfOk result (λ o. is_unsaved o ≡ false) }
        ensures refused { refusal_in result ≡ refusal_as (answer_in self.old.alignment (as_turn next)) }
        ensures unchanged { OnErr result (self.new ≡ self.old) }
    {
        match next {
            Next::Element(input, element) => self.element(input, element),
            Next::Barrier(input, id) => self.tell(Event::Barrier(input, id)),
            Next::End(input) => self.tell(Event::End(input)),
            Next::GiveUp(id) => self.tell(Event::GiveUp(id)),
            Next::Draw => Ok(Outcome::Moved(self.state.draw()?)),
        }
    }

    /// An element is next on this input.
    #[tactic(auto, using(crate::proofs::Turning::element_stays, crate::proofs::Turning::element_put))]
    fn element(&mut self, input: u32, element: u64) -> Result<Outcome, TurnFault>
        ensures state { OnOk result (self.new.state ≡ state P.program self.old.state (moves_in self.old.alignment (offers input element ∷ []))) }
        ensures aligner { OnOk result (self.new.alignment ≡ aligned self.old.alignment (offers input element ∷ [])) }
        ensures emitted { IfOk result (λ o. emitted_in o ≡ emitted_by P.program self.old.state (move_in self.old.alignment (offers input element))) }
        ensures put { IfOk result (λ o. (c : ℕ) → put_on c o ≡ puts P.program self.old (offers input element) c) }
        ensures held { IfOk result (λ o. is_held o ≡ is_left (answer_in self.old.alignment (offers input element))) }
        ensures cut { IfOk result (λ o. cut_in o ≡ cut_of self.old.alignment (offers input element)) }
        ensures abandoned { IfOk result (λ o. abandoned_in o ≡ abandoned_as (answer_in self.old.alignment (offers input element))) }
        ensures fresh { IfOk result (λ o. is_unsaved o ≡ false) }
        ensures refused { refusal_in result ≡ refusal_as (answer_in self.old.alignment (offers input element)) }
        ensures unchanged { OnErr result (self.new ≡ self.old) }
    {
        match self.aligner.apply(Event::Element(input))? {
            Answer::Process => Ok(Outcome::Moved(self.state.take(input, element)?)),
            _ => Ok(Outcome::Held),
        }
    }

    /// A barrier or an end is next on an input, or a record is given up.
    fn tell(&mut self, event: Event) -> Result<Outcome, TurnFault>
        ensures state { self.new.state ≡ self.old.state }
        ensures aligner { self.new.alignment ≡ (step self.old.alignment event).0 }
        ensures outcome { result ≡ told_as (step self.old.alignment event).1 }
        ensures unchanged { OnErr result (self.new.alignment ≡ self.old.alignment) }
    {
        let (answer, cut) = self.aligner.ask(event)?;
        if let Some(cut) = cut {
            return Ok(Outcome::Cut(cut));
        }
        match answer {
            Answer::Hold => Ok(Outcome::Held),
            Answer::Abandon(id) => Ok(Outcome::Abandoned(id)),
            _ => Ok(Outcome::Nothing),
        }
    }

    /// The outcome of a turn once the snapshot of its cut is saved.
    pub(crate) fn saved<S: Snapshots<P>>(
        &self,
        outcome: Outcome,
        waiting: &[Transaction],
        snapshots: &mut S,
    ) -> Outcome
        ensures same { IsToldAs outcome result }
        ensures snapshot { IsSaved result self.now.state waiting.now (S.saved snapshots.old) (S.saved snapshots.new) }
        ensures refusal { is_unsaved outcome ≡ false → S.refused snapshots.new ≡ refusals_of result ++ S.refused snapshots.old }
    {
        match outcome {
            Outcome::Cut(cut) => match snapshots.save(cut.id(), &self.state, waiting) {
                Ok(()) => Outcome::Cut(cut),
                Err(_) => Outcome::Unsaved(cut.id()),
            },
            outcome => outcome,
        }
    }
}
