//! The alignment of one task.

ghost use Rattle.std.specs.Prelude.{◌≡◌, ◌↔◌, false, map, Ok, Err, Some, IfOk, IfErr, OnOk, OnErr, slice_get};
ghost use Rattle.std.specs.List.{list_any};
ghost use Rattle.ckpt_align.specs.Alignment.{all_released, held_for, is_a_task, is_aligning, is_late, is_open, opened, released, with_input};
ghost use Rattle.ckpt_align.specs.Histories.{cut_as};
ghost use Rattle.ckpt_align.specs.Steps.{Stepped, barrier, element, give_up, if_open, settled, step};

use crate::cut::Cut;
use crate::event::{Answer, Event, Refusal};
use crate::input::Input;
use ckpt_ids::CheckpointId;
use std::alloc::{AllocError, Global};
use std::marker::Model;
use thiserror::Error;

/// The most inputs of a task.
pub const MOST_INPUTS: u32 = 4096;

/// Why an aligner was not made.
#[derive(Clone, Copy, Debug, PartialEq, Eq, Error)]
pub enum OpenFault {
    /// There are no inputs, or more than [`MOST_INPUTS`].
    #[error("bad number of inputs")]
    BadInputs,
    /// Memory ran out.
    #[error("out of memory")]
    Memory,
}

impl From<AllocError> for OpenFault {
    ghost use Rattle.std.specs.Prelude.{◌≡◌};
    ghost use Rattle.ckpt_align.specs.declared.aligner.OpenFault.TheVariants.{Memory};

    ghost from_gives = { λ _ fault. fault ≡ Memory };

    fn from(_error: AllocError) -> OpenFault {
        OpenFault::Memory
    }
}

/// The alignment of a task with several inputs.
///
/// Only [`Aligner::new`] takes memory: a byte for each input. A call takes constant time, but for a
/// cut and an abandoned record, which visit each input once.
#[derive(Debug)]
pub struct Aligner {
    inputs: Vec<Input>,
    // how many inputs are open, and how many are held
    open_count: u32,
    held_count: u32,
    latest: u64,
}

impl Drop for Aligner {
    fn drop(self) {
        let Aligner {
            inputs: _,
            open_count: _,
            held_count: _,
            latest: _,
        } = self;
    }
}

impl Model for Aligner {
    ghost use Rattle.ckpt_align.specs.Alignment.{Alignment};
    ghost use Rattle.ckpt_align.specs.Counts.{AreCounted};

    ghost Value = { Alignment };

    ghost view = { λ a. record { inputs = a.inputs.items; latest = a.latest } };

    ghost invariant = { λ a. AreCounted a.inputs.items a.open_count a.held_count };
}

/// Releases the inputs that are held.
fn release_each(inputs: &mut [Input])
    ensures { inputs.new ≡ map released inputs.old }
{
    for input in inputs.iter_mut() {
        *input = input.released();
    }
}

impl Aligner {
    /// The aligner of a task with this many inputs, all open.
    ///
    /// Returns [`OpenFault::BadInputs`] exactly unless there are 1 to [`MOST_INPUTS`]. Otherwise it
    /// returns [`OpenFault::Memory`] if memory runs out.
    pub fn new(alloc: Global, inputs: u32) -> Result<Aligner, OpenFault>
        ensures refused { (result ≡ Err OpenFault.BadInputs) ↔ (is_a_task inputs ≡ false) }
        ensures value { IfOk result (λ aligner. aligner ≡ opened inputs) }
    {
        if inputs < 1 || inputs > MOST_INPUTS {
            return Err(OpenFault::BadInputs);
        }
        let each = vec![in alloc; Input::Open; inputs as usize]?;
        Ok(Aligner {
            inputs: each,
            open_count: inputs,
            held_count: 0,
            latest: 0,
        })
    }

    /// How an input is, or `None` if the task has no such input.
    pub fn input(&self, input: u32) -> Option<Input>
        ensures { result ≡ slice_get self.now.inputs input }
    {
        self.inputs.get(input as usize).copied()
    }

    /// The greatest record that an alignment began for; 0 before the first.
    pub fn latest(&self) -> CheckpointId
        ensures { result ≡ self.now.latest }
    {
        CheckpointId(self.latest)
    }

    /// Whether a record is being aligned. It is the [`latest`](Aligner::latest) one.
    pub fn is_aligning(&self) -> bool
        ensures { result ≡ is_aligning self.now }
    {
        self.held_count > 0
    }

    /// Whether an input is open.
    fn has_open(&self) -> bool
        ensures { result ≡ list_any is_open self.now.inputs }
    {
        self.open_count > 0
    }

    /// An event, and what the engine does then. Takes no memory. After a refusal nothing has
    /// changed.
    #[tactic(auto, unfolding(crate::specs::Steps::step))]
    pub fn apply(&mut self, event: Event) -> Result<Answer, Refusal>
        ensures state { self.new ≡ (step self.old event).0 }
        ensures answer { result ≡ (step self.old event).1 }
        ensures refused { OnErr result (self.new ≡ self.old) }
    {
        match event {
            Event::Element(input) => self.element(input),
            Event::Barrier(input, id) => {
                self.open_input(input)?;
                Ok(self.barrier(input, id.0))
            }
            Event::End(input) => {
                self.open_input(input)?;
                self.end(input);
                Ok(self.settle())
            }
            Event::GiveUp(id) => Ok(self.give_up(id.0)),
        }
    }

    /// As [`Aligner::apply`]; and at a cut the [`Cut`], with which the task acknowledges the record.
    pub fn ask(&mut self, event: Event) -> Result<(Answer, Option<Cut>), Refusal>
        ensures state { self.new ≡ (step self.old event).0 }
        ensures answer { IfOk result (λ told. (step self.old event).1 ≡ Ok told.0) }
        ensures refusal { IfErr result (λ why. (step self.old event).1 ≡ Err why) }
        ensures refused { OnErr result (self.new ≡ self.old) }
        ensures cut { IfOk result (λ told. told.1 ≡ cut_as (Ok told.0)) }
    {
        match self.apply(event)? {
            Answer::Cut(id) => Ok((Answer::Cut(id), Some(Cut::of(id)))),
            answer => Ok((answer, None)),
        }
    }

    /// Whether an element of this input may be processed now.
    fn element(&self, input: u32) -> Result<Answer, Refusal>
        ensures { result ≡ (element self.now (slice_get self.now.inputs input)).1 }
    {
        match self.input(input) {
            None => Err(Refusal::UnknownInput),
            Some(Input::Open) => Ok(Answer::Process),
            Some(Input::Held) => Ok(Answer::Hold),
            Some(Input::Ended) => Err(Refusal::EndedInput),
        }
    }

    /// Refuses a barrier or an end unless this input is open.
    fn open_input(&self, input: u32) -> Result<(), Refusal>
        ensures ok { OnOk result (slice_get self.now.inputs input ≡ Some Input.Open) }
        ensures err { IfErr result (λ why. (stepped : Stepped) → if_open self.now (slice_get self.now.inputs input) stepped ≡ (self.now, Err why)) }
    {
        match self.input(input) {
            None => Err(Refusal::UnknownInput),
            Some(Input::Open) => Ok(()),
            Some(Input::Held) => Err(Refusal::HeldInput),
            Some(Input::Ended) => Err(Refusal::EndedInput),
        }
    }

    /// An open input has ended.
    ///
    /// Condition: the input is open.
    fn end(&mut self, input: u32)
        requires { slice_get self.old.inputs input ≡ Some Input.Open }
        ensures { self.new ≡ with_input self.old input Input.Ended }
    {
        self.inputs[input as usize] = Input::Ended;
        self.open_count -= 1;
    }

    /// An open input has delivered the barrier of this record.
    ///
    /// Condition: the input is open.
    fn hold(&mut self, input: u32, id: u64)
        requires { slice_get self.old.inputs input ≡ Some Input.Open }
        ensures { self.new ≡ held_for self.old input id }
    {
        self.inputs[input as usize] = Input::Held;
        self.open_count -= 1;
        self.held_count += 1;
        self.latest = id;
    }

    /// Releases the inputs that are held.
    fn release(&mut self)
        ensures { self.new ≡ all_released self.old }
    {
        release_each(&mut self.inputs);
        self.open_count += self.held_count;
        self.held_count = 0;
    }

    /// Whether a barrier of this record comes too late: the record was cut or given up, or a greater
    /// one is being aligned.
    fn is_late(&self, id: u64) -> bool
        ensures { result ≡ is_late self.now id }
    {
        if self.is_aligning() {
            id < self.latest
        } else {
            id <= self.latest
        }
    }

    /// The cut, if a record is being aligned and no input is open any more.
    #[tactic(auto, unfolding(crate::specs::Steps::settled))]
    fn settle(&mut self) -> Answer
        ensures state { self.new ≡ (settled self.old).0 }
        ensures answer { Ok result ≡ (settled self.old).1 }
    {
        if !self.is_aligning() {
            return Answer::Nothing;
        }
        if self.has_open() {
            return Answer::Wait;
        }
        self.release();
        Answer::Cut(CheckpointId(self.latest))
    }

    /// A barrier on an open input.
    ///
    /// Condition: the input is open.
    #[tactic(auto, unfolding(crate::specs::Steps::barrier))]
    fn barrier(&mut self, input: u32, id: u64) -> Answer
        requires { slice_get self.old.inputs input ≡ Some Input.Open }
        ensures state { self.new ≡ (barrier self.old input id).0 }
        ensures answer { Ok result ≡ (barrier self.old input id).1 }
    {
        if self.is_late(id) {
            return Answer::Late;
        }
        let before = self.latest;
        if self.is_aligning() && before < id {
            self.release();
            self.hold(input, id);
            return Answer::Abandon(CheckpointId(before));
        }
        self.hold(input, id);
        self.settle()
    }

    /// A record is given up.
    #[tactic(auto, unfolding(crate::specs::Steps::give_up))]
    fn give_up(&mut self, id: u64) -> Answer
        ensures state { self.new ≡ (give_up self.old id).0 }
        ensures answer { Ok result ≡ (give_up self.old id).1 }
    {
        if !self.is_aligning() || id != self.latest {
            return Answer::Nothing;
        }
        self.release();
        Answer::Abandon(CheckpointId(id))
    }
}
