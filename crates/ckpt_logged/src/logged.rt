//! A coordinator, with names or without, and, for clauses alone, the list of what it was asked.

ghost use Rattle.std.specs.Prelude.{◌≡◌, ◌≢◌, true, [], Some, None, Err, IfOk, OnOk, OnErr};
ghost use Rattle.std.specs.Result.{result_err};
ghost use Rattle.ckpt_ids.specs.declared.call.Call.TheVariants as call;
ghost use Rattle.ckpt_memory.specs.Refusals.{one_more};
ghost use Rattle.ckpt_model.specs.{Soundness.IsCall, Memory.may_want_memory, Steps.step};
ghost use Rattle.ckpt_terms.specs.declared.machine.FenceFault.TheVariants as fault;
ghost use Rattle.ckpt_terms.specs.Machines.{MakesStep, core_in, fence_fault, first_names, is_free, machine_of, machine_step, names_in, passes};
ghost use Rattle.ckpt_terms.specs.FencedLaws.{IsFencedCall};
ghost use Rattle.ckpt_logged.specs.Events.{Fence, IsWell, Named, Plain, named_answer, named_step, named_wants};
ghost use Rattle.ckpt_logged.specs.{Chronicles.begun, Chronicles.told, Promises.Promises};

use crate::noted::Noted;
use crate::past::Past;
use ckpt_core::Core;
use ckpt_ids::{Answer, Call, CheckpointId};
use ckpt_memory::Meter;
use ckpt_terms::{FenceFault, FencedAnswer, FencedCall, Machine};
use std::alloc::{AllocError, Global};
use std::marker::Model;
use std::snapshot::Snapshot;

/// A coordinator, the state that it began with, and what it was asked since. Only clauses read the
/// last two: they take no bytes.
pub struct Logged {
    machine: Machine,
    begin: Snapshot<Machine>,
    events: Past,
}

impl Drop for Logged {
    fn drop(self) {
        let Logged {
            machine: _,
            begin: _,
            events: _,
        } = self;
    }
}

impl Model for Logged {
    ghost use Rattle.ckpt_logged.specs.Chronicles.{Chronicle, IsChronicle};

    ghost Value = { Chronicle };

    ghost view = { λ l. record { now = l.machine; begin = l.begin.value; events = l.events } };

    ghost invariant = { λ l. IsChronicle (record { now = l.machine; begin = l.begin.value; events = l.events }) };
}

impl Logged {
    /// A coordinator that begins here: one that was opened, or made from an image.
    pub fn of(machine: Machine) -> Logged
        ensures begun { result ≡ begun machine }
        ensures sound { IsWell machine }
    {
        recall_machine(&machine);
        let begin = Snapshot::of(&machine);
        Logged {
            machine,
            begin,
            events: Past::new(),
        }
    }

    /// Makes a call without a term, as [`Machine::apply`] does.
    pub fn apply(&mut self, call: &Call) -> Result<FencedAnswer, AllocError>
        ensures done { IfOk result (λ answer. machine_step self.old.now call.now ≡ (self.new.now, answer)) }
        ensures passes { IfOk result (λ answer. passes (names_in self.old.now) call.now ≡ true → MakesStep self.old.now self.new.now call.now answer) }
        ensures entered { OnOk result (self.new ≡ told self.old (Plain call.now)) }
        ensures memory { OnErr result (may_want_memory (core_in self.old.now) call.now ≡ true) }
        ensures unchanged { OnErr result (self.new ≡ self.old) }
    {
        self.apply_metered(&mut Meter::new(), call)
    }

    /// [`Logged::apply`], which fails exactly if one more request for memory was refused.
    pub fn apply_metered(
        &mut self,
        meter: &mut Meter,
        call: &Call,
    ) -> Result<FencedAnswer, AllocError>
        ensures done { IfOk result (λ answer. machine_step self.old.now call.now ≡ (self.new.now, answer)) }
        ensures passes { IfOk result (λ answer. passes (names_in self.old.now) call.now ≡ true → MakesStep self.old.now self.new.now call.now answer) }
        ensures entered { OnOk result (self.new ≡ told self.old (Plain call.now)) }
        ensures memory { OnErr result (may_want_memory (core_in self.old.now) call.now ≡ true) }
        ensures unchanged { OnErr result (self.new ≡ self.old) }
        ensures none { OnOk result (meter.new ≡ meter.old) }
        ensures refused { OnErr result (meter.new ≡ one_more meter.old) }
    {
        recall_call(call);
        let made = self.machine.apply_metered(meter, call);
        if made.is_ok() {
            self.events.push(&Noted::plain(call));
        }
        made
    }

    /// Makes a call on which no term bears, as [`Machine::pass`] does.
    ///
    /// Condition: it is no acknowledgement, decline, restore or cancel.
    pub fn pass(&mut self, call: &Call) -> Result<Answer, AllocError>
        requires { is_free call.now ≡ true }
        ensures done { IfOk result (λ answer. step (core_in self.old.now) call.now ≡ (core_in self.new.now, answer)) }
        ensures names { names_in self.new.now ≡ names_in self.old.now }
        ensures entered { OnOk result (self.new ≡ told self.old (Plain call.now)) }
        ensures memory { OnErr result (may_want_memory (core_in self.old.now) call.now ≡ true) }
        ensures unchanged { OnErr result (self.new ≡ self.old) }
    {
        self.pass_metered(&mut Meter::new(), call)
    }

    /// [`Logged::pass`], which fails exactly if one more request for memory was refused.
    ///
    /// Condition: it is no acknowledgement, decline, restore or cancel.
    pub fn pass_metered(&mut self, meter: &mut Meter, call: &Call) -> Result<Answer, AllocError>
        requires { is_free call.now ≡ true }
        ensures done { IfOk result (λ answer. step (core_in self.old.now) call.now ≡ (core_in self.new.now, answer)) }
        ensures names { names_in self.new.now ≡ names_in self.old.now }
        ensures entered { OnOk result (self.new ≡ told self.old (Plain call.now)) }
        ensures memory { OnErr result (may_want_memory (core_in self.old.now) call.now ≡ true) }
        ensures unchanged { OnErr result (self.new ≡ self.old) }
        ensures none { OnOk result (meter.new ≡ meter.old) }
        ensures refused { OnErr result (meter.new ≡ one_more meter.old) }
    {
        match self.apply_metered(meter, call)? {
            FencedAnswer::Made { term: _, answer } => Ok(answer),
            FencedAnswer::Reserved(_) | FencedAnswer::Forfeited | FencedAnswer::Fenced(_) => {
                unreachable!()
            }
        }
    }

    /// Returns the metadata of a live record. It changes nothing, so it is no event.
    pub fn show(&mut self, id: CheckpointId) -> Result<Answer, AllocError>
        ensures done { IfOk result (λ answer. answer ≡ (step (core_in self.old.now) (call.Show id)).1) }
        ensures memory { OnErr result (may_want_memory (core_in self.old.now) (call.Show id) ≡ true) }
        ensures unchanged { self.new ≡ self.old }
    {
        self.show_metered(&mut Meter::new(), id)
    }

    /// [`Logged::show`], which fails exactly if one more request for memory was refused.
    pub fn show_metered(
        &mut self,
        meter: &mut Meter,
        id: CheckpointId,
    ) -> Result<Answer, AllocError>
        ensures done { IfOk result (λ answer. answer ≡ (step (core_in self.old.now) (call.Show id)).1) }
        ensures memory { OnErr result (may_want_memory (core_in self.old.now) (call.Show id) ≡ true) }
        ensures unchanged { self.new ≡ self.old }
        ensures none { OnOk result (meter.new ≡ meter.old) }
        ensures refused { OnErr result (meter.new ≡ one_more meter.old) }
    {
        self.machine.pass_metered(meter, &Call::Show { id })
    }

    /// Makes a call of the layer of names, as `Terms::apply` does.
    ///
    /// Condition: there are names.
    pub fn make(&mut self, call: &FencedCall) -> Result<FencedAnswer, AllocError>
        requires { names_in self.old.now ≢ None }
        ensures done { IfOk result (λ answer. named_answer self.old.now call.now ≡ Some answer) }
        ensures entered { OnOk result (self.new ≡ told self.old (Named call.now)) }
        ensures memory { OnErr result (named_wants self.old.now call.now ≡ true) }
        ensures unchanged { OnErr result (self.new ≡ self.old) }
    {
        self.make_metered(&mut Meter::new(), call)
    }

    /// [`Logged::make`], which fails exactly if one more request for memory was refused.
    ///
    /// Condition: there are names.
    pub fn make_metered(
        &mut self,
        meter: &mut Meter,
        call: &FencedCall,
    ) -> Result<FencedAnswer, AllocError>
        requires { names_in self.old.now ≢ None }
        ensures done { IfOk result (λ answer. named_answer self.old.now call.now ≡ Some answer) }
        ensures entered { OnOk result (self.new ≡ told self.old (Named call.now)) }
        ensures memory { OnErr result (named_wants self.old.now call.now ≡ true) }
        ensures unchanged { OnErr result (self.new ≡ self.old) }
        ensures none { OnOk result (meter.new ≡ meter.old) }
        ensures refused { OnErr result (meter.new ≡ one_more meter.old) }
    {
        let made = make_named(meter, &mut self.machine, call);
        if made.is_ok() {
            self.events.push(&Noted::named(call));
        }
        made
    }

    /// Gives the coordinator names, as [`Machine::fence`] does.
    pub fn fence(&mut self, alloc: Global, first_name: u64) -> Result<(), FenceFault>
        ensures fault { result_err result ≢ Some fault.Memory → result_err result ≡ fence_fault self.old.now first_name }
        ensures memory { result ≡ Err fault.Memory → names_in self.old.now ≡ None }
        ensures done { OnOk result (self.new.now ≡ machine_of (core_in self.old.now) (Some (first_names first_name))) }
        ensures entered { OnOk result (self.new ≡ told self.old (Fence first_name)) }
        ensures unchanged { OnErr result (self.new ≡ self.old) }
    {
        self.fence_metered(&mut Meter::new(), alloc, first_name)
    }

    /// [`Logged::fence`], which answers [`FenceFault::Memory`] only if one more request for memory
    /// was refused.
    pub fn fence_metered(
        &mut self,
        meter: &mut Meter,
        alloc: Global,
        first_name: u64,
    ) -> Result<(), FenceFault>
        ensures fault { result_err result ≢ Some fault.Memory → result_err result ≡ fence_fault self.old.now first_name }
        ensures memory { result ≡ Err fault.Memory → names_in self.old.now ≡ None }
        ensures done { OnOk result (self.new.now ≡ machine_of (core_in self.old.now) (Some (first_names first_name))) }
        ensures entered { OnOk result (self.new ≡ told self.old (Fence first_name)) }
        ensures unchanged { OnErr result (self.new ≡ self.old) }
        ensures cause { result ≡ Err fault.Memory → meter.new ≡ one_more meter.old }
    {
        self.machine.fence_metered(meter, alloc, first_name)?;
        self.events.push(&Noted::fence(first_name));
        Ok(())
    }

    /// The coordinator below the names.
    pub fn core(&self) -> &Core
        ensures { result.now ≡ core_in self.now.now }
    {
        self.machine.core()
    }

    /// The coordinator, and what holds of each one.
    pub fn machine(&self) -> &Machine
        ensures now { result.now ≡ self.now.now }
        ensures promised { Promises self.now }
    {
        // These do nothing: their contracts are the laws.
        ckpt_terms::laws::deletions_are_safe();
        ckpt_terms::laws::one_term();
        ckpt_terms::laws::issued_once();
        &self.machine
    }
}

/// Makes a call of the layer of names.
///
/// Condition: there are names.
fn make_named(
    meter: &mut Meter,
    machine: &mut Machine,
    call: &FencedCall,
) -> Result<FencedAnswer, AllocError>
    requires { names_in machine.old ≢ None }
    ensures done { IfOk result (λ answer. named_answer machine.old call.now ≡ Some answer) }
    ensures step { OnOk result (machine.new ≡ named_step machine.old call.now) }
    ensures shape { IsFencedCall call.now }
    ensures memory { OnErr result (named_wants machine.old call.now ≡ true) }
    ensures unchanged { OnErr result (machine.new ≡ machine.old) }
    ensures none { OnOk result (meter.new ≡ meter.old) }
    ensures refused { OnErr result (meter.new ≡ one_more meter.old) }
{
    match machine {
        Machine::Plain(_) => unreachable!(),
        Machine::Fenced(terms) => terms.apply_metered(meter, call),
    }
}

/// Does nothing. Its contract says that the coordinator is sound.
fn recall_machine(machine: &Machine)
    ensures { IsWell machine.now }
{
    match machine {
        Machine::Plain(core) => {
            let _ = core.mode();
        }
        Machine::Fenced(terms) => {
            let _ = terms.term();
        }
    }
}

/// Does nothing. Its contract says that the shape of a restore is a valid shape, and that a
/// configuration is within its limits.
fn recall_call(call: &Call)
    ensures { IsCall call.now }
{
    match call {
        Call::Restore {
            shape: Some(shape),
            ..
        } => shape.recall(),
        Call::Configure { config, .. } => {
            let _ = config.interval();
        }
        _ => (),
    }
}
