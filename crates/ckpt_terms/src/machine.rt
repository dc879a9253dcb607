//! A coordinator with or without names: what a handle has.

ghost use Rattle.std.specs.Prelude.{◌≡◌, ◌≢◌, true, Some, None, Err, IfOk, IfSome, OnOk, OnErr};
ghost use Rattle.std.specs.Result.{result_err};
ghost use Rattle.ckpt_memory.specs.Refusals.{one_more};
ghost use Rattle.ckpt_model.specs.{Memory.may_want_memory, Steps.step};
ghost use Rattle.ckpt_terms.specs.{Fencing.Fenced, FencedLaws.IsFenced};
ghost use Rattle.ckpt_terms.specs.declared.machine.FenceFault.TheVariants as fault;
ghost use Rattle.ckpt_terms.specs.declared.machine.Machine.TheVariants as machine;
ghost use Rattle.ckpt_terms.specs.Machines.{IsFirstName, MakesStep, core_in, fence_fault, fenced_of, first_names, is_free, machine_of, machine_step, names_in, passes};

use crate::call::{FencedAnswer, NAMES_END};
use crate::names::Names;
use crate::scan::has_known_from;
use crate::terms::Terms;
use ckpt_core::{Core, CoreFault};
use ckpt_ids::{Answer, Call};
use ckpt_memory::Meter;
use core::mem::replace_with;
use std::alloc::{AllocError, Global};

/// A coordinator whose tasks reserve the names of their files, or one that takes any names.
#[derive(Debug, Drop)]
pub enum Machine {
    /// It takes any names.
    Plain(Core),
    /// Its tasks reserve them.
    Fenced(Terms),
}

/// Why a coordinator gets no names: the first of these that applies. Nothing changed.
#[derive(Clone, Copy, Debug, PartialEq, Eq)]
pub enum FenceFault {
    /// It has names.
    HasNames,
    /// The first name is 0 or above 2^62.
    BadName,
    /// A live record uses a file with this number or a greater one, or such a file waits for
    /// deletion, or was fetched for it.
    NameInUse,
    /// Memory ran out.
    Memory,
}

impl Machine {
    /// The coordinator.
    pub fn core(&self) -> &Core
        ensures { result.now ≡ core_in self.now }
    {
        match self {
            Machine::Plain(core) => core,
            Machine::Fenced(terms) => terms.core(),
        }
    }

    /// The names, if it has some.
    pub fn terms(&self) -> Option<&Terms>
        ensures some { IfSome result (λ terms. self.now ≡ machine.Fenced terms.now) }
        ensures none { result ≡ None → names_in self.now ≡ None }
    {
        match self {
            Machine::Plain(_) => None,
            Machine::Fenced(terms) => Some(terms),
        }
    }

    /// Makes a call without a term, and returns its answer. Fails only if memory runs out, and then
    /// nothing has changed.
    ///
    /// Where tasks reserve names, an acknowledgement and a decline have to have the term that runs,
    /// so without one they are refused. Without names, the term of the answer is 0.
    pub fn apply(&mut self, call: &Call) -> Result<FencedAnswer, AllocError>
        ensures done { IfOk result (λ answer. machine_step self.old call.now ≡ (self.new, answer)) }
        ensures passes { IfOk result (λ answer. passes (names_in self.old) call.now ≡ true → MakesStep self.old self.new call.now answer) }
        ensures memory { OnErr result (may_want_memory (core_in self.old) call.now ≡ true) }
        ensures unchanged { OnErr result (self.new ≡ self.old) }
    {
        self.apply_metered(&mut Meter::new(), call)
    }

    /// [`Machine::apply`], which fails exactly if one more request for memory was refused.
    pub fn apply_metered(
        &mut self,
        meter: &mut Meter,
        call: &Call,
    ) -> Result<FencedAnswer, AllocError>
        ensures done { IfOk result (λ answer. machine_step self.old call.now ≡ (self.new, answer)) }
        ensures passes { IfOk result (λ answer. passes (names_in self.old) call.now ≡ true → MakesStep self.old self.new call.now answer) }
        ensures memory { OnErr result (may_want_memory (core_in self.old) call.now ≡ true) }
        ensures unchanged { OnErr result (self.new ≡ self.old) }
        ensures none { OnOk result (meter.new ≡ meter.old) }
        ensures refused { OnErr result (meter.new ≡ one_more meter.old) }
    {
        match self {
            Machine::Plain(core) => make(meter, core, call),
            Machine::Fenced(terms) => terms.make_metered(meter, 0, call),
        }
    }

    /// Makes a call on which no term bears, and returns its answer. Fails only if memory runs out,
    /// and then nothing has changed.
    ///
    /// Condition: it is no acknowledgement, decline, restore or cancel.
    pub fn pass(&mut self, call: &Call) -> Result<Answer, AllocError>
        requires { is_free call.now ≡ true }
        ensures done { IfOk result (λ answer. step (core_in self.old) call.now ≡ (core_in self.new, answer)) }
        ensures names { names_in self.new ≡ names_in self.old }
        ensures memory { OnErr result (may_want_memory (core_in self.old) call.now ≡ true) }
        ensures unchanged { OnErr result (self.new ≡ self.old) }
    {
        self.pass_metered(&mut Meter::new(), call)
    }

    /// [`Machine::pass`], which fails exactly if one more request for memory was refused.
    ///
    /// Condition: it is no acknowledgement, decline, restore or cancel.
    pub fn pass_metered(&mut self, meter: &mut Meter, call: &Call) -> Result<Answer, AllocError>
        requires { is_free call.now ≡ true }
        ensures done { IfOk result (λ answer. step (core_in self.old) call.now ≡ (core_in self.new, answer)) }
        ensures names { names_in self.new ≡ names_in self.old }
        ensures memory { OnErr result (may_want_memory (core_in self.old) call.now ≡ true) }
        ensures unchanged { OnErr result (self.new ≡ self.old) }
        ensures none { OnOk result (meter.new ≡ meter.old) }
        ensures refused { OnErr result (meter.new ≡ one_more meter.old) }
    {
        match self.apply_metered(meter, call)? {
            FencedAnswer::Made { term: _, answer } => Ok(answer),
            FencedAnswer::Reserved(_) | FencedAnswer::Forfeited | FencedAnswer::Fenced(_) => {
                unreachable!()
            }
        }
    }

    /// Gives the coordinator names, from this one on, in term 1. All names that were used before
    /// must be below it, those of files that nobody acknowledged too.
    ///
    /// Fails for each [`FenceFault`], and then nothing has changed. Takes memory for an image of the
    /// state, and visits each use of a file by a live record and each file of the outbox: it is for
    /// one call in the life of a job.
    pub fn fence(&mut self, alloc: Global, first_name: u64) -> Result<(), FenceFault>
        ensures fault { result_err result ≢ Some fault.Memory → result_err result ≡ fence_fault self.old first_name }
        ensures memory { result ≡ Err fault.Memory → names_in self.old ≡ None }
        ensures in_limits { result ≡ Err fault.Memory → IsFirstName first_name }
        ensures done { OnOk result (self.new ≡ machine_of (core_in self.old) (Some (first_names first_name))) }
        ensures sound { OnOk result (IsFenced (fenced_of (core_in self.old) (first_names first_name))) }
        ensures unchanged { OnErr result (self.new ≡ self.old) }
    {
        self.fence_metered(&mut Meter::new(), alloc, first_name)
    }

    /// [`Machine::fence`], which answers [`FenceFault::Memory`] only if one more request for memory
    /// was refused.
    pub fn fence_metered(
        &mut self,
        meter: &mut Meter,
        alloc: Global,
        first_name: u64,
    ) -> Result<(), FenceFault>
        ensures fault { result_err result ≢ Some fault.Memory → result_err result ≡ fence_fault self.old first_name }
        ensures memory { result ≡ Err fault.Memory → names_in self.old ≡ None }
        ensures in_limits { result ≡ Err fault.Memory → IsFirstName first_name }
        ensures done { OnOk result (self.new ≡ machine_of (core_in self.old) (Some (first_names first_name))) }
        ensures sound { OnOk result (IsFenced (fenced_of (core_in self.old) (first_names first_name))) }
        ensures unchanged { OnErr result (self.new ≡ self.old) }
        ensures cause { result ≡ Err fault.Memory → meter.new ≡ one_more meter.old }
    {
        self.can_fence(meter, first_name)?;
        replace_with(self, (alloc, first_name), with_names);
        Ok(())
    }

    fn can_fence(&self, meter: &mut Meter, first_name: u64) -> Result<(), FenceFault>
        ensures fault { result_err result ≢ Some fault.Memory → result_err result ≡ fence_fault self.now first_name }
        ensures memory { result ≡ Err fault.Memory → names_in self.now ≡ None }
        ensures in_limits { result ≡ Err fault.Memory → IsFirstName first_name }
        ensures cause { result ≡ Err fault.Memory → meter.new ≡ one_more meter.old }
    {
        match self {
            Machine::Plain(core) => test_name(meter, core, first_name),
            Machine::Fenced(_) => Err(FenceFault::HasNames),
        }
    }
}

/// Makes a call of a coordinator without names.
fn make(meter: &mut Meter, core: &mut Core, call: &Call) -> Result<FencedAnswer, AllocError>
    ensures done { IfOk result (λ answer. machine_step (machine.Plain core.old) call.now ≡ (machine.Plain core.new, answer)) }
    ensures memory { OnErr result (may_want_memory core.old call.now ≡ true) }
    ensures unchanged { OnErr result (core.new ≡ core.old) }
    ensures none { OnOk result (meter.new ≡ meter.old) }
    ensures refused { OnErr result (meter.new ≡ one_more meter.old) }
{
    match core.apply_metered(meter, call) {
        Ok(reply) => Ok(FencedAnswer::Made {
            term: 0,
            answer: Answer::Done(reply),
        }),
        Err(CoreFault::Refused(why)) => Ok(FencedAnswer::Made {
            term: 0,
            answer: Answer::Refused(why),
        }),
        Err(CoreFault::Memory) => Err(AllocError),
    }
}

fn test_name(meter: &mut Meter, core: &Core, first_name: u64) -> Result<(), FenceFault>
    ensures fault { result_err result ≢ Some fault.Memory → result_err result ≡ fence_fault (machine.Plain core.now) first_name }
    ensures in_limits { result ≡ Err fault.Memory → IsFirstName first_name }
    ensures cause { result ≡ Err fault.Memory → meter.new ≡ one_more meter.old }
{
    if first_name == 0 || first_name > NAMES_END {
        return Err(FenceFault::BadName);
    }
    let Ok(image) = core.image_metered(meter) else {
        return Err(FenceFault::Memory);
    };
    if has_known_from(&image, first_name) {
        return Err(FenceFault::NameInUse);
    }
    Ok(())
}

/// The coordinator with names, and an allocator for them.
///
/// Condition: it can have them.
fn with_names(plain: Machine, given: (Global, u64)) -> (Machine, ())
    requires { fence_fault plain given.1 ≡ None }
    ensures done { result.0 ≡ machine_of (core_in plain) (Some (first_names given.1)) }
    ensures sound { IsFenced (fenced_of (core_in plain) (first_names given.1)) }
{
    let (alloc, first_name) = given;
    match plain {
        Machine::Plain(core) => (Machine::Fenced(terms_over(alloc, core, first_name)), ()),
        Machine::Fenced(_) => unreachable!(),
    }
}

/// The coordinator with names from this one on.
///
/// Condition: it can have them.
fn terms_over(alloc: Global, core: Core, first_name: u64) -> Terms
    requires { fence_fault (machine.Plain core) first_name ≡ None }
    ensures done { machine.Fenced result ≡ machine_of core (Some (first_names first_name)) }
    ensures sound { IsFenced (fenced_of core (first_names first_name)) }
{
    // The contract of this read says that the coordinator is sound.
    let _ = core.mode();
    Terms::of(alloc, core, 1, first_name, Names::new(alloc))
}
