//! A coordinator whose tasks reserve the names of their files.

ghost use Rattle.std.specs.Prelude.{◌≡◌, IfOk, OnOk, OnErr, find, not, true};
ghost use Rattle.std.specs.Result.{result_err};
ghost use Rattle.ckpt_memory.specs.Refusals.{one_more};
ghost use Rattle.ckpt_model.specs.Soundness.{IsCall};
ghost use Rattle.ckpt_terms.specs.declared.call.FencedCall.TheVariants.{Reserve, Forfeit, Make, Advance};
ghost use Rattle.ckpt_terms.specs.Fencing.{fence, fenced, fenced_step, fresh_of, is_garbage, is_unspent, not_held, not_reserved};
ghost use Rattle.ckpt_terms.specs.{FencedLaws.IsFenced, FencedLaws.IsFencedCall, Spans.AreRanges, Spans.names_of, TermsOpening.terms_fault, Wants.wants_memory};

use crate::call::{FencedAnswer, FencedCall, FencedRefusal, LAST_TERM, MOST_NAMES, NAMES_END};
use crate::names::{Names, Span};
use crate::spending::{
    ends, fresh_of, is_of_task, recall_call, refuses_advance, restart, spend, term_after,
};
use ckpt_core::{Core, CoreFault, Mode, OpenFault, Secret};
use ckpt_ids::{Answer, Call, Config, FileId, Files, Shape};
use ckpt_memory::Meter;
use std::alloc::{AllocError, Global};
use std::marker::Model;

/// A coordinator whose tasks reserve the names of their files.
#[derive(Debug)]
pub struct Terms {
    alloc: Global,
    core: Core,
    term: u64,
    next_name: u64,
    unspent: Names,
}

impl Drop for Terms {
    fn drop(self) {
        let Terms {
            alloc: _,
            core: _,
            term: _,
            next_name: _,
            unspent: _,
        } = self;
    }
}

impl Model for Terms {
    ghost use Rattle.ckpt_terms.specs.{Fencing.Fenced, FencedLaws.IsFenced};

    ghost Value = { Fenced };

    ghost view = { λ t. record { core = t.core; term = t.term; next_name = t.next_name; unspent = t.unspent } };

    ghost invariant = { λ t. IsFenced (record { core = t.core; term = t.term; next_name = t.next_name; unspent = t.unspent }) };
}

impl Terms {
    /// Opens a coordinator as [`Core::keyed`] does, in term 1. The first name that it gives out will
    /// be `first_name`: all names that were used before must be below it.
    ///
    /// Returns [`OpenFault::BadFirst`] if `first_name` is 0 or above 2^62. Otherwise has the faults
    /// of [`Core::keyed`]. Takes no memory.
    pub fn keyed(
        alloc: Global,
        config: Config,
        shape: Shape,
        now: u64,
        first: u64,
        first_name: u64,
        secret: Secret,
    ) -> Result<Terms, OpenFault>
        ensures fault { result_err result ≡ terms_fault now first first_name }
        ensures value { IfOk result (λ terms. terms ≡ fenced (record { config = config; shape = shape; start = now; first = first }) first_name) }
    {
        if first_name == 0 || first_name > NAMES_END {
            return Err(OpenFault::BadFirst);
        }
        // The contracts of these reads say that both are within their limits.
        let _ = (config.interval(), shape.size());
        let core = Core::keyed(alloc, config, shape, now, first, secret)?;
        Ok(Terms {
            alloc,
            core,
            term: 1,
            next_name: first_name,
            unspent: Names::new(alloc),
        })
    }

    /// Makes a call, and returns its answer. Fails only if memory runs out, and then nothing has
    /// changed. Only these take memory, and only if they are not [`FencedAnswer::Fenced`]: a
    /// reservation, and what takes memory in [`Core::apply`]. So a call that the coordinator refuses
    /// takes none.
    pub fn apply(&mut self, call: &FencedCall) -> Result<FencedAnswer, AllocError>
        ensures done { IfOk result (λ answer. fenced_step self.old call.now ≡ (self.new, answer)) }
        ensures memory { OnErr result (wants_memory self.old call.now ≡ true) }
        ensures unchanged { OnErr result (self.new ≡ self.old) }
        ensures shape { IsFencedCall call.now }
    {
        self.apply_metered(&mut Meter::new(), call)
    }

    /// [`Terms::apply`], which fails exactly if one more request for memory was refused.
    pub fn apply_metered(
        &mut self,
        meter: &mut Meter,
        call: &FencedCall,
    ) -> Result<FencedAnswer, AllocError>
        ensures done { IfOk result (λ answer. fenced_step self.old call.now ≡ (self.new, answer)) }
        ensures memory { OnErr result (wants_memory self.old call.now ≡ true) }
        ensures unchanged { OnErr result (self.new ≡ self.old) }
        ensures shape { IsFencedCall call.now }
        ensures none { OnOk result (meter.new ≡ meter.old) }
        ensures refused { OnErr result (meter.new ≡ one_more meter.old) }
    {
        match call {
            FencedCall::Reserve { term, count } => self.reserve(meter, *term, *count),
            FencedCall::Forfeit { term, names } => Ok(self.forfeit(*term, names)),
            FencedCall::Make { term, call } => self.make_metered(meter, *term, call),
            FencedCall::Advance { now, term, first } => Ok(self.advance(*now, *term, *first)),
        }
    }

    fn reserve(
        &mut self,
        meter: &mut Meter,
        term: u64,
        count: u64,
    ) -> Result<FencedAnswer, AllocError>
        ensures done { IfOk result (λ answer. fenced_step self.old (Reserve term count) ≡ (self.new, answer)) }
        ensures memory { OnErr result (wants_memory self.old (Reserve term count) ≡ true) }
        ensures unchanged { OnErr result (self.new ≡ self.old) }
        ensures none { OnOk result (meter.new ≡ meter.old) }
        ensures refused { OnErr result (meter.new ≡ one_more meter.old) }
    {
        if let Some(why) = self.refuses_reserve(term, count) {
            return Ok(FencedAnswer::Fenced(why));
        }
        let first = self.next_name;
        self.unspent.add_metered(meter, first, count)?;
        self.next_name = first + count;
        Ok(FencedAnswer::Reserved(FileId(first)))
    }

    fn refuses_reserve(&self, term: u64, count: u64) -> Option<FencedRefusal>
        ensures { result ≡ fence self.now (Reserve term count) }
    {
        if term != self.term {
            return Some(FencedRefusal::OldTerm);
        }
        if self.core.mode() == Mode::Cancelled {
            return Some(FencedRefusal::Ended);
        }
        if count == 0 || count > MOST_NAMES {
            return Some(FencedRefusal::BadCount);
        }
        if self.next_name + count > NAMES_END {
            return Some(FencedRefusal::NamesUsedUp);
        }
        None
    }

    fn forfeit(&mut self, term: u64, names: &Files) -> FencedAnswer
        ensures { fenced_step self.old (Forfeit term names.now) ≡ (self.new, result) }
    {
        if term != self.term {
            return FencedAnswer::Fenced(FencedRefusal::OldTerm);
        }
        self.unspent.remove_all(names);
        FencedAnswer::Forfeited
    }

    /// Raises the term and the next name, and restores the job to its choice. Takes no memory.
    fn advance(&mut self, now: u64, term: u64, first: u64) -> FencedAnswer
        ensures { fenced_step self.old (Advance now term first) ≡ (self.new, result) }
    {
        let last = self.term.max(term);
        if let Some(why) = refuses_advance(last, first) {
            return FencedAnswer::Fenced(why);
        }
        match self.core.apply(&restart(now)) {
            Ok(reply) => {
                self.term = last + 1;
                self.next_name = self.next_name.max(first);
                self.unspent = Names::new(self.alloc);
                FencedAnswer::Made {
                    term: self.term,
                    answer: Answer::Done(reply),
                }
            }
            Err(CoreFault::Refused(why)) => FencedAnswer::Made {
                term: self.term,
                answer: Answer::Refused(why),
            },
            Err(CoreFault::Memory) => unreachable!(),
        }
    }

    /// Makes a call of the coordinator, as [`Terms::apply`] makes [`FencedCall::Make`].
    pub fn make(&mut self, term: u64, call: &Call) -> Result<FencedAnswer, AllocError>
        ensures done { IfOk result (λ answer. fenced_step self.old (Make term call.now) ≡ (self.new, answer)) }
        ensures memory { OnErr result (wants_memory self.old (Make term call.now) ≡ true) }
        ensures unchanged { OnErr result (self.new ≡ self.old) }
        ensures shape { IsCall call.now }
    {
        self.make_metered(&mut Meter::new(), term, call)
    }

    /// [`Terms::make`], which fails exactly if one more request for memory was refused.
    pub fn make_metered(
        &mut self,
        meter: &mut Meter,
        term: u64,
        call: &Call,
    ) -> Result<FencedAnswer, AllocError>
        ensures done { IfOk result (λ answer. fenced_step self.old (Make term call.now) ≡ (self.new, answer)) }
        ensures memory { OnErr result (wants_memory self.old (Make term call.now) ≡ true) }
        ensures unchanged { OnErr result (self.new ≡ self.old) }
        ensures shape { IsCall call.now }
        ensures none { OnOk result (meter.new ≡ meter.old) }
        ensures refused { OnErr result (meter.new ≡ one_more meter.old) }
    {
        recall_call(call);
        if let Some(why) = self.refuses_make(term, call) {
            return Ok(FencedAnswer::Fenced(why));
        }
        match self.core.apply_metered(meter, call) {
            Ok(reply) => {
                // Nothing may fail once the coordinator has changed, and this takes no memory.
                spend(&mut self.unspent, self.alloc, call);
                self.term = term_after(self.term, call);
                Ok(FencedAnswer::Made {
                    term: self.term,
                    answer: Answer::Done(reply),
                })
            }
            Err(CoreFault::Refused(why)) => Ok(FencedAnswer::Made {
                term: self.term,
                answer: Answer::Refused(why),
            }),
            Err(CoreFault::Memory) => Err(AllocError),
        }
    }

    fn refuses_make(&self, term: u64, call: &Call) -> Option<FencedRefusal>
        ensures { result ≡ fence self.now (Make term call.now) }
    {
        if is_of_task(call) && term != self.term {
            return Some(FencedRefusal::OldTerm);
        }
        if ends(call) && self.term >= LAST_TERM {
            return Some(FencedRefusal::TermsUsedUp);
        }
        self.refuses_fresh(call)
    }

    fn refuses_fresh(&self, call: &Call) -> Option<FencedRefusal>
        ensures { result ≡ not_reserved self.now (find (λ f. not (is_unspent self.now f)) (fresh_of call.now)) }
    {
        let fresh = fresh_of(call)?;
        let file = self.unspent.first_absent(fresh.as_slice())?;
        Some(self.not_held(file))
    }

    /// Why a file is refused whose name the running term does not hold.
    fn not_held(&self, file: FileId) -> FencedRefusal
        ensures { result ≡ not_held self.now file }
    {
        if file.0 < self.next_name {
            FencedRefusal::Spent(file)
        } else {
            FencedRefusal::NeverReserved(file)
        }
    }

    /// Whether the name was given out, and no live record uses its file, it does not wait for
    /// deletion and was not fetched for it, and no task of the running term may write it.
    pub fn is_garbage(&self, file: FileId) -> bool
        ensures { result ≡ is_garbage self.now file }
    {
        file.0 < self.next_name && !self.unspent.contains(file) && !self.core.knows(file)
    }

    /// The term that runs. The contract also says what always holds.
    pub fn term(&self) -> u64
        ensures value { result ≡ self.now.term }
        ensures always { IsFenced self.now }
    {
        self.term
    }

    /// The coordinator.
    pub fn core(&self) -> &Core
        ensures { result.now ≡ self.now.core }
    {
        &self.core
    }

    /// The first name that was never reserved.
    pub fn next_name(&self) -> u64
        ensures { result ≡ self.now.next_name }
    {
        self.next_name
    }

    /// The names that the running term holds: ranges in ascending order, none of them empty.
    pub fn unspent(&self) -> &[Span]
        ensures names { names_of result.now ≡ self.now.unspent }
        ensures ranges { AreRanges result.now }
    {
        self.unspent.ranges()
    }

    pub(crate) fn names(&self) -> &Names
        ensures { result.now ≡ self.now.unspent }
    {
        &self.unspent
    }

    /// A coordinator of these parts.
    ///
    /// Condition: together they are sound.
    pub(crate) fn of(alloc: Global, core: Core, term: u64, next_name: u64, unspent: Names) -> Terms
        requires { IsFenced (record { core = core; term = term; next_name = next_name; unspent = unspent }) }
        ensures { result ≡ record { core = core; term = term; next_name = next_name; unspent = unspent } }
    {
        Terms {
            alloc,
            core,
            term,
            next_name,
            unspent,
        }
    }
}
