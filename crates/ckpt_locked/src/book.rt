//! The book: a coordinator and the log of all its calls.

ghost use Rattle.std.specs.Prelude.{◌≡◌, ◌↔◌, ℕ, ◌+◌, ◌^◌, ◌<◌, [], length, min, IsTrue, IfOk, IfErr, OnOk, OnErr};
ghost use Rattle.ckpt_memory.specs.Refusals.{one_more};
ghost use Rattle.ckpt_model.specs.Soundness.{IsSound};

use crate::recent::Recent;
use ckpt_core::{Core, CoreFault, OpenFault, Secret, laws};
use ckpt_ids::{Answer, Call, Config, Shape};
use ckpt_memory::Meter;
use std::alloc::{AllocError, Global};
use std::marker::Model;

/// An entry of the book: a call and its caller. Refused calls have entries too.
#[derive(Debug, Drop, PartialEq, Eq)]
pub struct Entry {
    /// The number of the caller. The book takes any number.
    pub seat: u32,
    /// The call as it was made.
    pub call: Call,
}

/// A coordinator with the log of all its calls, for one thread.
///
/// The coordinator is always the replay of the log from its opening: [`Book::core`] says so, and
/// what follows from it. All entries are kept in memory, some 90 bytes each, unless
/// [`Book::keep_last`] bounds their number. All promises are about all entries in both cases.
#[derive(Debug)]
pub struct Book {
    alloc: Global,
    /// What the book was opened with: the coordinator's configuration may be another one by now.
    first: Config,
    core: Core,
    entries: Recent<Entry>,
}

impl Drop for Book {
    fn drop(self) {
        let Book {
            alloc: _,
            first: _,
            core: _,
            entries: _,
        } = self;
    }
}

impl Model for Book {
    ghost use Rattle.ckpt_locked.specs.Books.{History, IsKept, history_of};

    ghost Value = { History };

    ghost view = { λ b. history_of b.first b.core b.entries.items b.entries.keep };

    ghost invariant = { λ b. IsKept b.first b.core b.entries.items b.entries.keep };
}

impl Book {
    ghost use Rattle.std.specs.Option.{option_copied};
    ghost use Rattle.std.specs.Result.{result_err};
    ghost use Rattle.ckpt_ids.specs.declared.call.Call.TheVariants.{Count};
    ghost use Rattle.ckpt_model.specs.Laws.{Accounted, Acknowledgements, Balance, ChoiceIsLive, Handed, Numbers, Outbox};
    ghost use Rattle.ckpt_model.specs.Opening.{open_fault};
    ghost use Rattle.ckpt_locked.specs.Books.{IsHistory, answer_to, calls_of, counted, entered, entry_at, newly_opened, state_of_book};
    ghost use Rattle.ckpt_locked.specs.Promises.{AreDoneFull, AreHandedForGood, ExactlyOne, PinsHold, SavepointsStay};

    /// Opens a coordinator as [`Core::new`] does, with an empty log that keeps all entries. Takes
    /// no memory.
    ///
    /// `now` is in milliseconds. Returns [`OpenFault::MomentTooLarge`] exactly if it is above 2^62
    /// - 1. Otherwise returns [`OpenFault::BadFirst`] exactly if `first` is outside 1 to 2^62 - 1.
    ///
    /// If file numbers come from outside, use [`Book::keyed`].
    pub fn new(
        alloc: Global,
        config: Config,
        shape: Shape,
        now: u64,
        first: u64,
    ) -> Result<Book, OpenFault>
        ensures fault { result_err result ≡ open_fault now first }
        ensures value { IfOk result (λ book. book ≡ newly_opened (record { config = config; shape = shape; start = now; first = first })) }
    {
        Book::keyed(alloc, config, shape, now, first, Secret::fixed())
    }

    /// Opens a book as [`Book::new`] does, with the same faults, and with a coordinator that
    /// [`Core::keyed`] opens: no choice of file numbers makes its calls slow. The secret changes no
    /// answer.
    pub fn keyed(
        alloc: Global,
        config: Config,
        shape: Shape,
        now: u64,
        first: u64,
        secret: Secret,
    ) -> Result<Book, OpenFault>
        ensures fault { result_err result ≡ open_fault now first }
        ensures value { IfOk result (λ book. book ≡ newly_opened (record { config = config; shape = shape; start = now; first = first })) }
    {
        // The contracts of these reads say that both are within their limits.
        let _ = (config.interval(), shape.size());
        let core = Core::keyed(alloc, config, shape, now, first, secret)?;
        let entries = Recent::new(alloc);
        Ok(Book {
            alloc,
            first: config,
            core,
            entries,
        })
    }

    /// Makes a call, enters it in the log, and returns its answer. A refused call is entered too.
    ///
    /// Returns the call if memory runs out, or at 2^64 - 1 entries. Then nothing has changed. An
    /// entry may take memory, so any call may run out of memory, even a refused one.
    // In its caller's code a call is moved once, into its entry.
    #[inline(always)]
    pub fn apply(&mut self, seat: u32, call: Call) -> Result<Answer, Call>
        ensures entered { OnOk result (self.new ≡ entered self.old seat call) }
        ensures answer { IfOk result (λ answer. answer ≡ answer_to self.old call) }

        // The answer to a Count is the number of uses by live records.
        ensures count { (file : ℕ) → call ≡ Count file → IfOk result (λ answer. answer ≡ counted self.old file) }

        // The call was not made.
        ensures returned { IfErr result (λ back. back ≡ call) }
        ensures unchanged { OnErr result (self.new ≡ self.old) }
    {
        self.apply_metered(&mut Meter::new(), seat, call)
    }

    /// [`Book::apply`], which returns the call exactly if one more request for memory was refused,
    /// or at 2^64 - 1 entries.
    #[inline(always)]
    pub fn apply_metered(
        &mut self,
        meter: &mut Meter,
        seat: u32,
        call: Call,
    ) -> Result<Answer, Call>
        ensures entered { OnOk result (self.new ≡ entered self.old seat call) }
        ensures answer { IfOk result (λ answer. answer ≡ answer_to self.old call) }
        ensures count { (file : ℕ) → call ≡ Count file → IfOk result (λ answer. answer ≡ counted self.old file) }
        ensures returned { IfErr result (λ back. back ≡ call) }
        ensures unchanged { OnErr result (self.new ≡ self.old) }
        ensures none { OnOk result (meter.new ≡ meter.old) }
        ensures refused { length self.old.entries + 1 < 2 ^ 64 → OnErr result (meter.new ≡ one_more meter.old) }
    {
        if self.entries.make_room(meter).is_err() {
            return Err(call);
        }
        match self.core.apply_metered(meter, &call) {
            Ok(reply) => {
                self.entries.push_reserved(Entry { seat, call });
                Ok(Answer::Done(reply))
            }
            Err(CoreFault::Refused(why)) => {
                self.entries.push_reserved(Entry { seat, call });
                Ok(Answer::Refused(why))
            }
            Err(CoreFault::Memory) => Err(call),
        }
    }

    /// The allocator of the book.
    pub(crate) fn alloc(&self) -> Global {
        self.alloc
    }

    /// How many calls were entered.
    pub fn len(&self) -> u64
        ensures { result ≡ length self.now.entries }
    {
        self.entries.len()
    }

    /// Whether no call was entered.
    pub fn is_empty(&self) -> bool
        ensures { IsTrue result ↔ (self.now.entries ≡ []) }
    {
        self.entries.is_empty()
    }

    /// From now on keeps at most the last `most` entries in memory, 0 to 2^64 - 1. The others can
    /// no longer be read. They still count, and the coordinator is still the replay of all of them.
    /// A later call with a greater number changes nothing. Takes no memory.
    pub fn keep_last(&mut self, most: u64)
        ensures kept { self.new ≡ record self.old { keep = min self.old.keep most } }
    {
        self.entries.keep_last(most);
    }

    /// How many entries are in memory: all, or at most the number given to [`Book::keep_last`].
    pub fn held(&self) -> u64
        ensures { result ≡ min (length self.now.entries) self.now.keep }
    {
        self.entries.held()
    }

    /// The entry at this place, counted from 0. `None` past the last entry, and if the entry was
    /// forgotten.
    pub fn entry(&self, place: u64) -> Option<&Entry>
        ensures { option_copied result ≡ entry_at self.now place }
    {
        self.entries.get(place)
    }

    /// The coordinator: the replay of the log from its opening. The other clauses are promises that
    /// hold for every book.
    pub fn core(&self) -> &Core
        ensures replay { result.now ≡ state_of_book self.now }
        ensures history { IsHistory self.now }
        ensures sound { IsSound result.now }

        // Records: what completes one, and what keeps one.
        ensures full { AreDoneFull result.now }
        ensures acknowledgements { Acknowledgements self.now.opening (calls_of self.now.entries) }
        ensures exactly_one { ExactlyOne self.now }
        ensures numbers { Numbers self.now.opening (calls_of self.now.entries) }
        ensures savepoints { SavepointsStay self.now }

        // Files: each is in use or was handed out, and no file in use is lost.
        ensures balance { Balance self.now.opening (calls_of self.now.entries) }
        ensures handed { Handed self.now.opening (calls_of self.now.entries) }
        ensures used_no_more { AreHandedForGood self.now }
        ensures accounted { Accounted self.now.opening (calls_of self.now.entries) }
        ensures outbox { Outbox self.now.opening (calls_of self.now.entries) }

        // What the job would restart from.
        ensures choice { ChoiceIsLive self.now.opening (calls_of self.now.entries) }
        ensures pinned { PinsHold self.now }
    {
        // These do nothing: their contracts are the laws.
        laws::sound();
        laws::acknowledgements();
        laws::numbers();
        laws::savepoints();
        laws::balance();
        laws::handed();
        laws::used_no_more();
        laws::accounted();
        laws::outbox();
        laws::choice();
        laws::pinned();
        &self.core
    }
}
