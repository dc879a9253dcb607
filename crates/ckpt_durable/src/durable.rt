//! A coordinator with names whose answers are told only once their calls outlive a crash.

ghost use Rattle.std.specs.Prelude.{◌≡◌, ◌<◌, ◌⊎◌, true, false, ◌++◌, ◌∷◌, [], Some, None, IfOk, IfErr, IfSome, OnOk, length};
ghost use Rattle.ckpt_memory.specs.Refusals.{one_more};
ghost use Rattle.ckpt_terms.specs.{Fencing.fenced_replay, FencedLaws.IsFencedCall};
ghost use Rattle.ckpt_durable.specs.Crashes.{Committed, IsLeftByCrash, Made, lives, recovered};

use crate::journal::Journal;
use ckpt_memory::{Meter, list};
use ckpt_terms::{FencedAnswer, FencedCall, Terms};
use std::alloc::{AllocError, Global};
use std::marker::Model;
use std::snapshot::Snapshot;

/// An answer, and for clauses alone the call that it answers.
pub struct Held {
    call: Snapshot<FencedCall>,
    answer: FencedAnswer,
}

impl Drop for Held {
    fn drop(self) {
        let Held { call: _, answer: _ } = self;
    }
}

impl Model for Held {
    ghost use Rattle.ckpt_terms.specs.{declared.call.FencedCall.FencedCall, declared.call.FencedAnswer.FencedAnswer};

    ghost Value = { FencedCall × FencedAnswer };

    ghost view = { λ h. (h.call.value, h.answer) };
}

impl Held {
    /// The answer to `call`.
    fn of(call: &FencedCall, answer: FencedAnswer) -> Held
        ensures { result ≡ (call.now, answer) }
    {
        Held {
            call: Snapshot::of(call),
            answer,
        }
    }

    /// The answer.
    pub fn into_answer(self) -> FencedAnswer
        ensures { result ≡ self.1 }
    {
        let Held { call: _, answer } = self;
        answer
    }
}

/// A coordinator and its journal. Callers get no answer before its call is synced. A fault of the
/// journal ends the value, and nothing is tried again: only its journal is left, from which the next
/// one is recovered.
pub struct Durable<J: Journal> {
    terms: Terms,
    journal: J,
    waiting: Vec<Held>,
    begin: Snapshot<Terms>,
    // A sync has succeeded, and nothing was appended since.
    is_synced: bool,
}

impl<J: Journal + Drop> Drop for Durable<J> {
    fn drop(self) {
        let Durable {
            terms: _,
            journal: _,
            waiting: _,
            begin: _,
            is_synced: _,
        } = self;
    }
}

impl<J: Journal> Model for Durable<J> {
    ghost use Rattle.ckpt_durable.specs.Crashes.{Durably, IsSoundly};

    ghost Value = { Durably };

    ghost view = { λ d. record {
      begin = d.begin.value;
      life = record { kept = J.kept d.journal; loose = J.loose d.journal; now = d.terms; waiting = d.waiting.items };
      is_synced = d.is_synced;
      faults = J.faults d.journal;
    } };

    ghost invariant = { λ d. IsSoundly d.begin.value d.is_synced (record { kept = J.kept d.journal; loose = J.loose d.journal; now = d.terms; waiting = d.waiting.items }) };
}

impl<J: Journal> Durable<J> {
    /// Begins again after a crash, or for the first time: makes the calls that were found, from the
    /// state that the journal begins with. Out of memory it gives the journal back as it was.
    ///
    /// Condition: `found` are the calls of the journal, those that are synced and those behind them.
    pub fn recover(
        alloc: Global,
        mut terms: Terms,
        journal: J,
        found: &[FencedCall],
    ) -> Result<Durable<J>, J>
        requires found { found.now ≡ J.kept journal ++ J.loose journal }
        ensures begin { IfOk result (λ d. d.begin ≡ terms) }
        ensures life { IfOk result (λ d. d.life ≡ recovered terms found.now (J.kept journal) (J.loose journal)) }
        ensures crashed { IfOk result (λ d. IsLeftByCrash terms (J.kept journal) (J.loose journal) d.life) }
        ensures unsynced { IfOk result (λ d. d.is_synced ≡ false) }
        ensures counted { IfOk result (λ d. d.faults ≡ J.faults journal) }
        ensures same { IfErr result (λ j. j ≡ journal) }
    {
        let begin = Snapshot::of(&terms);
        match replay(&mut terms, found) {
            Ok(()) => Ok(Durable {
                terms,
                journal,
                waiting: Vec::new(alloc),
                begin,
                is_synced: false,
            }),
            Err(_) => Err(journal),
        }
    }

    /// Makes a call, appends it, and holds its answer back: it will be the one of this number in what
    /// [`Durable::commit`] returns. Without memory nothing has changed, and there is no number. After
    /// a fault of the journal only the journal is left, and no answer that waited may be told.
    pub fn make(self, call: &FencedCall) -> Result<(Durable<J>, Option<usize>), J>
        ensures begin { IfOk result (λ r. r.0.begin ≡ self.begin) }
        ensures made { IfOk result (λ r. IfSome r.1 (λ n. (r.0.life ≡ lives self.begin self.life (Made call.now)) × (n ≡ length self.life.waiting))) }
        ensures unchanged { IfOk result (λ r. r.1 ≡ None → r.0 ≡ self) }
        ensures unsynced { IfOk result (λ r. IfSome r.1 (λ n. r.0.is_synced ≡ false)) }
        ensures steady { IfOk result (λ r. r.0.faults ≡ self.faults) }
        ensures fault { IfErr result (λ j. self.faults < J.faults j) }
        ensures kept { IfErr result (λ j. J.kept j ≡ self.life.kept) }
        ensures shape { IfOk result (λ r. IfSome r.1 (λ n. IsFencedCall call.now)) }
        ensures loose { IfErr result (λ j. (J.loose j ≡ self.life.loose) ⊎ (J.loose j ≡ self.life.loose ++ call.now ∷ [])) }
    {
        self.make_metered(&mut Meter::new(), call)
    }

    /// [`Durable::make`], which makes no call exactly if one more request for memory was refused.
    pub fn make_metered(
        self,
        meter: &mut Meter,
        call: &FencedCall,
    ) -> Result<(Durable<J>, Option<usize>), J>
        ensures begin { IfOk result (λ r. r.0.begin ≡ self.begin) }
        ensures made { IfOk result (λ r. IfSome r.1 (λ n. (r.0.life ≡ lives self.begin self.life (Made call.now)) × (n ≡ length self.life.waiting))) }
        ensures unchanged { IfOk result (λ r. r.1 ≡ None → r.0 ≡ self) }
        ensures unsynced { IfOk result (λ r. IfSome r.1 (λ n. r.0.is_synced ≡ false)) }
        ensures steady { IfOk result (λ r. r.0.faults ≡ self.faults) }
        ensures fault { IfErr result (λ j. self.faults < J.faults j) }
        ensures kept { IfErr result (λ j. J.kept j ≡ self.life.kept) }
        ensures shape { IfOk result (λ r. IfSome r.1 (λ n. IsFencedCall call.now)) }
        ensures loose { IfErr result (λ j. (J.loose j ≡ self.life.loose) ⊎ (J.loose j ≡ self.life.loose ++ call.now ∷ [])) }
        ensures cause { IfOk result (λ r. r.1 ≡ None → meter.new ≡ one_more meter.old) }
    {
        let Durable {
            mut terms,
            mut journal,
            mut waiting,
            begin,
            is_synced,
        } = self;
        let number = waiting.len();
        if list::reserve(meter, &mut waiting, 1).is_err() {
            let same = Durable {
                terms,
                journal,
                waiting,
                begin,
                is_synced,
            };
            return Ok((same, None));
        }
        match terms.apply_metered(meter, call) {
            Err(_) => {
                let same = Durable {
                    terms,
                    journal,
                    waiting,
                    begin,
                    is_synced,
                };
                Ok((same, None))
            }
            Ok(answer) => {
                match journal.append(call) {
                    Ok(()) => {
                        waiting.push_reserved(Held::of(call, answer));
                        let next = Durable {
                            terms,
                            journal,
                            waiting,
                            begin,
                            is_synced: false,
                        };
                        Ok((next, Some(number)))
                    }
                    Err(_) => Err(journal),
                }
            }
        }
    }

    /// Syncs the journal, and returns all answers that were held back. These may be told. After a
    /// fault only the journal is left, and none of them may be told.
    pub fn commit(self, alloc: Global) -> Result<(Durable<J>, Vec<Held>), J>
        ensures begin { IfOk result (λ r. r.0.begin ≡ self.begin) }
        ensures committed { IfOk result (λ r. r.0.life ≡ lives self.begin self.life Committed) }
        ensures answers { IfOk result (λ r. r.1.items ≡ self.life.waiting) }
        ensures synced { IfOk result (λ r. r.0.is_synced ≡ true) }
        ensures steady { IfOk result (λ r. r.0.faults ≡ self.faults) }
        ensures fault { IfErr result (λ j. self.faults < J.faults j) }
        ensures kept { IfErr result (λ j. J.kept j ≡ self.life.kept) }
        ensures loose { IfErr result (λ j. J.loose j ≡ self.life.loose) }
    {
        let Durable {
            terms,
            mut journal,
            waiting,
            begin,
            is_synced: _,
        } = self;
        if journal.sync().is_err() {
            return Err(journal);
        }
        let next = Durable {
            terms,
            journal,
            waiting: Vec::new(alloc),
            begin,
            is_synced: true,
        };
        Ok((next, waiting))
    }

    /// Ends: the journal. Answers that wait are never told.
    pub fn into_journal(self) -> J
        ensures kept { J.kept result ≡ self.life.kept }
        ensures loose { J.loose result ≡ self.life.loose }
        ensures counted { J.faults result ≡ self.faults }
    {
        let Durable {
            terms: _,
            journal,
            waiting: _,
            begin: _,
            is_synced: _,
        } = self;
        journal
    }

    /// The coordinator, while no call waits for a sync: what is read of it outlives a crash, and may
    /// be told. `None` after a [`Durable::make`] until [`Durable::commit`] succeeds, and from
    /// [`Durable::recover`] to the first such commit.
    pub fn synced(&self) -> Option<&Terms>
        ensures some { IfSome result (λ terms. terms.now ≡ self.now.life.now) }
        ensures synced { IfSome result (λ terms. self.now.life.loose ≡ []) }
        ensures none { result ≡ None → self.now.is_synced ≡ false }
    {
        if self.is_synced {
            Some(&self.terms)
        } else {
            None
        }
    }
}

/// Makes these calls.
fn replay(terms: &mut Terms, calls: &[FencedCall]) -> Result<(), AllocError>
    ensures { OnOk result (terms.new ≡ fenced_replay terms.old calls.now) }
{
    for call in calls {
        terms.apply(call)?;
    }
    Ok(())
}
