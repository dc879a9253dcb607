//! What a sink holds back until a record is completed.

ghost use Rattle.std.specs.Prelude.{◌≡◌, ◌≤◌, [], IfOk, OnErr, OnOk, drop, length, take};
ghost use Rattle.ckpt_once.specs.Sinks.{above, up_to};
ghost use Rattle.ckpt_ledger.specs.Ledgers.{Completes, Cuts, Writes, after_entry, nothing};

use crate::transaction::Transaction;
use ckpt_align::Cut;
use ckpt_ids::CheckpointId;
use std::alloc::{AllocError, Global};
use std::marker::Model;
use std::mem::replace;

/// What a sink wrote and has not published: the transactions that its cuts sealed, the oldest first,
/// and what it wrote since its last cut.
#[derive(Debug)]
pub struct Ledger {
    alloc: Global,
    waiting: Vec<Transaction>,
    unsealed: Vec<u64>,
}

/// What a sink does after a restore, before it writes again.
#[derive(Debug)]
pub struct Restored {
    /// It publishes these, in this order, unless it has done so: the word that their record was
    /// completed may have been lost.
    pub publish: Vec<Transaction>,
    /// It gives these up: they were sealed later than the restored record, and the job writes their
    /// elements again.
    pub give_up: Vec<Transaction>,
    /// It gives these up too: they were never sealed.
    pub unsealed: Vec<u64>,
}

impl Drop for Restored {
    fn drop(self) {
        let Restored {
            publish: _,
            give_up: _,
            unsealed: _,
        } = self;
    }
}

impl Drop for Ledger {
    fn drop(self) {
        let Ledger {
            alloc: _,
            waiting: _,
            unsealed: _,
        } = self;
    }
}

impl Model for Ledger {
    ghost use Rattle.ckpt_ledger.specs.Ledgers.{Held};

    ghost Value = { Held };

    ghost view = { λ l. record { waiting = l.waiting.items; open_one = l.unsealed.items } };
}

impl Ledger {
    /// A ledger of a sink that holds nothing back. Takes no memory.
    pub fn new(alloc: Global) -> Ledger
        ensures { result ≡ nothing }
    {
        Ledger::of(alloc, Vec::new(alloc))
    }

    /// A ledger with these transactions, the oldest first: those of the snapshot of the restored
    /// record.
    pub fn of(alloc: Global, waiting: Vec<Transaction>) -> Ledger
        ensures { result ≡ record { waiting = waiting.items; open_one = [] } }
    {
        Ledger {
            alloc,
            waiting,
            unsealed: Vec::new(alloc),
        }
    }

    /// The transactions that are sealed and not published, the oldest first. They are part of the
    /// sink's snapshot.
    pub fn waiting(&self) -> &[Transaction]
        ensures { result.now ≡ self.now.waiting }
    {
        &self.waiting
    }

    /// What was written since the last cut.
    pub fn unsealed(&self) -> &[u64]
        ensures { result.now ≡ self.now.open_one }
    {
        &self.unsealed
    }

    /// The sink writes an element. Fails only if memory runs out, and then nothing has changed.
    pub fn write(&mut self, element: u64) -> Result<(), AllocError>
        ensures ok { OnOk result (self.new ≡ after_entry self.old (Writes element)) }
        ensures err { OnErr result (self.new ≡ self.old) }
    {
        self.unsealed.reserve(1)?;
        self.unsealed.push_reserved(element);
        Ok(())
    }

    /// The sink cuts a record: what it wrote since its last cut is sealed, and is part of the
    /// snapshot that it takes now. Fails only if memory runs out, and then nothing has changed.
    pub fn cut(&mut self, cut: &Cut) -> Result<(), AllocError>
        ensures ok { OnOk result (self.new ≡ after_entry self.old (Cuts cut.now)) }
        ensures err { OnErr result (self.new ≡ self.old) }
    {
        self.waiting.reserve(1)?;
        let content = replace(&mut self.unsealed, Vec::new(self.alloc));
        self.waiting
            .push_reserved(Transaction::new(cut.id(), content));
        Ok(())
    }

    /// A record was completed: the sink publishes these transactions, in this order. Fails only if
    /// memory runs out, and then nothing has changed.
    pub fn completed(&mut self, id: CheckpointId) -> Result<Vec<Transaction>, AllocError>
        ensures published { IfOk result (λ ones. ones.items ≡ up_to id self.old.waiting) }
        ensures ok { OnOk result (self.new ≡ after_entry self.old (Completes id)) }
        ensures err { OnErr result (self.new ≡ self.old) }
    {
        let count = count_up_to(&self.waiting, id);
        let later = self.waiting.split_off(count)?;
        Ok(replace(&mut self.waiting, later))
    }

    /// The job was restored to a record that was completed. The ledger then holds nothing back.
    /// Fails only if memory runs out, and then nothing has changed.
    pub fn restored(&mut self, id: CheckpointId) -> Result<Restored, AllocError>
        ensures publish { IfOk result (λ r. r.publish.items ≡ up_to id self.old.waiting) }
        ensures give_up { IfOk result (λ r. r.give_up.items ≡ above id self.old.waiting) }
        ensures unsealed { IfOk result (λ r. r.unsealed.items ≡ self.old.open_one) }
        ensures ok { OnOk result (self.new ≡ nothing) }
        ensures err { OnErr result (self.new ≡ self.old) }
    {
        let publish = self.completed(id)?;
        let give_up = replace(&mut self.waiting, Vec::new(self.alloc));
        let unsealed = replace(&mut self.unsealed, Vec::new(self.alloc));
        Ok(Restored {
            publish,
            give_up,
            unsealed,
        })
    }
}

/// How many of the first transactions were sealed by this record or an earlier one.
fn count_up_to(waiting: &[Transaction], id: CheckpointId) -> usize
    ensures bound { result ≤ length waiting.now }
    ensures front { take result waiting.now ≡ up_to id waiting.now }
    ensures back { drop result waiting.now ≡ above id waiting.now }
{
    let mut count = 0;
    for transaction in waiting {
        if transaction.id() > id {
            return count;
        }
        count += 1;
    }
    count
}
