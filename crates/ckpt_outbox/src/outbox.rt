//! The outbox: files that wait for deletion, and those that were fetched for it.
ghost use Rattle.std.specs.Prelude.{◌≡◌, ◌≤◌, ◌<◌, ◌+◌, ◌-◌, ◌↔◌, ◌++◌, ◌∷◌, ℕ, [], true, false, max, length, take, drop, slice_get, IsErr, IfOk, OnOk, OnErr};
ghost use Rattle.std.specs.VecDeque.{deque_capacity};
ghost use Rattle.ckpt_ids.specs.Ascending.{ascending};
ghost use Rattle.ckpt_memory.specs.Refusals.{one_more};
ghost use Rattle.ckpt_outbox.specs.Queues.{AreDistinct, Queues, is_in, is_known, is_taken, without};

use crate::places::{Index, draw_again, is_taken, next_ticket, note, taken_in, waiting_in};
use crate::taken::Taken;
use ckpt_hash::Secret;
use ckpt_ids::{FileId, Files, Handed};
use ckpt_memory::{Meter, list, map, queue};
use std::alloc::{AllocError, Global};
use std::collections::{HashMap, VecDeque};
use std::marker::Model;
use thiserror::Error;

/// The file was not taken, or was reported already.
#[derive(Clone, Copy, Debug, PartialEq, Eq, Error)]
#[error("the file is not taken")]
pub struct NotTaken;

/// The files that were handed out: those that wait, and those that were taken and not yet reported.
#[derive(Debug)]
pub struct Outbox {
    alloc: Global,
    waiting: VecDeque<FileId>,
    // The ticket of the first file that waits.
    front: u64,
    taken: Taken,
    index: Index,
    spare: u64,
}

impl Drop for Outbox {
    fn drop(self) {
        let Outbox {
            alloc: _,
            waiting: _,
            front: _,
            taken: _,
            index: _,
            spare: _,
        } = self;
    }
}

impl Model for Outbox {
    ghost use Rattle.std.specs.VecDeque.{deque_capacity};
    ghost use Rattle.ckpt_outbox.specs.Queues.{Queues};
    ghost use Rattle.ckpt_outbox.specs.Places.{IsSound};

    ghost Value = { Queues };

    ghost view = { λ o. record { waiting = o.waiting.items; taken = o.taken; spare = o.spare } };

    ghost invariant = { λ o. IsSound o.waiting.items o.front (deque_capacity o.waiting) o.taken o.index o.spare };
}

/// Makes room for this many more files. A growth at least doubles the room. The queue's own growth
/// may stop at the requested size, and would copy the queue for each file that is taken and not
/// reported.
fn grow(
    meter: &mut Meter,
    waiting: &mut VecDeque<FileId>,
    additional: usize,
) -> Result<(), AllocError>
    ensures items { waiting.new.items ≡ waiting.old.items }
    ensures ok { OnOk result (length waiting.new.items + additional ≤ deque_capacity waiting.new) }
    ensures capacity { deque_capacity waiting.old ≤ deque_capacity waiting.new }
    ensures none { OnOk result (meter.new ≡ meter.old) }
    ensures refused { OnErr result (meter.new ≡ one_more meter.old) }
{
    let free = waiting.capacity() - waiting.len();
    if additional <= free {
        return Ok(());
    }
    let doubling = free.saturating_add(waiting.capacity());
    queue::reserve(meter, waiting, additional.max(doubling))
}

impl Outbox {
    /// An empty outbox, for file numbers that nobody chooses: anybody can know how it hashes them.
    /// Takes no memory.
    pub fn new(alloc: Global) -> Outbox
        ensures { result ≡ record { waiting = []; taken = []; spare = 0 } }
    {
        Outbox::keyed(alloc, Secret::fixed())
    }

    /// An empty outbox that hashes file numbers under a secret. So nobody who chooses the numbers
    /// can make look-ups slow. Takes no memory.
    pub fn keyed(alloc: Global, secret: Secret) -> Outbox
        ensures { result ≡ record { waiting = []; taken = []; spare = 0 } }
    {
        Outbox {
            alloc,
            waiting: VecDeque::new(alloc),
            front: 0,
            taken: Taken::new(),
            index: HashMap::with_hasher(alloc, secret),
            spare: 0,
        }
    }

    /// Makes room for `n` files, which can then be put without memory. Existing room stays.
    ///
    /// Fails only if memory runs out, and then nothing has changed.
    pub fn reserve(&mut self, n: u64) -> Result<(), AllocError>
        ensures ok { OnOk result (self.new ≡ record self.old { spare = max n self.old.spare }) }
        ensures err { OnErr result (self.new ≡ self.old) }
    {
        self.reserve_metered(&mut Meter::new(), n)
    }

    /// [`Outbox::reserve`], which fails exactly if one more request for memory was refused.
    pub fn reserve_metered(&mut self, meter: &mut Meter, n: u64) -> Result<(), AllocError>
        ensures ok { OnOk result (self.new ≡ record self.old { spare = max n self.old.spare }) }
        ensures err { OnErr result (self.new ≡ self.old) }
        ensures none { OnOk result (meter.new ≡ meter.old) }
        ensures refused { OnErr result (meter.new ≡ one_more meter.old) }
    {
        if n <= self.spare {
            return Ok(());
        }
        let room = self.taken.len().saturating_add(n as usize);
        grow(meter, &mut self.waiting, room)?;
        map::reserve(meter, &mut self.index, n as usize)?;
        self.spare = n;
        Ok(())
    }

    /// Puts one file at the end of waiting.
    ///
    /// Conditions: a place is reserved for it, and the outbox does not know it.
    fn put_one(&mut self, file: FileId)
        requires room { 0 < self.old.spare }
        requires unknown { is_known self.old file ≡ false }
        ensures { self.new ≡ record self.old { waiting = self.old.waiting ++ file ∷ []; spare = self.old.spare - 1 } }
    {
        let drawn = next_ticket(&self.waiting, self.front);
        self.waiting.push_back_reserved(file);
        note(&mut self.index, file, drawn);
        self.spare -= 1;
    }

    /// Hands these files out: they go to the end of waiting, in this order. Takes no memory.
    ///
    /// Conditions: [`Outbox::reserve`] made room for them all, no two of them are the same, and
    /// none waits or is taken.
    #[inline(always)]
    pub fn put(&mut self, files: &[FileId])
        requires room { length files.now ≤ self.old.spare }
        requires distinct { AreDistinct files.now }
        requires unknown { (file : ℕ) → is_in file files.now ≡ true → is_known self.old file ≡ false }
        ensures { self.new ≡ record self.old { waiting = self.old.waiting ++ files.now; spare = self.old.spare - length files.now } }
    {
        for file in files {
            self.put_one(*file);
        }
    }

    /// Moves the first file of waiting to the end of taken, and returns it. Takes no memory.
    ///
    /// Condition: a file waits.
    fn take_one(&mut self) -> FileId
        requires { 0 < length self.old.waiting }
        ensures first { self.old.waiting ≡ result ∷ self.new.waiting }
        ensures taken { self.new ≡ record self.old { waiting = self.new.waiting; taken = self.old.taken ++ result ∷ [] } }
    {
        let Some(file) = self.waiting.pop_front() else {
            unreachable!()
        };
        self.front = self.front.wrapping_add(1);
        self.taken.push(file);
        file
    }

    /// Moves the first `most` files of waiting, or all if there are fewer, to the end of taken, and
    /// returns them.
    ///
    /// Fails only if memory runs out, and then nothing has changed.
    pub fn take(&mut self, most: u64) -> Result<Handed, AllocError>
        ensures files { IfOk result (λ files. files ≡ take most self.old.waiting) }
        ensures ok { OnOk result (self.new ≡ record self.old { waiting = drop most self.old.waiting; taken = self.old.taken ++ take most self.old.waiting }) }
        ensures err { OnErr result (self.new ≡ self.old) }
    {
        self.take_metered(&mut Meter::new(), most)
    }

    /// [`Outbox::take`], which fails exactly if one more request for memory was refused.
    pub fn take_metered(&mut self, meter: &mut Meter, most: u64) -> Result<Handed, AllocError>
        ensures files { IfOk result (λ files. files ≡ take most self.old.waiting) }
        ensures ok { OnOk result (self.new ≡ record self.old { waiting = drop most self.old.waiting; taken = self.old.taken ++ take most self.old.waiting }) }
        ensures err { OnErr result (self.new ≡ self.old) }
        ensures none { OnOk result (meter.new ≡ meter.old) }
        ensures refused { OnErr result (meter.new ≡ one_more meter.old) }
    {
        let count = self.waiting.len().min(most as usize);
        let mut files = list::with_capacity(meter, self.alloc, count)?;
        for _ in 0..count {
            files.push_reserved(self.take_one());
        }
        Ok(Handed::of(files))
    }

    /// The file was deleted: it leaves taken. Takes no memory.
    ///
    /// Returns [`NotTaken`] exactly if the file is not taken, and then nothing has changed.
    pub fn deleted(&mut self, file: FileId) -> Result<(), NotTaken>
        ensures refused { IsErr result ↔ (is_taken self.old file ≡ false) }
        ensures ok { OnOk result (self.new ≡ record self.old { taken = without file self.old.taken }) }
        ensures err { OnErr result (self.new ≡ self.old) }
    {
        if !is_taken(&self.index, &self.waiting, self.front, file) {
            return Err(NotTaken);
        }
        self.taken.remove(file);
        self.index.remove(&file);
        Ok(())
    }

    /// The file could not be deleted: it goes from taken to the end of waiting. Takes no memory,
    /// because waiting has room for all taken files.
    ///
    /// Returns [`NotTaken`] exactly if the file is not taken, and then nothing has changed.
    pub fn undeleted(&mut self, file: FileId) -> Result<(), NotTaken>
        ensures refused { IsErr result ↔ (is_taken self.old file ≡ false) }
        ensures ok { OnOk result (self.new ≡ record self.old { waiting = self.old.waiting ++ file ∷ []; taken = without file self.old.taken }) }
        ensures err { OnErr result (self.new ≡ self.old) }
    {
        if !draw_again(&mut self.index, &self.waiting, self.front, file) {
            return Err(NotTaken);
        }
        self.taken.remove(file);
        self.waiting.push_back_reserved(file);
        Ok(())
    }

    /// The file at this place among those that wait, or `None` past the last. The first is fetched
    /// next. Takes constant time.
    pub fn waiting_file(&self, place: usize) -> Option<FileId>
        ensures { result ≡ slice_get self.now.waiting place }
    {
        self.waiting.get(place).copied()
    }

    /// The waiting files, in their order. Fails only if memory runs out.
    pub fn waiting_files(&self) -> Result<Handed, AllocError>
        ensures { IfOk result (λ files. files ≡ self.now.waiting) }
    {
        self.waiting_files_metered(&mut Meter::new())
    }

    /// [`Outbox::waiting_files`], which fails exactly if one more request for memory was refused.
    pub fn waiting_files_metered(&self, meter: &mut Meter) -> Result<Handed, AllocError>
        ensures files { IfOk result (λ files. files ≡ self.now.waiting) }
        ensures none { OnOk result (meter.new ≡ meter.old) }
        ensures refused { OnErr result (meter.new ≡ one_more meter.old) }
    {
        let files = waiting_in(meter, self.alloc, &self.waiting)?;
        Ok(Handed::of(files))
    }

    /// The taken files, in ascending order: their own order is not in memory. Visits each file of
    /// the outbox. Fails only if memory runs out.
    pub fn taken_files(&self) -> Result<Files, AllocError>
        ensures { IfOk result (λ files. files ≡ ascending self.now.taken) }
    {
        self.taken_files_metered(&mut Meter::new())
    }

    /// [`Outbox::taken_files`], which fails exactly if one more request for memory was refused.
    pub fn taken_files_metered(&self, meter: &mut Meter) -> Result<Files, AllocError>
        ensures files { IfOk result (λ files. files ≡ ascending self.now.taken) }
        ensures none { OnOk result (meter.new ≡ meter.old) }
        ensures refused { OnErr result (meter.new ≡ one_more meter.old) }
    {
        let files = taken_in(meter, self.alloc, &self.index, &self.waiting, self.front)?;
        Ok(Files::of(files))
    }

    /// Whether the file waits or is taken. One look-up, and none while the outbox is empty.
    pub fn knows(&self, file: FileId) -> bool
        ensures value { result ≡ is_known self.now file }
        ensures distinct { AreDistinct (self.now.waiting ++ self.now.taken) }
    {
        if self.waiting.is_empty() && self.taken.len() == 0 {
            return false;
        }
        self.index.contains_key(&file)
    }

    /// Whether the file is taken. One look-up.
    pub fn is_taken(&self, file: FileId) -> bool
        ensures { result ≡ is_taken self.now file }
    {
        is_taken(&self.index, &self.waiting, self.front, file)
    }

    /// The number of waiting files.
    pub fn waiting(&self) -> u64
        ensures { result ≡ length self.now.waiting }
    {
        self.waiting.len() as u64
    }

    /// The number of taken files.
    pub fn taken(&self) -> u64
        ensures { result ≡ length self.now.taken }
    {
        self.taken.len() as u64
    }
}
