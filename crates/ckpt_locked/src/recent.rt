//! A list that counts all its items and keeps the last ones in memory.
//!
//! Contracts see the whole list, and a program can read its end. So a book that runs for years forgets
//! its old entries, and its promises are still about all entries.

ghost use Rattle.std.specs.Prelude.{◌≡◌, ◌≢◌, ◌↔◌, ◌+◌, ◌-◌, ◌^◌, ◌<◌, [], ◌∷◌, ◌++◌, length, IsTrue, OnOk, OnErr, min};
ghost use Rattle.std.specs.Option.{option_copied};
ghost use Rattle.ckpt_memory.specs.Refusals.{one_more};

use crate::past::Past;
use ckpt_memory::{Meter, queue};
use std::alloc::{AllocError, Global};
use std::collections::VecDeque;
use std::marker::Model;
use std::{cmp, fmt};

/// The room of a list when it grows for the first time.
const FIRST_ROOM: usize = 4;

/// A list that counts all its items and keeps the last `keep` of them.
///
/// Contracts see all items. Those before the last `keep` take no memory and can't be read.
#[derive(Drop)]
pub(crate) struct Recent<T> {
    past: Past<T>,
    forgotten: u64,
    kept: VecDeque<T>,
    keep: u64,
}

impl<T: fmt::Debug> fmt::Debug for Recent<T> {
    /// Shows the items in memory.
    fn fmt<W: fmt::Write>(&self, f: &mut fmt::Formatter<W>) -> fmt::Result {
        f.debug_struct("Recent")
            .field("forgotten", &self.forgotten)
            .field("kept", &self.kept)
            .field("keep", &self.keep)
            .finish()
    }
}

impl<T> Model for Recent<T> {
    ghost use Rattle.std.specs.Prelude.{◌-◌, ◌++◌};
    ghost use Rattle.std.specs.VecDeque.{deque_capacity, deque_len};
    ghost use Rattle.ckpt_locked.specs.Lists.{Listed, IsListed};

    ghost Value = { Listed T };

    ghost view = { λ r. record { items = r.past ++ r.kept.items; keep = r.keep; room = deque_capacity r.kept - deque_len r.kept } };

    ghost invariant = { λ r. IsListed r.past r.kept.items r.forgotten r.keep };
}

impl<T: Drop> Recent<T> {
    ghost use Rattle.ckpt_locked.specs.Lists.{all, kept_at};

    /// An empty list that keeps all items. Takes no memory.
    pub(crate) fn new(alloc: Global) -> Recent<T>
        ensures items { result.items ≡ [] }
        ensures keep { result.keep ≡ all }
    {
        Recent {
            past: Past::new(),
            forgotten: 0,
            kept: VecDeque::new(alloc),
            keep: u64::MAX,
        }
    }

    /// Makes room for one item. A growth at least doubles the room.
    ///
    /// Fails only if memory runs out, and at 2^64 - 1 items.
    pub(crate) fn make_room(&mut self, meter: &mut Meter) -> Result<(), AllocError>
        ensures items { self.new.items ≡ self.old.items }
        ensures keep { self.new.keep ≡ self.old.keep }
        ensures room { OnOk result (0 < self.new.room) }
        ensures few { OnOk result (length self.new.items + 1 < 2 ^ 64) }
        ensures none { OnOk result (meter.new ≡ meter.old) }
        ensures refused { length self.old.items + 1 < 2 ^ 64 → OnErr result (meter.new ≡ one_more meter.old) }
    {
        if self.len() == u64::MAX {
            return Err(AllocError);
        }
        let held = self.kept.len();
        if held < self.kept.capacity() {
            return Ok(());
        }
        queue::reserve(meter, &mut self.kept, cmp::max(held, FIRST_ROOM))
    }

    /// Puts an item at the end, into reserved room. Takes no memory.
    ///
    /// Conditions: [`Recent::make_room`] made room for the item, and the list has fewer than
    /// 2^64 - 1 items.
    #[inline(always)]
    pub(crate) fn push_reserved(&mut self, item: T)
        requires room { 0 < self.old.room }
        requires few { length self.old.items + 1 < 2 ^ 64 }
        ensures items { self.new.items ≡ self.old.items ++ item ∷ [] }
        ensures keep { self.new.keep ≡ self.old.keep }
    {
        self.kept.push_back_reserved(item);
        if self.kept.len() as u64 > self.keep {
            forget_first(&mut self.past, &mut self.kept, &mut self.forgotten);
        }
    }

    /// From now on keeps at most the last `most` items. A later call with a greater `most` changes
    /// nothing. Takes no memory.
    pub(crate) fn keep_last(&mut self, most: u64)
        ensures items { self.new.items ≡ self.old.items }
        ensures keep { self.new.keep ≡ min self.old.keep most }
    {
        if most >= self.keep {
            return;
        }
        while self.kept.len() as u64 > most {
            forget_first(&mut self.past, &mut self.kept, &mut self.forgotten);
        }
        self.keep = most;
    }

    /// The number of items, forgotten ones included.
    pub(crate) fn len(&self) -> u64
        ensures { result ≡ length self.now.items }
    {
        self.forgotten + self.kept.len() as u64
    }

    /// Whether no item was put in.
    pub(crate) fn is_empty(&self) -> bool
        ensures { IsTrue result ↔ (self.now.items ≡ []) }
    {
        self.len() == 0
    }

    /// The number of items in memory.
    pub(crate) fn held(&self) -> u64
        ensures { result ≡ min (length self.now.items) self.now.keep }
    {
        self.kept.len() as u64
    }

    /// The item at this place, from 0, or `None` past the last item or before the last `keep`.
    pub(crate) fn get(&self, place: u64) -> Option<&T>
        ensures { option_copied result ≡ kept_at self.now.keep self.now.items place }
    {
        let at = place.checked_sub(self.forgotten)?;
        self.kept.get(at as usize)
    }
}

/// Forgets the first item in memory. It is a function of its own because a list that keeps all
/// items never needs it.
///
/// Conditions: there is one, and fewer than 2^64 - 1 were forgotten before.
#[inline(never)]
fn forget_first<T: Drop>(past: &mut Past<T>, kept: &mut VecDeque<T>, forgotten: &mut u64)
    requires some { kept.old.items ≢ [] }
    requires few { forgotten.old + 1 < 2 ^ 64 }
    ensures items { past.new ++ kept.new.items ≡ past.old ++ kept.old.items }
    ensures fewer { length kept.new.items + 1 ≡ length kept.old.items }
    ensures past { length past.new ≡ length past.old + 1 }
    ensures counted { forgotten.new ≡ forgotten.old + 1 }
{
    let Some(first) = kept.pop_front() else {
        unreachable!()
    };
    let _ = past.push(first);
    *forgotten += 1;
}
