//! Requests of a `VecDeque`. Each does what the method of its name does, and counts its refusal.

ghost use Rattle.std.specs.Prelude.{◌≡◌, ◌+◌, ◌≤◌, [], ◌∷◌, ◌++◌, OnOk, OnErr, is_ok, if◌then◌else◌};
ghost use Rattle.std.specs.List.{insert};
ghost use Rattle.std.specs.VecDeque.{deque_capacity, deque_len};
ghost use Rattle.ckpt_memory.specs.Refusals.{one_more};

use crate::meter::Meter;
use std::alloc::AllocError;
use std::collections::VecDeque;

/// Makes room for this many more items.
pub fn reserve<T: Drop>(
    meter: &mut Meter,
    queue: &mut VecDeque<T>,
    additional: usize,
) -> Result<(), AllocError>
    ensures items { queue.new.items ≡ queue.old.items }
    ensures len { deque_len queue.new ≡ deque_len queue.old }
    ensures capacity { deque_capacity queue.old ≤ deque_capacity queue.new }
    ensures ok { OnOk result (deque_len queue.new + additional ≤ deque_capacity queue.new) }
    ensures none { OnOk result (meter.new ≡ meter.old) }
    ensures refused { OnErr result (meter.new ≡ one_more meter.old) }
{
    match queue.reserve(additional) {
        Ok(()) => Ok(()),
        Err(_) => Err(meter.refuse()),
    }
}

/// Adds an item at the end.
pub fn push_back<T: Drop>(
    meter: &mut Meter,
    queue: &mut VecDeque<T>,
    value: T,
) -> Result<(), AllocError>
    ensures items { queue.new.items ≡ (if is_ok result then queue.old.items ++ value ∷ [] else queue.old.items) }
    ensures len { deque_len queue.new ≡ (if is_ok result then deque_len queue.old + 1 else deque_len queue.old) }
    ensures capacity { deque_capacity queue.old ≤ deque_capacity queue.new }
    ensures none { OnOk result (meter.new ≡ meter.old) }
    ensures refused { OnErr result (meter.new ≡ one_more meter.old) }
{
    match queue.push_back(value) {
        Ok(()) => Ok(()),
        Err(_) => Err(meter.refuse()),
    }
}

/// Adds an item at this place.
///
/// Condition: the place is not past the end.
pub fn insert<T: Drop>(
    meter: &mut Meter,
    queue: &mut VecDeque<T>,
    index: usize,
    value: T,
) -> Result<(), AllocError>
    requires { index ≤ deque_len queue.old }
    ensures items { OnOk result (queue.new.items ≡ insert queue.old.items index value) }
    ensures len { OnOk result (deque_len queue.new ≡ deque_len queue.old + 1) }
    ensures unchanged { OnErr result (queue.new.items ≡ queue.old.items) }
    ensures none { OnOk result (meter.new ≡ meter.old) }
    ensures refused { OnErr result (meter.new ≡ one_more meter.old) }
{
    match queue.insert(index, value) {
        Ok(()) => Ok(()),
        Err(_) => Err(meter.refuse()),
    }
}
