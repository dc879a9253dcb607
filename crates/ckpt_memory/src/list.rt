//! Requests of a `Vec`. Each does what the method of its name does, and counts its refusal.

ghost use Rattle.std.specs.Prelude.{◌≡◌, ◌+◌, ◌≤◌, [], ◌∷◌, ◌++◌, length, IfOk, OnOk, OnErr, is_ok, if◌then◌else◌};
ghost use Rattle.std.specs.Vec.{vec_capacity, vec_len};
ghost use Rattle.ckpt_memory.specs.Refusals.{one_more};

use crate::meter::Meter;
use std::alloc::{AllocError, Global};

/// An empty list with room for this many items.
pub fn with_capacity<T: Drop>(
    meter: &mut Meter,
    alloc: Global,
    capacity: usize,
) -> Result<Vec<T>, AllocError>
    ensures items { IfOk result (λ list. list.items ≡ []) }
    ensures len { IfOk result (λ list. vec_len list ≡ 0) }
    ensures capacity { IfOk result (λ list. capacity ≤ vec_capacity list) }
    ensures none { OnOk result (meter.new ≡ meter.old) }
    ensures refused { OnErr result (meter.new ≡ one_more meter.old) }
{
    match Vec::with_capacity(alloc, capacity) {
        Ok(list) => Ok(list),
        Err(_) => Err(meter.refuse()),
    }
}

/// Makes room for this many more items.
pub fn reserve<T: Drop>(
    meter: &mut Meter,
    list: &mut Vec<T>,
    additional: usize,
) -> Result<(), AllocError>
    ensures items { list.new.items ≡ list.old.items }
    ensures len { vec_len list.new ≡ vec_len list.old }
    ensures ok { OnOk result (vec_len list.new + additional ≤ vec_capacity list.new) }
    ensures capacity { vec_capacity list.old ≤ vec_capacity list.new }
    ensures err { OnErr result (vec_capacity list.new ≡ vec_capacity list.old) }
    ensures none { OnOk result (meter.new ≡ meter.old) }
    ensures refused { OnErr result (meter.new ≡ one_more meter.old) }
{
    match list.reserve(additional) {
        Ok(()) => Ok(()),
        Err(_) => Err(meter.refuse()),
    }
}

/// Adds an item at the end.
pub fn push<T: Drop>(meter: &mut Meter, list: &mut Vec<T>, value: T) -> Result<(), AllocError>
    ensures items { list.new.items ≡ (if is_ok result then list.old.items ++ value ∷ [] else list.old.items) }
    ensures len { vec_len list.new ≡ (if is_ok result then vec_len list.old + 1 else vec_len list.old) }
    ensures capacity { vec_capacity list.old ≤ vec_capacity list.new }
    ensures none { OnOk result (meter.new ≡ meter.old) }
    ensures refused { OnErr result (meter.new ≡ one_more meter.old) }
{
    match list.push(value) {
        Ok(()) => Ok(()),
        Err(_) => Err(meter.refuse()),
    }
}

/// Adds these items at the end.
pub fn extend_from_slice<T: Copy + Drop>(
    meter: &mut Meter,
    list: &mut Vec<T>,
    other: &[T],
) -> Result<(), AllocError>
    ensures items { list.new.items ≡ (if is_ok result then list.old.items ++ other.now else list.old.items) }
    ensures len { vec_len list.new ≡ (if is_ok result then vec_len list.old + length other.now else vec_len list.old) }
    ensures capacity { vec_capacity list.old ≤ vec_capacity list.new }
    ensures none { OnOk result (meter.new ≡ meter.old) }
    ensures refused { OnErr result (meter.new ≡ one_more meter.old) }
{
    match list.extend_from_slice(other) {
        Ok(()) => Ok(()),
        Err(_) => Err(meter.refuse()),
    }
}

/// A list with a copy of these items.
pub fn from_slice<T: Copy + Drop>(
    meter: &mut Meter,
    alloc: Global,
    items: &[T],
) -> Result<Vec<T>, AllocError>
    ensures items { IfOk result (λ list. list.items ≡ items.now) }
    ensures len { IfOk result (λ list. vec_len list ≡ length items.now) }
    ensures none { OnOk result (meter.new ≡ meter.old) }
    ensures refused { OnErr result (meter.new ≡ one_more meter.old) }
{
    match Vec::from_slice(alloc, items) {
        Ok(list) => Ok(list),
        Err(_) => Err(meter.refuse()),
    }
}
