//! Requests of an `ArcSlice`. Each does what the method of its name does, and counts its refusal.

ghost use Rattle.std.specs.Prelude.{◌≡◌, IfOk, OnOk, OnErr};
ghost use Rattle.std.specs.Arc.{arc_slice_items};
ghost use Rattle.ckpt_memory.specs.Refusals.{one_more};

use crate::meter::Meter;
use std::alloc::AllocError;
use std::sync::ArcSlice;

/// A shared list of these items.
pub fn from_vec<T: Drop>(meter: &mut Meter, items: Vec<T>) -> Result<ArcSlice<T>, AllocError>
    ensures items { IfOk result (λ it. arc_slice_items it ≡ items.items) }
    ensures none { OnOk result (meter.new ≡ meter.old) }
    ensures refused { OnErr result (meter.new ≡ one_more meter.old) }
{
    match ArcSlice::from_vec(items) {
        Ok(it) => Ok(it),
        Err(_) => Err(meter.refuse()),
    }
}

/// One more owner of a shared list. Fails only if the count of owners is full.
pub fn clone<T: Drop>(meter: &mut Meter, items: &ArcSlice<T>) -> Result<ArcSlice<T>, AllocError>
    ensures items { IfOk result (λ it. arc_slice_items it ≡ arc_slice_items items.now) }
    ensures none { OnOk result (meter.new ≡ meter.old) }
    ensures refused { OnErr result (meter.new ≡ one_more meter.old) }
{
    match items.clone() {
        Ok(it) => Ok(it),
        Err(_) => Err(meter.refuse()),
    }
}
