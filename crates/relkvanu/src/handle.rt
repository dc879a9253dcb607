//! The handle: one pointer to a coordinator, or null.

ghost use Rattle.std.specs.Prelude.{◌≡◌, Option, None, Some, IfSome};
ghost use Rattle.std.specs.Option.{option_map};
ghost use Rattle.relkvanu.specs.Kept.{IsHeld, kept};
ghost use Rattle.ckpt_model.specs.State.{State};
ghost use Rattle.ckpt_terms.specs.Machines.{Issued, core_in, machine_of};
ghost use Rattle.ckpt_logged.specs.Chronicles.{Chronicle};

use crate::raw_box::RawBox;
use ckpt_logged::Logged;
use std::alloc::Global;
use std::marker::Model;
use std::mem;
use std::ptr::null_mut;

/// A coordinator, or none if the handle is closed. In C it is one pointer, and null if the handle
/// is closed.
#[repr(C)]
pub struct Handle {
    at: *mut u8,
    /// The coordinator's state, if there is one.
    pub ghost value: { Option State },
    /// The names that its tasks reserve, if they do.
    pub ghost names: { Option Issued },
    /// Where the coordinator began, and what it was asked since, if there is one.
    pub ghost past: { Option Chronicle },
}

impl Model for Handle {
    ghost also_owns = { λ h. kept h.at h.value h.names h.past };
}

impl Handle {
    /// A handle with no coordinator.
    fn closed() -> Handle
        ensures { IsHeld None result.value result.names result.past }
    {
        Handle { at: null_mut() }
    }

    /// A handle that has this coordinator.
    fn of(machine: RawBox<Logged, Global>) -> Handle
        ensures { IsHeld (Some machine.value) result.value result.names result.past }
    {
        let RawBox { at, alloc: _ } = machine;
        Handle { at: at as *mut u8 }
    }

    /// The coordinator of the handle.
    fn into_raw(self, alloc: Global) -> Option<RawBox<Logged, Global>>
        ensures { IsHeld (option_map (λ machine. machine.value) result) self.value self.names self.past }
    {
        let Handle { at } = self;
        if at.is_null() {
            None
        } else {
            Some(RawBox {
                at: at as *mut Logged,
                alloc,
            })
        }
    }

    /// Takes the coordinator out, and closes the handle.
    pub(crate) fn take(&mut self, alloc: Global) -> Option<Box<Logged>>
        ensures held { IsHeld (option_map (λ machine. machine.value) result) self.old.value self.old.names self.old.past }
        ensures whole { IfSome result (λ machine. machine.value.now ≡ machine_of (core_in machine.value.now) self.old.names) }
        ensures closed { IsHeld None self.new.value self.new.names self.new.past }
    {
        let raw = mem::replace(self, Handle::closed()).into_raw(alloc)?;
        Some(raw.into_box())
    }

    /// Gives the handle this coordinator. Drops the one that it had.
    pub(crate) fn put(&mut self, alloc: Global, machine: Box<Logged>)
        ensures { IsHeld (Some machine.value) self.new.value self.new.names self.new.past }
    {
        let had = mem::replace(self, Handle::of(RawBox::of(machine)));
        if let Some(raw) = had.into_raw(alloc) {
            drop(raw.into_box());
        }
    }
}

/// Only the handle owns the coordinator, so it moves with the handle.
unsafe impl Send for Handle {}

/// Does nothing. A value of the type `T` can only be here if it may go to another thread.
fn may_cross<T: Send>() {}

/// Does nothing. The check of this call proves that a handle may go to another thread.
pub fn handle_may_cross() {
    may_cross::<Handle>();
}
