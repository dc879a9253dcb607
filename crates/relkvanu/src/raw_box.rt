//! A box as its pointer and its allocator.

ghost use Rattle.std.specs.Prelude.{◌≡◌};
ghost use Rattle.std_alloc.specs.Box.Ownership.{box_owns};

use std::alloc::Allocator;
use std::marker::Model;

/// A box as its pointer and its allocator. It owns the value at `at`, and the right to free it.
///
/// Nothing drops it: make it a box again with [`RawBox::into_box`].
pub struct RawBox<T, A: Allocator> {
    /// Where the value is.
    pub at: *mut T,
    /// The allocator of the box, which frees it.
    pub alloc: A,
    /// The value at `at`.
    pub ghost value: { T },
}

impl<T, A: Allocator> Model for RawBox<T, A> {
    ghost also_owns = { λ b. box_owns (A.dealloc_token b.alloc) T.row b.at b.value };
}

impl<T: Drop, A: Allocator> RawBox<T, A> {
    /// Takes a box apart. Takes and frees no memory.
    pub fn of(boxed: Box<T, A>) -> RawBox<T, A>
        ensures { result.value ≡ boxed.value }
    {
        let (at, alloc) = Box::into_raw_with_allocator(boxed);
        RawBox { at, alloc }
    }

    /// Makes the box again. Takes and frees no memory.
    pub fn into_box(self) -> Box<T, A>
        ensures { result.value ≡ self.value }
    {
        let RawBox { at, alloc } = self;
        unsafe { Box::from_raw(alloc, at) }
    }
}
