//! The files of an acknowledgement, in ascending order.

ghost use Rattle.std.specs.Prelude.{◌≡◌, ◌↔◌, [], IsTrue, IfOk, OnOk, OnErr, length, slice_get};
ghost use Rattle.std.specs.Iterator.Adapters.{IterYieldsInOrder, IterYieldsInReverse};
ghost use Rattle.std.specs.Slice.Iter.{iter_rest};
ghost use Rattle.ckpt_ids.specs.Ascending.{IsAscending, ascending};
ghost use Rattle.ckpt_memory.specs.Refusals.{one_more};

use crate::numbers::FileId;
use ckpt_memory::{Meter, list};
use std::alloc::AllocError;
use std::marker::Model;
use std::slice::Iter;

/// The files of an acknowledgement, in ascending order. A file that was named twice is there twice.
#[derive(Debug)]
pub struct Files {
    numbers: Vec<FileId>,
}

impl Drop for Files {
    fn drop(self) {
        let Files { numbers: _ } = self;
    }
}

impl Model for Files {
    ghost use Rattle.std.specs.Prelude.{ℕ, List};
    ghost use Rattle.ckpt_ids.specs.Ascending.{IsAscending};

    ghost Value = { List ℕ };

    ghost view = { λ f. f.numbers.items };

    ghost invariant = { λ f. IsAscending f.numbers.items };
}

impl Files {
    /// The same files in ascending order. Sorts in place, and takes no memory. If the files are in
    /// order already, as most are, one pass over them is enough.
    pub fn of(numbers: Vec<FileId>) -> Files
        ensures { result ≡ ascending numbers.items }
    {
        let mut numbers = numbers;
        if !numbers.is_sorted() {
            numbers.sort_unstable();
        }
        Files { numbers }
    }

    /// The number of files.
    pub fn len(&self) -> usize
        ensures { result ≡ length self.now }
    {
        self.numbers.len()
    }

    /// Whether the list is empty.
    pub fn is_empty(&self) -> bool
        ensures { IsTrue result ↔ (self.now ≡ []) }
    {
        self.numbers.is_empty()
    }

    /// The file at this place, or `None` past the last.
    pub fn get(&self, place: usize) -> Option<FileId>
        ensures { result ≡ slice_get self.now place }
    {
        self.numbers.get(place).copied()
    }

    /// The files, in ascending order.
    pub fn as_slice(&self) -> &[FileId]
        ensures files { result.now ≡ self.now }
        ensures ascending { IsAscending self.now }
    {
        self.numbers.as_slice()
    }

    /// The files one after the other, in ascending order.
    pub fn iter(&self) -> Iter<'_, FileId>
        ensures rest { iter_rest result ≡ self.now }
        ensures runs { IterYieldsInOrder FileId }
        ensures runs_back { IterYieldsInReverse FileId }
    {
        self.numbers.iter()
    }

    /// A copy of the list. Fails only if memory runs out.
    pub fn copy(&self) -> Result<Files, AllocError>
        ensures { IfOk result (λ files. files ≡ self.now) }
    {
        self.copy_metered(&mut Meter::new())
    }

    /// [`Files::copy`], which fails exactly if one more request for memory was refused.
    pub fn copy_metered(&self, meter: &mut Meter) -> Result<Files, AllocError>
        ensures value { IfOk result (λ files. files ≡ self.now) }
        ensures none { OnOk result (meter.new ≡ meter.old) }
        ensures refused { OnErr result (meter.new ≡ one_more meter.old) }
    {
        let alloc = *self.numbers.allocator();
        let numbers = list::from_slice(meter, alloc, &self.numbers)?;
        Ok(Files { numbers })
    }

    /// Does nothing. Its contract says that the files are in ascending order.
    #[inline(always)]
    pub fn recall(&self)
        ensures { IsAscending self.now }
    {
        let _numbers = &self.numbers;
    }
}

impl<'a> IntoIterator for &'a Files {
    ghost use Rattle.std.specs.Prelude.{◌≡◌};
    ghost use Rattle.std.specs.Iterator.Adapters.{IterYieldsInOrder};
    ghost use Rattle.std.specs.Slice.Iter.{iter_rest};
    ghost use Rattle.ckpt_ids.specs.declared.numbers.FileId.{FileId};

    type Item = &'a FileId;

    type IntoIter = Iter<'a, FileId>;

    ghost into_iter_gives = { λ all it. (iter_rest it ≡ all.now) × IterYieldsInOrder FileId };

    fn into_iter(self) -> Iter<'a, FileId> {
        self.iter()
    }
}

impl PartialEq for Files {
    ghost use Rattle.std.specs.Prelude.{nat_eq};
    ghost use Rattle.std.specs.Cmp.{nat_eq_equiv, partial_equiv_from_equiv};
    ghost use Rattle.std.specs.Cmp.Lexicographic.{pointwise, lists_per};

    ghost eq = { pointwise nat_eq };

    ghost laws = { lists_per (partial_equiv_from_equiv nat_eq_equiv) };

    fn eq(&self, other: &Files) -> bool {
        self.numbers == other.numbers
    }
}

impl Eq for Files {
    ghost use Rattle.std.specs.Cmp.{nat_eq_equiv};
    ghost use Rattle.std.specs.Cmp.Lexicographic.{lists_equiv};

    ghost laws = { lists_equiv nat_eq_equiv };
}
