//! Files in the order in which they were handed out.

ghost use Rattle.std.specs.Prelude.{◌≡◌, ◌≤◌, ◌↔◌, [], IsTrue, length, drop, slice_get};
ghost use Rattle.std.specs.Iterator.Adapters.{IterYieldsInOrder, IterYieldsInReverse};
ghost use Rattle.std.specs.Slice.Iter.{iter_rest};

use crate::numbers::FileId;
use std::marker::Model;
use std::slice::Iter;

/// Files in the order in which they were handed out.
#[derive(Debug)]
pub struct Handed {
    numbers: Vec<FileId>,
}

impl Drop for Handed {
    fn drop(self) {
        let Handed { numbers: _ } = self;
    }
}

impl Model for Handed {
    ghost use Rattle.std.specs.Prelude.{ℕ, List};

    ghost Value = { List ℕ };

    ghost view = { λ h. h.numbers.items };
}

impl Handed {
    /// A list of these files, in this order. Takes no memory.
    pub fn of(numbers: Vec<FileId>) -> Handed
        ensures { result ≡ numbers.items }
    {
        Handed { numbers }
    }

    /// The number of files.
    pub fn len(&self) -> usize
        ensures { result ≡ length self.now }
    {
        self.numbers.len()
    }

    /// Whether the list is empty.
    pub fn is_empty(&self) -> bool
        ensures { IsTrue result ↔ (self.now ≡ []) }
    {
        self.numbers.is_empty()
    }

    /// The file at this place, or `None` past the last.
    pub fn get(&self, place: usize) -> Option<FileId>
        ensures { result ≡ slice_get self.now place }
    {
        self.numbers.get(place).copied()
    }

    /// The files, in the order in which they were handed out.
    pub fn as_slice(&self) -> &[FileId]
        ensures { result.now ≡ self.now }
    {
        self.numbers.as_slice()
    }

    /// The files one after the other, in the order in which they were handed out.
    pub fn iter(&self) -> Iter<'_, FileId>
        ensures rest { iter_rest result ≡ self.now }
        ensures runs { IterYieldsInOrder FileId }
        ensures runs_back { IterYieldsInReverse FileId }
    {
        self.numbers.iter()
    }

    /// The files without the first `count`. Works in place, and takes no memory.
    ///
    /// Condition: there are at least `count` files.
    pub fn rest(self, count: usize) -> Handed
        requires { count ≤ length self }
        ensures { result ≡ drop count self }
    {
        let Handed { mut numbers } = self;
        let kept = numbers.len() - count;
        numbers.rotate_left(count);
        numbers.truncate(kept);
        Handed::of(numbers)
    }
}

impl<'a> IntoIterator for &'a Handed {
    ghost use Rattle.std.specs.Prelude.{◌≡◌};
    ghost use Rattle.std.specs.Iterator.Adapters.{IterYieldsInOrder};
    ghost use Rattle.std.specs.Slice.Iter.{iter_rest};
    ghost use Rattle.ckpt_ids.specs.declared.numbers.FileId.{FileId};

    type Item = &'a FileId;

    type IntoIter = Iter<'a, FileId>;

    ghost into_iter_gives = { λ all it. (iter_rest it ≡ all.now) × IterYieldsInOrder FileId };

    fn into_iter(self) -> Iter<'a, FileId> {
        self.iter()
    }
}

impl PartialEq for Handed {
    ghost use Rattle.std.specs.Prelude.{nat_eq};
    ghost use Rattle.std.specs.Cmp.{nat_eq_equiv, partial_equiv_from_equiv};
    ghost use Rattle.std.specs.Cmp.Lexicographic.{pointwise, lists_per};

    ghost eq = { pointwise nat_eq };

    ghost laws = { lists_per (partial_equiv_from_equiv nat_eq_equiv) };

    fn eq(&self, other: &Handed) -> bool {
        self.numbers == other.numbers
    }
}

impl Eq for Handed {
    ghost use Rattle.std.specs.Cmp.{nat_eq_equiv};
    ghost use Rattle.std.specs.Cmp.Lexicographic.{lists_equiv};

    ghost laws = { lists_equiv nat_eq_equiv };
}
