//! The list of numbers of a line.
ghost use Rattle.std.specs.Prelude.{◌≡◌, ◌↔◌, [], IsTrue, length, slice_get};

use std::marker::Model;

/// Numbers in the order of the line.
#[derive(Debug, Drop)]
pub struct Numbers {
    list: Vec<u64>,
}

impl Model for Numbers {
    ghost use Rattle.std.specs.Prelude.{ℕ, List};

    ghost Value = { List ℕ };

    ghost view = { λ n. n.list.items };
}

impl Numbers {
    /// A list of these numbers, in this order. Takes no memory.
    pub fn of(list: Vec<u64>) -> Numbers
        ensures { result ≡ list.items }
    {
        Numbers { list }
    }

    /// The number of items.
    pub fn len(&self) -> usize
        ensures { result ≡ length self.now }
    {
        self.list.len()
    }

    /// Whether the list is empty.
    pub fn is_empty(&self) -> bool
        ensures { IsTrue result ↔ (self.now ≡ []) }
    {
        self.list.is_empty()
    }

    /// The number at this place, or `None` past the last.
    pub fn get(&self, place: usize) -> Option<u64>
        ensures { result ≡ slice_get self.now place }
    {
        self.list.get(place).copied()
    }

    /// The numbers, in the order of the line.
    pub fn as_slice(&self) -> &[u64]
        ensures { result.now ≡ self.now }
    {
        self.list.as_slice()
    }
}

impl PartialEq for Numbers {
    ghost use Rattle.std.specs.Prelude.{nat_eq};
    ghost use Rattle.std.specs.Cmp.{nat_eq_equiv, partial_equiv_from_equiv};
    ghost use Rattle.std.specs.Cmp.Lexicographic.{pointwise, lists_per};

    ghost eq = { pointwise nat_eq };

    ghost laws = { lists_per (partial_equiv_from_equiv nat_eq_equiv) };

    fn eq(&self, other: &Numbers) -> bool {
        self.list == other.list
    }
}

impl Eq for Numbers {
    ghost use Rattle.std.specs.Cmp.{nat_eq_equiv};
    ghost use Rattle.std.specs.Cmp.Lexicographic.{lists_equiv};

    ghost laws = { lists_equiv nat_eq_equiv };
}
