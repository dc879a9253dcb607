//! Rows: where an element lies in one that is in order by a key, or where it belongs, and what is
//! taken out.

ghost use Rattle.std.specs.Prelude.{◌≡◌, ◌<◌, Bool, IfOk, IfErr, length, slice_index_or};
ghost use Rattle.std.specs.List.{remove};
ghost use Rattle.ckpt_ids.specs.Ordered.{IsStrictOrder};
ghost use Rattle.ckpt_ids.specs.Places.{AreInOrderBy, BelongsAt, IsSearchOrder, LiesAt};

use crate::ack::Acked;
use crate::subtask::SubtaskId;
use std::cmp::Ordering;
use std::collections::VecDeque;

/// An element of a row that is in order by a key.
pub trait Keyed {
    /// The type of its key.
    type Key: Copy + Ord;

    ghost key_of: { Self → Self.Key };

    ghost before: { Self.Key → Self.Key → Bool };

    /// Its key.
    fn key(&self) -> Self::Key
        ensures { result ≡ key_of self.now };

    ghost is_order: { IsStrictOrder before };

    ghost goes_by_order: { IsSearchOrder Self.Key.cmp before };
}

impl Keyed for Acked {
    ghost use Rattle.ckpt_ids.specs.Acknowledged.{is_before};
    ghost use Rattle.ckpt_ids.specs.SubtaskOrder.{subtasks_in_order, subtasks_searched};

    type Key = SubtaskId;

    ghost key_of = { λ a. a.subtask };

    ghost before = { is_before };

    ghost is_order = { subtasks_in_order };

    ghost goes_by_order = { subtasks_searched };

    fn key(&self) -> SubtaskId {
        self.subtask
    }
}

/// The place of the element with this key, or an `Err` with the place where one belongs. Mostly a
/// caller wants the last or the end, so the last is compared before a binary search.
///
/// Condition: the row is in order by the key, each key once.
#[inline(always)]
pub fn place_of<T: Keyed>(row: &VecDeque<T>, key: T::Key) -> Result<usize, usize>
    requires { AreInOrderBy T.before T.key_of row.now.items }
    ensures found { IfOk result (LiesAt T.key_of key row.now.items) }
    ensures absent { IfErr result (BelongsAt T.before T.key_of key row.now.items) }
{
    let Some(last) = row.back() else {
        return Err(0);
    };
    match last.key().cmp(&key) {
        Ordering::Less => Err(row.len()),
        Ordering::Equal => Ok(row.len() - 1),
        Ordering::Greater => place_below(row, key),
    }
}

/// The same for a key below the last. The first is compared before a binary search.
///
/// Condition: the row is in order by the key, each key once.
fn place_below<T: Keyed>(row: &VecDeque<T>, key: T::Key) -> Result<usize, usize>
    requires { AreInOrderBy T.before T.key_of row.now.items }
    ensures found { IfOk result (LiesAt T.key_of key row.now.items) }
    ensures absent { IfErr result (BelongsAt T.before T.key_of key row.now.items) }
{
    match row.front() {
        Some(first) if first.key() == key => Ok(0),
        _ => row.binary_search_by_key(&key, |element| element.key()),
    }
}

/// Takes out the element at this place. Mostly it is the first or the last, which leave the others
/// where they are.
///
/// Condition: the row has an element at this place.
#[inline(always)]
pub fn take_out<T>(row: &mut VecDeque<T>, place: usize) -> T
    requires { place < length row.old.items }
    ensures value { result ≡ slice_index_or row.old.items place result }
    ensures rest { row.new.items ≡ remove row.old.items place }
{
    let taken = if place == 0 {
        row.pop_front()
    } else if place == row.len() - 1 {
        row.pop_back()
    } else {
        row.remove(place)
    };
    taken.unwrap()
}
