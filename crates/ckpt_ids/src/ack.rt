//! Acknowledgements of subtasks, and the metadata of a record.

ghost use Rattle.std.specs.Prelude.{◌≡◌, ◌↔◌, [], IsTrue, length, slice_get};
ghost use Rattle.std.specs.Option.{option_copied};
ghost use Rattle.std.specs.Iterator.Adapters.{IterYieldsInOrder, IterYieldsInReverse};
ghost use Rattle.std.specs.Slice.Iter.{iter_rest};

use crate::files::Files;
use crate::numbers::{CheckpointId, Kind};
use crate::shape::Shape;
use crate::subtask::SubtaskId;
use std::marker::Model;
use std::slice::Iter;

/// The acknowledgement of one subtask: all files of its part, fresh and reused together.
#[derive(Debug, Drop, PartialEq, Eq)]
pub struct Acked {
    /// The subtask that acknowledged.
    pub subtask: SubtaskId,
    /// Its files.
    pub files: Files,
}

/// Acknowledgements in the order of their subtasks, at most one of each.
#[derive(Debug)]
pub struct Acks {
    list: Vec<Acked>,
}

impl Drop for Acks {
    fn drop(self) {
        let Acks { list: _ } = self;
    }
}

impl Model for Acks {
    ghost use Rattle.std.specs.Prelude.{List};
    ghost use Rattle.ckpt_ids.specs.declared.ack.Acked.{Acked};
    ghost use Rattle.ckpt_ids.specs.Acknowledged.{AreInSubtaskOrder};

    ghost Value = { List Acked };

    ghost view = { λ a. a.list.items };

    ghost invariant = { λ a. AreInSubtaskOrder a.list.items };
}

impl Acks {
    ghost use Rattle.ckpt_ids.specs.Acknowledged.{AreInSubtaskOrder};

    /// A list of these acknowledgements. Takes no memory.
    ///
    /// Condition: they are in the order of their subtasks, at most one of each.
    pub fn of(list: Vec<Acked>) -> Acks
        requires { AreInSubtaskOrder list.items }
        ensures { result ≡ list.items }
    {
        Acks { list }
    }

    /// How many subtasks have acknowledged.
    pub fn len(&self) -> usize
        ensures value { result ≡ length self.now }
        ensures order { AreInSubtaskOrder self.now }
    {
        self.list.len()
    }

    /// Whether no subtask has acknowledged.
    pub fn is_empty(&self) -> bool
        ensures { IsTrue result ↔ (self.now ≡ []) }
    {
        self.list.is_empty()
    }

    /// The acknowledgement at this place, or `None` past the last.
    pub fn get(&self, place: usize) -> Option<&Acked>
        ensures { option_copied result ≡ slice_get self.now place }
    {
        self.list.get(place)
    }

    /// The acknowledgements, in the order of their subtasks.
    pub fn as_slice(&self) -> &[Acked]
        ensures acks { result.now ≡ self.now }
        ensures order { AreInSubtaskOrder self.now }
    {
        self.list.as_slice()
    }

    /// The acknowledgements one after the other, in the order of their subtasks.
    pub fn iter(&self) -> Iter<'_, Acked>
        ensures rest { iter_rest result ≡ self.now }
        ensures runs { IterYieldsInOrder Acked }
        ensures runs_back { IterYieldsInReverse Acked }
    {
        self.list.iter()
    }
}

impl<'a> IntoIterator for &'a Acks {
    ghost use Rattle.std.specs.Prelude.{◌≡◌};
    ghost use Rattle.std.specs.Iterator.Adapters.{IterYieldsInOrder};
    ghost use Rattle.std.specs.Slice.Iter.{iter_rest};
    ghost use Rattle.ckpt_ids.specs.declared.ack.Acked.{Acked};

    type Item = &'a Acked;

    type IntoIter = Iter<'a, Acked>;

    ghost into_iter_gives = { λ all it. (iter_rest it ≡ all.now) × IterYieldsInOrder Acked };

    fn into_iter(self) -> Iter<'a, Acked> {
        self.iter()
    }
}

impl PartialEq for Acks {
    ghost use Rattle.std.specs.Cmp.{partial_equiv_from_equiv};
    ghost use Rattle.std.specs.Cmp.Lexicographic.{pointwise, lists_per};
    ghost use Rattle.ckpt_ids.specs.Acknowledged.{same_acked, same_acked-equivalence};

    ghost eq = { pointwise same_acked };

    ghost laws = { lists_per (partial_equiv_from_equiv same_acked-equivalence) };

    fn eq(&self, other: &Acks) -> bool {
        self.list == other.list
    }
}

impl Eq for Acks {
    ghost use Rattle.std.specs.Cmp.Lexicographic.{lists_equiv};
    ghost use Rattle.ckpt_ids.specs.Acknowledged.{same_acked-equivalence};

    ghost laws = { lists_equiv same_acked-equivalence };
}

/// What the coordinator knows of a live record.
#[derive(Debug, Drop, PartialEq, Eq)]
pub struct Metadata {
    /// The number of the record.
    pub id: CheckpointId,
    /// Whether it is a checkpoint or a savepoint.
    pub kind: Kind,
    /// Whether all subtasks have acknowledged.
    pub done: bool,
    /// The shape that the job had when the record was triggered.
    pub shape: Shape,
    /// The moment of the trigger, in milliseconds.
    pub started: u64,
    /// The acknowledgements so far.
    pub acks: Acks,
}
