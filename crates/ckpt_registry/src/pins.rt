//! The pins of records: files that they keep present, or a live record whose files they keep
//! present.
ghost use Rattle.std.specs.Prelude.{◌≡◌, ℕ, ◌+◌, ◌<◌, ◌≤◌, ◌^◌, [], ◌++◌, filter, not, length, IfOk, OnOk, OnErr};
ghost use Rattle.std.specs.Vec.{vec_capacity};
ghost use Rattle.indexmap.specs.IndexMap.{index_map_len};
ghost use Rattle.ckpt_ids.specs.Ascending.{ascending_set};
ghost use Rattle.ckpt_ids.specs.Counting.{times};
ghost use Rattle.ckpt_ids.specs.Ordered.{IsIn};
ghost use Rattle.ckpt_memory.specs.Refusals.{one_more};
ghost use Rattle.ckpt_registry.specs.Counters.{counter, AreInRange, AreLowered, HasRoom};
ghost use Rattle.ckpt_registry.specs.Holdings.{Acknowledged, AreRising, parts_of};
ghost use Rattle.ckpt_registry.specs.RecordParts.{files_in};
ghost use Rattle.ckpt_registry.specs.Pins.{AreKept, AreSettled, IsKept, IsLook, IsSettled, each_file, is_named, named_by, own_files, own_in, own_of, parts_pinned, pinned_by, pins_of_records};
ghost use Rattle.ckpt_registry.specs.Sound.{AreCounted, WereKept};

use crate::counters::{Counts, count_reused};
use crate::holdings::{Acknowledged, lower_each, parts_held};
use crate::record_parts::{MOST_FILES, RecordParts, emptied, write};
use crate::sorting::sort;
use ckpt_ids::{CheckpointId, FileId};
use ckpt_memory::{Meter, list};
use std::alloc::{AllocError, Global};
use std::mem::replace;

/// A count searches at most this many records for pins. A search in a record of 4096 subtasks takes
/// some 60 microseconds.
const MOST_SEARCHES: usize = 64;

/// A record that pins files.
#[derive(Debug, Drop)]
pub(crate) struct Pinner {
    pub(crate) id: CheckpointId,
    pub(crate) pins: Pins,
}

/// What a record pins.
#[derive(Debug, Drop)]
pub(crate) enum Pins {
    /// All files of a live record. It uses each of them, so they are not counted. Once it is
    /// dropped they are, and this room takes them.
    Record {
        first: FirstParts,
        room: Vec<FileId>,
    },
    /// Files that are counted one by one.
    Files(Vec<FileId>),
}

/// The first parts of a live record, which may get more.
#[derive(Clone, Copy, Debug, Drop, PartialEq, Eq)]
pub(crate) struct FirstParts {
    pub(crate) id: CheckpointId,
    pub(crate) parts: usize,
}

impl Pins {
    /// The files that are pinned. A file of several parts is there once for each.
    ///
    /// Conditions: the numbers of the records rise, and the record that is pinned still has its parts.
    fn files<'a>(&'a self, acknowledged: &'a Acknowledged) -> &'a [FileId]
        requires rising { AreRising acknowledged.now.items }
        requires kept { IsKept acknowledged.now self.now }
        ensures { result.now ≡ files_in (parts_pinned acknowledged.now self.now) ++ own_files self.now }
    {
        match self {
            Pins::Record { first, .. } => match parts_held(acknowledged, first.id) {
                Some(parts) => parts.files_of_first(first.parts),
                None => &[],
            },
            Pins::Files(own) => own.as_slice(),
        }
    }

    /// If these are the pins of a dropped record, which had these parts, its files are counted one
    /// by one from now on. Takes no memory.
    ///
    /// Conditions: each file of these parts has a counter, no counter grows beyond its range, and there
    /// is room for the files.
    fn settle(&mut self, counts: &mut Counts, chosen: CheckpointId, parts: &RecordParts)
        requires kept { WereKept chosen parts.now counts.old self.old }
        requires present { (f : ℕ) → IsIn f (files_in parts.now) → 0 < counter counts.old f }
        requires range { AreInRange counts.old }
        ensures settled { IsSettled chosen parts.now self.old self.new }
        ensures counted { (f : ℕ) → counter counts.new f + times f (own_files self.old) ≡ counter counts.old f + times f (own_files self.new) }
        ensures len { index_map_len counts.new ≡ index_map_len counts.old }
        ensures range { AreInRange counts.new }
    {
        if let Pins::Record { first, room } = self
            && first.id == chosen
        {
            let alloc = *room.allocator();
            let room = replace(room, Vec::new(alloc));
            *self = Pins::Files(count_once(counts, parts.files_of_first(first.parts), room));
        }
    }

    /// Gives up the pins. Returns the list that is then spare, empty.
    ///
    /// Conditions: files that are counted one by one are in the counters, and there is room for all
    /// that are released.
    fn give_up(self, counts: &mut Counts, released: &mut Vec<FileId>) -> Vec<FileId>
        requires counted { (f : ℕ) → times f (own_files self) ≤ counter counts.old f }
        requires range { AreInRange counts.old }
        requires room { HasRoom counts.old released.old }
        ensures lowered { AreLowered (λ f. times f (own_files self)) counts.old released.old counts.new released.new }
        ensures no_files { result.items ≡ [] }
    {
        let files = match self {
            Pins::Record { room, .. } => room,
            Pins::Files(own) => {
                lower_each(counts, released, &own);
                own
            }
        };
        emptied(files, MOST_FILES)
    }
}

/// Counts these files, each once, and returns them in this room. Takes no memory.
///
/// Conditions: the room is empty and has room for them, each has a counter, and no counter grows
/// beyond its range.
fn count_once(counts: &mut Counts, files: &[FileId], room: Vec<FileId>) -> Vec<FileId>
    requires empty { room.items ≡ [] }
    requires room { length files.now ≤ vec_capacity room }
    requires present { (f : ℕ) → IsIn f files.now → 0 < counter counts.old f }
    requires fits { (f : ℕ) → counter counts.old f + times f (ascending_set files.now) < 2 ^ 32 }
    requires range { AreInRange counts.old }
    ensures files { result.items ≡ ascending_set files.now }
    ensures counted { (f : ℕ) → counter counts.new f ≡ counter counts.old f + times f (ascending_set files.now) }
    ensures len { index_map_len counts.new ≡ index_map_len counts.old }
    ensures range { AreInRange counts.new }
{
    let mut own = room;
    write(&mut own, files);
    sort(&mut own);
    own.dedup();
    count_reused(counts, &own);
    own
}

/// How many searches a count makes: one in each record that is pinned as a whole. Consecutive pins
/// of the same one share a search.
fn searches(pinned: &[Pinner]) -> usize {
    let mut count: usize = 0;
    let mut last = None;
    for one in pinned {
        if let Pins::Record { first, .. } = &one.pins {
            if last != Some(*first) {
                count = count.saturating_add(1);
            }
            last = Some(*first);
        }
    }
    count
}

/// Whether one more pin of these parts shares the search of the last pin.
fn is_searched(pinned: &[Pinner], first: &FirstParts) -> bool {
    let Some(last) = pinned.last() else {
        return false;
    };
    match &last.pins {
        Pins::Record { first: other, .. } => other == first,
        Pins::Files(_) => false,
    }
}

/// The pins of all files of a live record, which has these parts, in room for the files.
///
/// Mostly the record is pinned as a whole, and none of its files is visited. Each record that is
/// pinned so costs a count a search. So once there are [`MOST_SEARCHES`], the files of a further
/// one are counted one by one.
///
/// Conditions: the room is empty and has room for the files, each has a counter, and no counter grows
/// beyond its range.
pub(crate) fn pin_all(
    counts: &mut Counts,
    pinned: &[Pinner],
    chosen: CheckpointId,
    parts: &RecordParts,
    room: Vec<FileId>,
) -> Pins
    requires empty { room.items ≡ [] }
    requires room { length (files_in parts.now) ≤ vec_capacity room }
    requires present { (f : ℕ) → IsIn f (files_in parts.now) → 0 < counter counts.old f }
    requires fits { (f : ℕ) → counter counts.old f + times f (each_file parts.now) < 2 ^ 32 }
    requires range { AreInRange counts.old }
    ensures kept { (m : Acknowledged) → parts_of m chosen ≡ parts.now → IsKept m result }
    ensures pinned { (m : Acknowledged) → parts_of m chosen ≡ parts.now → pinned_by m result ≡ each_file parts.now }
    ensures counted { (f : ℕ) → counter counts.new f ≡ counter counts.old f + times f (own_files result) }
    ensures len { index_map_len counts.new ≡ index_map_len counts.old }
    ensures range { AreInRange counts.new }
{
    let first = FirstParts {
        id: chosen,
        parts: parts.len(),
    };
    if !is_searched(pinned, &first) && searches(pinned) >= MOST_SEARCHES {
        return Pins::Files(count_once(counts, parts.files(), room));
    }
    Pins::Record { first, room }
}

/// The files that a record pins. A file of several parts is there once for each. Fails only if
/// memory runs out.
///
/// Conditions: the numbers of the records rise, and each record that is pinned still has its parts.
pub(crate) fn files_pinned(
    meter: &mut Meter,
    alloc: Global,
    acknowledged: &Acknowledged,
    pinned: &[Pinner],
    id: CheckpointId,
) -> Result<Vec<FileId>, AllocError>
    requires rising { AreRising acknowledged.now.items }
    requires kept { AreKept acknowledged.now pinned.now }
    ensures items { IfOk result (λ all. all.items ≡ named_by acknowledged.now id pinned.now) }
    ensures none { OnOk result (meter.new ≡ meter.old) }
    ensures refused { OnErr result (meter.new ≡ one_more meter.old) }
{
    let mut all = Vec::new(alloc);
    for one in pinned {
        if one.id == id {
            list::extend_from_slice(meter, &mut all, one.pins.files(acknowledged))?;
        }
    }
    Ok(all)
}

/// Whether a file is in one of the first parts of a live record.
#[derive(Clone, Copy, Drop)]
struct Look {
    first: FirstParts,
    found: bool,
}

/// Whether a file belongs to the live record that is pinned. Many records may pin the same one, so
/// if the last search was in this record, its result is used again.
///
/// Conditions: the numbers of the records rise, the record that is pinned still has its parts, and the
/// last search was for this file.
fn looked(acknowledged: &Acknowledged, first: FirstParts, last: Look, file: FileId) -> Look
    requires rising { AreRising acknowledged.now.items }
    requires within { first.parts ≤ length (parts_of acknowledged.now first.id) }
    requires last { IsLook acknowledged.now file last }
    ensures look { IsLook acknowledged.now file result }
    ensures first { result.first ≡ first }
{
    if first == last.first {
        return last;
    }
    let found = match parts_held(acknowledged, first.id) {
        Some(parts) => parts.has(first.parts, file),
        None => false,
    };
    Look { first, found }
}

/// How many of these pin a live record that has this file.
///
/// Conditions: the numbers of the records rise, each record that is pinned still has its parts, and
/// they are fewer than 2^32.
pub(crate) fn pins_of(acknowledged: &Acknowledged, pinned: &[Pinner], file: FileId) -> u32
    requires rising { AreRising acknowledged.now.items }
    requires kept { AreKept acknowledged.now pinned.now }
    requires below { pins_of_records acknowledged.now file pinned.now < 2 ^ 32 }
    ensures { result ≡ pins_of_records acknowledged.now file pinned.now }
{
    let mut pins: u32 = 0;
    // No file is in the first 0 parts of a record.
    let mut last = Look {
        first: FirstParts {
            id: CheckpointId(0),
            parts: 0,
        },
        found: false,
    };
    for one in pinned {
        if let Pins::Record { first, .. } = &one.pins {
            last = looked(acknowledged, *first, last, file);
            if last.found {
                pins += 1;
            }
        }
    }
    pins
}

/// Counts the files of a dropped record once for each record that pins it. Takes no memory.
///
/// Condition: before it was dropped it had these parts, and the counters were right.
pub(crate) fn settle(
    pinned: &mut Vec<Pinner>,
    counts: &mut Counts,
    chosen: CheckpointId,
    parts: &RecordParts,
)
    requires { (before : Acknowledged) × (parts_of before chosen ≡ parts.now) × AreCounted before pinned.old.items counts.old }
    ensures settled { AreSettled chosen parts.now pinned.old.items pinned.new.items }
    ensures counted { (f : ℕ) → counter counts.new f + times f (own_in pinned.old.items) ≡ counter counts.old f + times f (own_in pinned.new.items) }
    ensures len { index_map_len counts.new ≡ index_map_len counts.old }
    ensures range { AreInRange counts.new }
{
    for one in pinned.iter_mut() {
        one.pins.settle(counts, chosen, parts);
    }
}

/// Removes the pins of these records. The room of the last of them is then spare.
///
/// Conditions: files that are counted one by one are in the counters, there is room for all that are
/// released, and the spare room is empty.
pub(crate) fn unpin(
    pinned: &mut Vec<Pinner>,
    counts: &mut Counts,
    released: &mut Vec<FileId>,
    room: &mut Vec<FileId>,
    owners: &[CheckpointId],
)
    requires counted { (f : ℕ) → times f (own_in pinned.old.items) ≤ counter counts.old f }
    requires range { AreInRange counts.old }
    requires room { HasRoom counts.old released.old }
    requires no_files { room.old.items ≡ [] }
    ensures kept { pinned.new.items ≡ filter (λ one. not (is_named owners.now one.id)) pinned.old.items }
    ensures lowered { AreLowered (λ f. times f (own_of owners.now pinned.old.items)) counts.old released.old counts.new released.new }
    ensures no_files { room.new.items ≡ [] }
{
    let mut place: usize = 0;
    for _ in 0..pinned.len() {
        if owners.contains(&pinned[place].id) {
            let one = pinned.remove(place);
            *room = one.pins.give_up(counts, released);
        } else {
            place += 1;
        }
    }
}
