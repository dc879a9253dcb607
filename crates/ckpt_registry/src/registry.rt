//! The registry: the uses of state files, how often each file is used, and which are released.
ghost use Rattle.std.specs.Prelude.{◌≡◌, ℕ, ◌-◌, ◌^◌, ◌<◌, [], ◌++◌, false, true, map, length, IfOk, OnOk, OnErr};
ghost use Rattle.std.specs.Borrow.{sem};
ghost use Rattle.ckpt_ids.specs.Ordered.{IsIn, IsInOrder, in_order_once};
ghost use Rattle.ckpt_ids.specs.Ascending.{IsAscendingSet, ascending_set};
ghost use Rattle.ckpt_ids.specs.Records.{Subtask, Pin, count, is_present, released, use_before};
ghost use Rattle.ckpt_memory.specs.Refusals.{one_more};
ghost use Rattle.ckpt_registry.specs.Uses.{IsEachOnce, HasNoUse, after_end, files_by, pins_by, triples, without};

use crate::counters::{count_each, count_fresh, count_reused};
use crate::holdings::{hold, parts_held};
use crate::pins::{Pinner, Pins, files_pinned, pin_all, pins_of, unpin};
use crate::record_parts::RecordParts;
use crate::releases::{Uses, release_each};
use crate::sorting::sort;
use ckpt_hash::Secret;
use ckpt_ids::{CheckpointId, FileId, Files, SubtaskId};
use ckpt_memory::{Meter, index, list};
use indexmap::IndexMap;
use std::alloc::{AllocError, Global};
use std::collections::VecDeque;
use std::marker::Model;
use std::mem::replace;

/// The uses of state files by live records, and how often each file is used.
///
/// The time of a call grows with what it names:
///
/// - `contains` is one look-up.
/// - `use_files`, `hold_files` and `pin_files` visit their k files.
/// - `pin_record` visits the subtasks of the record that it pins, and the records that pin another.
///   If 64 others are pinned as a whole, it also sorts and counts the files of the record.
/// - `release` and `end` visit what the named records use, and each record that pins another. A
///   look-up takes O(log n) steps among n. Removing a record moves up to half of the others by a
///   place.
/// - `count` makes one look-up. For each record that is pinned as a whole, of which there are at
///   most 64, it also makes a binary search in the files of each subtask. If consecutive records
///   pin the same record, that is searched once.
///
/// No call visits other files. A record that is pinned as a whole uses each of its files, so they
/// are present while it is live. So such pins are counted only once it is dropped.
///
/// A use by an acknowledgement takes 8 bytes, and the acknowledgement 24, in two lists of the record
/// that double when they are full. A pin takes 8 bytes. A new record begins with the lists of the
/// last one that was dropped, if they have at most 14 kilobytes. So while records come and go that
/// need no more, an acknowledgement takes memory only for the counters of further files.
#[derive(Debug)]
pub struct Registry {
    uses: Uses,
    /// The answer of the last release, in room for all files that are present.
    released: Vec<FileId>,
    /// Empty room for the parts of the next new record. It comes from the last dropped record.
    spare: RecordParts,
    /// Empty room for the files of the next record that pins another. It comes from the last pins
    /// that went.
    room: Vec<FileId>,
}

impl Drop for Registry {
    fn drop(self) {
        let Registry {
            uses: _,
            released: _,
            spare: _,
            room: _,
        } = self;
    }
}

impl Model for Registry {
    ghost use Rattle.std.specs.Prelude.{◌≡◌, List, []};
    ghost use Rattle.std.specs.Vec.{vec_capacity};
    ghost use Rattle.ckpt_ids.specs.Records.{Use};
    ghost use Rattle.ckpt_registry.specs.Sound.{IsSound, in_use};

    ghost Value = { List Use };

    ghost view = { λ r. in_use r.uses.acknowledged r.uses.pinned.items };

    ghost invariant = { λ r. IsSound r.uses.acknowledged r.uses.pinned.items r.uses.counts (vec_capacity r.released) × (r.spare ≡ []) × (r.room.items ≡ []) };
}

impl Registry {
    ghost use Rattle.ckpt_registry.specs.Ends.{EndsAs};

    /// A registry without uses, for file numbers that nobody chooses: anybody can know how it
    /// hashes them. Takes no memory.
    pub fn new(alloc: Global) -> Registry
        ensures { result ≡ [] }
    {
        Registry::keyed(alloc, Secret::fixed())
    }

    /// A registry without uses that hashes file numbers under a secret. So nobody who chooses the
    /// numbers can make look-ups slow. Takes no memory.
    pub fn keyed(alloc: Global, secret: Secret) -> Registry
        ensures { result ≡ [] }
    {
        Registry {
            uses: Uses {
                acknowledged: VecDeque::new(alloc),
                pinned: Vec::new(alloc),
                counts: IndexMap::with_hasher(alloc, secret),
            },
            released: Vec::new(alloc),
            spare: RecordParts::new(alloc),
            room: Vec::new(alloc),
        }
    }

    /// Adds the uses of the acknowledgement of one subtask: one for each of its files. Fails only
    /// if memory runs out, and then adds none.
    ///
    /// Conditions: the fresh files have no use yet, each reused one has 1 to 2^32 - 2, and no file
    /// is named twice. The subtask has not acknowledged this record.
    pub fn use_files(
        &mut self,
        id: CheckpointId,
        subtask: SubtaskId,
        fresh: &Files,
        reused: &Files,
    ) -> Result<(), AllocError>
        requires fresh_absent { (f : ℕ) → IsIn f fresh.now → is_present self.old f ≡ false }
        requires reused_present { (f : ℕ) → IsIn f reused.now → is_present self.old f ≡ true }
        requires each_once { IsEachOnce (fresh.now ++ reused.now) }
        requires below { (f : ℕ) → IsIn f reused.now → count self.old f < 2 ^ 32 - 1 }
        requires unused { HasNoUse self.old id (Subtask subtask) }
        ensures ok { OnOk result (self.new ≡ in_order_once use_before (self.old ++ triples id (Subtask subtask) (fresh.now ++ reused.now))) }
        ensures err { OnErr result (self.new ≡ self.old) }
    {
        self.use_files_metered(&mut Meter::new(), id, subtask, fresh, reused)
    }

    /// [`Registry::use_files`], which fails exactly if one more request for memory was refused.
    ///
    /// Conditions: the fresh files have no use yet, each reused one has 1 to 2^32 - 2, and no file
    /// is named twice. The subtask has not acknowledged this record.
    pub fn use_files_metered(
        &mut self,
        meter: &mut Meter,
        id: CheckpointId,
        subtask: SubtaskId,
        fresh: &Files,
        reused: &Files,
    ) -> Result<(), AllocError>
        requires fresh_absent { (f : ℕ) → IsIn f fresh.now → is_present self.old f ≡ false }
        requires reused_present { (f : ℕ) → IsIn f reused.now → is_present self.old f ≡ true }
        requires each_once { IsEachOnce (fresh.now ++ reused.now) }
        requires below { (f : ℕ) → IsIn f reused.now → count self.old f < 2 ^ 32 - 1 }
        requires unused { HasNoUse self.old id (Subtask subtask) }
        ensures ok { OnOk result (self.new ≡ in_order_once use_before (self.old ++ triples id (Subtask subtask) (fresh.now ++ reused.now))) }
        ensures err { OnErr result (self.new ≡ self.old) }
        ensures none { OnOk result (meter.new ≡ meter.old) }
        ensures refused { OnErr result (meter.new ≡ one_more meter.old) }
    {
        // Everything that may run out of memory comes first. A released file has a counter, so room
        // for as many files as counters is enough.
        index::reserve(meter, &mut self.uses.counts, fresh.len())?;
        self.released.clear();
        let room = self.uses.counts.capacity();
        list::reserve(meter, &mut self.released, room)?;
        hold(
            meter,
            &mut self.uses.acknowledged,
            &mut self.spare,
            id,
            subtask,
            fresh,
            reused,
        )?;
        let fresh = fresh.as_slice();
        let reused = reused.as_slice();
        count_fresh(&mut self.uses.counts, fresh);
        count_reused(&mut self.uses.counts, reused);
        Ok(())
    }

    /// Adds the uses of the acknowledgement of one subtask, whether its files are present or not.
    /// It serves to fill a registry again. Fails only if memory runs out, and then adds none.
    ///
    /// Conditions: no file is named twice, and each has at most 2^32 - 2 uses. The subtask has not
    /// acknowledged this record.
    pub fn hold_files(
        &mut self,
        id: CheckpointId,
        subtask: SubtaskId,
        files: &Files,
    ) -> Result<(), AllocError>
        requires each_once { IsEachOnce files.now }
        requires below { (f : ℕ) → IsIn f files.now → count self.old f < 2 ^ 32 - 1 }
        requires unused { HasNoUse self.old id (Subtask subtask) }
        ensures ok { OnOk result (self.new ≡ in_order_once use_before (self.old ++ triples id (Subtask subtask) files.now)) }
        ensures err { OnErr result (self.new ≡ self.old) }
    {
        self.hold_files_metered(&mut Meter::new(), id, subtask, files)
    }

    /// [`Registry::hold_files`], which fails exactly if one more request for memory was refused.
    ///
    /// Conditions: no file is named twice, and each has at most 2^32 - 2 uses. The subtask has not
    /// acknowledged this record.
    pub fn hold_files_metered(
        &mut self,
        meter: &mut Meter,
        id: CheckpointId,
        subtask: SubtaskId,
        files: &Files,
    ) -> Result<(), AllocError>
        requires each_once { IsEachOnce files.now }
        requires below { (f : ℕ) → IsIn f files.now → count self.old f < 2 ^ 32 - 1 }
        requires unused { HasNoUse self.old id (Subtask subtask) }
        ensures ok { OnOk result (self.new ≡ in_order_once use_before (self.old ++ triples id (Subtask subtask) files.now)) }
        ensures err { OnErr result (self.new ≡ self.old) }
        ensures none { OnOk result (meter.new ≡ meter.old) }
        ensures refused { OnErr result (meter.new ≡ one_more meter.old) }
    {
        index::reserve(meter, &mut self.uses.counts, files.len())?;
        self.released.clear();
        let room = self.uses.counts.capacity();
        list::reserve(meter, &mut self.released, room)?;
        let none = Files::of(Vec::new(*self.released.allocator()));
        hold(
            meter,
            &mut self.uses.acknowledged,
            &mut self.spare,
            id,
            subtask,
            files,
            &none,
        )?;
        count_each(&mut self.uses.counts, files.as_slice());
        Ok(())
    }

    /// Pins files: one use for each, so they are present until the record ends or is dropped. Some
    /// may have no other use, if the record that used them was dropped after it was pinned. Fails
    /// only if memory runs out, and then adds none.
    ///
    /// Conditions: each file is named once and has at most 2^32 - 2 uses, and the record has no pins
    /// yet.
    pub fn pin_files(&mut self, id: CheckpointId, files: &Files) -> Result<(), AllocError>
        requires ascending { IsAscendingSet files.now }
        requires below { (f : ℕ) → IsIn f files.now → count self.old f < 2 ^ 32 - 1 }
        requires unpinned { HasNoUse self.old id Pin }
        ensures ok { OnOk result (self.new ≡ in_order_once use_before (self.old ++ triples id Pin files.now)) }
        ensures err { OnErr result (self.new ≡ self.old) }
    {
        self.pin_files_metered(&mut Meter::new(), id, files)
    }

    /// [`Registry::pin_files`], which fails exactly if one more request for memory was refused.
    ///
    /// Conditions: each file is named once and has at most 2^32 - 2 uses, and the record has no pins
    /// yet.
    pub fn pin_files_metered(
        &mut self,
        meter: &mut Meter,
        id: CheckpointId,
        files: &Files,
    ) -> Result<(), AllocError>
        requires ascending { IsAscendingSet files.now }
        requires below { (f : ℕ) → IsIn f files.now → count self.old f < 2 ^ 32 - 1 }
        requires unpinned { HasNoUse self.old id Pin }
        ensures ok { OnOk result (self.new ≡ in_order_once use_before (self.old ++ triples id Pin files.now)) }
        ensures err { OnErr result (self.new ≡ self.old) }
        ensures none { OnOk result (meter.new ≡ meter.old) }
        ensures refused { OnErr result (meter.new ≡ one_more meter.old) }
    {
        let alloc = *self.released.allocator();
        index::reserve(meter, &mut self.uses.counts, files.len())?;
        self.released.clear();
        let room = self.uses.counts.capacity();
        list::reserve(meter, &mut self.released, room)?;
        let files = files.as_slice();
        let own = list::from_slice(meter, alloc, files)?;
        let pins = Pins::Files(own);
        list::push(meter, &mut self.uses.pinned, Pinner { id, pins })?;
        count_each(&mut self.uses.counts, files);
        Ok(())
    }

    /// Pins the files of a live record, as it is now: one use for each. That keeps them present
    /// until record `id` ends or is dropped, even if the other record is dropped first. Does the
    /// same as [`Registry::pin_files`] with these files, and visits none of them, unless 64 other
    /// records are pinned so. Fails only if memory runs out, and then adds none.
    ///
    /// Conditions: record `id` has no pins yet, and each file of the other record has at most
    /// 2^32 - 2 uses. The other record may have no use.
    pub fn pin_record(&mut self, id: CheckpointId, chosen: CheckpointId) -> Result<(), AllocError>
        requires below { (f : ℕ) → IsIn f (files_by chosen self.old) → count self.old f < 2 ^ 32 - 1 }
        requires unpinned { HasNoUse self.old id Pin }
        ensures ok { OnOk result (self.new ≡ in_order_once use_before (self.old ++ triples id Pin (files_by chosen self.old))) }
        ensures err { OnErr result (self.new ≡ self.old) }
    {
        self.pin_record_metered(&mut Meter::new(), id, chosen)
    }

    /// [`Registry::pin_record`], which fails exactly if one more request for memory was refused.
    ///
    /// Conditions: record `id` has no pins yet, and each file of the other record has at most
    /// 2^32 - 2 uses. The other record may have no use.
    pub fn pin_record_metered(
        &mut self,
        meter: &mut Meter,
        id: CheckpointId,
        chosen: CheckpointId,
    ) -> Result<(), AllocError>
        requires below { (f : ℕ) → IsIn f (files_by chosen self.old) → count self.old f < 2 ^ 32 - 1 }
        requires unpinned { HasNoUse self.old id Pin }
        ensures ok { OnOk result (self.new ≡ in_order_once use_before (self.old ++ triples id Pin (files_by chosen self.old))) }
        ensures err { OnErr result (self.new ≡ self.old) }
        ensures none { OnOk result (meter.new ≡ meter.old) }
        ensures refused { OnErr result (meter.new ≡ one_more meter.old) }
    {
        let Some(parts) = parts_held(&self.uses.acknowledged, chosen) else {
            return Ok(());
        };
        let alloc = *self.released.allocator();
        // Room for the files. They are written if the other record is dropped first, since a drop
        // may take no memory. Until then nothing touches this room.
        list::reserve(meter, &mut self.room, parts.files().len())?;
        list::reserve(meter, &mut self.uses.pinned, 1)?;
        let room = replace(&mut self.room, Vec::new(alloc));
        let pins = pin_all(
            &mut self.uses.counts,
            &self.uses.pinned,
            chosen,
            parts,
            room,
        );
        self.uses.pinned.push_reserved(Pinner { id, pins });
        Ok(())
    }

    /// The files that a record pins, in ascending order. Fails only if memory runs out.
    pub fn pins(&self, id: CheckpointId) -> Result<Files, AllocError>
        ensures { IfOk result (λ files. files ≡ pins_by id self.now) }
    {
        self.pins_metered(&mut Meter::new(), id)
    }

    /// [`Registry::pins`], which fails exactly if one more request for memory was refused.
    pub fn pins_metered(&self, meter: &mut Meter, id: CheckpointId) -> Result<Files, AllocError>
        ensures files { IfOk result (λ files. files ≡ pins_by id self.now) }
        ensures none { OnOk result (meter.new ≡ meter.old) }
        ensures refused { OnErr result (meter.new ≡ one_more meter.old) }
    {
        let alloc = *self.released.allocator();
        let mut all = files_pinned(meter, alloc, &self.uses.acknowledged, &self.uses.pinned, id)?;
        all.sort_unstable();
        all.dedup();
        Ok(Files::of(all))
    }

    /// Removes all uses and pins of these records, and returns the files that are no longer in use:
    /// ascending, each once. Takes no memory: the files are in room that `use_files` made.
    ///
    /// A record may have no use, and may be named twice.
    pub fn release(&mut self, owners: &[CheckpointId]) -> &[FileId]
        ensures* after { sem 𝓛 (EndsAs self.entry (without owners.now self.old)) }
        ensures files { result.now ≡ released self.old (without owners.now self.old) }
    {
        self.released.clear();
        release_each(
            &mut self.uses,
            &mut self.released,
            &mut self.spare,
            &mut self.room,
            owners,
        );
        sort(&mut self.released); // as one list, however many records go
        self.released.as_slice()
    }

    /// Ends record `id`: removes its pins, and all uses and pins of the owners. Returns the files
    /// that are no longer in use: ascending, each once. Takes no memory.
    ///
    /// An owner may have no use, and may be named twice.
    pub fn end(&mut self, id: CheckpointId, owners: &[CheckpointId]) -> &[FileId]
        ensures* after { sem 𝓛 (EndsAs self.entry (after_end id owners.now self.old)) }
        ensures files { result.now ≡ released self.old (after_end id owners.now self.old) }
    {
        self.released.clear();
        unpin(
            &mut self.uses.pinned,
            &mut self.uses.counts,
            &mut self.released,
            &mut self.room,
            &[id],
        );
        release_each(
            &mut self.uses,
            &mut self.released,
            &mut self.spare,
            &mut self.room,
            owners,
        );
        sort(&mut self.released);
        self.released.as_slice()
    }

    /// How often a file is used, 0 to 2^32 - 1.
    pub fn count(&self, file: FileId) -> u32
        ensures value { result ≡ count self.now file }
        ensures in_order { IsInOrder use_before self.now }
    {
        let counted = self.uses.counts.get(&file).copied().unwrap_or(0);
        counted + pins_of(&self.uses.acknowledged, &self.uses.pinned, file)
    }

    /// Whether a file is present, that is, in use.
    pub fn contains(&self, file: FileId) -> bool
        ensures { result ≡ is_present self.now file }
    {
        self.uses.counts.contains_key(&file)
    }

    /// The number of files that are present, below 2^63.
    pub fn present(&self) -> u64
        ensures value { result ≡ length (ascending_set (map (λ u. u.file) self.now)) }
        ensures in_order { IsInOrder use_before self.now }
        ensures below { (f : ℕ) → count self.now f < 2 ^ 32 }
        ensures few { result < 2 ^ 63 }
    {
        self.uses.counts.len() as u64
    }
}
