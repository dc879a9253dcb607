//! What the subtasks of one record acknowledged: the files of all of them in one list.
ghost use Rattle.std.specs.Prelude.{◌≡◌, ◌+◌, ◌≤◌, [], ◌∷◌, ◌++◌, length, nat_lt, take, vec_len, OnOk, OnErr};
ghost use Rattle.std.specs.Vec.{vec_capacity};
ghost use Rattle.std.specs.List.{between};
ghost use Rattle.ckpt_ids.specs.Counting.{times};
ghost use Rattle.ckpt_memory.specs.Refusals.{one_more};
ghost use Rattle.ckpt_registry.specs.RecordParts.{IsCutAt, files_in};

use ckpt_ids::{FileId, Files, SubtaskId};
use ckpt_memory::{Meter, list};
use std::alloc::{AllocError, Global};
use std::marker::Model;

/// A list that is no longer needed leaves its room to the next one, unless that has more places than
/// these. So no record holds more than 14 kilobytes of another one's room.
const MOST_CUTS: usize = 256;

pub(crate) const MOST_FILES: usize = 1024;

/// Where the files of one part end.
#[derive(Clone, Copy, Debug, Drop)]
pub(crate) struct Cut {
    pub(crate) subtask: SubtaskId,
    /// Its fresh files end here, and its reused ones begin.
    pub(crate) middle: usize,
    pub(crate) end: usize,
}

/// The acknowledgements of one record: of each subtask its fresh files, which nobody used before,
/// then its reused ones. An acknowledgement takes 24 bytes, and 8 for each file. A full list
/// doubles, so a record holds at most twice that, besides the room that an earlier one left.
#[derive(Debug, Drop)]
pub(crate) struct RecordParts {
    cuts: Vec<Cut>,
    files: Vec<FileId>,
}

impl Model for RecordParts {
    ghost use Rattle.std.specs.Prelude.{List};
    ghost use Rattle.ckpt_registry.specs.RecordParts.{Part, AreCut, parts_from};

    ghost Value = { List Part };

    ghost view = { λ p. parts_from 0 p.cuts.items p.files.items };

    ghost invariant = { λ p. AreCut 0 p.cuts.items p.files.items };
}

impl RecordParts {
    /// No parts. Takes no memory.
    pub(crate) fn new(alloc: Global) -> RecordParts
        ensures { result ≡ [] }
    {
        RecordParts {
            cuts: Vec::new(alloc),
            files: Vec::new(alloc),
        }
    }

    /// The number of parts.
    pub(crate) fn len(&self) -> usize
        ensures { result ≡ length self.now }
    {
        self.cuts.len()
    }

    /// The files of all parts.
    pub(crate) fn files(&self) -> &[FileId]
        ensures { result.now ≡ files_in self.now }
    {
        self.files.as_slice()
    }

    /// The files of the first parts.
    ///
    /// Condition: there are as many parts.
    pub(crate) fn files_of_first(&self, parts: usize) -> &[FileId]
        requires { parts ≤ length self.now }
        ensures { result.now ≡ files_in (take parts self.now) }
    {
        if parts == 0 {
            return &[];
        }
        &self.files[..self.cuts[parts - 1].end]
    }

    /// Whether one of the first parts has a file. Uses binary search in each.
    ///
    /// Condition: there are as many parts.
    pub(crate) fn has(&self, parts: usize, file: FileId) -> bool
        requires { parts ≤ length self.now }
        ensures { result ≡ nat_lt 0 (times file (files_in (take parts self.now))) }
    {
        let mut start: usize = 0;
        for cut in &self.cuts[..parts] {
            if is_in_part(&self.files, start, cut, file) {
                return true;
            }
            start = cut.end;
        }
        false
    }

    /// Adds the part of a subtask. Fails only if memory runs out, and then adds nothing.
    pub(crate) fn push(
        &mut self,
        meter: &mut Meter,
        subtask: SubtaskId,
        fresh: &Files,
        reused: &Files,
    ) -> Result<(), AllocError>
        ensures ok { OnOk result (self.new ≡ self.old ++ record { subtask = subtask; fresh = fresh.now; reused = reused.now } ∷ []) }
        ensures err { OnErr result (self.new ≡ self.old) }
        ensures none { OnOk result (meter.new ≡ meter.old) }
        ensures refused { OnErr result (meter.new ≡ one_more meter.old) }
    {
        let fresh = fresh.as_slice();
        let reused = reused.as_slice();
        list::reserve(meter, &mut self.files, fresh.len() + reused.len())?;
        list::reserve(meter, &mut self.cuts, 1)?;
        write(&mut self.files, fresh);
        let middle = self.files.len();
        write(&mut self.files, reused);
        let end = self.files.len();
        self.cuts.push_reserved(Cut {
            subtask,
            middle,
            end,
        });
        Ok(())
    }

    /// No parts, in the same room if it may be left to another record.
    pub(crate) fn emptied(self) -> RecordParts
        ensures { result ≡ [] }
    {
        let RecordParts { cuts, files } = self;
        RecordParts {
            cuts: emptied(cuts, MOST_CUTS),
            files: emptied(files, MOST_FILES),
        }
    }
}

/// An empty list, in the same room unless it has more places than these.
pub(crate) fn emptied<T: Copy>(list: Vec<T>, most: usize) -> Vec<T>
    ensures { result.items ≡ [] }
{
    let mut list = list;
    if list.capacity() > most {
        return Vec::new(*list.allocator());
    }
    list.clear();
    list
}

/// Whether the part that begins here has a file.
///
/// Condition: the part lies within the files, and both its lists are in ascending order.
fn is_in_part(files: &[FileId], start: usize, cut: &Cut, file: FileId) -> bool
    requires { IsCutAt start cut.now files.now }
    ensures { result ≡ nat_lt 0 (times file (between start cut.now.end files.now)) }
{
    let fresh = &files[start..cut.middle];
    let reused = &files[cut.middle..cut.end];
    fresh.binary_search(&file).is_ok() || reused.binary_search(&file).is_ok()
}

/// Writes files into reserved room.
///
/// Condition: the room is enough.
pub(crate) fn write(files: &mut Vec<FileId>, more: &[FileId])
    requires room { vec_len files.old + length more.now ≤ vec_capacity files.old }
    ensures items { files.new.items ≡ files.old.items ++ more.now }
    ensures len { vec_len files.new ≡ vec_len files.old + length more.now }
    ensures capacity { vec_capacity files.old ≤ vec_capacity files.new }
{
    let _ = files.extend_from_slice(more);
}
