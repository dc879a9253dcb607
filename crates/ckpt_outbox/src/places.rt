//! The index of an outbox: the ticket of each file, and what the ticket says.
ghost use Rattle.std.specs.Prelude.{◌≡◌, ◌<◌, ◌≤◌, ◌+◌, ℕ, false, filter, length, get_or, IfOk, IsTrue, OnOk, OnErr, Some, is_some, nat_eq};
ghost use Rattle.std.specs.HashMap as hash;
ghost use Rattle.std.specs.HashMap.{IsUnchanged, Updates, spare};
ghost use Rattle.ckpt_memory.specs.Refusals.{one_more};
ghost use Rattle.ckpt_outbox.specs.Queues.{is_in};
ghost use Rattle.ckpt_outbox.specs.Places.{IsTicketed, is_apart, ticket};

use ckpt_hash::Secret;
use ckpt_ids::FileId;
use ckpt_memory::{Meter, list};
use std::alloc::{AllocError, Global};
use std::collections::{HashMap, VecDeque};

/// For each file, the ticket that it got when it last went to the end of waiting.
///
/// Tickets rise by one from file to file, and after the greatest comes 0. So the ticket of a
/// waiting file says its place. A taken file keeps its ticket, and is not at the place that the
/// ticket says.
pub(crate) type Index = HashMap<FileId, u64, Secret>;

/// The ticket of the next file that will wait.
pub(crate) fn next_ticket(waiting: &VecDeque<FileId>, front: u64) -> u64
    ensures { result ≡ ticket front (length waiting.now.items) }
{
    front.wrapping_add(waiting.len() as u64)
}

/// Whether the file is at the place that its ticket says.
///
/// Condition: if the file waits, `drawn` is the ticket of its place.
fn waits(waiting: &VecDeque<FileId>, front: u64, file: FileId, drawn: u64) -> bool
    requires { (place : ℕ) → place < length waiting.now.items → get_or waiting.now.items place 0 ≡ file → drawn ≡ ticket front place }
    ensures { result ≡ is_in file waiting.now.items }
{
    match waiting.get(drawn.wrapping_sub(front) as usize) {
        Some(other) => *other == file,
        None => false,
    }
}

/// Whether the file is taken. One look-up.
///
/// Condition: each file that waits has the ticket of its place.
pub(crate) fn is_taken(index: &Index, waiting: &VecDeque<FileId>, front: u64, file: FileId) -> bool
    requires { IsTicketed (hash.get nat_eq index.now) front waiting.now.items }
    ensures { result ≡ is_apart (hash.get nat_eq index.now) waiting.now.items file }
{
    match index.get(&file) {
        Some(drawn) => !waits(waiting, front, file, *drawn),
        None => false,
    }
}

/// Stores the ticket of a file in room that the index keeps. Takes no memory.
///
/// Condition: there is such room.
pub(crate) fn note(index: &mut Index, file: FileId, drawn: u64)
    requires { 0 < spare index.old }
    ensures tickets { Updates nat_eq index.old index.new file (Some drawn) }
    ensures spare { spare index.old ≤ spare index.new + 1 }
{
    let noted: Result<Option<u64>, _> = index.insert(file, drawn);
    noted.unwrap();
}

/// Gives a taken file the next ticket, and returns whether it was taken. One look-up. Takes no
/// memory.
///
/// Condition: each file that waits has the ticket of its place.
pub(crate) fn draw_again(
    index: &mut Index,
    waiting: &VecDeque<FileId>,
    front: u64,
    file: FileId,
) -> bool
    requires { IsTicketed (hash.get nat_eq index.old) front waiting.now.items }
    ensures value { result ≡ is_apart (hash.get nat_eq index.old) waiting.now.items file }
    ensures tickets { IsTrue result → Updates nat_eq index.old index.new file (Some (ticket front (length waiting.now.items))) }
    ensures kept { result ≡ false → IsUnchanged index.old index.new }
    ensures spare { spare index.new ≡ spare index.old }
{
    match index.get_mut(&file) {
        Some(drawn) if !waits(waiting, front, file, *drawn) => {
            *drawn = next_ticket(waiting, front);
            true
        }
        _ => false,
    }
}

/// The files of the index that are not at the places that their tickets say, in the order of the
/// index. Fails only if memory runs out.
///
/// Condition: each file that waits has the ticket of its place.
pub(crate) fn taken_in(
    meter: &mut Meter,
    alloc: Global,
    index: &Index,
    waiting: &VecDeque<FileId>,
    front: u64,
) -> Result<Vec<FileId>, AllocError>
    requires { IsTicketed (hash.get nat_eq index.now) front waiting.now.items }
    ensures files { IfOk result (λ files. files.items ≡ filter (is_apart (hash.get nat_eq index.now) waiting.now.items) (hash.keys index.now)) }
    ensures unique { OnOk result (hash.IsUnique nat_eq index.now) }
    ensures has { OnOk result ((file : ℕ) → is_some (hash.get nat_eq index.now file) ≡ is_in file (hash.keys index.now)) }
    ensures none { OnOk result (meter.new ≡ meter.old) }
    ensures refused { OnErr result (meter.new ≡ one_more meter.old) }
{
    let mut files = Vec::new(alloc);
    for file in index.keys() {
        if is_taken(index, waiting, front, *file) {
            list::push(meter, &mut files, *file)?;
        }
    }
    Ok(files)
}

/// The waiting files, in their order. Fails only if memory runs out.
pub(crate) fn waiting_in(
    meter: &mut Meter,
    alloc: Global,
    waiting: &VecDeque<FileId>,
) -> Result<Vec<FileId>, AllocError>
    ensures files { IfOk result (λ files. files.items ≡ waiting.now.items) }
    ensures none { OnOk result (meter.new ≡ meter.old) }
    ensures refused { OnErr result (meter.new ≡ one_more meter.old) }
{
    let mut files = list::with_capacity(meter, alloc, waiting.len())?;
    for file in waiting {
        list::push(meter, &mut files, *file)?;
    }
    Ok(files)
}
