//! Where a record belongs in a row, and room for it.

ghost use Rattle.std.specs.Prelude.{◌≡◌, ◌≤◌, ◌+◌, true, false, nat_lt, length, OnOk, OnErr};
ghost use Rattle.std.specs.List.Sorted.{IsPartitionPoint};
ghost use Rattle.std.specs.VecDeque.{deque_len, deque_capacity};
ghost use Rattle.ckpt_memory.specs.Refusals.{one_more};
ghost use Rattle.ckpt_store.specs.Storing.{AreRising};

use ckpt_ids::CheckpointId;
use ckpt_memory::{Meter, queue};
use ckpt_pending::Done;
use std::alloc::AllocError;
use std::collections::VecDeque;

/// The room of a queue when it grows for the first time.
const FIRST_ROOM: usize = 4;

/// Where a record with this number belongs: before the first whose number is not below it. Mostly
/// that is the end, so the last record is checked before a binary search.
///
/// Condition: the numbers of the records rise.
pub(crate) fn place_for(queue: &VecDeque<Done>, id: CheckpointId) -> usize
    requires { AreRising queue.now.items }
    ensures bound { result ≤ length queue.now.items }
    ensures parted { IsPartitionPoint (λ r. nat_lt r.id id ≡ true) (λ r. nat_lt r.id id ≡ false) queue.now.items result }
{
    match queue.back() {
        Some(last) if id <= last.id() => queue.partition_point(|done| done.id() < id),
        _ => queue.len(),
    }
}

/// Makes room for one more record. A growth at least doubles the room.
pub(crate) fn make_room(meter: &mut Meter, row: &mut VecDeque<Done>) -> Result<(), AllocError>
    ensures items { row.new.items ≡ row.old.items }
    ensures len { deque_len row.new ≡ deque_len row.old }
    ensures ok { OnOk result (deque_len row.new + 1 ≤ deque_capacity row.new) }
    ensures capacity { deque_capacity row.old ≤ deque_capacity row.new }
    ensures none { OnOk result (meter.new ≡ meter.old) }
    ensures refused { OnErr result (meter.new ≡ one_more meter.old) }
{
    if row.len() < row.capacity() {
        return Ok(());
    }
    let more = row.capacity().max(FIRST_ROOM);
    queue::reserve(meter, row, more)
}
