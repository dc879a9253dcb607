//! The acknowledgements of each record: a row of records, each with its parts.
ghost use Rattle.std.specs.Prelude.{◌≡◌, ℕ, ◌≤◌, ◌==◌, [], filter, insert, length, not, IfNone, IfSome, OnErr, OnOk};
ghost use Rattle.ckpt_ids.specs.Counting.{times};
ghost use Rattle.ckpt_memory.specs.Refusals.{one_more};
ghost use Rattle.ckpt_registry.specs.Counters.{counter, AreInRange, AreLowered, HasRoom};
ghost use Rattle.ckpt_registry.specs.Holdings.{Adds, AreRising, Extends, parts_of, uses_in, uses_of_ack};

use crate::counters::{Counts, lower};
use crate::record_parts::RecordParts;
use ckpt_ids::{CheckpointId, FileId, Files, Keyed, SubtaskId, place_of, take_out};
use ckpt_memory::{Meter, queue};
use std::alloc::AllocError;
use std::collections::VecDeque;
use std::mem::replace;

/// The acknowledgements of one record.
#[derive(Debug, Drop)]
pub(crate) struct Holding {
    id: CheckpointId,
    parts: RecordParts,
}

impl Keyed for Holding {
    ghost use Rattle.std.specs.Prelude.{nat_lt};
    ghost use Rattle.ckpt_ids.proofs.AscendingLemmas.{numbers_in_order};
    ghost use Rattle.ckpt_ids.proofs.ComparisonLemmas.{numbers_searched};

    type Key = CheckpointId;

    ghost key_of = { λ h. h.id };

    ghost before = { nat_lt };

    ghost is_order = { numbers_in_order };

    ghost goes_by_order = { numbers_searched };

    fn key(&self) -> CheckpointId {
        self.id
    }
}

/// The acknowledgements of all records, in order of their numbers. A new record mostly has the
/// greatest number, so it goes to the end.
pub(crate) type Acknowledged = VecDeque<Holding>;

/// Removes one use of each of these files.
///
/// Conditions: each has as many uses as it is named here, `released` has room for each file that
/// has a counter, and no counter is 0.
pub(crate) fn lower_each(counts: &mut Counts, released: &mut Vec<FileId>, files: &[FileId])
    requires counted { (f : ℕ) → times f files.now ≤ counter counts.old f }
    requires range { AreInRange counts.old }
    requires room { HasRoom counts.old released.old }
    ensures { AreLowered (λ f. times f files.now) counts.old released.old counts.new released.new }
{
    for file in files {
        lower(counts, released, *file);
    }
}

/// The parts of a record, or `None` if no subtask of it uses a file.
///
/// Condition: the numbers of the records rise.
pub(crate) fn parts_held(acknowledged: &Acknowledged, id: CheckpointId) -> Option<&RecordParts>
    requires { AreRising acknowledged.now.items }
    ensures some { IfSome result (λ parts. parts.now ≡ parts_of acknowledged.now id) }
    ensures none { IfNone result (parts_of acknowledged.now id ≡ []) }
{
    match place_of(acknowledged, id) {
        Ok(place) => Some(&acknowledged[place].parts),
        Err(_) => None,
    }
}

/// Removes the parts of a record, if it has any. Takes no memory.
///
/// Condition: the numbers of the records rise.
pub(crate) fn remove(acknowledged: &mut Acknowledged, id: CheckpointId) -> Option<RecordParts>
    requires { AreRising acknowledged.old.items }
    ensures gone { acknowledged.new.items ≡ filter (λ h. not (h.id == id)) acknowledged.old.items }
    ensures parts { IfSome result (λ parts. parts ≡ parts_of acknowledged.old id) }
    ensures none { IfNone result (acknowledged.new.items ≡ acknowledged.old.items) }
{
    let Ok(place) = place_of(acknowledged, id) else {
        return None;
    };
    let holding = take_out(acknowledged, place);
    Some(holding.parts)
}

/// Adds a record at the place where it belongs. Mostly that is the end, which moves no other.
///
/// Condition: the place is not past the end.
#[inline(always)]
fn add(
    meter: &mut Meter,
    acknowledged: &mut Acknowledged,
    place: usize,
    holding: Holding,
) -> Result<(), AllocError>
    requires { place ≤ length acknowledged.old.items }
    ensures ok { OnOk result (acknowledged.new.items ≡ insert acknowledged.old.items place holding) }
    ensures err { OnErr result (acknowledged.new.items ≡ acknowledged.old.items) }
    ensures none { OnOk result (meter.new ≡ meter.old) }
    ensures refused { OnErr result (meter.new ≡ one_more meter.old) }
{
    if place == acknowledged.len() {
        queue::push_back(meter, acknowledged, holding)
    } else {
        queue::insert(meter, acknowledged, place, holding)
    }
}

/// Adds the part of a subtask to a record. A new record uses the spare room. Fails only if memory
/// runs out, and then adds nothing.
///
/// Conditions: the numbers of the records rise, and the spare parts are empty.
pub(crate) fn hold(
    meter: &mut Meter,
    acknowledged: &mut Acknowledged,
    spare: &mut RecordParts,
    id: CheckpointId,
    subtask: SubtaskId,
    fresh: &Files,
    reused: &Files,
) -> Result<(), AllocError>
    requires ordered { AreRising acknowledged.old.items }
    requires spare { spare.old ≡ [] }
    ensures ordered { AreRising acknowledged.new.items }
    ensures spare { spare.new ≡ [] }
    ensures extends { Extends acknowledged.old acknowledged.new }
    ensures ok { OnOk result (Adds (uses_in acknowledged.old.items) (uses_of_ack id subtask fresh.now reused.now) (uses_in acknowledged.new.items)) }
    ensures err { OnErr result (uses_in acknowledged.new.items ≡ uses_in acknowledged.old.items) }
    ensures none { OnOk result (meter.new ≡ meter.old) }
    ensures refused { OnErr result (meter.new ≡ one_more meter.old) }
{
    if fresh.is_empty() && reused.is_empty() {
        return Ok(());
    }
    match place_of(acknowledged, id) {
        Ok(place) => {
            acknowledged[place]
                .parts
                .push(meter, subtask, fresh, reused)?;
            Ok(())
        }
        Err(place) => {
            spare.push(meter, subtask, fresh, reused)?;
            let alloc = *acknowledged.allocator();
            let parts = replace(spare, RecordParts::new(alloc));
            add(meter, acknowledged, place, Holding { id, parts })?;
            Ok(())
        }
    }
}
