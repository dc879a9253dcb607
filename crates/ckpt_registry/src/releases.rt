//! The uses of all records, and how those of dropped ones are removed.
ghost use Rattle.std.specs.Prelude.{◌≡◌, []};
ghost use Rattle.ckpt_registry.specs.Counters.{AreReleased, HasRoom};
ghost use Rattle.ckpt_registry.specs.Holdings.{uses_in};
ghost use Rattle.ckpt_registry.specs.Pins.{pins_in};
ghost use Rattle.ckpt_registry.specs.Sound.{AreCounted};
ghost use Rattle.ckpt_registry.specs.Uses.{without, without_record};

use crate::counters::Counts;
use crate::holdings::{Acknowledged, lower_each, remove};
use crate::pins::{Pinner, settle, unpin};
use crate::record_parts::RecordParts;
use ckpt_ids::{CheckpointId, FileId};

/// The uses of all records, and how often each file is used.
#[derive(Debug, Drop)]
pub(crate) struct Uses {
    pub(crate) acknowledged: Acknowledged,
    pub(crate) pinned: Vec<Pinner>,
    /// Without the pins of records that pin a live record as a whole.
    pub(crate) counts: Counts,
}

/// Removes the uses of one record, if it has any. Records that pin this one keep its files. The
/// room of its parts is then spare.
///
/// Conditions: the counters fit the parts and the pins, `released` has room for each file that has
/// a counter, and the spare parts are empty.
fn drop_uses(uses: &mut Uses, released: &mut Vec<FileId>, spare: &mut RecordParts, id: CheckpointId)
    requires counted { AreCounted uses.old.acknowledged uses.old.pinned.items uses.old.counts }
    requires room { HasRoom uses.old.counts released.old }
    requires spare { spare.old ≡ [] }
    ensures counted { AreCounted uses.new.acknowledged uses.new.pinned.items uses.new.counts }
    ensures uses { uses_in uses.new.acknowledged.items ≡ without_record id (uses_in uses.old.acknowledged.items) }
    ensures pins { pins_in uses.new.acknowledged uses.new.pinned.items ≡ pins_in uses.old.acknowledged uses.old.pinned.items }
    ensures released { AreReleased uses.old.counts released.old uses.new.counts released.new }
    ensures spare { spare.new ≡ [] }
{
    if let Some(parts) = remove(&mut uses.acknowledged, id) {
        settle(&mut uses.pinned, &mut uses.counts, id, &parts);
        lower_each(&mut uses.counts, released, parts.files());
        *spare = parts.emptied();
    }
}

/// Removes all uses and pins of these records. The pins go first. So if a record goes together with
/// the one that it pins, its pins are never counted.
///
/// Conditions: the counters fit the parts and the pins, `released` has room for each file that has
/// a counter, and the spare parts and `room` are empty.
pub(crate) fn release_each(
    uses: &mut Uses,
    released: &mut Vec<FileId>,
    spare: &mut RecordParts,
    room: &mut Vec<FileId>,
    owners: &[CheckpointId],
)
    requires counted { AreCounted uses.old.acknowledged uses.old.pinned.items uses.old.counts }
    requires room { HasRoom uses.old.counts released.old }
    requires spare { spare.old ≡ [] }
    requires no_files { room.old.items ≡ [] }
    ensures counted { AreCounted uses.new.acknowledged uses.new.pinned.items uses.new.counts }
    ensures uses { uses_in uses.new.acknowledged.items ≡ without owners.now (uses_in uses.old.acknowledged.items) }
    ensures pins { pins_in uses.new.acknowledged uses.new.pinned.items ≡ without owners.now (pins_in uses.old.acknowledged uses.old.pinned.items) }
    ensures released { AreReleased uses.old.counts released.old uses.new.counts released.new }
    ensures spare { spare.new ≡ [] }
    ensures no_files { room.new.items ≡ [] }
{
    unpin(&mut uses.pinned, &mut uses.counts, released, room, owners);
    for owner in owners {
        drop_uses(uses, released, spare, *owner);
    }
}
