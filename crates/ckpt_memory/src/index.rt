//! Requests of an `IndexMap`. Each does what the method of its name does, and counts its refusal.

ghost use Rattle.std.specs.Prelude.{◌≡◌, ◌≤◌, OnOk, OnErr};
ghost use Rattle.indexmap.specs.IndexMap.{IsUnchanged, IsUnique, KeepsRoom, spare};
ghost use Rattle.ckpt_memory.specs.Refusals.{one_more};

use crate::meter::Meter;
use indexmap::IndexMap;
use std::alloc::AllocError;
use std::hash::{BuildHasher, Hash};

/// Makes room for this many more entries.
pub fn reserve<K: Eq + Hash + Drop, V: Drop, S: BuildHasher>(
    meter: &mut Meter,
    map: &mut IndexMap<K, V, S>,
    additional: usize,
) -> Result<(), AllocError>
    ensures entries { IsUnchanged map.old map.new }
    ensures ok { OnOk result (additional ≤ spare map.new) }
    ensures room { KeepsRoom map.old map.new }
    ensures unique { IsUnique K.eq map.new }
    ensures none { OnOk result (meter.new ≡ meter.old) }
    ensures refused { OnErr result (meter.new ≡ one_more meter.old) }
{
    match map.reserve(additional) {
        Ok(()) => Ok(()),
        Err(_) => Err(meter.refuse()),
    }
}
