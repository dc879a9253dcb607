//! Requests of a `HashMap`. Each does what the method of its name does, and counts its refusal.

ghost use Rattle.std.specs.Prelude.{◌≡◌, ◌≤◌, OnOk, OnErr};
ghost use Rattle.std.specs.HashMap.{IsReordered, IsUnchanged, IsUnique, hasher_of, spare};
ghost use Rattle.ckpt_memory.specs.Refusals.{one_more};

use crate::meter::Meter;
use std::alloc::AllocError;
use std::collections::HashMap;
use std::hash::{BuildHasher, Hash};

/// Makes room for this many more entries.
pub fn reserve<K: Eq + Hash + Drop, V: Drop, S: BuildHasher>(
    meter: &mut Meter,
    map: &mut HashMap<K, V, S>,
    additional: usize,
) -> Result<(), AllocError>
    ensures entries { IsReordered K.eq map.old map.new }
    ensures ok { OnOk result (additional ≤ spare map.new) }
    ensures err { OnErr result (IsUnchanged map.old map.new) }
    ensures spare { spare map.old ≤ spare map.new }
    ensures hasher { hasher_of map.new ≡ hasher_of map.old }
    ensures unique { IsUnique K.eq map.new }
    ensures none { OnOk result (meter.new ≡ meter.old) }
    ensures refused { OnErr result (meter.new ≡ one_more meter.old) }
{
    match map.reserve(additional) {
        Ok(()) => Ok(()),
        Err(_) => Err(meter.refuse()),
    }
}
