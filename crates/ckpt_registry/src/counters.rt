//! How often each file is used: one counter for each file in use.
ghost use Rattle.std.specs.Prelude.{◌≡◌, ℕ, ◌+◌, ◌^◌, ◌<◌, ◌≤◌, ◌==◌, length, if◌then◌else◌};
ghost use Rattle.indexmap.specs.IndexMap.{index_map_len, spare};
ghost use Rattle.ckpt_ids.specs.Ordered.{IsIn};
ghost use Rattle.ckpt_registry.specs.Counters.{counter, AreInRange, AreLowered, HasRoom};
ghost use Rattle.ckpt_registry.specs.Uses.{IsEachOnce};
ghost use Rattle.ckpt_ids.specs.Counting.{times};

use ckpt_hash::Secret;
use ckpt_ids::FileId;
use indexmap::IndexMap;

/// How often each file is used. A file that is not in use has no counter.
pub(crate) type Counts = IndexMap<FileId, u32, Secret>;

/// Counts files that no record uses yet, in reserved room.
///
/// Conditions: there is room for all of them, none is named twice or has a counter, and no counter
/// is 0.
pub(crate) fn count_fresh(counts: &mut Counts, files: &[FileId])
    requires room { length files.now ≤ spare counts.old }
    requires each_once { IsEachOnce files.now }
    requires absent { (f : ℕ) → IsIn f files.now → counter counts.old f ≡ 0 }
    requires range { AreInRange counts.old }
    ensures counted { (f : ℕ) → counter counts.new f ≡ counter counts.old f + times f files.now }
    ensures len { index_map_len counts.new ≡ index_map_len counts.old + length files.now }
    ensures range { AreInRange counts.new }
{
    for file in files {
        let _ = counts.insert(*file, 1);
    }
}

/// Counts each of these files once more. All of them are in use already.
///
/// Conditions: each of them has a counter, which stays below 2^32, and no counter is 0.
pub(crate) fn count_reused(counts: &mut Counts, files: &[FileId])
    requires present { (f : ℕ) → IsIn f files.now → 0 < counter counts.old f }
    requires fits { (f : ℕ) → IsIn f files.now → counter counts.old f + times f files.now < 2 ^ 32 }
    requires range { AreInRange counts.old }
    ensures counted { (f : ℕ) → counter counts.new f ≡ counter counts.old f + times f files.now }
    ensures len { index_map_len counts.new ≡ index_map_len counts.old }
    ensures range { AreInRange counts.new }
{
    for file in files {
        if let Some(count) = counts.get_mut(file) {
            *count += 1;
        }
    }
}

/// Counts each of these files once more, in reserved room.
///
/// Conditions: there is room for all of them, their counters stay below 2^32, and no counter is 0.
pub(crate) fn count_each(counts: &mut Counts, files: &[FileId])
    requires room { length files.now ≤ spare counts.old }
    requires fits { (f : ℕ) → IsIn f files.now → counter counts.old f + times f files.now < 2 ^ 32 }
    requires range { AreInRange counts.old }
    ensures counted { (f : ℕ) → counter counts.new f ≡ counter counts.old f + times f files.now }
    ensures len { index_map_len counts.new ≤ index_map_len counts.old + length files.now }
    ensures range { AreInRange counts.new }
{
    for file in files {
        let count = counts.get(file).copied().unwrap_or(0);
        let _ = counts.insert(*file, count + 1);
    }
}

/// Removes one use of a file, and releases the file with its last use.
///
/// Conditions: the file has a counter, `released` has room for each file that has one, and no
/// counter is 0.
pub(crate) fn lower(counts: &mut Counts, released: &mut Vec<FileId>, file: FileId)
    requires counted { 0 < counter counts.old file }
    requires range { AreInRange counts.old }
    requires room { HasRoom counts.old released.old }
    ensures { AreLowered (λ f. if file == f then 1 else 0) counts.old released.old counts.new released.new }
{
    let index = counts.get_index_of(&file).unwrap();
    let count = counts[index];
    if count > 1 {
        counts[index] = count - 1;
        return;
    }
    counts.swap_remove_index(index);
    released.push_reserved(file);
}
