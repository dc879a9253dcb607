//! Sorting of files that are mostly in order already.
ghost use Rattle.std.specs.Prelude.{◌≡◌, vec_capacity};
ghost use Rattle.std.specs.List.Sorted.{IsPermutation, IsSorted};
ghost use Rattle.std.specs.Ordering.{nat_cmp};

use ckpt_ids::FileId;

/// Sorts files. If they are in order already, as files of one record mostly are, one pass is
/// enough.
pub(crate) fn sort(files: &mut Vec<FileId>)
    ensures permutation { IsPermutation files.old.items files.new.items }
    ensures sorted { IsSorted nat_cmp files.new.items }
    ensures capacity { vec_capacity files.new ≡ vec_capacity files.old }
{
    if !files.is_sorted() {
        files.sort_unstable();
    }
}
