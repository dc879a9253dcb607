//! Tells which files of a storage may be deleted.

ghost use Rattle.std.specs.Prelude.{◌≡◌, ◌≢◌, ◌≤◌, filter, length, nat_le, Some};
ghost use Rattle.ckpt_terms.specs.Fencing.{is_garbage};
ghost use Rattle.ckpt_terms.specs.Machines.{core_in, issued_by, names_in};
ghost use Rattle.relkvanu.specs.{Buffers.StandsInFront, Calls.IsSame, Calls.StaysClosed, Kept.IsHeld, Past.IsPromised};
ghost use Rattle.relkvanu.specs.Fenced.{BringsGarbage, BringsOf, IsGarbageTold, garbage_of, garbage_told, unissued_of};

use crate::answer::Answer;
use crate::fenced::GARBAGE;
use crate::handle::Handle;
use ckpt_ids::FileId;
use ckpt_terms::{Machine, Terms};
use std::alloc::Global;

/// Writes those of these files that may be deleted to the start of `garbage`, in their order, and
/// those whose names were not given out to the start of `unissued`. Takes no memory, and changes
/// nothing.
///
/// A file that may be deleted has a name that was given out, no live record uses it, it does not
/// wait for deletion and was not fetched for it, and no task of the term that runs may write it. It
/// stays so for good. A file whose name was not given out is not of this job, or the job's log was
/// lost: nobody deletes it.
///
/// Both buffers need a place for each file.
#[unsafe(no_mangle)]
pub extern "C" fn relkvanu_garbage(
    alloc: Global,
    handle: &mut Handle,
    files: &[u64],
    garbage: &mut [u64],
    unissued: &mut [u64],
) -> Answer
    ensures closed { StaysClosed handle.old.value handle.new.value result }
    ensures answered { IsGarbageTold handle.old.value handle.old.names files.now (length garbage.old) (length unissued.old) result }
    ensures garbage { BringsGarbage handle.old.value handle.old.names files.now garbage.old garbage.new result }
    ensures unissued { BringsOf (λ n. unissued_of n files.now) handle.old.names unissued.old unissued.new result }
    ensures kept { result.code ≢ 0 → (garbage.new ≡ garbage.old) × (unissued.new ≡ unissued.old) }
    ensures unchanged { IsSame handle.old handle.new }
    ensures held { IsHeld handle.old.past handle.old.value handle.old.names handle.old.past }
    ensures promised { IsPromised handle.old.past }
{
    let Some(machine) = handle.take(alloc) else {
        return Answer::closed();
    };
    let answer = garbage_in(machine.machine(), files, garbage, unissued);
    handle.put(alloc, machine);
    answer
}

fn garbage_in(machine: &Machine, files: &[u64], garbage: &mut [u64], unissued: &mut [u64]) -> Answer
    ensures told { result ≡ garbage_told (core_in machine.now) (names_in machine.now) files.now (length garbage.old) (length unissued.old) }
    ensures garbage { BringsOf (λ n. garbage_of (core_in machine.now) n files.now) (names_in machine.now) garbage.old garbage.new result }
    ensures unissued { BringsOf (λ n. unissued_of n files.now) (names_in machine.now) unissued.old unissued.new result }
    ensures kept { result.code ≢ 0 → (garbage.new ≡ garbage.old) × (unissued.new ≡ unissued.old) }
{
    match machine {
        Machine::Plain(_) => Answer::no_names(),
        Machine::Fenced(terms) => write_both(terms, files, garbage, unissued),
    }
}

fn write_both(terms: &Terms, files: &[u64], garbage: &mut [u64], unissued: &mut [u64]) -> Answer
    ensures told { result ≡ garbage_told terms.now.core (Some (issued_by terms.now)) files.now (length garbage.old) (length unissued.old) }
    ensures garbage { result.code ≡ 0 → StandsInFront (garbage_of terms.now.core (issued_by terms.now) files.now) garbage.old garbage.new }
    ensures unissued { result.code ≡ 0 → StandsInFront (unissued_of (issued_by terms.now) files.now) unissued.old unissued.new }
    ensures kept { result.code ≢ 0 → (garbage.new ≡ garbage.old) × (unissued.new ≡ unissued.old) }
{
    if garbage.len() < files.len() || unissued.len() < files.len() {
        return Answer::too_short_for(files.len() as u64, files.len() as u64);
    }
    let first = write_garbage(terms, files, garbage);
    let second = write_unissued(terms.next_name(), files, unissued);
    Answer::done(GARBAGE, first as u64, second as u64)
}

/// Writes the files that may be deleted to the start of a buffer, and tells how many they are.
///
/// Condition: the buffer has a place for each file.
fn write_garbage(terms: &Terms, files: &[u64], out: &mut [u64]) -> usize
    requires fits { length files.now ≤ length out.old }
    ensures count { result ≡ length (filter (is_garbage terms.now) files.now) }
    ensures front { StandsInFront (filter (is_garbage terms.now) files.now) out.old out.new }
{
    let mut count = 0;
    for place in 0..files.len() {
        let file = files[place];
        if terms.is_garbage(FileId(file)) {
            out[count] = file;
            count += 1;
        }
    }
    count
}

/// Writes the files from this number on to the start of a buffer, and tells how many they are.
///
/// Condition: the buffer has a place for each file.
fn write_unissued(next_name: u64, files: &[u64], out: &mut [u64]) -> usize
    requires fits { length files.now ≤ length out.old }
    ensures count { result ≡ length (filter (nat_le next_name) files.now) }
    ensures front { StandsInFront (filter (nat_le next_name) files.now) out.old out.new }
{
    let mut count = 0;
    for place in 0..files.len() {
        let file = files[place];
        if file >= next_name {
            out[count] = file;
            count += 1;
        }
    }
    count
}
