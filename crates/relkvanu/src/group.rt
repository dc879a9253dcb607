//! Groups: answers that a program with a log of its own tells only once what was made is synced.
//!
//! A group has no handle. It is memory of the caller, a [`Group`] and a place for each answer.

ghost use Rattle.std.specs.Prelude.{◌≡◌, ◌≢◌, ℕ, true, false, List, [], length, set, take, None, Some, IfSome};
ghost use Rattle.ckpt_ids.specs.declared.call.Call.TheVariants.{Take};
ghost use Rattle.ckpt_logged.specs.Events.{Plain, event_step};
ghost use Rattle.ckpt_terms.specs.{Machines.core_in, declared.machine.Machine.Machine};
ghost use Rattle.relkvanu.specs.{declared.asked.Asked.Asked, Buffers.StandsInFront, Calls.IsSame, Calls.StaysClosed, declared.answer.Answer.Answer, declared.handle.Handle.Handle};
ghost use Rattle.relkvanu.specs.{Lines.asked_step, Told.bad_argument, Told.done};
ghost use Rattle.relkvanu.specs.GroupPrograms.{AreAsked, AsksByLine, Does, Has, HoldsAsked, HoldsLook, IfHas, Looks, LooksAtCall, Notes, Operation, Performed, Program, Syncs, TellsWhatIsSynced, nothing, program};
ghost use Rattle.relkvanu.specs.Groups.{IfRoom, IsEventOf, IsFull, IsRoom, all_lost, all_told, asked_event, group_with, held_answer, held_with, one_more, receipt_of, told_by, why_full};
ghost use Rattle.relkvanu.specs.Making.{Brings, Grows, HandleReports, Makes, line_length, making};
ghost use Rattle.relkvanu.specs.WorkedGroup.{begin, buffer, last, notes, operations};
ghost use Rattle.relkvanu.specs.Writing.{SaysBack, call_line_text, given};

use crate::answer::{Answer, DONE, FENCED, REFUSED};
use crate::handle::Handle;
use crate::making::{Made, relkvanu_make};
use crate::writing::CallFields;
use std::alloc::Global;

// what the answer is
const APPEND: u32 = 62;

const HELD_BACK: u32 = 63;

const SYNCED: u32 = 64;

/// The bad argument of a group that has failed.
const BAD_GROUP: u32 = 9;

/// The bad argument of a receipt by which nothing may be told, and of a buffer without a place for an
/// answer.
const BAD_RECEIPT: u32 = 10;

/// Receipts are below this one.
const RECEIPTS_END: u64 = 1 << 62;

/// How many answers of a caller's buffer wait, or may be told. All zero, but for `given`: none.
#[repr(C)]
#[derive(Clone, Copy, Debug, PartialEq, Eq)]
pub struct Group {
    /// How many wait for a sync, from the first place on.
    pub waiting: u64,
    /// How many may be told, from the first place on.
    pub told: u64,
    /// An append or a sync has failed: no answer is held or told any more.
    pub has_failed: bool,
    /// The next receipt: each answer that is held gets one, and none comes again.
    pub given: u64,
}

/// Makes a call and writes its line as `relkvanu_make` does, and holds its answer back.
///
/// The answer says whether the line is to be appended, and has the receipt by which
/// [`relkvanu_group_answer`] tells the call's own answer after a sync. A call that the state, a term or
/// the names refuse is held back too, and has no line. Any other answer tells nothing of the state but
/// how many places a buffer needs: it is returned at once, and nothing has changed. A bad argument is
/// returned, before anything else, if the group has failed, and if `held` has no place left. The first
/// answer that is held after a sync ends those of before: they may be told no more. A call that left
/// the handle as it was, such as a take of no file, needs no line.
#[unsafe(no_mangle)]
pub extern "C" fn relkvanu_group_make(
    alloc: Global,
    handle: &mut Handle,
    group: &mut Group,
    held: &mut [Answer],
    call: &CallFields,
    first: &[u64],
    second: &[u64],
    files: &mut [u64],
    line: &mut [u8],
    made: &mut Made,
) -> Answer
    ensures full { IsFull group.old (length held.old) → (result ≡ why_full group.old) × IsSame handle.old handle.new }
    ensures group { IsRoom group.old (length held.old) → group.new ≡ group_with group.old (held_answer group.old held.new result) }
    ensures held { IsRoom group.old (length held.old) → held.new ≡ held_with group.old held.old (held_answer group.old held.new result) }
    ensures told { IsRoom group.old (length held.old) → result ≡ receipt_of group.old (held_answer group.old held.new result) }
    ensures closed { IfRoom group.old held.old held.new result (StaysClosed handle.old.value handle.new.value) }
    ensures handled { IfRoom group.old held.old held.new result (Makes files.old (making call.entry.now first.now second.now line.old) handle.old handle.new) }
    ensures files { IfRoom group.old held.old held.new result (Brings handle.old (making call.entry.now first.now second.now line.old) files.old files.new) }
    ensures line { result.code ≡ 0 → result.what ≡ 62 → StandsInFront (call_line_text (given call.entry.now first.now second.now)) line.old line.new }
    ensures said { SaysBack (given call.entry.now first.now second.now) (take made.new.written line.new) (held_answer group.old held.new result) }
    ensures made { HandleReports (line_length (given call.entry.now first.now second.now)) handle.old handle.new made.new
        (held_answer group.old held.new result) }
    ensures past { IfRoom group.old held.old held.new result (Grows files.old (making call.entry.now first.now second.now line.old) handle.old handle.new) }
    ensures kept { result.code ≢ 0 → (files.new ≡ files.old) × (line.new ≡ line.old) × (made.new ≡ made.old) }
    ensures none_held { result.code ≢ 0 → (group.new ≡ group.old) × (held.new ≡ held.old) }
    ensures asks { IfHas handle.old group.old held.old (λ p. result.code ≡ 0 → result.what ≡ 62
        → AsksByLine p (making call.entry.now first.now second.now line.old) (length files.old) (take made.new.written line.new) handle.new group.new held.new) }
    ensures looks { IfHas handle.old group.old held.old (λ p. result.code ≡ 0 → result.what ≢ 62
        → LooksAtCall p (making call.entry.now first.now second.now line.old) (length files.old) handle.new group.new held.new) }
    ensures idle { IfHas handle.old group.old held.old (λ p. result.code ≡ 0 → handle.new.value ≡ handle.old.value
        → handle.new.names ≡ handle.old.names → Does p (Looks (held_answer group.old held.new result)) handle.new group.new held.new) }
    ensures stays { IfHas handle.old group.old held.old (λ p. result.code ≢ 0 → Has p handle.new group.new held.new) }
{
    if let Some(why) = refused(group, held.len()) {
        return why;
    }
    let answer = relkvanu_make(alloc, handle, call, first, second, files, line, made);
    hold(group, held, answer)
}

/// Holds back the answer of any other function of the same handle, such as that of a read, or of a
/// call that was made without a group and whose line the program appends in its place. The answer has
/// the receipt by which it is told after a sync.
///
/// A bad argument if the group has failed, or if `held` has no place left. Then nothing has changed.
#[unsafe(no_mangle)]
pub extern "C" fn relkvanu_group_hold(
    group: &mut Group,
    held: &mut [Answer],
    answer: &Answer,
) -> Answer
    ensures full { IsFull group.old (length held.old) → (result ≡ why_full group.old) × (group.new ≡ group.old) × (held.new ≡ held.old) }
    ensures group { IsRoom group.old (length held.old) → group.new ≡ one_more group.old }
    ensures held { IsRoom group.old (length held.old) → held.new ≡ set held.old group.old.waiting answer.now }
    ensures told { IsRoom group.old (length held.old) → result ≡ done 63 group.old.given 0 }
    ensures looks { HoldsLook group.old held.old answer.now result group.new held.new }
    ensures asks { HoldsAsked group.old held.old answer.now result group.new held.new }
{
    if let Some(why) = refused(group, held.len()) {
        return why;
    }
    Answer::done(HELD_BACK, push(group, held, *answer), 0)
}

/// What was appended is synced: all that waits may be told, and the answer says how many that are.
///
/// Those that might be told before may be told no more. A bad argument if the group has failed.
#[unsafe(no_mangle)]
pub extern "C" fn relkvanu_group_synced(group: &mut Group) -> Answer
    ensures failed { group.old.has_failed ≡ true → (result ≡ why_full group.old) × (group.new ≡ group.old) }
    ensures synced { group.old.has_failed ≡ false → (result ≡ done 64 group.old.waiting 0) × (group.new ≡ all_told group.old) }
    ensures syncs { (p : Program) (h : Handle) (held : List Answer) → Has p h group.old held → result.code ≡ 0 → Does p Syncs h group.new held }
{
    if group.has_failed {
        return Answer::bad_argument(BAD_GROUP);
    }
    let told = group.waiting;
    *group = Group {
        waiting: 0,
        told,
        has_failed: false,
        given: group.given,
    };
    Answer::done(SYNCED, told, 0)
}

/// An append or a sync has failed: from now on nothing is held, and nothing is told.
#[unsafe(no_mangle)]
pub extern "C" fn relkvanu_group_failed(group: &mut Group)
    ensures { group.new ≡ all_lost group.old }
{
    *group = Group {
        waiting: 0,
        told: 0,
        has_failed: true,
        given: group.given,
    };
}

/// The answer that was held back with this receipt, if the sync behind it was the last one, and
/// nothing was held since. No other answer of the group has the receipt, however late it is asked.
///
/// A bad argument if the group has failed, and for any other receipt.
#[unsafe(no_mangle)]
pub extern "C" fn relkvanu_group_answer(group: &Group, held: &[Answer], receipt: u64) -> Answer
    ensures { result ≡ told_by group.now held.now receipt }
{
    if group.has_failed {
        return Answer::bad_argument(BAD_GROUP);
    }
    if receipt >= group.given || group.given - receipt > group.told {
        return Answer::bad_argument(BAD_RECEIPT);
    }
    let place = group.told - (group.given - receipt);
    match held.get(place as usize) {
        Some(answer) => *answer,
        None => Answer::bad_argument(BAD_RECEIPT),
    }
}

/// Why no answer can be held, with so many places in the buffer.
fn refused(group: &Group, places: usize) -> Option<Answer>
    ensures none { result ≡ None → IsRoom group.now places }
    ensures some { IfSome result (λ why. (why ≡ why_full group.now) × IsFull group.now places) }
{
    if group.has_failed {
        Some(Answer::bad_argument(BAD_GROUP))
    } else if group.waiting >= places as u64 || group.given >= RECEIPTS_END {
        Some(Answer::bad_argument(BAD_RECEIPT))
    } else {
        None
    }
}

/// Holds an answer back if it tells of the state. What is told of it.
///
/// Condition: there is room.
fn hold(group: &mut Group, held: &mut [Answer], answer: Answer) -> Answer
    requires { IsRoom group.old (length held.old) }
    ensures group { group.new ≡ group_with group.old answer }
    ensures held { held.new ≡ held_with group.old held.old answer }
    ensures told { result ≡ receipt_of group.old answer }
    ensures answer { held_answer group.old held.new result ≡ answer }
{
    match answer.code() {
        DONE => Answer::done(APPEND, push(group, held, answer), 0),
        REFUSED | FENCED => Answer::done(HELD_BACK, push(group, held, answer), 0),
        _ => answer,
    }
}

/// Holds an answer back. Its receipt.
///
/// Condition: there is room.
fn push(group: &mut Group, held: &mut [Answer], answer: Answer) -> u64
    requires { IsRoom group.old (length held.old) }
    ensures group { group.new ≡ one_more group.old }
    ensures held { held.new ≡ set held.old group.old.waiting answer }
    ensures receipt { result ≡ group.old.given }
{
    let place = group.waiting;
    let receipt = group.given;
    held[place as usize] = answer;
    *group = Group {
        waiting: place + 1,
        told: 0,
        has_failed: false,
        given: receipt + 1,
    };
    receipt
}

/// A call that was made is one event, that of its line.
pub fn made_is_an_event()
    ensures { (k : Machine) (places : ℕ) (asked : Asked) → IsEventOf k (asked_step k places asked) (asked_event asked) }
{}

/// A call that was not made leaves the coordinator as it was.
pub fn unmade_is_none()
    ensures { (k : Machine) (places : ℕ) (asked : Asked) → (asked_step k places asked).1.code ≢ 0 → (asked_step k places asked).0 ≡ k }
{}

/// A take of no file leaves the coordinator as it was.
pub fn idle_take()
    ensures { (k : Machine) (most : ℕ) → (core_in k).waiting ≡ [] → event_step k (Plain (Take most)) ≡ k }
{}

/// A program that appends the entry of each call that was made, and says that it has synced only what
/// is synced, tells what is synced: all laws of groups hold of it.
pub fn tells_what_is_synced()
    ensures { (m : Machine) (held : List Answer) (operations : List Operation) (p : Program) (b : Notes) → TellsWhatIsSynced m held operations p b }
{}

/// The worked example, in which a group fails and another one makes its call again, meets the premises.
pub fn worked_group()
    ensures performed { Performed (program begin buffer) nothing operations last notes }
    ensures are_asked { AreAsked operations }
{}
