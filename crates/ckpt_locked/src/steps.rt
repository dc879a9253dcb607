//! The steps of a call on the lock's table.
//!
//! A thread draws a ticket and waits until the ticket is served. If few tickets are before it, it
//! polls for a while. Otherwise it sleeps on a word of its own, its perch. Then it makes its call
//! on the book in its slot, counts the entry, and passes the turn on. It wakes the thread with the
//! next ticket, and one that will soon have its turn, if they sleep.
ghost use Rattle.std.specs.Prelude.{◌≡◌, ◌+◌, ◌^◌, ◌<◌, ◌≤◌, [], length, Some, IfErr, IfOk};
ghost use Rattle.ckpt_locked.specs.Books.{History};
ghost use Rattle.ckpt_locked.specs.Turns.{kept, grown, idle, waiting, Called};
ghost use Rattle.ckpt_locked.specs.Locks.{IsTurns, IsOut, HasBook, CameTo, Asked, Entered, found_with};

use crate::book::Book;
use crate::limits::TICKETS_END;
use crate::view::{Await, Commit, Draw, Key, Next, Stir, Turns, View};
use ckpt_ids::{Answer, Call};
use std::hint::spin_loop;
use std::snapshot::Snapshot;
use std::sync::Wait;
use std::thread::yield_now;

/// A place in the lock's table, of no bytes.
pub type Seat = atomic_table::Seat<Option<Book>, View>;

/// The part of the table that all threads share.
pub type Shared = atomic_table::Shared<Option<Book>, View, Key, Turns>;

/// The word that counts the entries since the lock was made.
pub const ENTRIES: usize = 0;

/// The word with the next ticket.
pub const TICKETS: usize = 1;

/// The word with the ticket that is served.
pub const SERVED: usize = 2;

/// The word with the next seat's number.
pub const SEATS: usize = 3;

/// The first of 64 words to sleep on, one for each of 64 consecutive tickets.
const PERCHES: usize = 4;

/// The number of words of the table.
pub const WORDS: usize = 68;

/// How often a seat checks for its turn before it sleeps, if at most `NEAR` tickets are before it.
const LOOKS: u32 = 1000;

const NEAR: u64 = 3;

/// The seat whose ticket is this far behind the served one is woken before its turn.
const AHEAD: u64 = 3;

/// Waits until the ticket is served.
///
/// Conditions: the seat is of this table, which is a lock's, and has drawn this ticket.
fn wait<R: Wait>(rt: &R, shared: &Shared, seat: &mut Seat, ticket: u64)
    requires table { (seat.old.table_id ≡ shared.now.table_id) × IsTurns shared.now.table_id }
    requires waiting { seat.old.me ≡ (waiting seat.old.me.0.mine ticket, []) }
    ensures same { seat.new.table_id ≡ seat.old.table_id }
    ensures turn { Called seat.old.me.0.mine ticket seat.new.me × (ticket < TICKETS_END) }
{
    let perch = perch_of(ticket);
    let mut looks = 0;
    for _ in rt.forever() {
        if ticket >= TICKETS_END {
            yield_now();
            continue;
        }
        let served = shared.load::<Await>(seat, SERVED);
        if served == ticket {
            return;
        }
        if looks < LOOKS && ticket.wrapping_sub(served) <= NEAR {
            looks += 1;
            spin_loop();
        } else {
            looks = 0;
            rest(rt, shared, seat, ticket, perch);
        }
    }
    unreachable!()
}

/// Marks the perch, checks once more, sleeps until it is woken, and removes its mark. The thread
/// that passes the turn first raises `SERVED` and then removes the mark, so no wake is lost.
///
/// Conditions: the seat is of this table, which is a lock's, and the perch is one of its 64.
fn rest<R: Wait>(rt: &R, shared: &Shared, seat: &mut Seat, ticket: u64, perch: usize)
    requires table { (seat.old.table_id ≡ shared.now.table_id) × IsTurns shared.now.table_id }
    requires perch { (4 ≤ perch) × (perch < 68) }
    ensures same { (seat.new.table_id ≡ seat.old.table_id) × (seat.new.me ≡ seat.old.me) }
{
    let mark = mark_of(ticket);
    shared.swap::<Stir>(seat, perch, mark);
    if shared.peek(SERVED) != ticket {
        // A park compares the low half of the word.
        shared.park(rt, perch, (mark % (1 << 32)) as u32);
    }
    shared.swap::<Stir>(seat, perch, 0);
}

/// The word that the ticket's seat sleeps on. No two waiting tickets have the same.
fn perch_of(ticket: u64) -> usize
    ensures { (4 ≤ result) × (result < 68) }
{
    PERCHES + (ticket % 64) as usize
}

/// The mark of the ticket's seat on its perch. It is odd, so its low half is not 0 either. Each
/// ticket below [`TICKETS_END`] has its own mark. So a thread that was cut off while it passed a
/// turn does not remove the mark of a later ticket.
fn mark_of(ticket: u64) -> u64 {
    ticket.wrapping_mul(2) | 1
}

/// Wakes the seat with this ticket, if it sleeps or is about to: its turn has come. Without its
/// mark it does not fall asleep any more.
///
/// Condition: the seat is of this table, which is a lock's.
fn rouse(shared: &Shared, seat: &mut Seat, ticket: u64)
    requires table { (seat.old.table_id ≡ shared.now.table_id) × IsTurns shared.now.table_id }
    ensures same { (seat.new.table_id ≡ seat.old.table_id) × (seat.new.me ≡ seat.old.me) }
{
    let perch = perch_of(ticket);
    let mark = mark_of(ticket);
    // Nearly always nobody sleeps there, and a read costs less than a write.
    if shared.peek(perch) == mark && shared.compare_exchange::<Stir>(seat, perch, mark, 0) == mark {
        shared.wake_one(perch);
    }
}

/// Wakes the seat with this ticket before its turn, if it sleeps. Its mark stays. So the thread
/// that passes the turn to it wakes it then, even if this thread is cut off here.
///
/// Condition: the table is a lock's.
fn rouse_early(shared: &Shared, ticket: u64)
    requires { IsTurns shared.now.table_id }
{
    let perch = perch_of(ticket);
    if shared.peek(perch) == mark_of(ticket) {
        shared.wake_one(perch);
    }
}

/// Wakes the seat whose turn comes after this ticket, and the one that should be awake when its
/// turn comes.
///
/// Condition: the seat is of this table, which is a lock's.
fn rouse_next(shared: &Shared, seat: &mut Seat, ticket: u64)
    requires table { (seat.old.table_id ≡ shared.now.table_id) × IsTurns shared.now.table_id }
    ensures same { (seat.new.table_id ≡ seat.old.table_id) × (seat.new.me ≡ seat.old.me) }
{
    rouse(shared, seat, ticket.wrapping_add(1));
    rouse_early(shared, ticket.wrapping_add(AHEAD));
}

/// Draws a ticket and waits for its turn. Then the seat has the book.
///
/// Conditions: the seat is of this table, which is a lock's, and has no ticket.
pub fn enter<R: Wait>(rt: &R, shared: &Shared, seat: &mut Seat) -> u64
    requires table { (seat.old.table_id ≡ shared.now.table_id) × IsTurns shared.now.table_id }
    requires idle { seat.old.me ≡ (idle seat.old.me.0.mine, []) }
    ensures same { seat.new.table_id ≡ seat.old.table_id }
    ensures turn { CameTo seat.old.me.0.mine result seat.new.me }
{
    let ticket = shared.fetch_add::<Draw>(seat, TICKETS, 1);
    wait(rt, shared, seat, ticket);
    ticket
}

/// Makes a call on the book in a slot.
///
/// Condition: there is one.
fn apply_in(slot: &mut Option<Book>, number: u32, call: Call) -> Result<Answer, Call>
    requires { (book : History) × (slot.old ≡ Some book) }
    ensures made { (book : History) → slot.old ≡ Some book → IfOk result (λ answer. Entered book number call slot.new answer) }
    ensures returned { IfErr result (λ back. (back ≡ call) × (slot.new ≡ slot.old)) }
{
    let Some(book) = slot else { unreachable!() };
    let answer = book.apply(number, call)?;
    // The contract of this read says that the book has fewer than 2^64 entries.
    let _ = book.len();
    Ok(answer)
}

/// Makes a call on the book in its slot. The ticket is for the clauses alone.
///
/// Conditions: the seat is of this table, which is a lock's, has its turn with this ticket, and has
/// not changed the book.
pub fn ask(
    shared: &Shared,
    seat: &mut Seat,
    number: u32,
    call: Call,
    _ticket: u64,
) -> Result<Answer, Call>
    requires table { (seat.old.table_id ≡ shared.now.table_id) × IsTurns shared.now.table_id }
    requires book { HasBook seat.old.me _ticket (kept seat.old.me.0.mine.base seat.old.me.0.found) }
    ensures same { seat.new.table_id ≡ seat.old.table_id }
    ensures made { IfOk result (λ answer. Asked seat.old.me _ticket number call seat.new.me answer) }
    ensures returned { IfErr result (λ back. (back ≡ call) × (seat.new.me ≡ seat.old.me)) }
{
    apply_in(seat.slot_mut(shared, 0), number, call)
}

/// Counts the new entry of the book, and passes the turn on. The last two arguments are for the
/// clauses alone.
///
/// Conditions: the seat is of this table, which is a lock's, has this number and its turn with this
/// ticket, and has made this call on the book. The book has fewer than 2^64 entries with it.
pub fn commit(shared: &Shared, seat: &mut Seat, ticket: u64, _number: u32, _call: &Snapshot<Call>)
    requires table { (seat.old.table_id ≡ shared.now.table_id) × IsTurns shared.now.table_id }
    requires number { _number ≡ seat.old.me.0.mine.number }
    requires book { HasBook seat.old.me ticket (kept seat.old.me.0.mine.base (found_with seat.old.me _number _call.now.value)) }
    requires room { length seat.old.me.0.found + 1 < 2 ^ 64 }
    ensures same { seat.new.table_id ≡ seat.old.table_id }
    ensures idle { seat.new.me ≡ (idle (grown seat.old.me.0.mine (found_with seat.old.me _number _call.now.value)), []) }
{
    shared.fetch_add::<Commit>(seat, ENTRIES, 1);
    shared.fetch_add::<Next>(seat, SERVED, 1);
    rouse_next(shared, seat, ticket);
}

/// Passes the turn on.
///
/// Conditions: the seat is of this table, which is a lock's, has its turn with this ticket, and has
/// not changed the book.
pub fn leave(shared: &Shared, seat: &mut Seat, ticket: u64)
    requires table { (seat.old.table_id ≡ shared.now.table_id) × IsTurns shared.now.table_id }
    requires book { HasBook seat.old.me ticket (kept seat.old.me.0.mine.base seat.old.me.0.found) }
    ensures same { seat.new.table_id ≡ seat.old.table_id }
    ensures idle { seat.new.me ≡ (idle seat.old.me.0.mine, []) }
{
    shared.fetch_add::<Next>(seat, SERVED, 1);
    rouse_next(shared, seat, ticket);
}

/// Takes the book for good. The ticket is for the clauses alone.
///
/// Conditions: the seat is of this table, which is a lock's, has its turn with this ticket, and has
/// not changed the book.
pub fn take(shared: &Shared, seat: &mut Seat, _ticket: u64) -> Book
    requires table { (seat.old.table_id ≡ shared.now.table_id) × IsTurns shared.now.table_id }
    requires book { HasBook seat.old.me _ticket (kept seat.old.me.0.mine.base seat.old.me.0.found) }
    ensures same { (seat.new.table_id ≡ seat.old.table_id) × (seat.new.me.0 ≡ seat.old.me.0) }
    ensures out { IsOut seat.new.me _ticket }
    ensures book { result ≡ kept seat.old.me.0.mine.base seat.old.me.0.found }
{
    let Some(book) = shared.exchange(seat, 0, None) else {
        unreachable!()
    };
    book
}
