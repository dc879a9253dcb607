//! A book that many threads share. Its callers take turns by tickets.
ghost use Rattle.std.specs.Prelude.{◌≡◌, ◌↔◌, ◌+◌, ◌<◌, ◌≤◌, [], ◌∷◌, length, vec_capacity, All, IfErr, IfOk, Some};
ghost use Rattle.ckpt_locked.specs.declared.lock.LockFault.TheVariants.{BadSeats};
ghost use Rattle.ckpt_locked.specs.Turns.{fresh, idle, claim};
ghost use Rattle.ckpt_locked.specs.Locks.{IsTurns, IsOut, newcomer, newcomers, lock_of, Made, SeenIn, GivenBack};

use crate::book::Book;
use crate::limits::MOST_SEATS;
use crate::steps::{ENTRIES, SEATS, Seat, Shared, WORDS, ask, commit, enter, leave, take};
use crate::view::{Compare, Key, Number, Same, Take, Turns, View};
use atomic_table::{Refused, Table};
use ckpt_ids::{Answer, Call};
use std::alloc::Global;
use std::marker::Model;
use std::snapshot::Snapshot;
use std::sync::Wait;
use thiserror::Error;

/// The right to make calls with one seat.
///
/// Contracts see its lock, its seat, the log of the book as the pass saw it last (`seen`), and its
/// own calls in order (`own`). No other pass has its seat, and it can't be copied.
#[derive(Drop)]
pub struct Pass {
    seat: Seat,
    number: u32,
    calls: u64,
}

impl Model for Pass {
    ghost use Rattle.ckpt_locked.specs.Locks.{Hand, hand, IsIdle};

    ghost Value = { Hand };

    ghost view = { λ p. hand p.seat.table_id p.seat.me.0.mine };

    ghost invariant = { λ p. IsIdle p.seat.me p.number p.calls };
}

/// A book whose callers take turns, in the order in which they drew their tickets.
///
/// While nobody has the turn, its book is an ordinary [`Book`], with all promises of
/// [`Book::core`].
pub struct Locked {
    table: Table<Option<Book>, View, Key, Turns, Global>,
    seats: u32,
}

impl Drop for Locked {
    fn drop(self) {
        let Locked { table: _, seats: _ } = self;
    }
}

impl Model for Locked {
    ghost use Rattle.std.specs.Prelude.{◌≡◌, ◌<◌};
    ghost use Rattle.ckpt_locked.specs.Turns.{base_of};
    ghost use Rattle.ckpt_locked.specs.Locks.{Lock, IsTurns};

    ghost Value = { Lock };

    ghost view = { λ l. record { table_id = l.table.shared.table_id; base = base_of l.table.shared.key } };

    ghost invariant = { λ l. IsTurns l.table.shared.table_id × (l.table.shared.key.seats ≡ l.seats) × (0 < l.seats) };
}

/// Why no lock was made: the first of these that applies.
#[derive(Clone, Copy, Debug, PartialEq, Eq, Error)]
pub enum LockFault {
    /// No seats, or more than [`MOST_SEATS`].
    #[error("a lock has 1 to 64 seats")]
    BadSeats,
    /// Memory ran out.
    #[error("out of memory")]
    Memory,
}

/// The caller gave fewer passes than the lock has seats. It gets everything back.
#[derive(Drop)]
pub struct MissingPass {
    /// The lock.
    pub locked: Locked,
    /// The passes that the caller gave.
    pub passes: Vec<Pass>,
}

impl Pass {
    /// The seat, from 0. Entries of the pass's calls have this number.
    pub fn seat(&self) -> u32
        ensures { result ≡ self.now.seat }
    {
        self.number
    }

    /// The number of calls that were made with the pass.
    pub fn calls(&self) -> u64
        ensures { result ≡ length self.now.own }
    {
        self.calls
    }
}

impl Locked {
    /// A lock over the book, with a pass for each of 1 to [`MOST_SEATS`] seats, in order. Takes
    /// memory from the allocator of the book.
    ///
    /// Returns the book with [`LockFault::BadSeats`] exactly if there are 0 seats or more than
    /// [`MOST_SEATS`], otherwise with [`LockFault::Memory`] only if memory runs out.
    pub fn new<R: Wait>(
        rt: &R,
        book: Book,
        seats: u32,
    ) -> Result<(Locked, Vec<Pass>), (Book, LockFault)>
        ensures seats { IfOk result (λ made. (0 < seats) × (seats ≤ MOST_SEATS)) }
        ensures lock { IfOk result (λ made. made.0 ≡ lock_of book seats made.0.table_id) }
        ensures passes { IfOk result (λ made. made.1.items ≡ newcomers made.0 seats) }
        ensures fault { IfErr result (λ back. back.1 ≡ BadSeats ↔ ((0 < seats) × (seats ≤ MOST_SEATS) → ⊥)) }
        ensures returned { IfErr result (λ back. back.0 ≡ book) }
    {
        if seats == 0 || seats > MOST_SEATS {
            return Err((book, LockFault::BadSeats));
        }
        let alloc = book.alloc();
        let mut passes = Vec::new(alloc);
        let mut slots = Vec::new(alloc);
        if passes.reserve(seats as usize).is_err() || slots.reserve(1).is_err() {
            return Err((book, LockFault::Memory));
        }
        let key = Key {
            book: Snapshot::of(&book),
            seats,
        };
        slots.push_reserved(Some(book));
        match Table::new(alloc, &[0; WORDS], slots, &key) {
            Ok((table, mut seat)) => {
                let passes = give_out(rt, &table.shared, &mut seat, passes, seats);
                Ok((Locked { table, seats }, passes))
            }
            Err(Refused { slots }) => Err((book_in(slots), LockFault::Memory)),
        }
    }

    /// Waits for its turn, and makes a call with a pass.
    ///
    /// After the call the log of the book begins with everything that the pass had seen, and ends
    /// with this call. The answer is that of the call after the entries before it. Fails only if
    /// memory runs out. Then the caller gets the pass and the call back unchanged.
    ///
    /// Condition: the pass is of this lock.
    pub fn call<R: Wait>(
        &self,
        rt: &R,
        pass: Pass,
        call: Call,
    ) -> Result<(Pass, Answer), (Pass, Call)>
        requires pass { pass.lock ≡ self.now }
        ensures made { IfOk result (λ done. Made pass call done.0 done.1) }
        ensures returned { IfErr result (λ back. (back.0 ≡ pass) × (back.1 ≡ call)) }
    {
        let Pass {
            mut seat,
            number,
            calls,
        } = pass;
        let shared = &self.table.shared;
        let ticket = enter(rt, shared, &mut seat);
        let told = Snapshot::of(&call);
        match ask(shared, &mut seat, number, call, ticket) {
            Ok(answer) => {
                commit(shared, &mut seat, ticket, number, &told);
                let calls = calls + 1;
                Ok((
                    Pass {
                        seat,
                        number,
                        calls,
                    },
                    answer,
                ))
            }
            Err(call) => {
                leave(shared, &mut seat, ticket);
                Err((
                    Pass {
                        seat,
                        number,
                        calls,
                    },
                    call,
                ))
            }
        }
    }

    /// Ends the lock and its passes, and returns the book, with the calls of all passes. May wait.
    ///
    /// Returns the lock and the passes in a [`MissingPass`], unchanged, exactly if there are fewer
    /// passes than seats.
    ///
    /// Condition: the passes are of this lock.
    pub fn close<R: Wait>(self, rt: &R, mut passes: Vec<Pass>) -> Result<Book, MissingPass>
        requires passes { All (λ p. p.lock ≡ self) passes.items }
        ensures all { IfOk result (λ book. self.base.seats ≤ length passes.items) }
        ensures book { IfOk result (λ book. GivenBack self book passes.items) }
        ensures missing { IfErr result (λ back. length passes.items < self.base.seats) }
        ensures returned { IfErr result (λ back. (back.locked ≡ self) × (back.passes.items ≡ passes.items)) }
    {
        if passes.len() < self.seats as usize {
            return Err(MissingPass {
                locked: self,
                passes,
            });
        }
        let Some(pass) = passes.pop() else {
            unreachable!()
        };
        let Pass {
            mut seat,
            number: _,
            calls: _,
        } = pass;
        let ticket = enter(rt, &self.table.shared, &mut seat);
        let book = take(&self.table.shared, &mut seat, ticket);
        compare_all(&self.table.shared, &mut seat, passes, ticket);
        Ok(book)
    }
}

/// Takes the book out of the returned slots.
///
/// Condition: there is one slot, and a book in it.
fn book_in(mut slots: Vec<Option<Book>>) -> Book
    requires one { (book : _) × (slots.items ≡ Some book ∷ []) }
    ensures { slots.items ≡ Some result ∷ [] }
{
    let Some(Some(book)) = slots.pop() else {
        unreachable!()
    };
    book
}

/// Takes this number, which is the next one.
///
/// Conditions: the seat is of this table, which is a lock's, and has no number yet. The lock has
/// more seats than the number.
fn take_number<R: Wait>(rt: &R, shared: &Shared, seat: &mut Seat, number: u32)
    requires table { (seat.old.table_id ≡ shared.now.table_id) × IsTurns shared.now.table_id }
    requires fresh { (seat.old.me ≡ (fresh seat.old.me.0.mine.base, [])) × (number < seat.old.me.0.mine.base.seats) }
    ensures same { seat.new.table_id ≡ seat.old.table_id }
    ensures number { seat.new.me ≡ (idle (claim seat.old.me.0.mine.base number [] []), []) }
{
    for _ in rt.forever() {
        let found = shared.compare_exchange::<Number>(
            seat,
            SEATS,
            number as u64,
            number as u64 + 1,
        );
        if found == number as u64 {
            return;
        }
    }
    unreachable!()
}

/// A pass with this number, which is the next one.
///
/// Conditions: the seat is of this table, which is a lock's, and has no number yet. The lock has
/// more seats than the number.
fn new_pass<R: Wait>(rt: &R, shared: &Shared, first: &mut Seat, number: u32) -> Pass
    requires table { (first.old.table_id ≡ shared.now.table_id) × IsTurns shared.now.table_id }
    requires fresh { (first.old.me ≡ (fresh first.old.me.0.mine.base, [])) × (number < first.old.me.0.mine.base.seats) }
    ensures same { (first.new.table_id ≡ first.old.table_id) × (first.new.me ≡ first.old.me) }
    ensures pass { result ≡ newcomer (record { table_id = first.old.table_id; base = first.old.me.0.mine.base }) number }
{
    let mut seat = shared.split_seat::<Same>(first);
    take_number(rt, shared, &mut seat, number);
    Pass {
        seat,
        number,
        calls: 0,
    }
}

/// A pass for each seat, in reserved room.
///
/// Conditions: the seat is of this table, which is a lock's, and has no number yet. The lock has
/// this many seats. No pass is there yet, and room for all of them.
fn give_out<R: Wait>(
    rt: &R,
    shared: &Shared,
    first: &mut Seat,
    mut passes: Vec<Pass>,
    seats: u32,
) -> Vec<Pass>
    requires table { (first.old.table_id ≡ shared.now.table_id) × IsTurns shared.now.table_id }
    requires fresh { (first.old.me ≡ (fresh first.old.me.0.mine.base, [])) × (seats ≡ first.old.me.0.mine.base.seats) }
    requires room { (passes.items ≡ []) × (seats ≤ vec_capacity passes) }
    ensures { result.items ≡ newcomers (record { table_id = first.old.table_id; base = first.old.me.0.mine.base }) seats }
{
    for number in 0..seats {
        passes.push_reserved(new_pass(rt, shared, first, number));
    }
    passes
}

/// Joins another pass to the seat that has its turn with this ticket, and compares the two.
///
/// Conditions: the seat is of this table, which is a lock's, has its turn with this ticket, and has
/// taken the book out of its slot. The pass is of this lock.
fn compare(shared: &Shared, seat: &mut Seat, other: Pass, _ticket: u64)
    requires table { (seat.old.table_id ≡ shared.now.table_id) × IsTurns shared.now.table_id }
    requires out { IsOut seat.old.me _ticket }
    requires other { other.lock.table_id ≡ seat.old.table_id }
    ensures same { (seat.new.table_id ≡ seat.old.table_id) × (seat.new.me ≡ seat.old.me) }
    ensures base { other.lock.base ≡ seat.old.me.0.mine.base }
    ensures seen { SeenIn seat.old.me.0.found other }
{
    let Pass {
        seat: theirs,
        number: _,
        calls: _,
    } = other;
    shared.join_seat::<Take>(seat, theirs);
    shared.load::<Compare>(seat, ENTRIES);
}

/// Compares the seat that has its turn with each other pass.
///
/// Conditions: the seat is of this table, which is a lock's, has its turn with this ticket, and has
/// taken the book out of its slot. The passes are of this lock.
fn compare_all(shared: &Shared, seat: &mut Seat, mut passes: Vec<Pass>, ticket: u64)
    requires table { (seat.old.table_id ≡ shared.now.table_id) × IsTurns shared.now.table_id }
    requires out { IsOut seat.old.me ticket }
    requires others { All (λ p. p.lock.table_id ≡ seat.old.table_id) passes.items }
    ensures { All (SeenIn seat.old.me.0.found) passes.items }
{
    while let Some(pass) = passes.pop() {
        compare(shared, seat, pass, ticket);
    }
}
