//! What a seat of the lock's table knows, the rule of the table, and its steps. No code makes a
//! view: views are for clauses alone.
use crate::book::{Book, Entry};
use atomic_table::{Join, Play, Split, TableRule};
use ckpt_ids::Call;
use std::collections::LinkedList;
use std::snapshot::Snapshot;

/// What is fixed when a lock is made.
#[derive(Drop)]
pub struct Base {
    /// The book at that moment.
    pub book: Book,
    /// The number of seats.
    pub seats: u32,
}

/// What a pass knows.
#[derive(Drop)]
pub struct Claim {
    /// The lock.
    pub base: Base,
    /// The number of the seat.
    pub number: u32,
    /// The entries since the lock was made that it has seen.
    pub later: LinkedList<Entry>,
    /// The calls that it has made, in order.
    pub own: LinkedList<Call>,
}

/// What a seat of the table knows.
pub struct View {
    /// It is not used up.
    pub live: bool,
    /// It has a number, which is `mine.number`.
    pub numbered: bool,
    /// What its pass knows.
    pub mine: Claim,
    /// It has a ticket.
    pub queued: bool,
    /// Its ticket.
    pub ticket: u64,
    /// It knows that its turn has come.
    pub turn: bool,
    /// All entries since the lock was made, if it has its turn.
    pub found: LinkedList<Entry>,
    /// It has joined another pass, to compare.
    pub claims: bool,
    /// What the other pass knows.
    pub other: Claim,
}

impl Drop for View {
    fn drop(self) {
        let View {
            live: _,
            numbered: _,
            mine: _,
            queued: _,
            ticket: _,
            turn: _,
            found: _,
            claims: _,
            other: _,
        } = self;
    }
}

/// What the table gets when it is made.
#[derive(Drop)]
pub struct Key {
    /// The book at that moment.
    pub book: Snapshot<Book>,
    /// The number of seats.
    pub seats: u32,
}

/// The rule of the table.
pub struct Turns;

impl TableRule<Option<Book>, View, Key> for Turns {
    ghost use Rattle.ckpt_locked.specs.Turns.{base_of, fresh, Orderly};

    ghost holds = { λ key. Orderly (base_of key) };

    ghost first = { λ key. fresh (base_of key) };
}

/// A new seat knows what the first one knows.
pub struct Same;

impl Split<View> for Same {
    ghost left = { λ v. v };

    ghost right = { λ v. v };
}

/// A seat that has its turn joins an idle one.
pub struct Take;

impl Join<View> for Take {
    ghost use Rattle.ckpt_locked.specs.Turns.{showing, spent};

    ghost both = { λ v w. showing v.mine v.ticket v.found w.mine };

    ghost spent = { spent };
}

/// A seat tries to take a number.
pub struct Number;

impl Play<Option<Book>, View> for Number {
    ghost use Rattle.ckpt_locked.specs.Turns.{numbered};

    ghost then = { numbered };
}

/// A seat draws a ticket.
pub struct Draw;

impl Play<Option<Book>, View> for Draw {
    ghost use Rattle.ckpt_locked.specs.Turns.{drawn};

    ghost then = { drawn };
}

/// A seat checks whether its turn has come, and takes the slot if it has.
pub struct Await;

impl Play<Option<Book>, View> for Await {
    ghost use Rattle.ckpt_locked.specs.Turns.{awaited};

    ghost then = { awaited };
}

/// A seat counts the entry that it has made.
pub struct Commit;

impl Play<Option<Book>, View> for Commit {
    ghost use Rattle.ckpt_locked.specs.Turns.{committed};

    ghost then = { committed };
}

/// A seat gives the slot back and passes the turn on.
pub struct Next;

impl Play<Option<Book>, View> for Next {
    ghost use Rattle.ckpt_locked.specs.Turns.{passed};

    ghost then = { passed };
}

/// A seat changes a perch.
pub struct Stir;

impl Play<Option<Book>, View> for Stir {
    ghost use Rattle.ckpt_locked.specs.Turns.{stirred};

    ghost then = { stirred };
}

/// A seat learns what the joined one knows.
pub struct Compare;

impl Play<Option<Book>, View> for Compare {
    ghost use Rattle.ckpt_locked.specs.Turns.{compared};

    ghost then = { compared };
}
