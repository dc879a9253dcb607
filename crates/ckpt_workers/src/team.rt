//! Teams that make a list of calls, and the one that makes them in order.
ghost use Rattle.std.specs.Prelude.{◌≡◌, ◌+◌, ◌^◌, ◌<◌, ◌≤◌, ◌++◌, if◌then◌else◌, IfOk, OnOk};
ghost use Rattle.std.specs.Option.{option_or};
ghost use Rattle.ckpt_locked.specs.Books.{calls_of};
ghost use Rattle.ckpt_workers.specs.Teams.{IsOneMore, IsTeamwork, is_accepted};
ghost use Rattle.ckpt_model.specs.Interleavings.{completed_by};

use ckpt_ids::{Answer, Call, Reply};
use ckpt_locked::{Book, MOST_SEATS};
use std::alloc::AllocError;

/// The result of a team's list of calls.
#[derive(Drop)]
pub struct Made {
    /// The book with the calls added.
    pub book: Book,
    /// How many calls were accepted.
    pub accepted: u64,
    /// How many calls were refused.
    pub refused: u64,
    /// For the first acknowledgement of the list that completed a record: how many records it
    /// dropped, and how many files it released.
    pub completed: Option<(u32, u64)>,
}

/// Makes the calls of a list, divided among seats.
pub trait Team {
    /// Makes each call of the list on the book: the call at place i with seat i modulo the number
    /// of threads, each seat's calls in the order of the list.
    ///
    /// Fails only if memory runs out, and then the book is lost.
    ///
    /// Condition: there are 1 to [`MOST_SEATS`] threads.
    fn make(&mut self, book: Book, calls: Vec<Call>, threads: u32) -> Result<Made, AllocError>
        requires threads { (0 < threads) × (threads ≤ MOST_SEATS) }
        ensures made { IfOk result (λ made. IsTeamwork book calls.items threads made) };
}

/// Makes the calls one after the other, in the order of the list.
#[derive(Clone, Copy, Debug)]
pub struct InOrder;

impl Made {
    /// Before the first call.
    pub(crate) fn none(book: Book) -> Made
        ensures { result ≡ record { book = book; accepted = 0; refused = 0; completed = None } }
    {
        Made {
            book,
            accepted: 0,
            refused: 0,
            completed: None,
        }
    }

    /// Makes one more call, and counts its answer. Fails only if memory runs out.
    ///
    /// Condition: both counts are below 2^64 - 1.
    pub(crate) fn enter(&mut self, seat: u32, call: Call) -> Result<(), AllocError>
        requires accepted { self.old.accepted + 1 < 2 ^ 64 }
        requires refused { self.old.refused + 1 < 2 ^ 64 }
        ensures { OnOk result (IsOneMore self.old seat call self.new) }
    {
        match self.book.apply(seat, call) {
            Ok(answer) => {
                self.count(&answer);
                Ok(())
            }
            Err(_) => Err(AllocError),
        }
    }

    /// Counts one more answer.
    ///
    /// Condition: both counts are below 2^64 - 1.
    pub(crate) fn count(&mut self, answer: &Answer)
        requires accepted { self.old.accepted + 1 < 2 ^ 64 }
        requires refused { self.old.refused + 1 < 2 ^ 64 }
        ensures book { self.new.book ≡ self.old.book }
        ensures accepted { self.new.accepted ≡ self.old.accepted + (if is_accepted answer.now then 1 else 0) }
        ensures refused { self.new.refused ≡ self.old.refused + (if is_accepted answer.now then 0 else 1) }
        ensures completed { self.new.completed ≡ option_or self.old.completed (completed_by answer.now) }
    {
        match answer {
            Answer::Done(_) => self.accepted += 1,
            Answer::Refused(_) => self.refused += 1,
        }
        self.completed = self.completed.or(completed_by(answer));
    }
}

/// What the answer says about a completion.
fn completed_by(answer: &Answer) -> Option<(u32, u64)>
    ensures { result ≡ completed_by answer.now }
{
    match answer {
        Answer::Done(Reply::AckCompleted { dropped, released }) => Some((*dropped, *released)),
        _ => None,
    }
}

impl Team for InOrder {
    /// Condition: there are 1 to [`MOST_SEATS`] threads.
    fn make(&mut self, book: Book, calls: Vec<Call>, threads: u32) -> Result<Made, AllocError>
        requires threads { (0 < threads) × (threads ≤ MOST_SEATS) }
        ensures made { IfOk result (λ made. IsTeamwork book calls.items threads made) }
        ensures in_order { IfOk result (λ made. calls_of made.book.entries ≡ calls_of book.entries ++ calls.items) }
    {
        let count = calls.len();
        let mut made = Made::none(book);
        let mut place = 0;
        for call in calls {
            made.enter((place % threads as usize) as u32, call)?;
            place += 1;
        }
        Ok(made)
    }
}
