//! The answer that a C program gets by value: a reply, a refusal or a fault.

ghost use Rattle.std.specs.Prelude.{◌≡◌};
ghost use Rattle.relkvanu.specs.{Asking.bad_line, Fenced.fence_refused, Requested.IsRefused, Told.too_short, Told.too_short_for};
ghost use Rattle.relkvanu.specs.Told.{refusal_told, reply_told, restore_told, tick_told, done, refused, out_of_memory, is_closed, bad_argument};

use crate::requests::Requests;
use ckpt_ids::{Choice, FileId, Refusal, Reply, TickEnd};

/// The answer to a call, by value.
///
/// `relkvanu.h` names the codes, the replies and the refusals. Only the functions below write its
/// numbers, and of these only [`Answer::out_of_memory`] writes [`NO_MEMORY`]: its caller has to show
/// a refused request.
#[repr(C)]
#[derive(Clone, Copy, Debug, PartialEq, Eq)]
pub struct Answer {
    /// One of the codes below.
    code: u32,
    /// Which reply, refusal, argument or fault it is.
    what: u32,
    /// Its first number, or 0.
    a: u64,
    /// Its second number, or 0.
    b: u64,
}

/// The call was made.
pub const DONE: u32 = 0;
/// The coordinator refused the call, and nothing has changed.
pub const REFUSED: u32 = 1;
/// Memory ran out, and nothing has changed.
pub const NO_MEMORY: u32 = 2;
/// The handle has no coordinator.
pub const CLOSED: u32 = 3;
/// An argument is outside its limits, and nothing has changed.
pub const BAD_ARGUMENT: u32 = 4;
/// A buffer is too short, and nothing has changed.
pub const TOO_SHORT: u32 = 5;
/// The line makes no call, or would be too long to be read, and nothing has changed.
pub const BAD_LINE: u32 = 6;
/// A term or the names refuse the call, and nothing has changed.
pub const FENCED: u32 = 7;

impl Answer {
    /// The answer to a call that was made.
    pub(crate) fn done(what: u32, a: u64, b: u64) -> Answer
        ensures { result ≡ done what a b }
    {
        Answer {
            code: DONE,
            what,
            a,
            b,
        }
    }

    /// Its code.
    pub(crate) fn code(&self) -> u32
        ensures { result ≡ self.now.code }
    {
        self.code
    }

    /// Which reply, refusal, argument or fault it is.
    pub(crate) fn what(&self) -> u32
        ensures { result ≡ self.now.what }
    {
        self.what
    }

    /// The answer if memory ran out.
    ///
    /// Condition: a request was refused.
    pub(crate) fn out_of_memory(requests: &Requests) -> Answer
        requires { IsRefused requests.now }
        ensures { result ≡ out_of_memory }
    {
        let _ = requests;
        Answer {
            code: NO_MEMORY,
            what: 0,
            a: 0,
            b: 0,
        }
    }

    /// The answer of a closed handle.
    pub(crate) fn closed() -> Answer
        ensures { result ≡ is_closed }
    {
        Answer {
            code: CLOSED,
            what: 0,
            a: 0,
            b: 0,
        }
    }

    /// The answer to an argument outside its limits.
    pub(crate) fn bad_argument(what: u32) -> Answer
        ensures { result ≡ bad_argument what }
    {
        Answer {
            code: BAD_ARGUMENT,
            what,
            a: 0,
            b: 0,
        }
    }

    /// The answer if a buffer needs `needed` places.
    pub(crate) fn too_short(needed: u64) -> Answer
        ensures { result ≡ too_short needed }
    {
        Answer {
            code: TOO_SHORT,
            what: 0,
            a: needed,
            b: 0,
        }
    }

    /// The answer if two buffers need this many places.
    pub(crate) fn too_short_for(first: u64, second: u64) -> Answer
        ensures { result ≡ too_short_for first second }
    {
        Answer {
            code: TOO_SHORT,
            what: 0,
            a: first,
            b: second,
        }
    }

    /// The answer to a line that makes no call.
    pub(crate) fn bad_line(what: u32) -> Answer
        ensures { result ≡ bad_line what }
    {
        Answer {
            code: BAD_LINE,
            what,
            a: 0,
            b: 0,
        }
    }

    /// The answer if a term or the names refuse a call, with its file if it has one.
    pub(crate) fn fenced(what: u32, file: u64) -> Answer
        ensures { result ≡ fence_refused what file }
    {
        Answer {
            code: FENCED,
            what,
            a: file,
            b: 0,
        }
    }

    /// A refusal, with its file if it has one.
    pub(crate) fn of_refusal(why: Refusal) -> Answer
        ensures told { result ≡ refusal_told why }
        ensures code { result.code ≡ 1 }
    {
        match why {
            Refusal::MomentTooLarge => refused(1, 0),
            Refusal::NotRunning => refused(2, 0),
            Refusal::TooManyFiles => refused(3, 0),
            Refusal::RepeatedFile => refused(4, 0),
            Refusal::UnknownCheckpoint => refused(5, 0),
            Refusal::UnknownSubtask => refused(6, 0),
            Refusal::AlreadyAcknowledged => refused(7, 0),
            Refusal::NameTaken(FileId(file)) => refused(8, file),
            Refusal::FileGone(FileId(file)) => refused(9, file),
            Refusal::NoSuchSavepoint => refused(10, 0),
            Refusal::InUse => refused(11, 0),
            Refusal::TooManySavepoints => refused(12, 0),
            Refusal::NotTaken => refused(13, 0),
            Refusal::NoSuchRecord => refused(14, 0),
            Refusal::IdsUsedUp => refused(15, 0),
            Refusal::AtOnce => refused(16, 0),
        }
    }

    /// A reply. The files of a take and the metadata of a show are not in it.
    pub(crate) fn of_reply(reply: &Reply) -> Answer
        ensures told { result ≡ reply_told reply.now }
        ensures code { result.code ≡ 0 }
    {
        match reply {
            Reply::Ticked { expired, end } => of_tick(*expired, *end),
            Reply::SavepointTriggered(id) => Answer::done(6, id.0, 0),
            Reply::AckPending(missing) => Answer::done(7, u64::from(*missing), 0),
            Reply::AckCompleted { dropped, released } => {
                Answer::done(8, u64::from(*dropped), *released)
            }
            Reply::AckLate(handed_out) => Answer::done(9, *handed_out, 0),
            Reply::DeclineAborted(released) => Answer::done(10, *released, 0),
            Reply::DeclineFailed(released) => Answer::done(11, *released, 0),
            Reply::DeclineLate => Answer::done(12, 0, 0),
            Reply::Disposed(released) => Answer::done(13, *released, 0),
            Reply::Restored { from, released } => of_restore(*from, *released),
            Reply::Cancelled { dropped, released } => {
                Answer::done(17, u64::from(*dropped), *released)
            }
            Reply::Taken(files) => Answer::done(18, files.len() as u64, 0),
            Reply::Deleted(file) => Answer::done(19, file.0, 0),
            Reply::Undeleted(file) => Answer::done(20, file.0, 0),
            Reply::Shown(_) => Answer::done(21, 0, 0),
            Reply::Counted(file, uses) => Answer::done(22, file.0, u64::from(*uses)),
            Reply::Configured { dropped, released } => {
                Answer::done(61, u64::from(*dropped), *released)
            }
        }
    }
}

fn refused(what: u32, file: u64) -> Answer
    ensures { result ≡ refused what file }
{
    Answer {
        code: REFUSED,
        what,
        a: file,
        b: 0,
    }
}

fn of_tick(expired: u32, end: TickEnd) -> Answer
    ensures told { result ≡ tick_told expired end }
    ensures code { result.code ≡ 0 }
{
    let expired = u64::from(expired);
    match end {
        TickEnd::Triggered(id) => Answer::done(1, expired, id.0),
        TickEnd::HeldInterval => Answer::done(2, expired, 0),
        TickEnd::HeldAtOnce => Answer::done(3, expired, 0),
        TickEnd::HeldPause => Answer::done(4, expired, 0),
        TickEnd::Failed => Answer::done(5, expired, 0),
    }
}

fn of_restore(from: Choice, released: u64) -> Answer
    ensures told { result ≡ restore_told from released }
    ensures code { result.code ≡ 0 }
{
    match from {
        Choice::Checkpoint(id) => Answer::done(14, released, id.0),
        Choice::Savepoint(id) => Answer::done(15, released, id.0),
        Choice::Fresh => Answer::done(16, released, 0),
    }
}
