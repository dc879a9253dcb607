//! Makes the call of a line of a log through a handle, and says which kind of line it is.

ghost use Rattle.std.specs.Prelude.{◌≡◌, ◌≢◌, ◌||◌, ℕ, true, length, Ok, Some};
ghost use Rattle.ckpt_ids.specs.declared.call.Call.TheVariants as call;
ghost use Rattle.ckpt_model.specs.{Memory.may_want_memory, State.State, Steps.step};
ghost use Rattle.ckpt_term_lines.specs.TermReading.{term_may_want_memory, term_reading};
ghost use Rattle.ckpt_terms.specs.Machines.{core_in, is_free, names_in, passes};
ghost use Rattle.relkvanu.specs.declared.asked.Asked.TheVariants as ask;
ghost use Rattle.relkvanu.specs.{Asking.said, Buffers.StandsInFront, Buffers.files_in, Fenced.IsHandled, Fenced.IsTaken, Requested.IsRefused, Told.no_memory};
ghost use Rattle.relkvanu.specs.Calls.{HasNoNumbers, StaysAsItWas, StaysClosed};
ghost use Rattle.relkvanu.specs.Lines.{BringsLineFiles, IsCallTold, IsLineAnswered, IsLineTold, LineWantsMemory, asked_step, call_files, call_wants, is_free_line};
ghost use Rattle.relkvanu.specs.Lines.{line_call_step, line_number, line_numbers, line_step, named_step, named_wants, numbers_told, plain_step};
ghost use Rattle.relkvanu.specs.Lines.{said_files, said_wants, says_numbers, says_told};
ghost use Rattle.relkvanu.specs.Past.{GrowsBy, IsGrown, asked_line, by_line, call_line, named_by, plain_line};

use crate::answer::Answer;
use crate::asked::{Asked, of_line_fault, said, usual};
use crate::buffers::{show_from, take_from};
use crate::calls::answer;
use crate::fencing::{fence_machine, in_term};
use crate::handle::Handle;
use crate::requests::Requests;
use ckpt_core::Core;
use ckpt_ids::Call;
use ckpt_lines::Line;
use ckpt_logged::Logged;
use ckpt_term_lines::TermLine;
use ckpt_terms::{FencedCall, Machine};
use std::alloc::Global;

// the kind of a line
const LINE_SKIP: u32 = 38;

const LINE_CONFIG: u32 = 39;

const LINE_JOB: u32 = 40;

const LINE_START: u32 = 41;

pub(crate) const LINE_CALL: u32 = 42;

const LINE_ALL: u32 = 43;

/// Makes the call of a line, and returns the answer of that call.
///
/// The line is the bytes before its newline. A take writes its files to the start of the buffer. If
/// the buffer has too few places for them, the answer says how many it needs, and no file is
/// fetched. A show says how many bytes its JSON has, as if its buffer were empty. A line without
/// words or a comment is skipped. A line that can't be read, or makes no call, returns its fault. A
/// restore in a bad shape returns what `relkvanu_restore` returns.
///
/// Takes memory for the lists of a line, even if the call is then refused, and for the call.
///
/// `fence`, `reserve` and `forfeit` are `relkvanu_fence`, `relkvanu_reserve` and `relkvanu_forfeit`.
/// `in` has the term of an acknowledgement or a decline. Other calls have no use for it, but are
/// refused for it on a handle without names. On a handle with names a line without a term makes its
/// call without one: an `ack` and a `decline` are refused.
#[unsafe(no_mangle)]
pub extern "C" fn relkvanu_line(
    alloc: Global,
    handle: &mut Handle,
    line: &[u8],
    files: &mut [u64],
) -> Answer
    ensures closed { StaysClosed handle.old.value handle.new.value result }
    ensures answered { IsLineAnswered handle.old handle.new line.now (length files.old) result }
    ensures handled { IsHandled (λ k. line_step k (length files.old) line.now) handle.old handle.new result }
    ensures front { (m : State) → handle.old.value ≡ Some m → BringsLineFiles m line.now files.old files.new result }
    ensures kept { result.code ≢ 0 → files.new ≡ files.old }
    ensures memory { LineWantsMemory handle.old line.now result }
    ensures numbers { HasNoNumbers result }
    ensures unchanged { StaysAsItWas handle.old.value handle.new.value result }
    ensures names { is_free_line (said line.now) ≡ true → handle.new.names ≡ handle.old.names }
    ensures names_unchanged { result.code ≡ no_memory → handle.new.names ≡ handle.old.names }
    ensures past { GrowsBy (by_line (length files.old) line.now) handle.old.past handle.new.past result }
{
    let Some(mut machine) = handle.take(alloc) else {
        return Answer::closed();
    };
    let answer = make_line(&mut Requests::new(), alloc, &mut machine, line, files);
    handle.put(alloc, machine);
    answer
}

fn make_line(
    requests: &mut Requests,
    alloc: Global,
    machine: &mut Logged,
    line: &[u8],
    files: &mut [u64],
) -> Answer
    ensures answered { IsLineTold machine.old.now machine.new.now (said line.now) (length files.old) result }
    ensures handled { IsTaken (λ k. line_step k (length files.old) line.now) machine.old.now machine.new.now result }
    ensures front { BringsLineFiles (core_in machine.old.now) line.now files.old files.new result }
    ensures kept { result.code ≢ 0 → files.new ≡ files.old }
    ensures memory { result.code ≡ no_memory → (term_may_want_memory line.now || said_wants machine.old.now (said line.now)) ≡ true }
    ensures numbers { HasNoNumbers result }
    ensures names { is_free_line (said line.now) ≡ true → names_in machine.new.now ≡ names_in machine.old.now }
    ensures past { IsGrown (by_line (length files.old) line.now) machine.old machine.new result }
    ensures unchanged { result.code ≡ no_memory → machine.new ≡ machine.old }
    ensures cause { result.code ≡ no_memory → IsRefused requests.new }
{
    if let Some(call) = usual(line) {
        return make_plain(requests, alloc, machine, &call, files);
    }
    match said(requests, alloc, line) {
        Ok(Asked::Fence { first }) => fence_machine(requests, alloc, machine, first),
        Ok(Asked::Call(call)) => make_call(requests, alloc, machine, &call, files),
        Err(answer) => answer,
    }
}

/// Makes what is asked for. `make_line` takes it apart itself, which costs a line less.
pub(crate) fn make_asked(
    requests: &mut Requests,
    alloc: Global,
    machine: &mut Logged,
    asked: &Asked,
    files: &mut [u64],
) -> Answer
    ensures answered { IsLineTold machine.old.now machine.new.now (Ok asked.now) (length files.old) result }
    ensures handled { IsTaken (λ k. asked_step k (length files.old) asked.now) machine.old.now machine.new.now result }
    ensures front { result.code ≡ 0 → StandsInFront (said_files (core_in machine.old.now) (Ok asked.now)) files.old files.new }
    ensures kept { result.code ≢ 0 → files.new ≡ files.old }
    ensures memory { result.code ≡ no_memory → said_wants machine.old.now (Ok asked.now) ≡ true }
    ensures numbers { HasNoNumbers result }
    ensures names { is_free_line (Ok asked.now) ≡ true → names_in machine.new.now ≡ names_in machine.old.now }
    ensures past { IsGrown (asked_line (length files.old) asked.now) machine.old machine.new result }
    ensures unchanged { result.code ≡ no_memory → machine.new ≡ machine.old }
    ensures cause { result.code ≡ no_memory → IsRefused requests.new }
{
    match asked {
        Asked::Fence { first } => fence_machine(requests, alloc, machine, *first),
        Asked::Call(call) => make_call(requests, alloc, machine, call, files),
    }
}

/// Makes the call of a line. Term 0 is none.
fn make_call(
    requests: &mut Requests,
    alloc: Global,
    machine: &mut Logged,
    call: &FencedCall,
    files: &mut [u64],
) -> Answer
    ensures answered { IsLineTold machine.old.now machine.new.now (Ok (ask.Call call.now)) (length files.old) result }
    ensures handled { IsTaken (λ k. line_call_step k (length files.old) call.now) machine.old.now machine.new.now result }
    ensures front { result.code ≡ 0 → StandsInFront (said_files (core_in machine.old.now) (Ok (ask.Call call.now))) files.old files.new }
    ensures kept { result.code ≢ 0 → files.new ≡ files.old }
    ensures memory { result.code ≡ no_memory → call_wants machine.old.now call.now ≡ true }
    ensures numbers { HasNoNumbers result }
    ensures names { is_free_line (Ok (ask.Call call.now)) ≡ true → names_in machine.new.now ≡ names_in machine.old.now }
    ensures past { IsGrown (call_line (length files.old) call.now) machine.old machine.new result }
    ensures unchanged { result.code ≡ no_memory → machine.new ≡ machine.old }
    ensures cause { result.code ≡ no_memory → IsRefused requests.new }
{
    match call {
        FencedCall::Make { term, call: made } => {
            if *term == 0 {
                make_plain(requests, alloc, machine, made, files)
            } else if is_free(made) {
                make_named(requests, alloc, machine, made, files)
            } else {
                in_term(requests, machine, call)
            }
        }
        _ => in_term(requests, machine, call),
    }
}

/// Makes a call that has a term, and no use for it. Refused if there are no names.
///
/// Condition: it needs no term and ends none.
fn make_named(
    requests: &mut Requests,
    alloc: Global,
    machine: &mut Logged,
    call: &Call,
    files: &mut [u64],
) -> Answer
    requires { is_free call.now ≡ true }
    ensures handled { (term : ℕ) → IsTaken (λ k. named_step k (length files.old) term call.now) machine.old.now machine.new.now result }
    ensures front { result.code ≡ 0 → StandsInFront (call_files (core_in machine.old.now) call.now) files.old files.new }
    ensures kept { result.code ≢ 0 → files.new ≡ files.old }
    ensures memory { (term : ℕ) → result.code ≡ no_memory → named_wants machine.old.now term call.now ≡ true }
    ensures numbers { HasNoNumbers result }
    ensures names { names_in machine.new.now ≡ names_in machine.old.now }
    ensures past { (term : ℕ) → IsGrown (λ c. named_by c.now (length files.old) term call.now c) machine.old machine.new result }
    ensures unchanged { result.code ≡ no_memory → machine.new ≡ machine.old }
    ensures cause { result.code ≡ no_memory → IsRefused requests.new }
{
    match machine.machine() {
        Machine::Plain(_) => Answer::no_names(),
        Machine::Fenced(_) => make_plain(requests, alloc, machine, call, files),
    }
}

/// Whether the call needs no term and ends none.
fn is_free(call: &Call) -> bool
    ensures { result ≡ is_free call.now }
{
    !matches!(
        call,
        Call::Ack { .. } | Call::Decline { .. } | Call::Restore { .. } | Call::Cancel { .. }
    )
}

/// Makes a call without a term.
#[tactic(auto, unfolding(crate::specs::Lines::call_made, crate::specs::Past::plain_line))]
fn make_plain(
    requests: &mut Requests,
    alloc: Global,
    machine: &mut Logged,
    call: &Call,
    files: &mut [u64],
) -> Answer
    ensures answered { IsCallTold machine.old.now machine.new.now call.now (length files.old) result }
    ensures handled { IsTaken (λ k. plain_step k (length files.old) call.now) machine.old.now machine.new.now result }
    ensures front { result.code ≡ 0 → StandsInFront (call_files (core_in machine.old.now) call.now) files.old files.new }
    ensures kept { result.code ≢ 0 → files.new ≡ files.old }
    ensures memory { result.code ≡ no_memory → may_want_memory (core_in machine.old.now) call.now ≡ true }
    ensures numbers { HasNoNumbers result }
    ensures names { passes (names_in machine.old.now) call.now ≡ true → names_in machine.new.now ≡ names_in machine.old.now }
    ensures past { IsGrown (plain_line (length files.old) call.now) machine.old machine.new result }
    ensures unchanged { result.code ≡ no_memory → machine.new ≡ machine.old }
    ensures cause { result.code ≡ no_memory → IsRefused requests.new }
{
    match call {
        Call::Take { most } => take_that_fits(requests, machine, *most, files),
        Call::Show { id } => show_from(requests, alloc, machine, id.0, &mut []),
        _ => answer(requests, machine, call),
    }
}

/// Fetches at most `most` files, or none if the buffer has too few places for them.
#[tactic(auto, unfolding(crate::specs::Lines::call_made, crate::specs::Past::plain_line))]
fn take_that_fits(
    requests: &mut Requests,
    machine: &mut Logged,
    most: u64,
    files: &mut [u64],
) -> Answer
    ensures answered { IsCallTold machine.old.now machine.new.now (call.Take most) (length files.old) result }
    ensures front { result.code ≡ 0 → StandsInFront (files_in (step (core_in machine.old.now) (call.Take most)).1) files.old files.new }
    ensures kept { result.code ≢ 0 → files.new ≡ files.old }
    ensures memory { result.code ≡ no_memory → may_want_memory (core_in machine.old.now) (call.Take most) ≡ true }
    ensures numbers { HasNoNumbers result }
    ensures names { names_in machine.new.now ≡ names_in machine.old.now }
    ensures past { IsGrown (plain_line (length files.old) (call.Take most)) machine.old machine.new result }
    ensures unchanged { result.code ≡ no_memory → machine.new ≡ machine.old }
    ensures cause { result.code ≡ no_memory → IsRefused requests.new }
{
    let needed = fetchable(machine.core(), most);
    if (files.len() as u64) < needed {
        return Answer::too_short(needed);
    }
    take_from(requests, machine, most, files)
}

/// How many files a take of at most `most` would fetch.
fn fetchable(core: &Core, most: u64) -> u64
    ensures { result ≡ length (files_in (step core.now (call.Take most)).1) }
{
    let waiting = core.files_waiting();
    if most < waiting { most } else { waiting }
}

/// Returns the kind of a line. Writes the numbers of a line that makes no call to the start of the
/// buffer, in the line's order.
///
/// The last number of a `config` line is 1 for `keep` and 0 for `delete`. If the buffer has too few
/// places, the answer says how many it needs. A line that scripts do not have is a call, even if
/// `relkvanu_line` refuses what follows its term. Takes memory for the lists of an `ack`, a `job`, a
/// `restore` and a `forfeit`.
#[unsafe(no_mangle)]
pub extern "C" fn relkvanu_line_says(alloc: Global, line: &[u8], numbers: &mut [u64]) -> Answer
    ensures told { result.code ≢ no_memory → result ≡ says_told (term_reading line.now) (length numbers.old) }
    ensures front { result.code ≡ 0 → StandsInFront (says_numbers (term_reading line.now)) numbers.old numbers.new }
    ensures kept { result.code ≢ 0 → numbers.new ≡ numbers.old }
    ensures memory { result.code ≡ no_memory → term_may_want_memory line.now ≡ true }
    ensures numbers { HasNoNumbers result }
{
    let mut requests = Requests::new();
    match requests.line(alloc, line) {
        Ok(TermLine::Other(read)) => write_line(&read, numbers),
        Ok(_) => write_numbers(LINE_CALL, &[], numbers),
        Err(why) => of_line_fault(&requests, why),
    }
}

fn write_line(line: &Line, numbers: &mut [u64]) -> Answer
    ensures told { result ≡ numbers_told (line_number line.now) (line_numbers line.now) (length numbers.old) }
    ensures front { result.code ≡ 0 → StandsInFront (line_numbers line.now) numbers.old numbers.new }
    ensures kept { result.code ≢ 0 → numbers.new ≡ numbers.old }
{
    match line {
        Line::Skip => write_numbers(LINE_SKIP, &[], numbers),
        Line::Config {
            interval,
            pause,
            at_once,
            timeout,
            tolerable,
            retained,
            keep_on_cancel,
        } => {
            let keep = u64::from(*keep_on_cancel);
            let list = [
                *interval, *pause, *at_once, *timeout, *tolerable, *retained, keep,
            ];
            write_numbers(LINE_CONFIG, &list, numbers)
        }
        Line::Job { parallelisms } => write_numbers(LINE_JOB, parallelisms.as_slice(), numbers),
        Line::Start { now } => write_numbers(LINE_START, &[*now], numbers),
        Line::All {
            now,
            id,
            threads,
            first,
        } => write_numbers(LINE_ALL, &[*now, id.0, *threads, *first], numbers),
        Line::Call(_) | Line::BadShape => write_numbers(LINE_CALL, &[], numbers),
    }
}

/// Writes numbers to the start of the buffer if that is long enough.
fn write_numbers(what: u32, list: &[u64], numbers: &mut [u64]) -> Answer
    ensures told { result ≡ numbers_told what list.now (length numbers.old) }
    ensures front { result.code ≡ 0 → StandsInFront list.now numbers.old numbers.new }
    ensures kept { result.code ≢ 0 → numbers.new ≡ numbers.old }
{
    if numbers.len() < list.len() {
        return Answer::too_short(list.len() as u64);
    }
    numbers[..list.len()].copy_from_slice(list);
    Answer::done(what, list.len() as u64, 0)
}
