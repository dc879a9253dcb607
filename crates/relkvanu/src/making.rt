//! Makes a call and writes its line.

ghost use Rattle.std.specs.Prelude.{◌≡◌, ◌≢◌, ◌≤◌, true, length, take, Some, Ok, IsOk};
ghost use Rattle.ckpt_lines.specs.declared.limits.TheConstants.{LONGEST_LINE};
ghost use Rattle.ckpt_model.specs.State.{State};
ghost use Rattle.ckpt_terms.specs.Machines.{core_in, names_in};
ghost use Rattle.relkvanu.specs.{Buffers.StandsInFront, Calls.HasNoNumbers, Calls.StaysClosed, Lines.is_free_line, Past.IsGrown, Past.said_line, Requested.IsRefused};
ghost use Rattle.relkvanu.specs.Told.{no_memory};
ghost use Rattle.relkvanu.specs.Making.{Brings, BringsMade, Grows, HandleReports, Makes, Reports, StepsAsked, asked_if_fits, line_length, made_of, making};
ghost use Rattle.relkvanu.specs.Writing.{ReadsBack, SaysBack, call_line_text, given};

use crate::answer::{Answer, DONE};
use crate::asked::{Asked, FAULT_TOO_LONG};
use crate::handle::Handle;
use crate::lines::make_asked;
use crate::requests::Requests;
use crate::writing::{CallFields, asked_of};
use ckpt_core::Core;
use ckpt_lines::LONGEST_LINE;
use ckpt_logged::Logged;
use std::alloc::Global;

/// The numbers told of a call that was made.
#[repr(C)]
#[derive(Clone, Copy, Debug, PartialEq, Eq)]
pub struct Made {
    /// How many bytes its line has.
    pub written: u64,
    /// How many files waited for deletion before it.
    pub waited: u64,
    /// How many files live records use, each counted once.
    pub in_use: u64,
    /// How many files wait for deletion. If these are more than `waited`, the call put those from that place on
    /// there: files that it released, that came too late, or that were not deleted.
    pub waiting: u64,
    /// How many files were fetched for deletion and are not yet reported.
    pub taken: u64,
}

/// Makes a call as `relkvanu_line` makes that of its line and, if it is made, writes this line as
/// `relkvanu_call_line` writes it.
///
/// A take writes its files to the start of `files`. A line of more than [`LONGEST_LINE`] bytes is a
/// fault of a line. If `line` is too short, the second number of the answer says how many bytes it
/// needs, whatever room `files` has. Otherwise, if `files` is too short, the first number says how many
/// places it needs. A show of a live record is not made here: it has no buffer for its JSON, and the
/// answer says how many bytes that has. An answer with another code than `DONE` changes nothing. Takes
/// memory for the lists and the line, even if the call is then refused, and for the call.
#[unsafe(no_mangle)]
pub extern "C" fn relkvanu_make(
    alloc: Global,
    handle: &mut Handle,
    call: &CallFields,
    first: &[u64],
    second: &[u64],
    files: &mut [u64],
    line: &mut [u8],
    made: &mut Made,
) -> Answer
    ensures closed { StaysClosed handle.old.value handle.new.value result }
    ensures handled { Makes files.old (making call.entry.now first.now second.now line.old) handle.old handle.new result }
    ensures files { Brings handle.old (making call.entry.now first.now second.now line.old) files.old files.new result }
    ensures line { result.code ≡ 0 → StandsInFront (call_line_text (given call.entry.now first.now second.now)) line.old line.new }
    ensures read { ReadsBack (given call.entry.now first.now second.now) (take made.new.written line.new) result }
    ensures said { SaysBack (given call.entry.now first.now second.now) (take made.new.written line.new) result }
    ensures made { HandleReports (line_length (given call.entry.now first.now second.now)) handle.old handle.new made.new result }
    ensures kept { result.code ≢ 0 → (files.new ≡ files.old) × (line.new ≡ line.old) × (made.new ≡ made.old) }
    ensures memory { result.code ≡ no_memory → IsOk (given call.entry.now first.now second.now) }
    ensures numbers { HasNoNumbers result }
    ensures unchanged { result.code ≢ 0 → (handle.new.value ≡ handle.old.value) × (handle.new.names ≡ handle.old.names) }
    ensures names { is_free_line (making call.entry.now first.now second.now line.old) ≡ true → handle.new.names ≡ handle.old.names }
    ensures past { Grows files.old (making call.entry.now first.now second.now line.old) handle.old handle.new result }
{
    let Some(mut machine) = handle.take(alloc) else {
        return Answer::closed();
    };
    let mut requests = Requests::new();
    let answer = make_given(
        &mut requests,
        alloc,
        &mut machine,
        call,
        first,
        second,
        files,
        line,
        made,
    );
    handle.put(alloc, machine);
    answer
}

/// Makes what the fields and the lists ask for, and writes its line.
#[tactic(auto, unfolding(crate::specs::Making::to_make))]
fn make_given(
    requests: &mut Requests,
    alloc: Global,
    machine: &mut Logged,
    fields: &CallFields,
    first: &[u64],
    second: &[u64],
    files: &mut [u64],
    line: &mut [u8],
    made: &mut Made,
) -> Answer
    ensures handled { StepsAsked files.old (making fields.entry.now first.now second.now line.old) machine.old.now machine.new.now result }
    ensures files { BringsMade (core_in machine.old.now) (making fields.entry.now first.now second.now line.old) files.old files.new result }
    ensures line { result.code ≡ 0 → StandsInFront (call_line_text (given fields.entry.now first.now second.now)) line.old line.new }
    ensures read { ReadsBack (given fields.entry.now first.now second.now) (take made.new.written line.new) result }
    ensures made { Reports (line_length (given fields.entry.now first.now second.now)) (core_in machine.old.now) (core_in machine.new.now) made.new result }
    ensures kept { result.code ≢ 0 → (files.new ≡ files.old) × (line.new ≡ line.old) × (made.new ≡ made.old) }
    ensures memory { result.code ≡ no_memory → IsOk (given fields.entry.now first.now second.now) }
    ensures numbers { HasNoNumbers result }
    ensures names { is_free_line (making fields.entry.now first.now second.now line.old) ≡ true → names_in machine.new.now ≡ names_in machine.old.now }
    ensures past { IsGrown (said_line (length files.old) (making fields.entry.now first.now second.now line.old)) machine.old machine.new result }
    ensures past_kept { result.code ≡ no_memory → machine.new ≡ machine.old }
    ensures unchanged { result.code ≢ 0 → machine.new.now ≡ machine.old.now }
    ensures cause { result.code ≡ no_memory → IsRefused requests.new }
{
    let asked = match asked_of(requests, alloc, fields, first, second) {
        Ok(asked) => asked,
        Err(answer) => return answer,
    };
    match requests.asked_line(alloc, &asked) {
        Ok(text) => make_fitting(requests, alloc, machine, &asked, &text, files, line, made),
        Err(_) => Answer::out_of_memory(requests),
    }
}

/// Makes what is asked for and writes its text, if that fits a line and the buffer.
fn make_fitting(
    requests: &mut Requests,
    alloc: Global,
    machine: &mut Logged,
    asked: &Asked,
    text: &str,
    files: &mut [u64],
    line: &mut [u8],
    made: &mut Made,
) -> Answer
    ensures handled { StepsAsked files.old (asked_if_fits asked.now text.now (length line.old)) machine.old.now machine.new.now result }
    ensures files { BringsMade (core_in machine.old.now) (asked_if_fits asked.now text.now (length line.old)) files.old files.new result }
    ensures line { result.code ≡ 0 → StandsInFront text.now line.old line.new }
    ensures short { result.code ≡ 0 → length text.now ≤ LONGEST_LINE }
    ensures lack { result.code ≡ no_memory → length text.now ≤ LONGEST_LINE }
    ensures made { Reports (length text.now) (core_in machine.old.now) (core_in machine.new.now) made.new result }
    ensures kept { result.code ≢ 0 → (files.new ≡ files.old) × (line.new ≡ line.old) × (made.new ≡ made.old) }
    ensures numbers { HasNoNumbers result }
    ensures names { is_free_line (asked_if_fits asked.now text.now (length line.old)) ≡ true → names_in machine.new.now ≡ names_in machine.old.now }
    ensures past { IsGrown (said_line (length files.old) (asked_if_fits asked.now text.now (length line.old))) machine.old machine.new result }
    ensures past_kept { result.code ≡ no_memory → machine.new ≡ machine.old }
    ensures unchanged { result.code ≢ 0 → machine.new.now ≡ machine.old.now }
    ensures cause { result.code ≡ no_memory → IsRefused requests.new }
{
    let bytes = text.as_bytes();
    if bytes.len() > LONGEST_LINE {
        return Answer::bad_line(FAULT_TOO_LONG);
    }
    if line.len() < bytes.len() {
        return Answer::too_short_for(0, bytes.len() as u64);
    }
    let waited = machine.core().files_waiting();
    let answer = make_asked(requests, alloc, machine, asked, files);
    if answer.code() == DONE {
        line[..bytes.len()].copy_from_slice(bytes);
        *made = made_of(bytes.len() as u64, waited, machine.core());
    }
    answer
}

fn made_of(written: u64, waited: u64, core: &Core) -> Made
    ensures { (m : State) → waited ≡ length m.waiting → result ≡ made_of written m core.now }
{
    Made {
        written,
        waited,
        in_use: core.files_in_use(),
        waiting: core.files_waiting(),
        taken: core.files_taken(),
    }
}
