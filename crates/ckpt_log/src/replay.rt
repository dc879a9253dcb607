//! Replays whole logs.
ghost use Rattle.std.specs.Prelude.{◌≡◌, ◌≢◌, ◌<◌, [], ◌∷◌, ◌++◌, length, IfOk, IfErr, OnOk, string_bytes};
ghost use Rattle.std.specs.Io.KnownBytes.{Appends, Keeps};
ghost use Rattle.ckpt_script.specs.Lines.{lines_of};
ghost use Rattle.ckpt_log.specs.LogOutputs.{Replayed, log_has_fault, log_output};

use crate::log::Log;
use ckpt_core::Secret;
use ckpt_script::{RunFault, newline_place};
use std::alloc::{AllocError, Global};
use std::io::{ErrorKind, Read, Write};

/// Replays a log: reads it whole, makes its calls, and writes their answers. Stops at the first line
/// with a fault. Returns whether there was one.
///
/// Returns [`RunFault::Read`] if the reader failed, and [`RunFault::Memory`] if memory ran out: then
/// nothing was written. Returns [`RunFault::Write`] if the writer failed.
pub fn replay<R: Read, W: Write>(
    alloc: Global,
    secret: Secret,
    reader: &mut R,
    writer: &mut W,
) -> Result<bool, RunFault>
    ensures replayed { IfOk result (Replayed (R.remaining reader.old) (W.contents writer.old) (W.contents writer.new)) }
    ensures untouched { IfErr result (λ why. why ≢ RunFault.Write → Keeps (W.contents writer.old) (W.contents writer.new)) }
{
    let mut bytes = Vec::new(alloc);
    match reader.read_to_end(&mut bytes) {
        Ok(_) => (),
        Err(why) => return Err(read_fault(why.kind())),
    }
    let mut text = String::new(alloc);
    let is_faulty = print_log(alloc, secret, bytes.as_slice(), &mut text)?;
    match write_out(writer, text.as_bytes()) {
        Ok(()) => Ok(is_faulty),
        Err(_) => Err(RunFault::Write),
    }
}

/// Writes all bytes, and flushes them.
fn write_out<W: Write>(writer: &mut W, bytes: &[u8]) -> std::io::Result<()>
    ensures { OnOk result (Appends (W.contents writer.old) (W.contents writer.new) bytes.now) }
{
    writer.write_all(bytes)?;
    writer.flush()
}

/// Why a log could not be read whole, from what the reader says.
fn read_fault(kind: ErrorKind) -> RunFault
    ensures memory { result ≡ RunFault.Memory → kind ≡ ErrorKind.OutOfMemory }
    ensures read { result ≢ RunFault.Memory → result ≡ RunFault.Read }
{
    match kind {
        ErrorKind::OutOfMemory => RunFault::Memory,
        _ => RunFault::Read,
    }
}

/// Appends what a log prints. Returns whether a line has a fault.
fn print_log(
    alloc: Global,
    secret: Secret,
    bytes: &[u8],
    text: &mut String,
) -> Result<bool, AllocError>
    ensures text { OnOk result (string_bytes text.new ≡ string_bytes text.old ++ log_output bytes.now) }
    ensures fault { IfOk result (λ is_faulty. is_faulty ≡ log_has_fault bytes.now) }
{
    let mut log = Log::keyed(alloc, secret);
    let mut number: u64 = 0;
    let mut rest = bytes;
    'lines: while !rest.is_empty() {
        let (line, after) = first_line(rest);
        number += 1;
        if log.say(text, number, line)? {
            return Ok(true);
        }
        rest = after;
    }
    Ok(false)
}

/// The first line of the text, and what follows its newline.
///
/// Condition: there is one.
fn first_line(text: &[u8]) -> (&[u8], &[u8])
    requires { text.now ≢ [] }
    ensures lines { lines_of text.now ≡ result.0.now ∷ lines_of result.1.now }
    ensures fewer { length result.1.now < length text.now }
{
    match newline_place(text) {
        Some(place) => (&text[..place], &text[place + 1..]),
        None => (text, &[]),
    }
}
