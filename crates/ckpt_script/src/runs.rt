//! The runs of whole scripts, between devices and between streams.
ghost use Rattle.std.specs.Prelude.{◌≡◌, ◌≤◌, true, IfOk, IfErr, OnOk};
ghost use Rattle.ckpt_script.specs.Devices.{IsCaused, IsReadThrough, never_asked};
ghost use Rattle.ckpt_script.specs.Flushes.{ends_whole};
ghost use Rattle.ckpt_script.specs.Outputs.{Ran};

use crate::fault::RunFault;
use crate::limits::MOST_LINES;
use crate::runner::Runner;
use crate::sink::Sink;
use crate::source::Source;
use crate::streams::{CountedReader, CountedWriter};
use crate::summary::Summary;
use ckpt_session::Secret;
use ckpt_workers::Team;
use std::alloc::Global;
use std::io::{Read, Write};

/// Runs a script from a source to a sink: reads its lines, makes their calls, and writes what they
/// print.
///
/// It is [`run_keyed`] over devices that count what they were asked. Each fault has its cause:
/// [`RunFault::Read`] that the source failed or was asked 2^32 times, [`RunFault::TooManyLines`] that
/// it gave more than [`MOST_LINES`] bytes, [`RunFault::Write`] that the sink failed. A device that
/// failed is not asked again, and the source not after its end. If all that the sink took is flushed
/// at the start, so it is at the end, unless the fault is of the sink or of memory.
///
/// Conditions: the source was not asked yet, and the sink has not failed.
pub fn run_between_keyed<S: Source, K: Sink, T: Team>(
    alloc: Global,
    secret: Secret,
    source: &mut S,
    sink: &mut K,
    team: &mut T,
) -> Result<Summary, RunFault>
    requires source { S.asked source.old ≡ never_asked }
    requires sink { K.failures sink.old ≡ 0 }
    ensures ran { Ran (S.remaining source.old) (S.remaining source.new) (K.contents sink.old) (K.contents sink.new) result }
    ensures summary { IfOk result (λ summary. (summary.faults ≤ summary.lines) × (summary.lines ≤ MOST_LINES)) }
    ensures read { OnOk result (IsReadThrough (S.asked source.new)) }
    ensures written { OnOk result (K.failures sink.new ≡ 0) }
    ensures flushed { K.unflushed sink.old ≡ 0 → ends_whole result ≡ true → K.unflushed sink.new ≡ 0 }
    ensures cause { IfErr result (IsCaused (S.asked source.new) (K.failures sink.new)) }
    ensures same_source { S.device source.new ≡ S.device source.old }
    ensures same_sink { K.device sink.new ≡ K.device sink.old }
{
    let mut runner = Runner::new(alloc, secret)?;
    match runner.obey_all(source, sink, team) {
        Ok(()) => {
            runner.printed.flush(sink)?;
            Ok(runner.summary)
        }
        Err(fault) => Err(runner.stop(sink, fault)),
    }
}

/// Runs a script: reads its lines, makes their calls, and writes what they print.
///
/// A script has at most [`MOST_LINES`] lines of at most [`LONGEST_LINE`](ckpt_lines::LONGEST_LINE)
/// bytes. A read that returns no bytes is its end. No read or write that failed is tried again, and
/// a write that takes nothing has failed. Before the reader is called again, the output so far is
/// written and flushed.
///
/// Returns [`RunFault::Read`] if the reader failed or was called 2^32 times: then each line that
/// was read whole has been run. Returns [`RunFault::TooManyLines`] if one line more began: then the
/// lines before it have been run. Returns [`RunFault::Write`] if the writer failed, and
/// [`RunFault::Memory`] if memory ran out: then a prefix of the output was written.
///
/// The team makes the calls of an `all` line. The output is the same for every team.
///
/// `docs/SCRIPT.md` of the repository says what a script is, and what its lines print. If the
/// script comes from outside, use [`run_keyed`].
pub fn run<R: Read, W: Write, T: Team>(
    alloc: Global,
    reader: &mut R,
    writer: &mut W,
    team: &mut T,
) -> Result<Summary, RunFault>
    ensures ran { Ran (R.remaining reader.old) (R.remaining reader.new) (W.contents writer.old) (W.contents writer.new) result }
    ensures summary { IfOk result (λ summary. (summary.faults ≤ summary.lines) × (summary.lines ≤ MOST_LINES)) }
{
    run_keyed(alloc, Secret::fixed(), reader, writer, team)
}

/// As [`run`], and the secret keys the maps of files: no choice of file numbers makes a line slow. It
/// changes nothing that is written or answered.
pub fn run_keyed<R: Read, W: Write, T: Team>(
    alloc: Global,
    secret: Secret,
    reader: &mut R,
    writer: &mut W,
    team: &mut T,
) -> Result<Summary, RunFault>
    ensures ran { Ran (R.remaining reader.old) (R.remaining reader.new) (W.contents writer.old) (W.contents writer.new) result }
    ensures summary { IfOk result (λ summary. (summary.faults ≤ summary.lines) × (summary.lines ≤ MOST_LINES)) }
{
    let mut source = CountedReader {
        reader,
        times: 0,
        failures: 0,
        ends: 0,
        bytes: 0,
    };
    let mut sink = CountedWriter {
        writer,
        failures: 0,
    };
    let result = run_between_keyed(alloc, secret, &mut source, &mut sink, team);
    // No effect at run time. The proof reads what the streams hold from these uses.
    let _ = &*source.reader;
    let _ = &*sink.writer;
    result
}
