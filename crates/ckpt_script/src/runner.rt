//! A run of a script: reads line after line, obeys it and prints.
ghost use Rattle.std.specs.Prelude.{◌≡◌, ◌≤◌, ◌<◌, ◌+◌, [], true, false, OnOk, IfOk, IfErr};
ghost use Rattle.std.specs.Io.KnownBytes.{IsAtEnd};
ghost use Rattle.ckpt_script.specs.Devices.{Asked, IsCaused, SinkCauses, IsReadThrough};
ghost use Rattle.ckpt_script.specs.Faults.{FailsToPrint};
ghost use Rattle.ckpt_script.specs.Flushes.{IsTied, StaysTied};
ghost use Rattle.ckpt_script.specs.Reads.{IsAhead, left_by, line_at};
ghost use Rattle.ckpt_script.specs.Runs.{text_next, PrintsNext, Obeys, IsReady, GoesOn, Stops, EndsBy};
ghost use Rattle.ckpt_script.specs.Telling.{keeps_lines};
ghost use Rattle.ckpt_session.specs.Sessions.{opening_scene};

use crate::ahead::Ahead;
use crate::fault::RunFault;
use crate::limits::{MOST_LINES, MOST_READS};
use crate::printed::Printed;
use crate::sink::Sink;
use crate::source::Source;
use crate::summary::Summary;
use ckpt_lines::laws;
use ckpt_session::{Secret, Session};
use ckpt_workers::Team;
use std::alloc::{AllocError, Global};

/// A script that is being run.
#[derive(Drop)]
pub(crate) struct Runner {
    ahead: Ahead,
    line: Vec<u8>,
    session: Session,
    pub(crate) printed: Printed,
    pub(crate) summary: Summary,
}

impl Runner {
    /// Runs the line whose newline is here, or the held line, and prints what it prints.
    ///
    /// Conditions: the newline is in what is read ahead, fewer than [`MOST_LINES`] lines were run,
    /// no more were faulty, and the sink has not failed.
    fn obey<K: Sink, T: Team>(
        &mut self,
        newline: Option<usize>,
        sink: &mut K,
        team: &mut T,
    ) -> Result<(), RunFault>
        requires whole { IsAhead self.old.ahead newline }
        requires lines { self.old.summary.lines < MOST_LINES }
        requires faults { self.old.summary.faults ≤ self.old.summary.lines }
        requires going_on { K.failures sink.old ≡ 0 }
        ensures left { self.new.ahead ≡ left_by self.old.ahead newline }
        ensures obeyed { OnOk result (Obeys self.old newline self.new) }
        ensures shown { OnOk result (PrintsNext self.old newline self.new (K.contents sink.old) (K.contents sink.new) (K.failures sink.new)) }
        ensures fault { IfErr result (FailsToPrint (K.contents sink.old) (K.contents sink.new) self.old.printed.bytes (text_next self.old newline)) }
        ensures cause { IfErr result (SinkCauses (K.failures sink.new)) }
        ensures tied { StaysTied self.old.printed (K.unflushed sink.old) (K.failures sink.old) self.new.printed (K.unflushed sink.new) (K.failures sink.new) }
        ensures same_sink { K.device sink.new ≡ K.device sink.old }
    {
        let number = self.summary.lines + 1;
        let line = line_at(&self.ahead, self.line.as_slice(), newline);
        let told = self
            .session
            .say_bytes_onto(&mut self.printed.waiting, number, line, team);
        if let Some(place) = newline {
            self.ahead.drop_line(place);
        }
        let is_faulty = told?;
        self.printed.settle(sink)?;
        self.summary.lines = number;
        self.summary.faults += u64::from(is_faulty);
        Ok(())
    }

    /// Reads the next line and runs it. Returns whether there was one.
    ///
    /// Condition: the run is between two lines, and no device has failed.
    fn next<S: Source, K: Sink, T: Team>(
        &mut self,
        source: &mut S,
        sink: &mut K,
        team: &mut T,
    ) -> Result<bool, RunFault>
        requires ready { IsReady self.old (S.remaining source.old) (S.asked source.old) (K.failures sink.old) }
        ensures ready { OnOk result (IsReady self.new (S.remaining source.new) (S.asked source.new) (K.failures sink.new)) }
        ensures ended { self.new.ahead.is_ended ≡ true → IsAtEnd (S.remaining source.new) }
        ensures more { IfOk result (λ more. more ≡ true → self.new.summary.lines ≡ self.old.summary.lines + 1) }
        ensures end { IfOk result (λ more. more ≡ false → (self.new.ahead.bytes ≡ []) × (self.new.ahead.is_ended ≡ true)) }
        ensures so_far { OnOk result (GoesOn self.old (S.remaining source.old) (K.contents sink.old) self.new (S.remaining source.new) (K.contents sink.new)) }
        ensures stopped { IfErr result (Stops self.old (S.remaining source.old) (K.contents sink.old) self.new (S.remaining source.new) (K.contents sink.new)) }
        ensures cause { IfErr result (IsCaused (S.asked source.new) (K.failures sink.new)) }
        ensures same_source { S.device source.new ≡ S.device source.old }
        ensures tied { StaysTied self.old.printed (K.unflushed sink.old) (K.failures sink.old) self.new.printed (K.unflushed sink.new) (K.failures sink.new) }
        ensures same_sink { K.device sink.new ≡ K.device sink.old }
    {
        laws::front();
        self.ahead.fill(source, &mut self.printed, sink)?;
        if self.ahead.is_empty() {
            return Ok(false);
        }
        if self.summary.lines == MOST_LINES {
            return Err(RunFault::TooManyLines);
        }
        let newline = self
            .ahead
            .find_line(source, &mut self.line, &mut self.printed, sink)?;
        self.obey(newline, sink, team)?;
        Ok(true)
    }

    /// Nothing has been read yet. The secret keys the maps.
    pub(crate) fn new(alloc: Global, secret: Secret) -> Result<Runner, AllocError>
        ensures ahead { IfOk result (λ run. run.ahead ≡ record { bytes = []; is_ended = false; reads_left = MOST_READS }) }
        ensures scene { IfOk result (λ run. run.session.scene ≡ opening_scene) }
        ensures printed { IfOk result (λ run. run.printed.bytes ≡ []) }
        ensures summary { IfOk result (λ run. run.summary ≡ record { lines = 0; faults = 0 }) }
    {
        Ok(Runner {
            ahead: Ahead::new(alloc)?,
            line: Vec::new(alloc),
            session: Session::keyed(alloc, secret),
            printed: Printed::new(alloc)?,
            summary: Summary {
                lines: 0,
                faults: 0,
            },
        })
    }

    /// Reads and obeys all lines.
    ///
    /// Condition: the run is between two lines, and no device has failed.
    pub(crate) fn obey_all<S: Source, K: Sink, T: Team>(
        &mut self,
        source: &mut S,
        sink: &mut K,
        team: &mut T,
    ) -> Result<(), RunFault>
        requires ready { IsReady self.old (S.remaining source.old) (S.asked source.old) (K.failures sink.old) }
        ensures ready { OnOk result (IsReady self.new (S.remaining source.new) (S.asked source.new) (K.failures sink.new)) }
        ensures end { OnOk result ((self.new.ahead.bytes ≡ []) × IsAtEnd (S.remaining source.new)) }
        ensures so_far { OnOk result (GoesOn self.old (S.remaining source.old) (K.contents sink.old) self.new (S.remaining source.new) (K.contents sink.new)) }
        ensures stopped { IfErr result (Stops self.old (S.remaining source.old) (K.contents sink.old) self.new (S.remaining source.new) (K.contents sink.new)) }
        ensures read { OnOk result (IsReadThrough (S.asked source.new)) }
        ensures cause { IfErr result (IsCaused (S.asked source.new) (K.failures sink.new)) }
        ensures same_source { S.device source.new ≡ S.device source.old }
        ensures tied { StaysTied self.old.printed (K.unflushed sink.old) (K.failures sink.old) self.new.printed (K.unflushed sink.new) (K.failures sink.new) }
        ensures same_sink { K.device sink.new ≡ K.device sink.old }
    {
        loop {
            if !self.next(source, sink, team)? {
                return Ok(());
            }
        }
    }

    /// Ends the run with a fault. If the lines before it are whole, first writes what they print.
    ///
    /// Condition: the sink has failed exactly if that is the fault.
    pub(crate) fn stop<K: Sink>(&mut self, sink: &mut K, fault: RunFault) -> RunFault
        requires cause { SinkCauses (K.failures sink.old) fault }
        ensures cause { (asked : Asked) → IsCaused asked (K.failures sink.old) fault → IsCaused asked (K.failures sink.new) result }
        ensures ran { EndsBy (K.contents sink.old) self.old.printed.bytes fault (K.contents sink.new) result }
        ensures flushed { IsTied self.old.printed (K.unflushed sink.old) (K.failures sink.old) → keeps_lines result ≡ true → K.unflushed sink.new ≡ 0 }
        ensures same_sink { K.device sink.new ≡ K.device sink.old }
    {
        if !keeps_lines(fault) {
            return fault;
        }
        match self.printed.flush(sink) {
            Ok(()) => fault,
            Err(failed) => failed,
        }
    }
}

/// Whether the lines before the fault are whole. Then all that they print is written.
fn keeps_lines(fault: RunFault) -> bool
    ensures { result ≡ keeps_lines fault }
{
    match fault {
        RunFault::Read | RunFault::TooManyLines => true,
        RunFault::Write | RunFault::Memory => false,
    }
}

/// What is held of the line whose newline is here, or the held line.
///
/// Condition: the newline is in what is read ahead.
fn line_at<'a>(ahead: &'a Ahead, line: &'a [u8], newline: Option<usize>) -> &'a [u8]
    requires { IsAhead ahead.now newline }
    ensures { result.now ≡ line_at ahead.now line.now newline }
{
    match newline {
        Some(place) => ahead.front(place),
        None => line,
    }
}
