//! What was read of a script and not used yet, and how the next line is found in it.
ghost use Rattle.std.specs.Prelude.{◌≡◌, ◌+◌, ◌≢◌, ◌≤◌, ◌<◌, ◌++◌, true, false, [], IsTrue, ◌↔◌, IfOk, OnOk, OnErr, IfErr, length, take, Some};
ghost use Rattle.std.specs.Io.KnownBytes.{IsAtEnd};
ghost use Rattle.ckpt_script.specs.Devices.{IsCounted, IsCaused};
ghost use Rattle.ckpt_script.specs.Faults.{FailsBy};
ghost use Rattle.ckpt_script.specs.Flushes.{EndsFlushed, StaysTied};
ghost use Rattle.ckpt_script.specs.Known.{Prints};
ghost use Rattle.ckpt_script.specs.Lines.{held, FindsNewline, Moves};
ghost use Rattle.ckpt_script.specs.Reads.{FindsLine, IfAsked, IsFilled, IsFollowed, ReadsOn, ReadsPart, UsesBytes, left_by};

use crate::fault::RunFault;
use crate::limits::MOST_READS;
use crate::printed::Printed;
use crate::sink::Sink;
use crate::source::Source;
use ckpt_lines::LONGEST_LINE;
use memchr::memchr;
use std::alloc::{AllocError, Global};
use std::marker::Model;

/// How many bytes are asked for at once.
const CHUNK: usize = 8192;

/// How many bytes of a line are held: with one more than a line may have, it is known to be too
/// long.
const HELD: usize = LONGEST_LINE + 1;

/// What was read of a script and not used yet.
#[derive(Drop)]
pub(crate) struct Ahead {
    buffer: Vec<u8>,
    start: usize,
    end: usize,
    reads_left: u64,
    is_ended: bool,
}

impl Model for Ahead {
    ghost use Rattle.std.specs.Prelude.{◌≡◌, ◌≤◌, ◌<◌, true, slice_range, vec_len};
    ghost use Rattle.ckpt_script.specs.Unread.{Unread};

    ghost Value = { Unread };

    ghost view = { λ a. record { bytes = slice_range a.buffer.items a.start a.end; is_ended = a.is_ended; reads_left = a.reads_left } };

    ghost invariant = { λ a. (a.start ≤ a.end) × (a.end ≤ vec_len a.buffer) × (0 < vec_len a.buffer) × (a.is_ended ≡ true → a.end ≤ a.start) };
}

impl Ahead {
    /// Nothing was read yet.
    pub(crate) fn new(alloc: Global) -> Result<Ahead, AllocError>
        ensures { IfOk result (λ ahead. ahead ≡ record { bytes = []; is_ended = false; reads_left = MOST_READS }) }
    {
        let mut buffer = Vec::with_capacity(alloc, CHUNK)?;
        buffer.resize(CHUNK, 0)?;
        Ok(Ahead {
            buffer,
            start: 0,
            end: 0,
            reads_left: MOST_READS,
            is_ended: false,
        })
    }

    /// Whether nothing is left of what was read.
    pub(crate) fn is_empty(&self) -> bool
        ensures empty { IsTrue result ↔ (self.now.bytes ≡ []) }
        ensures ended { self.now.is_ended ≡ true → self.now.bytes ≡ [] }
        ensures some { result ≡ false → (self.now.bytes ≢ []) × (self.now.is_ended ≡ false) }
    {
        self.start >= self.end
    }

    /// Reads more from the source, unless bytes are left or the script has ended. First the output
    /// so far is written and flushed, so a caller that waits for an answer has it.
    ///
    /// A source that failed, or that said that nothing is left, is not read again.
    ///
    /// Conditions: what the source was asked is counted here, nothing is left in it if it said so,
    /// and the sink has not failed.
    pub(crate) fn fill<S: Source, K: Sink>(
        &mut self,
        source: &mut S,
        printed: &mut Printed,
        sink: &mut K,
    ) -> Result<(), RunFault>
        requires followed { IsFollowed (S.remaining source.old) (S.asked source.old) self.old }
        requires going_on { K.failures sink.old ≡ 0 }
        ensures read { ReadsOn self.old (S.remaining source.old) self.new (S.remaining source.new) }
        ensures filled { OnOk result (IsFilled self.old (S.asked source.old) self.new (S.asked source.new)) }
        ensures at_once { OnOk result (IfAsked self.old (printed.new.bytes ≡ [])) }
        ensures flushed { IfAsked self.old (EndsFlushed printed.old (K.unflushed sink.old) (K.failures sink.old) (K.unflushed sink.new) (K.failures sink.new)) }
        ensures shown { OnOk result (Prints (K.contents sink.old) (K.contents sink.new) printed.old.bytes [] printed.new.bytes (K.failures sink.new)) }
        ensures fault { IfErr result (FailsBy self.old (K.contents sink.old) (K.contents sink.new) printed.old.bytes printed.new.bytes) }
        ensures cause { IfErr result (IsCaused (S.asked source.new) (K.failures sink.new)) }
        ensures memory { IfErr result (λ why. why ≢ RunFault.Memory) }
        ensures unread { OnErr result (self.new.bytes ≡ []) }
        ensures same_source { S.device source.new ≡ S.device source.old }
        ensures tied { StaysTied printed.old (K.unflushed sink.old) (K.failures sink.old) printed.new (K.unflushed sink.new) (K.failures sink.new) }
        ensures same_sink { K.device sink.new ≡ K.device sink.old }
    {
        if self.start < self.end || self.is_ended {
            return Ok(());
        }
        printed.flush(sink)?;
        self.ask(source)
    }

    /// Asks the source once.
    ///
    /// Conditions: nothing is read ahead, the script has not ended, and what the source was asked
    /// is counted here.
    fn ask<S: Source>(&mut self, source: &mut S) -> Result<(), RunFault>
        requires unread { self.old.bytes ≡ [] }
        requires going_on { self.old.is_ended ≡ false }
        requires counted { IsCounted (S.asked source.old) self.old }
        ensures read { ReadsOn self.old (S.remaining source.old) self.new (S.remaining source.new) }
        ensures filled { OnOk result (IsFilled self.old (S.asked source.old) self.new (S.asked source.new)) }
        ensures fault { IfErr result (λ why. why ≡ RunFault.Read) }
        ensures unread { OnErr result (self.new.bytes ≡ []) }
        ensures cause { IfErr result (IsCaused (S.asked source.new) 0) }
        ensures same_source { S.device source.new ≡ S.device source.old }
    {
        if self.reads_left == 0 {
            return Err(RunFault::Read);
        }
        self.reads_left -= 1;
        self.start = 0;
        self.end = 0;
        match source.read(self.buffer.as_mut_slice()) {
            Ok(count) => {
                self.end = count;
                self.is_ended = count == 0;
                Ok(())
            }
            Err(_) => Err(RunFault::Read),
        }
    }

    /// Finds the next line. Returns the place of its newline, if all of the line was read ahead.
    /// Otherwise it reads the line up to its newline or to the end of the script. It holds a prefix
    /// of the line. If the line is too long, it drops the rest.
    ///
    /// Conditions: what the source was asked is counted here, nothing is left in it if it said so,
    /// and the sink has not failed.
    pub(crate) fn find_line<S: Source, K: Sink>(
        &mut self,
        source: &mut S,
        line: &mut Vec<u8>,
        printed: &mut Printed,
        sink: &mut K,
    ) -> Result<Option<usize>, RunFault>
        requires followed { IsFollowed (S.remaining source.old) (S.asked source.old) self.old }
        requires going_on { K.failures sink.old ≡ 0 }
        ensures ended { self.new.is_ended ≡ true → IsAtEnd (S.remaining source.new) }
        ensures counted { OnOk result (IsCounted (S.asked source.new) self.new) }
        ensures line { IfOk result (FindsLine self.old (S.remaining source.old) self.new (S.remaining source.new) line.new.items) }
        ensures bytes_used { self.old.bytes ≢ [] → IfOk result (UsesBytes self.old (S.asked source.old) self.new (S.asked source.new)) }
        ensures shown { OnOk result (Prints (K.contents sink.old) (K.contents sink.new) printed.old.bytes [] printed.new.bytes (K.failures sink.new)) }
        ensures part { IfErr result (λ why. why ≡ RunFault.Read → ReadsPart self.old (S.remaining source.old) (S.remaining source.new) line.new.items) }
        ensures fault { IfErr result (FailsBy self.old (K.contents sink.old) (K.contents sink.new) printed.old.bytes printed.new.bytes) }
        ensures cause { IfErr result (IsCaused (S.asked source.new) (K.failures sink.new)) }
        ensures same_source { S.device source.new ≡ S.device source.old }
        ensures tied { StaysTied printed.old (K.unflushed sink.old) (K.failures sink.old) printed.new (K.unflushed sink.new) (K.failures sink.new) }
        ensures same_sink { K.device sink.new ≡ K.device sink.old }
    {
        let newline = self.newline();
        if newline.is_some() {
            return Ok(newline);
        }
        line.clear();
        self.fill(source, printed, sink)?;
        while !self.is_empty() {
            if self.move_to(line)? {
                return Ok(None);
            }
            self.fill(source, printed, sink)?;
        }
        Ok(None)
    }

    /// The place of the newline that ends the next line, if all of that line was read.
    pub(crate) fn newline(&self) -> Option<usize>
        ensures { FindsNewline self.now.bytes result }
    {
        newline_place(&self.buffer.as_slice()[self.start..self.end])
    }

    /// The line before this newline, or as much of it as is held.
    ///
    /// Condition: the place is not past the end of what is read ahead.
    pub(crate) fn front(&self, newline: usize) -> &[u8]
        requires { newline ≤ length self.now.bytes }
        ensures { result.now ≡ take held (take newline self.now.bytes) }
    {
        &self.buffer.as_slice()[self.start..self.start + newline.min(HELD)]
    }

    /// Drops the line before this newline, and the newline.
    ///
    /// Condition: the place is in what is read ahead.
    pub(crate) fn drop_line(&mut self, newline: usize)
        requires { newline < length self.old.bytes }
        ensures { self.new ≡ left_by self.old (Some newline) }
    {
        self.start = self.start + newline + 1;
    }

    /// Moves bytes that were read to the line, up to a newline, which is dropped. Returns whether
    /// the newline was there.
    ///
    /// Condition: the line has at most [`HELD`] bytes.
    fn move_to(&mut self, line: &mut Vec<u8>) -> Result<bool, AllocError>
        requires held { length line.old.items ≤ held }
        ensures moved { IfOk result (Moves self.old.bytes self.new.bytes line.old.items line.new.items) }
        ensures ended { self.new.is_ended ≡ self.old.is_ended }
        ensures reads { self.new.reads_left ≡ self.old.reads_left }
    {
        let (start, end) = (self.start, self.end);
        let bytes = &self.buffer.as_slice()[start..end];
        match newline_place(bytes) {
            Some(place) => {
                hold(line, &bytes[..place])?;
                self.start = start + place + 1;
                Ok(true)
            }
            None => {
                hold(line, bytes)?;
                self.start = end;
                Ok(false)
            }
        }
    }
}

/// The place of the first newline.
pub fn newline_place(bytes: &[u8]) -> Option<usize>
    ensures { FindsNewline bytes.now result }
{
    memchr(b'\n', bytes)
}

/// Adds the bytes to a line, up to as many as are held.
///
/// Condition: the line has at most [`HELD`] bytes.
fn hold(line: &mut Vec<u8>, bytes: &[u8]) -> Result<(), AllocError>
    requires { length line.old.items ≤ held }
    ensures { OnOk result (line.new.items ≡ take held (line.old.items ++ bytes.now)) }
{
    let count = bytes.len().min(HELD - line.len());
    line.extend_from_slice(&bytes[..count])
}
