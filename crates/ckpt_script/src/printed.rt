//! What was printed and is not written yet.
ghost use Rattle.std.specs.Prelude.{◌≡◌, ◌≤◌, [], true, length, IfOk, OnOk, OnErr, IfErr};
ghost use Rattle.std.specs.Io.KnownBytes.{Appends};
ghost use Rattle.ckpt_script.specs.Flushes.{IsTied, StaysTied};
ghost use Rattle.ckpt_script.specs.Known.{IsCut, Passes, PassesFront};

use crate::fault::RunFault;
use crate::sink::Sink;
use std::alloc::{AllocError, Global};
use std::marker::Model;

/// How many bytes wait at most between two lines.
const CHUNK: usize = 8192;

/// What is printed and not written yet.
#[derive(Drop)]
pub(crate) struct Printed {
    /// What is printed is appended here, and then [`Printed::settle`] is called.
    pub(crate) waiting: String,
    is_flushed: bool,
}

impl Model for Printed {
    ghost use Rattle.std.specs.Prelude.{string_bytes};
    ghost use Rattle.ckpt_script.specs.Flushes.{Waiting};

    ghost Value = { Waiting };

    ghost view = { λ p. record { bytes = string_bytes p.waiting; is_flushed = p.is_flushed } };
}

impl Printed {
    /// Nothing is printed yet.
    pub(crate) fn new(alloc: Global) -> Result<Printed, AllocError>
        ensures { IfOk result (λ printed. printed ≡ record { bytes = []; is_flushed = true }) }
    {
        Ok(Printed {
            waiting: String::with_capacity(alloc, CHUNK)?,
            is_flushed: true,
        })
    }

    /// Writes the waiting output if it is more than may wait until the next line.
    ///
    /// Condition: the sink has not failed.
    pub(crate) fn settle<K: Sink>(&mut self, sink: &mut K) -> Result<(), RunFault>
        requires going_on { K.failures sink.old ≡ 0 }
        ensures ok { OnOk result (Passes (K.contents sink.old) (K.contents sink.new) self.old.bytes [] self.new.bytes) }
        ensures few { OnOk result (length self.new.bytes ≤ CHUNK) }
        ensures err { OnErr result (PassesFront (K.contents sink.old) (K.contents sink.new) self.old.bytes []) }
        ensures fault { IfErr result (λ why. why ≡ RunFault.Write) }
        ensures going_on { OnOk result (K.failures sink.new ≡ 0) }
        ensures failed { OnErr result (K.failures sink.new ≡ 1) }
        ensures tied { StaysTied self.old (K.unflushed sink.old) (K.failures sink.old) self.new (K.unflushed sink.new) (K.failures sink.new) }
        ensures same_sink { K.device sink.new ≡ K.device sink.old }
    {
        if self.waiting.len() <= CHUNK {
            return Ok(());
        }
        self.write_out(sink)
    }

    /// Writes what waits, and flushes what was written since the last flush.
    ///
    /// Condition: the sink has not failed.
    pub(crate) fn flush<K: Sink>(&mut self, sink: &mut K) -> Result<(), RunFault>
        requires going_on { K.failures sink.old ≡ 0 }
        ensures ok { OnOk result ((self.new.bytes ≡ []) × Appends (K.contents sink.old) (K.contents sink.new) self.old.bytes) }
        ensures err { IfErr result (λ why. (why ≡ RunFault.Write) × IsCut (K.contents sink.old) (K.contents sink.new) self.old.bytes) }
        ensures flushed { OnOk result (IsTied self.old (K.unflushed sink.old) (K.failures sink.old) → K.unflushed sink.new ≡ 0) }
        ensures going_on { OnOk result (K.failures sink.new ≡ 0) }
        ensures failed { OnErr result (K.failures sink.new ≡ 1) }
        ensures tied { StaysTied self.old (K.unflushed sink.old) (K.failures sink.old) self.new (K.unflushed sink.new) (K.failures sink.new) }
        ensures same_sink { K.device sink.new ≡ K.device sink.old }
    {
        self.write_out(sink)?;
        if self.is_flushed {
            return Ok(());
        }
        match sink.flush() {
            Ok(()) => {
                self.is_flushed = true;
                Ok(())
            }
            Err(_) => Err(RunFault::Write),
        }
    }

    /// Writes what waits.
    ///
    /// Condition: the sink has not failed.
    fn write_out<K: Sink>(&mut self, sink: &mut K) -> Result<(), RunFault>
        requires going_on { K.failures sink.old ≡ 0 }
        ensures ok { OnOk result ((self.new.bytes ≡ []) × Appends (K.contents sink.old) (K.contents sink.new) self.old.bytes) }
        ensures err { IfErr result (λ why. (why ≡ RunFault.Write) × IsCut (K.contents sink.old) (K.contents sink.new) self.old.bytes) }
        ensures going_on { OnOk result (K.failures sink.new ≡ 0) }
        ensures failed { OnErr result (K.failures sink.new ≡ 1) }
        ensures tied { StaysTied self.old (K.unflushed sink.old) (K.failures sink.old) self.new (K.unflushed sink.new) (K.failures sink.new) }
        ensures same_sink { K.device sink.new ≡ K.device sink.old }
    {
        if self.waiting.is_empty() {
            return Ok(());
        }
        write_whole(sink, self.waiting.as_bytes())?;
        self.waiting.clear();
        self.is_flushed = false;
        Ok(())
    }
}

/// Writes all bytes. A write that failed is not tried again.
///
/// Condition: the sink has not failed.
fn write_whole<K: Sink>(sink: &mut K, bytes: &[u8]) -> Result<(), RunFault>
    requires going_on { K.failures sink.old ≡ 0 }
    ensures ok { OnOk result (Appends (K.contents sink.old) (K.contents sink.new) bytes.now) }
    ensures err { IfErr result (λ why. (why ≡ RunFault.Write) × IsCut (K.contents sink.old) (K.contents sink.new) bytes.now) }
    ensures going_on { OnOk result (K.failures sink.new ≡ 0) }
    ensures failed { OnErr result (K.failures sink.new ≡ 1) }
    ensures same_sink { K.device sink.new ≡ K.device sink.old }
{
    let mut done = 0;
    while done < bytes.len() {
        match sink.write(&bytes[done..]) {
            Ok(count) => done += count,
            Err(_) => return Err(RunFault::Write),
        }
    }
    Ok(())
}
