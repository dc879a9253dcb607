//! Readers and writers of std as sources and sinks, counted.
ghost use Rattle.std.specs.Prelude.{◌≤◌, ◌*◌, ◌^◌};

use crate::sink::Sink;
use crate::source::{DeviceFailed, Source};
use std::io::{Read, Write};

/// A reader with counts of its calls, failures, ends and bytes.
#[derive(Drop)]
pub(crate) struct CountedReader<'a, R> {
    pub(crate) reader: &'a mut R,
    pub(crate) times: u64,
    pub(crate) failures: u64,
    pub(crate) ends: u64,
    pub(crate) bytes: u128,
    ghost in_range: { bytes ≤ times * 2 ^ 64 },
}

impl<'a, R: Read> Source for CountedReader<'a, R> {
    ghost remaining = { λ source. R.remaining source.reader.now };

    ghost asked = { λ source. record { times = source.times; failures = source.failures; ends = source.ends; bytes = source.bytes } };

    ghost device = { λ source. source.reader.ghost_name };

    fn read(&mut self, buffer: &mut [u8]) -> Result<usize, DeviceFailed> {
        self.times += 1;
        match self.reader.read(buffer) {
            Ok(count) => {
                self.ends += u64::from(count == 0);
                self.bytes += count as u128;
                Ok(count)
            }
            Err(_) => {
                self.failures += 1;
                Err(DeviceFailed)
            }
        }
    }
}

/// A writer with a count of its failures. A write that takes nothing is a failure.
#[derive(Drop)]
pub(crate) struct CountedWriter<'a, W> {
    pub(crate) writer: &'a mut W,
    pub(crate) failures: u64,
}

impl<'a, W: Write> Sink for CountedWriter<'a, W> {
    ghost contents = { λ sink. W.contents sink.writer.now };

    ghost failures = { λ sink. sink.failures };

    ghost device = { λ sink. sink.writer.ghost_name };

    fn write(&mut self, bytes: &[u8]) -> Result<usize, DeviceFailed> {
        match self.writer.write(bytes) {
            Ok(count) if count > 0 => Ok(count),
            _ => {
                self.failures += 1;
                Err(DeviceFailed)
            }
        }
    }

    fn flush(&mut self) -> Result<(), DeviceFailed> {
        match self.writer.flush() {
            Ok(()) => Ok(()),
            Err(_) => {
                self.failures += 1;
                Err(DeviceFailed)
            }
        }
    }
}
