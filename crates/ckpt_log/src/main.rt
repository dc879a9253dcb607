//! Replays a log: reads it on standard input, makes its calls, and writes their answers to standard
//! output.
//!
//! It stops at the first line with a fault. The status is 0; 1 if a line had a fault; 2 if the log
//! could not be read, or its answers could not be written. For status 2 standard error says why.
#![tactic(auto)]

mod log;
pub mod outcome;
pub mod replay;
mod texts;

use crate::replay::replay;
use ckpt_core::Secret;
use ckpt_script::RunFault;
use std::io;
use std::process::ExitCode;
use std::random::RandomSource;

/// The log was not replayed.
const CUT: u8 = 2;

fn main(rt: HostRuntime) -> ExitCode {
    let mut reader = rt.stdin();
    let mut writer = rt.stdout();
    let result = match secret(&rt) {
        Ok(secret) => replay(rt.alloc(), secret, &mut reader, &mut writer),
        Err(_) => Err(RunFault::Read),
    };
    match result {
        Ok(is_faulty) => ExitCode::from(u8::from(is_faulty)),
        Err(fault) => {
            // If standard error fails too, only the status says how the run ended.
            let _ = eprintln!(rt; "fault: {fault}");
            ExitCode::from(CUT)
        }
    }
}

/// A secret that the author of a log can't know, so no choice of file numbers makes a line slow.
/// Fails if the system gives no random numbers.
fn secret(rt: &impl RandomSource) -> io::Result<Secret> {
    Ok(Secret::of(word(rt)?, word(rt)?))
}

fn word(rt: &impl RandomSource) -> io::Result<u64> {
    let mut bytes = [0; 8];
    rt.fill_bytes(&mut bytes)?;
    Ok(u64::from_le_bytes(bytes))
}
