//! Runs a job script: reads it on standard input, and writes what its lines print to standard
//! output.
//!
//! The status is 0; 1 if a line had a fault; 2 if the run ended before the end of the script. For
//! status 2 standard error says why.
#![tactic(auto)]

use ckpt_script::{RunFault, Secret, run_keyed};
use ckpt_workers::Threads;
use std::io;
use std::process::ExitCode;
use std::random::RandomSource;

/// The run ended before the end of the script.
const CUT: u8 = 2;

fn main(rt: HostRuntime) -> ExitCode {
    let mut reader = rt.stdin();
    let mut writer = rt.stdout();
    let mut team = Threads::new(&rt, rt.alloc());
    let result = match secret(&rt) {
        Ok(secret) => run_keyed(rt.alloc(), secret, &mut reader, &mut writer, &mut team),
        Err(_) => Err(RunFault::Read),
    };
    match result {
        Ok(summary) => ExitCode::from(u8::from(summary.faults > 0)),
        Err(fault) => {
            // If standard error fails too, only the status says how the run ended.
            let _ = eprintln!(rt; "fault: {fault}");
            ExitCode::from(CUT)
        }
    }
}

/// A secret that the author of a script can't know, so no choice of file numbers makes a line slow.
/// Fails if the system gives no random numbers.
fn secret(rt: &impl RandomSource) -> io::Result<Secret> {
    Ok(Secret::of(word(rt)?, word(rt)?))
}

fn word(rt: &impl RandomSource) -> io::Result<u64> {
    let mut bytes = [0; 8];
    rt.fill_bytes(&mut bytes)?;
    Ok(u64::from_le_bytes(bytes))
}
