//! A call that may run out of memory.
ghost use Rattle.std.specs.Prelude.{◌≡◌};
ghost use Rattle.ckpt_workers.specs.Shifts.{IsAsked};

use crate::gate::Gate;
use ckpt_ids::{Answer, Call};
use ckpt_locked::Pass;
use std::sync::Wait;

/// Makes a call, and returns no answer if it ran out of memory.
///
/// Condition: the pass is of the gate's lock.
pub(crate) fn ask<R: Wait, G: Gate>(
    rt: &R,
    gate: &G,
    pass: Pass,
    call: Call,
) -> (Pass, Option<Answer>)
    requires { pass.lock ≡ G.lock gate.now }
    ensures { IsAsked pass call result.0 result.1 }
{
    match gate.call(rt, pass, call) {
        Ok((pass, answer)) => (pass, Some(answer)),
        Err((pass, _call)) => (pass, None),
    }
}
