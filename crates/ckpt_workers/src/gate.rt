//! The interface through which workers make their calls.
ghost use Rattle.std.specs.Prelude.{◌≡◌, IfErr, IfOk};
ghost use Rattle.ckpt_locked.specs.Locks.{Lock, Made};

use ckpt_ids::{Answer, Call};
use ckpt_locked::{Locked, Pass};
use std::sync::Wait;

/// What calls go through: a lock, or something around one.
pub trait Gate {
    /// The lock behind the gate.
    ghost lock: { Self → Lock };

    /// Makes a call with a pass, as [`Locked::call`] does. May wait.
    ///
    /// Fails only if memory runs out. Then the caller gets the pass and the call back unchanged.
    ///
    /// Condition: the pass is of the gate's lock.
    fn call<R: Wait>(&self, rt: &R, pass: Pass, call: Call) -> Result<(Pass, Answer), (Pass, Call)>
        requires pass { pass.lock ≡ lock self.now }
        ensures made { IfOk result (λ done. Made pass call done.0 done.1) }
        ensures returned { IfErr result (λ back. (back.0 ≡ pass) × (back.1 ≡ call)) };
}

impl Gate for Locked {
    ghost lock = { λ l. l };

    fn call<R: Wait>(
        &self,
        rt: &R,
        pass: Pass,
        call: Call,
    ) -> Result<(Pass, Answer), (Pass, Call)> {
        self.call(rt, pass, call)
    }
}
