//! Work with each pass of a lock, in a thread of its own.
ghost use Rattle.std.specs.Prelude.{◌≡◌, All, IfOk, vec_len};
ghost use Rattle.ckpt_locked.specs.Locks.{Lock};
ghost use Rattle.ckpt_workers.specs.Shifts.{CallsOn};
ghost use Rattle.ckpt_workers.specs.Spreads.{AreUsed};

use ckpt_locked::Pass;
use std::alloc::AllocError;
use std::sync::Wait;
use std::thread;
use std::thread::Threads;

/// What a thread does with its pass, beside other threads with theirs. `T` is its result.
pub trait Work<T> {
    /// The lock whose passes it takes.
    ghost lock: { Self → Lock };

    /// Works with a pass, and returns it. May wait.
    ///
    /// It returns the pass that it got, as its calls left it: the pass's own calls are those of
    /// before, and then the calls of this work.
    ///
    /// Condition: the pass is of the lock.
    fn work<R: Wait>(&self, rt: &R, pass: Pass) -> (Pass, T)
        requires pass { pass.lock ≡ lock self.now }
        ensures pass { result.0.lock ≡ lock self.now }
        ensures calls { CallsOn pass result.0 };
}

/// Does the work with each pass in a thread of its own. Result i is that of pass i, and has its pass.
///
/// If a thread can't be started, its work is done in turn with that of others. Then work that waits
/// for other work may wait forever. Fails only if memory runs out, and then the passes are lost.
///
/// Condition: the passes are of the lock of the work.
pub fn work_on_each<R: Threads + Wait + Sync, T: Send + Drop, W: Work<T> + Sync>(
    rt: &R,
    work: &W,
    passes: Vec<Pass>,
) -> Result<Vec<(Pass, T)>, AllocError>
    requires passes { All (λ p. p.lock ≡ W.lock work.now) passes.items }
    ensures count { IfOk result (λ done. vec_len done ≡ vec_len passes) }
    ensures passes { IfOk result (λ done. All (λ d. d.0.lock ≡ W.lock work.now) done.items) }
    ensures each { IfOk result (λ done. AreUsed passes.items done.items) }
{
    thread::map_vec(
        rt,
        passes,
        &|pass: Pass| -> (Pass, T)
            requires { pass.lock ≡ W.lock work.now }
            ensures { (result.0.lock ≡ W.lock work.entry.now) × CallsOn pass result.0 }
        { work.work(rt, pass) },
    )
}
