//! What the layer reads of a call, and what an accepted call leaves of the term and its names.

ghost use Rattle.std.specs.Prelude.{◌≡◌, ◌<◌, ◌+◌, ◌^◌, [], IfSome, None, true, if◌then◌else◌};
ghost use Rattle.ckpt_model.specs.Soundness.{IsCall};
ghost use Rattle.ckpt_terms.specs.Fencing.{advance_fault, ends_the_term, fresh_of, is_of_task, restart, unspent_after};

use crate::call::{FencedRefusal, LAST_TERM, NAMES_END};
use crate::names::Names;
use ckpt_ids::{Call, Files, Target};
use std::alloc::Global;

/// Whether a task makes the call.
pub(crate) fn is_of_task(call: &Call) -> bool
    ensures { result ≡ is_of_task call.now }
{
    matches!(call, Call::Ack { .. } | Call::Decline { .. })
}

/// The fresh files of an acknowledgement.
pub(crate) fn fresh_of(call: &Call) -> Option<&Files>
    ensures some { IfSome result (λ files. files.now ≡ fresh_of call.now) }
    ensures none { result ≡ None → fresh_of call.now ≡ [] }
{
    match call {
        Call::Ack { fresh, .. } => Some(fresh),
        _ => None,
    }
}

/// Leaves the names that are held after the call, if it is accepted.
pub(crate) fn spend(names: &mut Names, alloc: Global, call: &Call)
    ensures { names.new ≡ unspent_after names.old call.now }
{
    if ends(call) {
        *names = Names::new(alloc);
    } else if let Some(fresh) = fresh_of(call) {
        names.remove_all(fresh);
    }
}

/// The term after an accepted call.
///
/// Condition: the last term does not end.
pub(crate) fn term_after(term: u64, call: &Call) -> u64
    requires { ends_the_term call.now ≡ true → term < 2 ^ 62 }
    ensures { result ≡ (if ends_the_term call.now then term + 1 else term) }
{
    if ends(call) { term + 1 } else { term }
}

/// Whether the call ends the term, if it is accepted.
pub(crate) fn ends(call: &Call) -> bool
    ensures { result ≡ ends_the_term call.now }
{
    matches!(call, Call::Restore { .. } | Call::Cancel { .. })
}

/// Does nothing. Its contract says that the shape of a restore is a valid shape, and that a
/// configuration is within its limits.
pub(crate) fn recall_call(call: &Call)
    ensures { IsCall call.now }
{
    match call {
        Call::Restore {
            shape: Some(shape),
            ..
        } => shape.recall(),
        Call::Configure { config, .. } => {
            let _ = config.interval();
        }
        _ => (),
    }
}

/// A restore of the choice, in the shape that the job has.
pub(crate) fn restart(now: u64) -> Call
    ensures { result ≡ restart now }
{
    Call::Restore {
        now,
        target: Target::Latest,
        shape: None,
    }
}

/// Why the layer refuses an advance, after which this term would be the last one that has ended.
pub(crate) fn refuses_advance(last: u64, first: u64) -> Option<FencedRefusal>
    ensures { result ≡ advance_fault last first }
{
    if first == 0 || first > NAMES_END {
        return Some(FencedRefusal::BadName);
    }
    if last >= LAST_TERM {
        return Some(FencedRefusal::TermsUsedUp);
    }
    None
}
