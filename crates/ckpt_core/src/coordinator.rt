//! The coordinator as callers see it: how it is opened, and the call that makes all others.
ghost use Rattle.std.specs.Prelude.{◌≡◌, ◌↔◌, true, false, Some, Err, IfOk, OnErr, IfErr, OnOk};
ghost use Rattle.std.specs.Result.{result_err};
ghost use Rattle.ckpt_ids.specs.declared.reply.Answer.TheVariants.{Done};
ghost use Rattle.ckpt_ids.specs.declared.reply.Refusal.{Refusal};
ghost use Rattle.ckpt_memory.specs.Refusals.{one_more};
ghost use Rattle.ckpt_model.specs.declared.faults.CoreFault.TheVariants.{Memory};
ghost use Rattle.ckpt_model.specs.Coordinator.{IsCall, may_want_memory, open_fault, opened, refusal, step};
ghost use Rattle.ckpt_core.specs.Inside.Parts.{Answers, AreSound, IsAccepted, IsPlaceIn, Stays, never_fails, state_of, tests_itself};

use crate::parts::Parts;
use crate::triggers::Ticked;
use ckpt_hash::Secret;
use ckpt_ids::{Call, Config, MOMENTS_END, NUMBERS_END, Refusal, Reply, Shape};
use ckpt_memory::Meter;
use ckpt_model::{CoreFault, OpenFault};
use std::alloc::Global;
use std::marker::Model;

/// The checkpoint coordinator of one job, for one thread.
///
/// It triggers checkpoints and savepoints, collects the acknowledgements of a job's subtasks, keeps
/// the completed records, and hands out the files that no record uses any more.
///
/// Of `ckpt_model`, `specs/Steps.antt` defines what each call does, and `specs/Refusals.antt` when
/// it is refused. `specs/Soundness.antt` lists what always holds for a coordinator. Source: the
/// Flink documentation, "Checkpoints", "Savepoints" and "Checkpointing".
#[derive(Debug)]
pub struct Core {
    pub(crate) parts: Parts,
}

impl Drop for Core {
    fn drop(self) {
        let Core { parts: _ } = self;
    }
}

impl Model for Core {
    ghost use Rattle.ckpt_core.specs.Inside.Parts.{AreSound, state_of};
    ghost use Rattle.ckpt_model.specs.State.{State};

    ghost Value = { State };

    ghost view = { λ c. state_of c.parts };

    ghost invariant = { λ c. AreSound c.parts };
}

impl Core {
    /// Opens the coordinator of a job that starts at the moment `now`, in milliseconds. Its first
    /// record will have the number `first`.
    ///
    /// Returns [`OpenFault::MomentTooLarge`] exactly if `now` is above 2^62 - 1. Otherwise returns
    /// [`OpenFault::BadFirst`] exactly if `first` is outside 1 to 2^62 - 1. Takes no memory.
    ///
    /// Anybody can know how it hashes file numbers, and choose numbers that make its calls slow. If
    /// file numbers come from outside, use [`Core::keyed`].
    pub fn new(
        alloc: Global,
        config: Config,
        shape: Shape,
        now: u64,
        first: u64,
    ) -> Result<Core, OpenFault>
        ensures fault { result_err result ≡ open_fault now first }
        ensures value { IfOk result (λ core. core ≡ opened (record { config = config; shape = shape; start = now; first = first })) }
    {
        Core::keyed(alloc, config, shape, now, first, Secret::fixed())
    }

    /// As [`Core::new`], and hashes the files' numbers under a secret, so that no choice of numbers
    /// makes its calls slow. The secret changes no answer.
    pub fn keyed(
        alloc: Global,
        config: Config,
        shape: Shape,
        now: u64,
        first: u64,
        secret: Secret,
    ) -> Result<Core, OpenFault>
        ensures fault { result_err result ≡ open_fault now first }
        ensures value { IfOk result (λ core. core ≡ opened (record { config = config; shape = shape; start = now; first = first })) }
    {
        if now >= MOMENTS_END {
            return Err(OpenFault::MomentTooLarge);
        }
        if first == 0 || first >= NUMBERS_END {
            return Err(OpenFault::BadFirst);
        }
        let parts = Parts::new(alloc, config, shape, now, first, secret);
        Ok(Core { parts })
    }

    /// Makes a call, and returns its reply. Moments are in milliseconds.
    ///
    /// Returns [`CoreFault::Refused`] exactly if the table of refusals of `ckpt_model` has a row for
    /// the call, with the first such row. Otherwise returns [`CoreFault::Memory`] only if memory
    /// runs out. After an error nothing has changed, and the moment of the call is not kept.
    ///
    /// Only these take memory: a tick that triggers, a savepoint, an acknowledgement (a late one
    /// only if it hands files out), a restore with a shape, a take and a show.
    pub fn apply(&mut self, call: &Call) -> Result<Reply, CoreFault>
        ensures done { IfOk result (λ reply. step self.old call.now ≡ (self.new, Done reply)) }
        ensures refused { (why : Refusal) → (result ≡ Err (CoreFault.Refused why)) ↔ (refusal self.old call.now ≡ Some why) }
        ensures memory { result ≡ Err CoreFault.Memory → may_want_memory self.old call.now ≡ true }
        ensures unchanged { OnErr result (self.new ≡ self.old) }
        ensures shape { IsCall call.now }
    {
        self.apply_metered(&mut Meter::new(), call)
    }

    /// [`Core::apply`], which answers [`CoreFault::Memory`] exactly if one more request for memory was
    /// refused.
    pub fn apply_metered(&mut self, meter: &mut Meter, call: &Call) -> Result<Reply, CoreFault>
        ensures done { IfOk result (λ reply. step self.old call.now ≡ (self.new, Done reply)) }
        ensures refused { (why : Refusal) → (result ≡ Err (CoreFault.Refused why)) ↔ (refusal self.old call.now ≡ Some why) }
        ensures memory { result ≡ Err CoreFault.Memory → may_want_memory self.old call.now ≡ true }
        ensures unchanged { OnErr result (self.new ≡ self.old) }
        ensures shape { IsCall call.now }
        ensures none { OnOk result (meter.new ≡ meter.old) }
        ensures cause { result ≡ Err CoreFault.Memory → meter.new ≡ one_more meter.old }
        ensures kept { (why : Refusal) → result ≡ Err (CoreFault.Refused why) → meter.new ≡ meter.old }
    {
        recall_call(call);
        let place = match self.parts.test(call) {
            Ok(place) => place,
            Err(why) => return Err(CoreFault::Refused(why)),
        };
        // These are not tested first: each looks its record or file up anyway, and refuses it then.
        match call {
            Call::Dispose { id } => self.parts.dispose(*id),
            Call::Show { id } => self.parts.show(meter, *id),
            Call::Deleted { file } => self.parts.deleted(*file).map_err(CoreFault::Refused),
            Call::Undeleted { file } => self.parts.undeleted(*file).map_err(CoreFault::Refused),
            _ => self.parts.answer(meter, call, place),
        }
    }
}

/// Does nothing. Its contract says that the shape of a restore is a valid shape, and that a
/// configuration is within its limits.
fn recall_call(call: &Call)
    ensures { IsCall call.now }
{
    match call {
        Call::Restore {
            shape: Some(shape),
            ..
        } => shape.recall(),
        Call::Configure { config, .. } => {
            let _ = config.interval();
        }
        _ => (),
    }
}

impl Parts {
    /// Makes an accepted call that was tested first. Fails only if memory runs out.
    ///
    /// Each kind of call has a function of its own, because a function clears the locals of
    /// everything that is inlined into it.
    ///
    /// Conditions: the parts are sound, the call is accepted, and the pending record that it names is at
    /// this place. If there is no place, no pending record has its number.
    fn answer(
        &mut self,
        meter: &mut Meter,
        call: &Call,
        place: Option<usize>,
    ) -> Result<Reply, CoreFault>
        requires sound { AreSound self.old }
        requires accepted { IsAccepted self.old call.now }
        requires other { tests_itself call.now ≡ false }
        requires place { IsPlaceIn self.old call.now place }
        ensures ok { IfOk result (Answers self.old self.new call.now) }
        ensures err { OnErr result (Stays self.old self.new) }
        ensures fault { IfErr result (λ fault. fault ≡ Memory) }
        ensures memory { OnErr result (may_want_memory (state_of self.old) call.now ≡ true) }
        ensures none { OnOk result (meter.new ≡ meter.old) }
        ensures refused { OnErr result (meter.new ≡ one_more meter.old) }
    {
        match call {
            Call::Tick { now } => {
                let Ticked { expired, end } = self.tick(meter, *now)?;
                Ok(Reply::Ticked { expired, end })
            }
            Call::Savepoint { now } => self.savepoint(meter, *now),
            Call::Ack {
                now,
                id,
                subtask,
                fresh,
                reused,
            } => match place {
                Some(place) => self.ack(meter, *now, *id, place, *subtask, fresh, reused),
                None => self.ack_late(meter, *now, *id, *subtask, fresh, reused),
            },
            Call::Restore {
                now,
                target,
                shape: Some(shape),
            } => self.restore_in(meter, *now, *target, shape),
            Call::Take { most } => self.take(meter, *most),
            Call::Trigger { now } => self.trigger_now(meter, *now),
            _ => Ok(self.answer_in_place(call, place)),
        }
    }

    /// Makes a call that takes no memory and was tested first. It is a function of its own, so that
    /// `answer` keeps no reply of these calls beside its result.
    ///
    /// Conditions: as for `answer`, and the call takes no memory.
    #[inline(never)]
    fn answer_in_place(&mut self, call: &Call, place: Option<usize>) -> Reply
        requires sound { AreSound self.old }
        requires accepted { IsAccepted self.old call.now }
        requires place { IsPlaceIn self.old call.now place }
        requires in_place { never_fails call.now ≡ true }
        ensures { Answers self.old self.new call.now result }
    {
        match call {
            Call::Decline { now, id, subtask } => self.decline(*now, *id, place, *subtask),
            Call::Restore {
                now,
                target,
                shape: None,
            } => self.restore(*now, *target),
            Call::Cancel { now } => self.cancel(*now),
            Call::Count { file } => self.count(*file),
            Call::Configure { now, config } => self.configure(*now, config),
            _ => unreachable!(),
        }
    }
}
