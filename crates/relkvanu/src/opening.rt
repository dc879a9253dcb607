//! Opening and closing a handle.

ghost use Rattle.std.specs.Prelude.{◌≡◌, ◌≢◌, true, false, None, IfOk, IfErr, OnOk};
ghost use Rattle.ckpt_ids.specs.Shapes.{is_shape};
ghost use Rattle.relkvanu.specs.{Calls.HasNoNumbers, Calls.StaysAsItWas, Past.BeginsPlain, Requested.IsRefused};
ghost use Rattle.relkvanu.specs.Opening.{are_good, configuration_of, opening_of, IsNotOpened, IsOpened, IsOpening, IsWhyNot, OpeningWantsMemory, StaysOpen};
ghost use Rattle.ckpt_model.specs.{Laws.CanOpen, State.opened};
ghost use Rattle.ckpt_terms.specs.declared.machine.Machine.TheVariants as machine;
ghost use Rattle.ckpt_terms.specs.Machines.{core_in, names_in};
ghost use Rattle.ckpt_logged.specs.{Chronicles.begun, Events.IsWell};
ghost use Rattle.relkvanu.specs.Told.{bad_argument, bad_config, bad_shape, no_memory};

use crate::answer::Answer;
use crate::calls::BAD_SHAPE;
use crate::handle::Handle;
use crate::images::boxed;
use crate::requests::Requests;
use ckpt_core::{Core, OpenFault};
use ckpt_hash::Secret;
use ckpt_ids::{Config, ConfigValues, Shape, ShapeFault};
use ckpt_logged::Logged;
use ckpt_terms::Machine;
use std::alloc::Global;

pub(crate) const ALREADY_OPEN: u32 = 1;

pub(crate) const BAD_CONFIG: u32 = 2;

pub(crate) const BAD_MOMENT: u32 = 4;

pub(crate) const BAD_FIRST: u32 = 5;

/// How a job takes checkpoints. `docs/RULES.md` of the repository has the limits of each value.
#[repr(C)]
#[derive(Clone, Copy, Debug, PartialEq, Eq)]
pub struct Settings {
    /// 10 to 2^40 milliseconds between two triggers.
    pub interval: u64,
    /// 0 to 2^40 milliseconds between a completion and the next trigger.
    pub pause: u64,
    /// 1 to 64 checkpoints that may be pending.
    pub at_once: u64,
    /// 1 to 2^40 milliseconds after which a pending record expires.
    pub timeout: u64,
    /// 0 to 1000 failed checkpoints in a row.
    pub tolerable: u64,
    /// 1 to 1000 completed checkpoints to keep.
    pub retained: u64,
    /// Whether to keep completed checkpoints when the job is cancelled.
    pub keep_on_cancel: bool,
}

/// Opens a coordinator in a closed handle, from the moment `now` on. Its first record has the
/// number `first`.
///
/// `now` is in milliseconds, at most 2^62 - 1, and `first` is 1 to 2^62 - 1. The first of these that
/// applies is a bad argument: the handle is open, or the settings, the shape, the moment or the
/// first number are outside their limits. Then the handle does not change. Takes memory for the
/// coordinator and its shape.
///
/// The secret keys the maps of files, so that no choice of numbers makes calls slow. It changes no
/// answer.
#[unsafe(no_mangle)]
#[tactic(auto, using(crate::proofs::Openings::opened_well))]
pub extern "C" fn relkvanu_open(
    alloc: Global,
    handle: &mut Handle,
    settings: &Settings,
    shape: &[u64],
    now: u64,
    first: u64,
    first_word: u64,
    second_word: u64,
) -> Answer
    ensures open { StaysOpen handle.old.value handle.new.value result }
    ensures refused { IsNotOpened handle.old.value handle.new.value (opening_of settings.now shape.now now first) result }
    ensures opened { IsOpened handle.old.value handle.new.value (opening_of settings.now shape.now now first) result }
    ensures memory { OpeningWantsMemory (opening_of settings.now shape.now now first) result }
    ensures numbers { HasNoNumbers result }
    ensures unchanged { StaysAsItWas handle.old.value handle.new.value result }
    ensures names { handle.new.names ≡ handle.old.names }
    ensures plain { handle.old.value ≡ None → handle.new.names ≡ None }
    ensures past { BeginsPlain (opening_of settings.now shape.now now first) handle.old.past handle.new.past result }
    ensures sound { result.code ≡ 0 → IsWell (machine.Plain (opened (opening_of settings.now shape.now now first))) }
{
    if let Some(machine) = handle.take(alloc) {
        handle.put(alloc, machine);
        return Answer::bad_argument(ALREADY_OPEN);
    }
    let secret = Secret::of(first_word, second_word);
    match plain_of(
        &mut Requests::new(),
        alloc,
        settings,
        shape,
        now,
        first,
        secret,
    ) {
        Ok(machine) => {
            handle.put(alloc, machine);
            Answer::done(0, 0, 0)
        }
        Err(why) => why,
    }
}

/// Drops the coordinator, and frees all its memory. A closed handle stays closed.
#[unsafe(no_mangle)]
pub extern "C" fn relkvanu_close(alloc: Global, handle: &mut Handle)
    ensures value { handle.new.value ≡ None }
    ensures names { handle.new.names ≡ None }
    ensures past { handle.new.past ≡ None }
{
    drop(handle.take(alloc));
}

fn plain_of(
    requests: &mut Requests,
    alloc: Global,
    settings: &Settings,
    shape: &[u64],
    now: u64,
    first: u64,
    secret: Secret,
) -> Result<Box<Logged>, Answer>
    ensures value { IfOk result (λ made. IsOpening (opening_of settings.now shape.now now first) (core_in made.value.now)) }
    ensures names { IfOk result (λ made. names_in made.value.now ≡ None) }
    ensures begun { IfOk result (λ made. made.value ≡ begun (machine.Plain (opened (opening_of settings.now shape.now now first)))) }
    ensures can { OnOk result (CanOpen (opening_of settings.now shape.now now first)) }
    ensures fault { IfErr result (IsWhyNot (opening_of settings.now shape.now now first)) }
    ensures memory { IfErr result (OpeningWantsMemory (opening_of settings.now shape.now now first)) }
    ensures numbers { IfErr result HasNoNumbers }
    ensures code { IfErr result (λ answer. answer.code ≢ 0) }
    ensures cause { IfErr result (λ answer. answer.code ≡ no_memory → IsRefused requests.new) }
{
    let config = config_of(settings)?;
    let shape = job_of(requests, alloc, shape)?;
    match Core::keyed(alloc, config, shape, now, first, secret) {
        Ok(core) => boxed(requests, alloc, Machine::Plain(core)),
        Err(OpenFault::MomentTooLarge) => Err(Answer::bad_argument(BAD_MOMENT)),
        Err(OpenFault::BadFirst) => Err(Answer::bad_argument(BAD_FIRST)),
    }
}

/// The configuration, or the answer if a value is outside its limits.
pub(crate) fn config_of(settings: &Settings) -> Result<Config, Answer>
    ensures good { IfOk result (λ config. are_good settings.now ≡ true) }
    ensures value { IfOk result (λ config. config ≡ configuration_of settings.now) }
    ensures fault { IfErr result (λ answer. are_good settings.now ≡ false) }
    ensures told { IfErr result (λ answer. answer ≡ bad_argument bad_config) }
{
    let values = ConfigValues {
        interval: settings.interval,
        pause: settings.pause,
        at_once: settings.at_once,
        timeout: settings.timeout,
        tolerable: settings.tolerable,
        retained: settings.retained,
        keep_on_cancel: settings.keep_on_cancel,
    };
    match Config::of(values) {
        Ok(config) => Ok(config),
        Err(_) => Err(Answer::bad_argument(BAD_CONFIG)),
    }
}

/// The shape of these parallelisms, or the answer if there is no such shape.
pub(crate) fn job_of(requests: &mut Requests, alloc: Global, shape: &[u64]) -> Result<Shape, Answer>
    ensures good { IfOk result (λ made. is_shape shape.now ≡ true) }
    ensures value { IfOk result (λ made. made ≡ shape.now) }
    ensures fault { IfErr result (λ answer. answer.code ≢ no_memory → (is_shape shape.now ≡ false) × (answer ≡ bad_argument bad_shape)) }
    ensures memory { IfErr result (λ answer. answer.code ≡ no_memory → is_shape shape.now ≡ true) }
    ensures numbers { IfErr result HasNoNumbers }
    ensures cause { IfErr result (λ answer. answer.code ≡ no_memory → IsRefused requests.new) }
{
    match Shape::new_metered(&mut requests.meter, alloc, shape) {
        Ok(shape) => Ok(shape),
        Err(ShapeFault::BadShape) => Err(Answer::bad_argument(BAD_SHAPE)),
        Err(ShapeFault::Memory) => Err(Answer::out_of_memory(requests)),
    }
}
