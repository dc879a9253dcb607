//! A log that is being replayed: what its lines do, and what they print.
ghost use Rattle.std.specs.Prelude.{◌≡◌, ◌++◌, true, Ok, Err, IfOk, OnOk, OnErr, is_err, string_bytes};
ghost use Rattle.ckpt_model.specs.{Memory.may_want_memory, Steps.step};
ghost use Rattle.ckpt_session.specs.Sessions.{after_start, before_start, configured, obeyed, refused, shaped, started_so_far};
ghost use Rattle.ckpt_term_lines.specs.TermReading.{term_reading};
ghost use Rattle.ckpt_log.specs.Logs.{in_script, log_called, log_done, log_fenced, log_said, log_set, opening_log, plainly_called, plainly_wants, stepped};
ghost use Rattle.ckpt_terms.specs.Machines.{IsFirstName};

use crate::outcome::{LogOutcome, LogRefusal};
use crate::texts::write_log_outcome;
use ckpt_core::{Core, CoreFault, Secret};
use ckpt_ids::{Answer, Call, Config, ConfigValues, Shape, ShapeFault};
use ckpt_lines::{Line, LineFault, Numbers};
use ckpt_session::{Outcome, ScriptRefusal, write_fault};
use ckpt_term_lines::{TermLine, parse_term_line};
use ckpt_terms::{FenceFault, FencedCall, Machine};
use std::alloc::{AllocError, Global};
use std::marker::Model;

/// The number of the first record of a job.
const FIRST: u64 = 1;

/// A log that is being replayed: what its lines have set so far, and the coordinator once it has
/// started. `specs/Logs.antt` defines what each line does.
pub(crate) struct Log {
    config: Option<Config>,
    shape: Option<Shape>,
    machine: Option<Machine>,
    alloc: Global,
    secret: Secret,
}

impl Drop for Log {
    fn drop(self) {
        let Log {
            config: _,
            shape: _,
            machine: _,
            alloc: _,
            secret: _,
        } = self;
    }
}

impl Model for Log {
    ghost use Rattle.std.specs.Option.{option_and_then, option_map};
    ghost use Rattle.ckpt_terms.specs.Machines.{core_in, names_in};
    ghost use Rattle.ckpt_log.specs.Logs.{LogScene};

    ghost Value = { LogScene };

    ghost view = { λ l. record {
      scene = record { config = l.config; shape = l.shape; core = option_map core_in l.machine };
      names = option_and_then names_in l.machine;
    } };
}

impl Log {
    /// The log before the first line. Takes no memory.
    ///
    /// The secret keys the maps of its coordinator, so that no choice of file numbers makes a line
    /// slow. It changes nothing that a line does or prints.
    pub(crate) fn keyed(alloc: Global, secret: Secret) -> Log
        ensures { result ≡ opening_log }
    {
        Log {
            config: None,
            shape: None,
            machine: None,
            alloc,
            secret,
        }
    }

    /// Reads the line with this number and runs it, and appends what it prints. Returns whether the
    /// line has a fault. Such a line changes nothing.
    ///
    /// Fails only if memory runs out. Then the log is in an unknown state, and a part of what the
    /// line prints may be at the end of the text.
    #[tactic(auto, unfolding(crate::specs::Logs::log_said))]
    pub(crate) fn say(
        &mut self,
        text: &mut String,
        number: u64,
        line: &[u8],
    ) -> Result<bool, AllocError>
        ensures log { OnOk result (self.new ≡ (log_said number self.old (term_reading line.now)).0) }
        ensures text { OnOk result (string_bytes text.new ≡ string_bytes text.old ++ (log_said number self.old (term_reading line.now)).1) }
        ensures fault { IfOk result (λ is_faulty. is_faulty ≡ is_err (term_reading line.now)) }
    {
        match parse_term_line(self.alloc, line) {
            Ok(line) => {
                let outcome = self.obey(line)?;
                write_log_outcome(self.alloc, text, &outcome)?;
                Ok(false)
            }
            Err(LineFault::Memory) => Err(AllocError),
            Err(why) => {
                write_fault(text, number, why)?;
                Ok(true)
            }
        }
    }

    /// Does what a line says.
    #[tactic(auto, unfolding(crate::specs::Logs::log_done))]
    fn obey(&mut self, line: TermLine) -> Result<LogOutcome, AllocError>
        ensures { IfOk result (λ outcome. (self.new, outcome) ≡ log_done self.old line) }
    {
        match line {
            TermLine::Fence { first } => self.fence(first),
            TermLine::Call(call) => self.call(&call),
            TermLine::Other(said) => self.set(said),
            TermLine::BadConfig => Ok(self.refuse_config()),
            TermLine::NoCall => Ok(LogOutcome::Refused(LogRefusal::NoCall)),
        }
    }

    /// Gives the coordinator names.
    #[tactic(auto, unfolding(crate::specs::Logs::log_fenced))]
    fn fence(&mut self, first: u64) -> Result<LogOutcome, AllocError>
        ensures done { IfOk result (λ outcome. (self.new, outcome) ≡ log_fenced self.old self.old.scene.core first) }
        ensures memory { OnErr result (IsFirstName first) }
    {
        let Some(machine) = &mut self.machine else {
            return Ok(not_started());
        };
        match machine.fence(self.alloc, first) {
            Ok(()) => Ok(LogOutcome::Began),
            Err(FenceFault::Memory) => Err(AllocError),
            Err(why) => Ok(LogOutcome::Refused(LogRefusal::NoFence(why))),
        }
    }

    /// Makes a call.
    #[tactic(auto, unfolding(crate::specs::Logs::log_called))]
    fn call(&mut self, call: &FencedCall) -> Result<LogOutcome, AllocError>
        ensures { IfOk result (λ outcome. (self.new, outcome) ≡ log_called self.old self.old.scene.core self.old.names call.now) }
    {
        match &mut self.machine {
            None => Ok(not_started()),
            Some(Machine::Plain(core)) => call_plainly(core, call),
            Some(Machine::Fenced(terms)) => Ok(LogOutcome::Answered(terms.apply(call)?)),
        }
    }

    /// The answer to a `restore` whose parallelisms are no shape.
    #[tactic(auto, unfolding(ckpt_session::specs::Sessions::obeyed))]
    fn refuse_shape(&self) -> LogOutcome
        ensures { (self.now, result) ≡ in_script self.now (obeyed self.now.scene Line.BadShape) }
    {
        if self.machine.is_none() {
            return not_started();
        }
        LogOutcome::Script(Outcome::Refused(ScriptRefusal::BadShape))
    }

    /// The answer to a `configure` whose settings are outside their limits.
    fn refuse_config(&self) -> LogOutcome
        ensures { (self.now, result) ≡ in_script self.now (after_start self.now.scene (refused self.now.scene ScriptRefusal.BadConfig)) }
    {
        if self.machine.is_none() {
            return not_started();
        }
        LogOutcome::Script(Outcome::Refused(ScriptRefusal::BadConfig))
    }

    /// Does what a line of a script says that is no call.
    #[tactic(auto, unfolding(crate::specs::Logs::log_set, ckpt_session::specs::Sessions::obeyed))]
    fn set(&mut self, said: Line) -> Result<LogOutcome, AllocError>
        ensures { IfOk result (λ outcome. (self.new, outcome) ≡ log_set self.old said) }
    {
        match said {
            Line::Skip => Ok(LogOutcome::Script(Outcome::Silent)),
            Line::Config {
                interval,
                pause,
                at_once,
                timeout,
                tolerable,
                retained,
                keep_on_cancel,
            } => {
                let config = Config::of(ConfigValues {
                    interval,
                    pause,
                    at_once,
                    timeout,
                    tolerable,
                    retained,
                    keep_on_cancel,
                });
                Ok(self.configure(config.ok()))
            }
            Line::Job { parallelisms } => self.reshape(&parallelisms),
            Line::Start { now } => self.start(now),
            Line::BadShape => Ok(self.refuse_shape()),
            // A line has its call elsewhere, but the type allows it here.
            Line::Call(call) => self.call(&FencedCall::Make { term: 0, call }),
            Line::All { .. } => Ok(LogOutcome::Refused(LogRefusal::NoCall)),
        }
    }

    /// Takes a configuration, unless it was outside its limits.
    #[tactic(auto, unfolding(ckpt_session::specs::Sessions::configured))]
    fn configure(&mut self, config: Option<Config>) -> LogOutcome
        ensures { (self.new, result) ≡ in_script self.old (before_start self.old.scene (configured self.old.scene config)) }
    {
        if self.machine.is_some() {
            return LogOutcome::Script(Outcome::Refused(ScriptRefusal::Started));
        }
        if config.is_none() {
            return LogOutcome::Script(Outcome::Refused(ScriptRefusal::BadConfig));
        }
        self.config = config;
        LogOutcome::Script(Outcome::Silent)
    }

    /// Takes a shape.
    #[tactic(auto, unfolding(ckpt_session::specs::Sessions::shaped))]
    fn reshape(&mut self, parallelisms: &Numbers) -> Result<LogOutcome, AllocError>
        ensures { IfOk result (λ outcome. (self.new, outcome) ≡ in_script self.old (before_start self.old.scene (shaped self.old.scene parallelisms.now))) }
    {
        if self.machine.is_some() {
            return Ok(LogOutcome::Script(Outcome::Refused(ScriptRefusal::Started)));
        }
        match Shape::new(self.alloc, parallelisms.as_slice()) {
            Ok(shape) => {
                self.shape = Some(shape);
                Ok(LogOutcome::Script(Outcome::Silent))
            }
            Err(ShapeFault::BadShape) => {
                Ok(LogOutcome::Script(Outcome::Refused(ScriptRefusal::BadShape)))
            }
            Err(ShapeFault::Memory) => Err(AllocError),
        }
    }

    /// Opens the coordinator.
    #[tactic(auto, unfolding(ckpt_session::specs::Sessions::started))]
    fn start(&mut self, now: u64) -> Result<LogOutcome, AllocError>
        ensures { IfOk result (λ outcome. (self.new, outcome) ≡ in_script self.old (started_so_far self.old.scene now)) }
    {
        if self.machine.is_some() {
            return Ok(LogOutcome::Script(Outcome::Refused(ScriptRefusal::Started)));
        }
        let (Some(config), Some(shape)) = (self.config, &self.shape) else {
            return Ok(LogOutcome::Script(Outcome::Refused(ScriptRefusal::NotReady)));
        };
        match Core::keyed(self.alloc, config, shape.copy()?, now, FIRST, self.secret) {
            Ok(core) => {
                self.machine = Some(Machine::Plain(core));
                Ok(LogOutcome::Script(Outcome::Silent))
            }
            Err(_) => Ok(LogOutcome::Script(Outcome::Refused(ScriptRefusal::MomentTooLarge))),
        }
    }
}

/// The outcome of a line that needs an accepted `start` before it.
fn not_started() -> LogOutcome
    ensures { result ≡ LogOutcome.Script (Outcome.Refused ScriptRefusal.NotStarted) }
{
    LogOutcome::Script(Outcome::Refused(ScriptRefusal::NotStarted))
}

/// Makes a call of a coordinator without names.
fn call_plainly(core: &mut Core, call: &FencedCall) -> Result<LogOutcome, AllocError>
    ensures done { IfOk result (λ outcome. (core.new, outcome) ≡ plainly_called core.old call.now) }
    ensures memory { OnErr result (plainly_wants core.old call.now ≡ true) }
{
    match call {
        FencedCall::Make { term: 0, call } => answer(core, call),
        _ => Ok(LogOutcome::Refused(LogRefusal::NoNames)),
    }
}

/// Makes a call of the coordinator.
fn answer(core: &mut Core, call: &Call) -> Result<LogOutcome, AllocError>
    ensures done { IfOk result (λ outcome. (core.new, outcome) ≡ stepped (step core.old call.now)) }
    ensures memory { OnErr result (may_want_memory core.old call.now ≡ true) }
{
    match core.apply(call) {
        Ok(reply) => Ok(LogOutcome::Script(Outcome::Answered(Answer::Done(reply)))),
        Err(CoreFault::Refused(why)) => {
            Ok(LogOutcome::Script(Outcome::Answered(Answer::Refused(why))))
        }
        Err(CoreFault::Memory) => Err(AllocError),
    }
}
