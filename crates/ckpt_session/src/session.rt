//! A script that is being run: what its lines do, and what they print.
ghost use Rattle.std.specs.Prelude.{◌≡◌, ◌++◌, [], true, false, Ok, Err, None, IfOk, OnOk, OnErr, is_err, option_map, string_bytes};
ghost use Rattle.std.specs.Option.{option_copied, option_map_or};
ghost use Rattle.ckpt_locked.specs.Books.{state_of_book};
ghost use Rattle.ckpt_lines.specs.Reading.{reading};
ghost use Rattle.ckpt_session.specs.ScriptTexts.{outcome_bytes};
ghost use Rattle.ckpt_answers.specs.Fronts.{KeepsFront};
ghost use Rattle.ckpt_session.specs.Seating.{Enters, EntersAll, EntersFor, entries_after, given_up, opening_stage};
ghost use Rattle.ckpt_session.specs.Sessions.{before_start, after_start, refused, configured, shaped, started_so_far, called, all_at, all_called, obeyed, said};

use crate::all::{AllLine, LINE_SEAT};
use crate::outcome::{Outcome, ScriptRefusal};
use crate::texts::{write_fault, write_not_started, write_outcome};
use ckpt_answers::write_answer;
use ckpt_core::Secret;
use ckpt_ids::{Call, CheckpointId, Config, ConfigValues, Shape, ShapeFault};
use ckpt_lines::{Line, LineFault, Numbers, parse_line, usual_call};
use ckpt_locked::Book;
use ckpt_workers::Team;
use std::alloc::{AllocError, Global};
use std::marker::Model;

/// The number of the first record of a job.
const FIRST: u64 = 1;

/// A script that is being run: what its lines have set so far, and the book of its calls once it
/// has started.
///
/// `specs/Sessions.antt` defines what each line does and prints, and `specs/Seating.antt` which calls it
/// enters, and with which seats.
pub struct Session {
    config: Option<Config>,
    shape: Option<Shape>,
    book: Option<Book>,
    alloc: Global,
    secret: Secret,
}

impl Drop for Session {
    fn drop(self) {
        let Session {
            config: _,
            shape: _,
            book: _,
            alloc: _,
            secret: _,
        } = self;
    }
}

impl Model for Session {
    ghost use Rattle.std.specs.Prelude.{[]};
    ghost use Rattle.std.specs.Option.{option_map, option_map_or};
    ghost use Rattle.ckpt_locked.specs.Books.{state_of_book};
    ghost use Rattle.ckpt_session.specs.Seating.{Staged};

    ghost Value = { Staged };

    ghost view = { λ s. record {
      scene = record { config = s.config; shape = s.shape; core = option_map state_of_book s.book };
      entries = option_map_or (λ b. b.entries) s.book [];
    } };
}

impl Session {
    /// The session before the first line. Takes no memory.
    ///
    /// The secret keys the maps of its book, so that no choice of file numbers makes a line slow. It
    /// changes nothing that a line does or prints.
    pub fn keyed(alloc: Global, secret: Secret) -> Session
        ensures { result ≡ opening_stage }
    {
        Session {
            config: None,
            shape: None,
            book: None,
            alloc,
            secret,
        }
    }

    /// The coordinator of the script with its calls so far, once a `start` was accepted. The calls of
    /// lines have seat 64, those of an `all` line the seats of its threads.
    pub fn book(&self) -> Option<&Book>
        ensures state { option_map state_of_book (option_copied result) ≡ self.now.scene.core }
        ensures entries { option_map_or (λ b. b.entries) (option_copied result) [] ≡ self.now.entries }
    {
        self.book.as_ref()
    }

    /// Reads the line with this number from its bytes and runs it, as [`parse_line`] and
    /// [`Session::say_onto`] do. Returns whether the line has a fault.
    ///
    /// Fails only if memory runs out, and then as [`Session::say_onto`].
    pub fn say_bytes_onto<T: Team>(
        &mut self,
        text: &mut String,
        number: u64,
        line: &[u8],
        team: &mut T,
    ) -> Result<bool, AllocError>
        ensures scene { OnOk result (self.new.scene ≡ (said number self.old.scene (reading line.now)).0) }
        ensures text { OnOk result (string_bytes text.new ≡ string_bytes text.old ++ (said number self.old.scene (reading line.now)).1) }
        ensures front { KeepsFront (string_bytes text.old) (string_bytes text.new) }
        ensures entered { OnOk result (EntersFor (reading line.now) self.old self.new.entries) }
        ensures fault { IfOk result (λ faulty. faulty ≡ is_err (reading line.now)) }
        ensures given_up { OnErr result (self.new ≡ given_up self.old) }
    {
        match usual_call(line) {
            Some(call) => self.say_call(text, call),
            None => self.say_any(text, number, line, team),
        }
    }

    /// Makes the call of a line, and appends its answer. A line with a call has no fault.
    #[inline(always)]
    fn say_call(&mut self, text: &mut String, call: Call) -> Result<bool, AllocError>
        ensures scene { OnOk result (self.new.scene ≡ (called self.old.scene self.old.scene.core call).0) }
        ensures text { OnOk result (string_bytes text.new ≡ string_bytes text.old ++ outcome_bytes (called self.old.scene self.old.scene.core call).1) }
        ensures front { KeepsFront (string_bytes text.old) (string_bytes text.new) }
        ensures entered { OnOk result (self.new.entries ≡ entries_after self.old call) }
        ensures fault { IfOk result (λ faulty. faulty ≡ false) }
        ensures given_up { OnErr result (self.new ≡ given_up self.old) }
    {
        if self.tell_answer(text, call).is_err() {
            self.give_up();
            return Err(AllocError);
        }
        Ok(false)
    }

    /// The same as [`Session::say_bytes_onto`], for any line. It has the locals that usual lines do
    /// not need.
    #[inline(never)]
    fn say_any<T: Team>(
        &mut self,
        text: &mut String,
        number: u64,
        line: &[u8],
        team: &mut T,
    ) -> Result<bool, AllocError>
        ensures scene { OnOk result (self.new.scene ≡ (said number self.old.scene (reading line.now)).0) }
        ensures text { OnOk result (string_bytes text.new ≡ string_bytes text.old ++ (said number self.old.scene (reading line.now)).1) }
        ensures front { KeepsFront (string_bytes text.old) (string_bytes text.new) }
        ensures entered { OnOk result (EntersFor (reading line.now) self.old self.new.entries) }
        ensures fault { IfOk result (λ faulty. faulty ≡ is_err (reading line.now)) }
        ensures given_up { OnErr result (self.new ≡ given_up self.old) }
    {
        let read = parse_line(self.alloc, line);
        let is_faulty = read.is_err();
        self.say_onto(text, number, read, team)?;
        Ok(is_faulty)
    }

    /// Runs the line with this number, and appends what it prints: one text with its newline, or
    /// nothing. A line with a fault, or one that the script refuses, changes nothing.
    ///
    /// Fails only if memory runs out, also while the line is read. Then the coordinator is lost: the
    /// session is as it was before its `start`, with the configuration and the shape. A part of what
    /// the line prints may be at the end of the text.
    #[tactic(auto, unfolding(crate::specs::Sessions::said, crate::specs::Seating::EntersFor))]
    pub fn say_onto<T: Team>(
        &mut self,
        text: &mut String,
        number: u64,
        line: Result<Line, LineFault>,
        team: &mut T,
    ) -> Result<(), AllocError>
        ensures scene { OnOk result (self.new.scene ≡ (said number self.old.scene line).0) }
        ensures text { OnOk result (string_bytes text.new ≡ string_bytes text.old ++ (said number self.old.scene line).1) }
        ensures front { KeepsFront (string_bytes text.old) (string_bytes text.new) }
        ensures entered { OnOk result (EntersFor line self.old self.new.entries) }
        ensures given_up { OnErr result (self.new ≡ given_up self.old) }
        ensures memory { line ≡ Err LineFault.Memory → is_err result ≡ true }
    {
        let told = match line {
            Ok(line) => self.tell(text, line, team),
            Err(LineFault::Memory) => Err(AllocError),
            Err(why) => write_fault(text, number, why),
        };
        if told.is_err() {
            self.give_up();
        }
        told
    }

    /// Runs a line, and returns its outcome, for a caller that prints nothing.
    ///
    /// Fails only if memory runs out. Then the coordinator is lost, as in [`Session::say_onto`].
    pub fn obey<T: Team>(&mut self, line: Line, team: &mut T) -> Result<Outcome, AllocError>
        ensures done { IfOk result (λ outcome. (self.new.scene, outcome) ≡ obeyed self.old.scene line) }
        ensures entered { OnOk result (Enters line self.old self.new.entries) }
        ensures given_up { OnErr result (self.new ≡ given_up self.old) }
    {
        let outcome = self.act(line, team);
        if outcome.is_err() {
            self.give_up();
        }
        outcome
    }

    /// Drops the coordinator. It is a function of its own, because a local of its size takes long
    /// to clear.
    #[inline(never)]
    fn give_up(&mut self)
        ensures { self.new ≡ given_up self.old }
    {
        self.book = None;
    }

    /// Does what a line says, and appends what that prints.
    ///
    /// Most lines are calls. Their answer is printed from its place, and no outcome is made of it.
    #[tactic(auto, unfolding(crate::specs::Sessions::obeyed, crate::specs::Seating::Enters))]
    #[inline(always)]
    fn tell<T: Team>(
        &mut self,
        text: &mut String,
        line: Line,
        team: &mut T,
    ) -> Result<(), AllocError>
        ensures scene { OnOk result (self.new.scene ≡ (obeyed self.old.scene line).0) }
        ensures text { OnOk result (string_bytes text.new ≡ string_bytes text.old ++ outcome_bytes (obeyed self.old.scene line).1) }
        ensures front { KeepsFront (string_bytes text.old) (string_bytes text.new) }
        ensures entered { OnOk result (Enters line self.old self.new.entries) }
        ensures told { OnErr result ((self.new.scene.config ≡ self.old.scene.config) × (self.new.scene.shape ≡ self.old.scene.shape)) }
    {
        match line {
            Line::Call(call) => self.tell_answer(text, call),
            other => self.tell_outcome(text, other, team),
        }
    }

    /// Makes a call with the seat of the lines, and appends its answer.
    #[tactic(auto, unfolding(crate::specs::Sessions::called))]
    #[inline(always)]
    fn tell_answer(&mut self, text: &mut String, call: Call) -> Result<(), AllocError>
        ensures scene { OnOk result (self.new.scene ≡ (called self.old.scene self.old.scene.core call).0) }
        ensures text { OnOk result (string_bytes text.new ≡ string_bytes text.old ++ outcome_bytes (called self.old.scene self.old.scene.core call).1) }
        ensures front { KeepsFront (string_bytes text.old) (string_bytes text.new) }
        ensures entered { OnOk result (self.new.entries ≡ entries_after self.old call) }
        ensures told { OnErr result ((self.new.scene.config ≡ self.old.scene.config) × (self.new.scene.shape ≡ self.old.scene.shape)) }
    {
        let Some(book) = &mut self.book else {
            return write_not_started(text);
        };
        let answer = book.apply(LINE_SEAT, call);
        match &answer {
            Ok(answer) => write_answer(self.alloc, text, answer),
            Err(_) => Err(AllocError),
        }
    }

    /// Does what a line says, and appends what that prints.
    #[inline(never)]
    fn tell_outcome<T: Team>(
        &mut self,
        text: &mut String,
        line: Line,
        team: &mut T,
    ) -> Result<(), AllocError>
        ensures scene { OnOk result (self.new.scene ≡ (obeyed self.old.scene line).0) }
        ensures text { OnOk result (string_bytes text.new ≡ string_bytes text.old ++ outcome_bytes (obeyed self.old.scene line).1) }
        ensures front { KeepsFront (string_bytes text.old) (string_bytes text.new) }
        ensures entered { OnOk result (Enters line self.old self.new.entries) }
        ensures told { OnErr result ((self.new.scene.config ≡ self.old.scene.config) × (self.new.scene.shape ≡ self.old.scene.shape)) }
    {
        let outcome = self.act(line, team);
        match &outcome {
            Ok(outcome) => write_outcome(self.alloc, text, outcome),
            Err(_) => Err(AllocError),
        }
    }

    /// Does what a line says.
    #[tactic(auto, unfolding(crate::specs::Sessions::obeyed, crate::specs::Seating::Enters))]
    fn act<T: Team>(&mut self, line: Line, team: &mut T) -> Result<Outcome, AllocError>
        ensures done { IfOk result (λ outcome. (self.new.scene, outcome) ≡ obeyed self.old.scene line) }
        ensures entered { OnOk result (Enters line self.old self.new.entries) }
        ensures told { OnErr result ((self.new.scene.config ≡ self.old.scene.config) × (self.new.scene.shape ≡ self.old.scene.shape)) }
    {
        match line {
            Line::Call(call) => self.answer(call),
            Line::Skip => Ok(Outcome::Silent),
            Line::BadShape => Ok(self.refuse_shape()),
            Line::Config {
                interval,
                pause,
                at_once,
                timeout,
                tolerable,
                retained,
                keep_on_cancel,
            } => {
                let config = Config::of(ConfigValues {
                    interval,
                    pause,
                    at_once,
                    timeout,
                    tolerable,
                    retained,
                    keep_on_cancel,
                });
                Ok(self.configure(config.ok()))
            }
            Line::Job { parallelisms } => self.reshape(&parallelisms),
            Line::Start { now } => self.start(now),
            Line::All {
                now,
                id,
                threads,
                first,
            } => self.call_all(now, id, threads, first, team),
        }
    }

    /// Takes a configuration, unless it was outside its limits.
    #[tactic(auto, unfolding(crate::specs::Sessions::configured))]
    #[inline(never)]
    fn configure(&mut self, config: Option<Config>) -> Outcome
        ensures done { (self.new.scene, result) ≡ before_start self.old.scene (configured self.old.scene config) }
        ensures entered { self.new.entries ≡ self.old.entries }
    {
        if self.book.is_some() {
            return Outcome::Refused(ScriptRefusal::Started);
        }
        if config.is_none() {
            return Outcome::Refused(ScriptRefusal::BadConfig);
        }
        self.config = config;
        Outcome::Silent
    }

    /// Takes a shape.
    #[tactic(auto, unfolding(crate::specs::Sessions::shaped))]
    #[inline(never)]
    fn reshape(&mut self, parallelisms: &Numbers) -> Result<Outcome, AllocError>
        ensures done { IfOk result (λ outcome. (self.new.scene, outcome) ≡ before_start self.old.scene (shaped self.old.scene parallelisms.now)) }
        ensures entered { self.new.entries ≡ self.old.entries }
        ensures told { OnErr result ((self.new.scene.config ≡ self.old.scene.config) × (self.new.scene.shape ≡ self.old.scene.shape)) }
    {
        if self.book.is_some() {
            return Ok(Outcome::Refused(ScriptRefusal::Started));
        }
        match Shape::new(self.alloc, parallelisms.as_slice()) {
            Ok(shape) => {
                self.shape = Some(shape);
                Ok(Outcome::Silent)
            }
            Err(ShapeFault::BadShape) => Ok(Outcome::Refused(ScriptRefusal::BadShape)),
            Err(ShapeFault::Memory) => Err(AllocError),
        }
    }

    /// The answer to a `restore` whose parallelisms are no shape.
    #[inline(never)]
    fn refuse_shape(&self) -> Outcome
        ensures { (self.now.scene, result) ≡ after_start self.now.scene (refused self.now.scene ScriptRefusal.BadShape) }
    {
        if self.book.is_none() {
            return Outcome::Refused(ScriptRefusal::NotStarted);
        }
        Outcome::Refused(ScriptRefusal::BadShape)
    }

    /// Opens the book.
    #[tactic(auto, unfolding(crate::specs::Sessions::started))]
    #[inline(never)]
    fn start(&mut self, now: u64) -> Result<Outcome, AllocError>
        ensures done { IfOk result (λ outcome. (self.new.scene, outcome) ≡ started_so_far self.old.scene now) }
        ensures entered { self.new.entries ≡ self.old.entries }
        ensures told { OnErr result ((self.new.scene.config ≡ self.old.scene.config) × (self.new.scene.shape ≡ self.old.scene.shape)) }
    {
        if self.book.is_some() {
            return Ok(Outcome::Refused(ScriptRefusal::Started));
        }
        let (Some(config), Some(shape)) = (self.config, &self.shape) else {
            return Ok(Outcome::Refused(ScriptRefusal::NotReady));
        };
        match Book::keyed(self.alloc, config, shape.copy()?, now, FIRST, self.secret) {
            Ok(book) => {
                self.book = Some(book);
                Ok(Outcome::Silent)
            }
            Err(_) => Ok(Outcome::Refused(ScriptRefusal::MomentTooLarge)),
        }
    }

    /// Makes a call with the seat of the lines.
    #[tactic(auto, unfolding(crate::specs::Sessions::called))]
    fn answer(&mut self, call: Call) -> Result<Outcome, AllocError>
        ensures done { IfOk result (λ outcome. (self.new.scene, outcome) ≡ called self.old.scene self.old.scene.core call) }
        ensures entered { OnOk result (self.new.entries ≡ entries_after self.old call) }
        ensures told { OnErr result ((self.new.scene.config ≡ self.old.scene.config) × (self.new.scene.shape ≡ self.old.scene.shape)) }
    {
        match &mut self.book {
            None => Ok(Outcome::Refused(ScriptRefusal::NotStarted)),
            Some(book) => match book.apply(LINE_SEAT, call) {
                Ok(answer) => Ok(Outcome::Answered(answer)),
                Err(_) => Err(AllocError),
            },
        }
    }

    /// Makes the calls of an `all` line.
    #[tactic(auto, using(crate::proofs::SeatingLemmas::all_none), unfolding(crate::specs::Sessions::all_called))]
    #[inline(never)]
    fn call_all<T: Team>(
        &mut self,
        now: u64,
        id: CheckpointId,
        threads: u64,
        first: u64,
        team: &mut T,
    ) -> Result<Outcome, AllocError>
        ensures done { IfOk result (λ outcome. (self.new.scene, outcome) ≡ all_called self.old.scene self.old.scene.core (all_at now id threads first)) }
        ensures entered { OnOk result (EntersAll self.old.entries self.new.entries id threads) }
        ensures told { OnErr result ((self.new.scene.config ≡ self.old.scene.config) × (self.new.scene.shape ≡ self.old.scene.shape)) }
    {
        let Some(book) = self.book.take() else {
            return Ok(Outcome::Refused(ScriptRefusal::NotStarted));
        };
        let line = AllLine {
            moment: now,
            id,
            threads,
            first,
        };
        let (book, outcome) = line.obey(self.alloc, book, team)?;
        self.book = Some(book);
        Ok(outcome)
    }
}
