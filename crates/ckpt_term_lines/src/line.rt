//! What the lines of a log say whose job gives out names.
ghost use Rattle.std.specs.Prelude.{◌≡◌};
ghost use Rattle.ckpt_ids.specs.ConfigurationValues.{configured_by};
ghost use Rattle.ckpt_term_lines.specs.TermReading.{configuring, in_term, without_term};

use ckpt_ids::{BadConfig, Call, Config, ConfigValues};
use ckpt_lines::Line;
use ckpt_terms::FencedCall;

/// What a line of a log says whose job gives out names.
#[derive(Debug, Drop, PartialEq, Eq)]
pub enum TermLine {
    /// `fence n`: from here on names are given out, from this one on.
    Fence {
        /// The first name.
        first: u64,
    },
    /// A call: `reserve term n`, `forfeit term f1 f2 ..` with any number of names, `advance now term
    /// n`, or `in term` and then `trigger now`, `configure now` and the seven settings as in a
    /// `config` line, or a line of a script that says a call. Without `in` that call has term 0,
    /// which belongs to no task.
    Call(FencedCall),
    /// A line of a script that says no call. `in` and a term may stand before a
    /// [`BadShape`](Line::BadShape).
    Other(Line),
    /// A `configure` whose settings [`Config::new`](ckpt_ids::Config::new) refuses. It makes no call.
    BadConfig,
    /// `in term`, and then another line of a script that says no call.
    NoCall,
}

/// What is said with this term.
pub(crate) fn in_term(term: u64, said: Line) -> TermLine
    ensures { result ≡ in_term term said }
{
    match said {
        Line::Call(call) => TermLine::Call(FencedCall::Make { term, call }),
        Line::BadShape => TermLine::Other(Line::BadShape),
        _ => TermLine::NoCall,
    }
}

/// What a line with these settings says: a call, if they are within their limits.
pub(crate) fn configuring(term: u64, now: u64, values: ConfigValues) -> TermLine
    ensures { result ≡ configuring term now (configured_by values) }
{
    match Config::of(values) {
        Ok(config) => TermLine::Call(FencedCall::Make {
            term,
            call: Call::Configure { now, config },
        }),
        Err(BadConfig) => TermLine::BadConfig,
    }
}

/// What is said with no term.
pub(crate) fn without_term(said: Line) -> TermLine
    ensures { result ≡ without_term said }
{
    match said {
        Line::Call(call) => TermLine::Call(FencedCall::Make { term: 0, call }),
        other => TermLine::Other(other),
    }
}
