//! The configuration of a job, within its limits.

ghost use Rattle.std.specs.Prelude.{◌≡◌, ◌↔◌, false, IsErr, IfOk};
ghost use Rattle.ckpt_ids.specs.Configuration.{IsWithinLimits, configured, is_within_limits};
ghost use Rattle.ckpt_ids.specs.ConfigurationValues.{configured_by};

use crate::limits::{
    LEAST_INTERVAL, LONGEST_DURATION, MOST_AT_ONCE, MOST_RETAINED, MOST_TOLERABLE,
};
use std::marker::Model;
use thiserror::Error;

/// A value of the configuration is outside its limits.
#[derive(Clone, Copy, Debug, PartialEq, Eq, Error)]
#[error("a value of the configuration is outside its limits")]
pub struct BadConfig;

/// The values of a configuration. They may be outside its limits.
#[derive(Clone, Copy, Debug, PartialEq, Eq)]
pub struct ConfigValues {
    /// Milliseconds between two triggers: 10 to 2^40.
    pub interval: u64,
    /// Milliseconds between a completion and the next trigger: 0 to 2^40.
    pub pause: u64,
    /// How many checkpoints may be pending at once: 1 to 64.
    pub at_once: u64,
    /// Milliseconds after which a pending record expires: 1 to 2^40.
    pub timeout: u64,
    /// How many failed checkpoints in a row are tolerated: 0 to 1000.
    pub tolerable: u64,
    /// How many completed checkpoints are kept: 1 to 1000.
    pub retained: u64,
    /// Whether completed checkpoints are kept when the job is cancelled.
    pub keep_on_cancel: bool,
}

/// How a job takes checkpoints.
///
/// Source of the values: the Flink documentation, "Configuration":
/// `execution.checkpointing.interval`, `.min-pause`, `.max-concurrent-checkpoints`, `.timeout`,
/// `.tolerable-failed-checkpoints`, `.externalized-checkpoint-retention` and
/// `state.checkpoints.num-retained`. The limits are this project's own.
#[derive(Clone, Copy, Debug, PartialEq, Eq)]
pub struct Config {
    interval: u64,
    pause: u64,
    at_once: u32,
    timeout: u64,
    tolerable: u32,
    retained: u32,
    keep_on_cancel: bool,
}

impl Model for Config {
    ghost use Rattle.ckpt_ids.specs.Configuration.{Configuration, IsWithinLimits, configured};

    ghost Value = { Configuration };

    ghost view = { λ c. configured c.interval c.pause c.at_once c.timeout c.tolerable c.retained c.keep_on_cancel };

    ghost invariant = { λ c. IsWithinLimits (configured c.interval c.pause c.at_once c.timeout c.tolerable c.retained c.keep_on_cancel) };

    ghost inverse = { λ c. record {
      interval = c.interval;
      pause = c.pause;
      at_once = c.at_once;
      timeout = c.timeout;
      tolerable = c.tolerable;
      retained = c.retained;
      keep_on_cancel = c.keep_on_cancel;
    } };
}

impl Config {
    /// A configuration with these values.
    ///
    /// - `interval`: 10 to 2^40 milliseconds between two triggers;
    /// - `pause`: 0 to 2^40 milliseconds between a completion and the next trigger;
    /// - `at_once`: 1 to 64 checkpoints that may be pending;
    /// - `timeout`: 1 to 2^40 milliseconds after which a pending record expires;
    /// - `tolerable`: 0 to 1000 failed checkpoints in a row;
    /// - `retained`: 1 to 1000 completed checkpoints to keep;
    /// - `keep_on_cancel`: whether to keep them when the job is cancelled.
    ///
    /// Returns [`BadConfig`] exactly if one of them is outside its limits.
    pub fn new(
        interval: u64,
        pause: u64,
        at_once: u64,
        timeout: u64,
        tolerable: u64,
        retained: u64,
        keep_on_cancel: bool,
    ) -> Result<Config, BadConfig>
        ensures refused { IsErr result ↔ (is_within_limits (configured interval pause at_once timeout tolerable retained keep_on_cancel) ≡ false) }
        ensures value { IfOk result (λ config. config ≡ configured interval pause at_once timeout tolerable retained keep_on_cancel) }
    {
        Config::of(ConfigValues {
            interval,
            pause,
            at_once,
            timeout,
            tolerable,
            retained,
            keep_on_cancel,
        })
    }

    /// As [`Config::new`], of values that have names.
    pub fn of(values: ConfigValues) -> Result<Config, BadConfig>
        ensures refused { IsErr result ↔ (is_within_limits (configured_by values) ≡ false) }
        ensures value { IfOk result (λ config. config ≡ configured_by values) }
    {
        let ConfigValues {
            interval,
            pause,
            at_once,
            timeout,
            tolerable,
            retained,
            keep_on_cancel,
        } = values;
        let good = LEAST_INTERVAL <= interval
            && interval <= LONGEST_DURATION
            && pause <= LONGEST_DURATION
            && 1 <= at_once
            && at_once <= MOST_AT_ONCE
            && 1 <= timeout
            && timeout <= LONGEST_DURATION
            && tolerable <= MOST_TOLERABLE
            && 1 <= retained
            && retained <= MOST_RETAINED;
        if !good {
            return Err(BadConfig);
        }
        Ok(Config {
            interval,
            pause,
            at_once: at_once as u32,
            timeout,
            tolerable: tolerable as u32,
            retained: retained as u32,
            keep_on_cancel,
        })
    }

    /// Milliseconds between two triggers.
    pub fn interval(&self) -> u64
        ensures value { result ≡ self.now.interval }
        ensures limits { IsWithinLimits self.now }
    {
        self.interval
    }

    /// Milliseconds between a completion and the next trigger.
    pub fn pause(&self) -> u64
        ensures value { result ≡ self.now.pause }
        ensures limits { IsWithinLimits self.now }
    {
        self.pause
    }

    /// How many checkpoints may be pending at once.
    pub fn at_once(&self) -> u32
        ensures value { result ≡ self.now.at_once }
        ensures limits { IsWithinLimits self.now }
    {
        self.at_once
    }

    /// Milliseconds after which a pending record expires.
    pub fn timeout(&self) -> u64
        ensures value { result ≡ self.now.timeout }
        ensures limits { IsWithinLimits self.now }
    {
        self.timeout
    }

    /// How many failed checkpoints in a row are tolerated.
    pub fn tolerable(&self) -> u32
        ensures value { result ≡ self.now.tolerable }
        ensures limits { IsWithinLimits self.now }
    {
        self.tolerable
    }

    /// How many completed checkpoints are kept.
    pub fn retained(&self) -> u32
        ensures value { result ≡ self.now.retained }
        ensures limits { IsWithinLimits self.now }
    {
        self.retained
    }

    /// Whether completed checkpoints are kept when the job is cancelled.
    pub fn keep_on_cancel(&self) -> bool
        ensures { result ≡ self.now.keep_on_cancel }
    {
        self.keep_on_cancel
    }
}
