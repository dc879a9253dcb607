//! How single values of an image are read: numbers, words and the configuration. Each is the member of
//! an object under a key.

ghost use Rattle.std.specs.Prelude.{◌^◌, option_and_then};
ghost use Rattle.ckpt_image.specs.Images.{Reads};
ghost use Rattle.ckpt_image.specs.Members.{config_of, kind_of, mode_of, number_below, number_of, optional_of, state_of, version_of};
ghost use Rattle.serde_json.specs.Find.{get};
ghost use Rattle.serde_json.specs.View.{view};

use crate::fault::TextFault;
use crate::fault::TextFault::NoImage;
use crate::members::VERSION;
use ckpt_core::Mode;
use ckpt_ids::{Config, ConfigValues, Kind};
use serde_json::Value;

/// The member of an object under this key.
pub fn member<'v>(value: &'v Value, key: &str) -> Result<&'v Value, TextFault>
    ensures { Reads (λ found. view found.now) result (get key.now (view value.now)) }
{
    match value.get(key) {
        Some(found) => Ok(found),
        None => Err(NoImage),
    }
}

/// An integer of at most 2^64 - 1.
pub fn number(value: &Value) -> Result<u64, TextFault>
    ensures { Reads (λ number. number) result (number_of (view value.now)) }
{
    value.as_u64().ok_or(NoImage)
}

/// The member of an object under this key, if it is an integer of at most 2^64 - 1.
pub fn number_at(value: &Value, key: &str) -> Result<u64, TextFault>
    ensures { Reads (λ number. number) result (option_and_then number_of (get key.now (view value.now))) }
{
    number(member(value, key)?)
}

/// An integer of at most 2^16 - 1.
pub(crate) fn small_number(value: &Value, key: &str) -> Result<u16, TextFault>
    ensures { Reads (λ number. number) result (option_and_then (number_below (2 ^ 16)) (get key.now (view value.now))) }
{
    u16::try_from(number(member(value, key)?)?)
        .ok()
        .ok_or(NoImage)
}

/// An integer of at most 2^32 - 1.
pub(crate) fn half_number(value: &Value, key: &str) -> Result<u32, TextFault>
    ensures { Reads (λ number. number) result (option_and_then (number_below (2 ^ 32)) (get key.now (view value.now))) }
{
    u32::try_from(number(member(value, key)?)?)
        .ok()
        .ok_or(NoImage)
}

/// A number, or `null` for none.
pub(crate) fn optional(value: &Value, key: &str) -> Result<Option<u64>, TextFault>
    ensures { Reads (λ number. number) result (option_and_then optional_of (get key.now (view value.now))) }
{
    let value = member(value, key)?;
    if value.is_null() {
        return Ok(None);
    }
    Ok(Some(number(value)?))
}

/// The version of the format, which is this one.
#[tactic(auto, unfolding(crate::specs::Members::version_of))]
pub(crate) fn version(value: &Value, key: &str) -> Result<u64, TextFault>
    ensures { Reads (λ version. version) result (option_and_then version_of (get key.now (view value.now))) }
{
    let version = number(member(value, key)?)?;
    if version == VERSION {
        Ok(version)
    } else {
        Err(NoImage)
    }
}

#[tactic(auto, unfolding(crate::specs::Members::kind_of))]
pub(crate) fn kind(value: &Value, key: &str) -> Result<Kind, TextFault>
    ensures { Reads (λ kind. kind) result (option_and_then kind_of (get key.now (view value.now))) }
{
    match member(value, key)?.as_str().ok_or(NoImage)? {
        "checkpoint" => Ok(Kind::Checkpoint),
        "savepoint" => Ok(Kind::Savepoint),
        _ => Err(NoImage),
    }
}

#[tactic(auto, unfolding(crate::specs::Members::mode_of))]
pub(crate) fn mode(value: &Value, key: &str) -> Result<Mode, TextFault>
    ensures { Reads (λ mode. mode) result (option_and_then mode_of (get key.now (view value.now))) }
{
    match member(value, key)?.as_str().ok_or(NoImage)? {
        "running" => Ok(Mode::Running),
        "failed" => Ok(Mode::Failed),
        "cancelled" => Ok(Mode::Cancelled),
        _ => Err(NoImage),
    }
}

/// Whether a record is done.
#[tactic(auto, unfolding(crate::specs::Members::state_of))]
pub(crate) fn is_done(value: &Value, key: &str) -> Result<bool, TextFault>
    ensures { Reads (λ done. done) result (option_and_then state_of (get key.now (view value.now))) }
{
    match member(value, key)?.as_str().ok_or(NoImage)? {
        "done" => Ok(true),
        "pending" => Ok(false),
        _ => Err(NoImage),
    }
}

#[tactic(auto, unfolding(crate::specs::Members::config_of))]
pub(crate) fn config(value: &Value, key: &str) -> Result<Config, TextFault>
    ensures { Reads (λ config. config) result (option_and_then config_of (get key.now (view value.now))) }
{
    let value = member(value, key)?;
    let at_once = number_at(value, "at_once")?;
    let interval = number_at(value, "interval")?;
    let keep_on_cancel = member(value, "keep_on_cancel")?.as_bool().ok_or(NoImage)?;
    let pause = number_at(value, "pause")?;
    let retained = number_at(value, "retained")?;
    let timeout = number_at(value, "timeout")?;
    let tolerable = number_at(value, "tolerable")?;
    Config::of(ConfigValues {
        interval,
        pause,
        at_once,
        timeout,
        tolerable,
        retained,
        keep_on_cancel,
    })
    .ok()
    .ok_or(NoImage)
}
