//! The lines that open a job: `config`, `job` and `start`.
ghost use Rattle.std.specs.Prelude.{◌≡◌, ◌++◌, IfOk, OnOk, string_bytes};
ghost use Rattle.ckpt_lines.specs.declared.line.Line.TheVariants.{Job, Start};
ghost use Rattle.ckpt_lines.specs.CallTexts.{config_text, job_text, limits_text, line_of_config, retention_text, settings_text, start_text, triggers_text, IsReadAs};

use crate::pieces::{write_number, write_shape};
use ckpt_ids::{Config, Shape};
use std::alloc::{AllocError, Global};

/// The `config` line, without its newline. Fails only if memory runs out.
pub fn config_line(alloc: Global, config: &Config) -> Result<String, AllocError>
    ensures text { IfOk result (λ text. string_bytes text ≡ config_text config.now) }
    ensures read { IfOk result (λ text. IsReadAs (line_of_config config.now) (string_bytes text)) }
{
    // The contract of this read says that the values are within their limits.
    let _ = config.interval();
    let mut text = String::new(alloc);
    write_config(&mut text, config)?;
    Ok(text)
}

#[tactic(auto, unfolding(crate::specs::CallTexts::config_text))]
fn write_config(text: &mut String, config: &Config) -> Result<(), AllocError>
    ensures { OnOk result (string_bytes text.new ≡ string_bytes text.old ++ config_text config.now) }
{
    text.push_str("config")?;
    write_settings(text, config)
}

/// Appends the settings, each after a space.
#[tactic(auto, unfolding(crate::specs::CallTexts::settings_text))]
pub(crate) fn write_settings(text: &mut String, config: &Config) -> Result<(), AllocError>
    ensures { OnOk result (string_bytes text.new ≡ string_bytes text.old ++ settings_text config.now) }
{
    write_triggers(text, config)?;
    write_limits(text, config)
}

#[tactic(auto, unfolding(crate::specs::CallTexts::triggers_text))]
fn write_triggers(text: &mut String, config: &Config) -> Result<(), AllocError>
    ensures { OnOk result (string_bytes text.new ≡ string_bytes text.old ++ triggers_text config.now) }
{
    write_number(text, " ", config.interval())?;
    write_number(text, " ", config.pause())?;
    write_number(text, " ", u64::from(config.at_once()))
}

#[tactic(auto, unfolding(crate::specs::CallTexts::limits_text))]
fn write_limits(text: &mut String, config: &Config) -> Result<(), AllocError>
    ensures { OnOk result (string_bytes text.new ≡ string_bytes text.old ++ limits_text config.now) }
{
    write_number(text, " ", config.timeout())?;
    write_number(text, " ", u64::from(config.tolerable()))?;
    write_number(text, " ", u64::from(config.retained()))?;
    write_retention(text, config.keep_on_cancel())
}

fn write_retention(text: &mut String, keep: bool) -> Result<(), AllocError>
    ensures { OnOk result (string_bytes text.new ≡ string_bytes text.old ++ retention_text keep) }
{
    if keep {
        text.push_str(" keep")
    } else {
        text.push_str(" delete")
    }
}

/// The `job` line, without its newline. Fails only if memory runs out.
#[tactic(auto, unfolding(crate::specs::CallTexts::job_text))]
pub fn job_line(alloc: Global, shape: &Shape) -> Result<String, AllocError>
    ensures text { IfOk result (λ text. string_bytes text ≡ job_text shape.now) }
    ensures read { IfOk result (λ text. IsReadAs (Job shape.now) (string_bytes text)) }
{
    let mut text = String::from_str(alloc, "job")?;
    write_shape(&mut text, shape)?;
    Ok(text)
}

/// The `start` line of this moment, in milliseconds, without its newline. Fails only if memory runs
/// out.
#[tactic(auto, unfolding(crate::specs::CallTexts::start_text))]
pub fn start_line(alloc: Global, now: u64) -> Result<String, AllocError>
    ensures text { IfOk result (λ text. string_bytes text ≡ start_text now) }
    ensures read { IfOk result (λ text. IsReadAs (Start now) (string_bytes text)) }
{
    let mut text = String::new(alloc);
    write_number(&mut text, "start ", now)?;
    Ok(text)
}
