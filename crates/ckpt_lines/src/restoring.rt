//! What a `restore` line says, once its words are read.
ghost use Rattle.std.specs.Prelude.{◌≡◌, ◌≢◌, [], Ok, Err};
ghost use Rattle.ckpt_lines.specs.Reading.{restoring, Reads};

use crate::fault::LineFault;
use crate::line::Line;
use crate::numbers::Numbers;
use ckpt_ids::{Call, Shape, ShapeFault, Target};
use std::alloc::Global;

/// The call with these parallelisms as the new shape. With none the shape stays.
#[inline(always)]
pub(crate) fn restoring(
    alloc: Global,
    now: u64,
    target: Target,
    parallelisms: &Numbers,
) -> Result<Line, LineFault>
    ensures line { Reads result (Ok (restoring now target parallelisms.now)) }
    ensures memory { result ≡ Err LineFault.Memory → parallelisms.now ≢ [] }
{
    if parallelisms.is_empty() {
        return Ok(Line::Call(Call::Restore {
            now,
            target,
            shape: None,
        }));
    }
    match Shape::new(alloc, parallelisms.as_slice()) {
        Ok(shape) => Ok(Line::Call(Call::Restore {
            now,
            target,
            shape: Some(shape),
        })),
        Err(ShapeFault::BadShape) => Ok(Line::BadShape),
        Err(ShapeFault::Memory) => Err(LineFault::Memory),
    }
}
