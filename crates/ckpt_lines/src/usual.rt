//! The calls that most lines say.
ghost use Rattle.std.specs.Prelude.{◌≡◌, ◌↔◌, Ok, IsSome};
ghost use Rattle.std.specs.Option.{IfSome};
ghost use Rattle.ckpt_lines.specs.declared.line.Line.TheVariants as said;
ghost use Rattle.ckpt_lines.specs.Reading.{reading};
ghost use Rattle.ckpt_lines.specs.Usual.{IsUsual};

use crate::keyword::{Keyword, usual_keyword};
use crate::limits::LONGEST_LINE;
use crate::parse::without_return;
use crate::rows::{number_call, only_number};
use crate::words::Words;
use ckpt_ids::Call;

/// The call of a usual line, or `None` for any other line.
///
/// A usual line has `tick`, `savepoint`, `dispose`, `take`, `deleted`, `undeleted` or `count` at its
/// very start, and a space directly after it. One number follows, and no further word. Any other
/// line may have a call too: [`parse_line`](crate::parse_line) reads it.
///
/// Most lines of a long script are usual. A program moves a [`Line`](crate::Line) whole, whichever
/// line it is. So these calls are made without one.
#[inline(always)]
pub fn usual_call(line: &[u8]) -> Option<Call>
    ensures usual { IsSome result ↔ IsUsual line.now }
    ensures call { IfSome result (λ call. reading line.now ≡ Ok (said.Call call)) }
{
    if line.len() > LONGEST_LINE {
        return None;
    }
    let (keyword, rest) = usual_keyword(without_return(line))?;
    if keyword == Keyword::Ack {
        return None;
    }
    let number = only_number(&mut Words::of(rest)).ok()?;
    Some(number_call(keyword, number))
}
