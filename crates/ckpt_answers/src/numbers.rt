//! Numbers in a text.
ghost use Rattle.std.specs.Prelude.{◌≡◌, ◌++◌, codes, decimal, OnOk, string_bytes};
ghost use Rattle.ckpt_answers.specs.Fronts.{KeepsFront};

use itoa::Buffer;
use std::alloc::AllocError;

/// Appends the digits of the number, however many.
#[inline(never)]
fn write_any_digits(text: &mut String, number: u64) -> Result<(), AllocError>
    ensures text { OnOk result (string_bytes text.new ≡ string_bytes text.old ++ decimal number) }
    ensures front { KeepsFront (string_bytes text.old) (string_bytes text.new) }
{
    text.push_str(Buffer::new().format(number))
}

/// Appends the digits of the number. Most counts have one digit, which is written at once.
#[tactic(auto, using(std::proofs::lemmas::Fmt::decimal_digit))]
#[inline(always)]
fn write_digits(text: &mut String, number: u64) -> Result<(), AllocError>
    ensures text { OnOk result (string_bytes text.new ≡ string_bytes text.old ++ decimal number) }
    ensures front { KeepsFront (string_bytes text.old) (string_bytes text.new) }
{
    if number < 10 {
        return text.push(char::from(b'0' + number as u8));
    }
    write_any_digits(text, number)
}

/// Appends the words and the digits of the number. The caller's words are constants, so inlining
/// writes them directly instead of copying bytes.
///
/// Fails only if memory runs out, and then the text may have a part of them at its end.
#[inline(always)]
pub fn write_number(text: &mut String, words: &str, number: u64) -> Result<(), AllocError>
    ensures text { OnOk result (string_bytes text.new ≡ string_bytes text.old ++ (words.now ++ decimal number)) }
    ensures front { KeepsFront (string_bytes text.old) (string_bytes text.new) }
{
    text.push_str(words)?;
    write_digits(text, number)
}

/// Appends the words and both numbers, with a space between them.
///
/// Fails only if memory runs out, and then the text may have a part of them at its end.
pub fn write_two(text: &mut String, words: &str, first: u64, second: u64) -> Result<(), AllocError>
    ensures text { OnOk result (string_bytes text.new
        ≡ string_bytes text.old ++ (words.now ++ (decimal first ++ (codes " " ++ decimal second)))) }
    ensures front { KeepsFront (string_bytes text.old) (string_bytes text.new) }
{
    write_number(text, words, first)?;
    write_number(text, " ", second)
}
