//! The words of a line, read one after the other.
ghost use Rattle.std.specs.Prelude.{◌≡◌, ◌↔◌, ◌≤◌, ◌+◌, [], false, IsTrue, length, take};
ghost use Rattle.std.specs.Option.{option_map};
ghost use Rattle.ckpt_lines.specs.Reading.{Gives, Takes, file_place, number_place};
ghost use Rattle.ckpt_lines.specs.Values.{number_of};
ghost use Rattle.ckpt_lines.specs.Words.{begins_with_space, first_length, words_of};

use crate::fault::LineFault;
use crate::keyword::{Keyword, usual_keyword};
use crate::values::{FileWord, file_word, is_fresh, number_of};
use ckpt_ids::FileId;
use std::marker::Model;

/// The most bytes that are counted in one byte. Sixteen such counts fit a register.
const FEW: usize = 255;

/// A number with this many digits always fits.
const FITTING: usize = 19;

/// The words of a line that are not read yet. One or more spaces separate two words.
#[derive(Drop)]
pub struct Words<'a> {
    rest: &'a [u8],
}

impl<'a> Model for Words<'a> {
    ghost use Rattle.std.specs.Prelude.{ℕ, List};
    ghost use Rattle.ckpt_lines.specs.Words.{words_of};

    ghost Value = { List (List ℕ) };

    ghost view = { λ w. words_of w.rest.now };
}

/// The text without the spaces at its start.
fn without_spaces(text: &[u8]) -> &[u8]
    ensures words { words_of result.now ≡ words_of text.now }
    ensures start { begins_with_space result.now ≡ false }
{
    let mut rest = text;
    while let [b' ', after @ ..] = rest {
        rest = after;
    }
    rest
}

/// How often `+` and `=` occur in at most [`FEW`] bytes.
fn signs_of_few(few: &[u8]) -> (u8, u8) {
    let mut fresh: u8 = 0;
    let mut reused: u8 = 0;
    for byte in few {
        fresh = fresh.wrapping_add(u8::from(*byte == b'+'));
        reused = reused.wrapping_add(u8::from(*byte == b'='));
    }
    (fresh, reused)
}

/// The number of bytes before the first space, or of all bytes if there is none.
fn word_length(text: &[u8]) -> usize
    ensures length { result ≡ first_length text.now }
    ensures within { result ≤ length text.now }
{
    let mut count = 0;
    let mut rest = text;
    while let [byte, after @ ..] = rest {
        if *byte == b' ' {
            return count;
        }
        count += 1;
        rest = after;
    }
    count
}

/// The value of this byte as a digit, or more than nine if it is not a digit.
fn digit_of(byte: u8) -> u64
    ensures { result ≤ 9 → byte ≡ 48 + result }
{
    u64::from(byte).wrapping_sub(u64::from(b'0'))
}

/// The same as [`first_number`] for numbers of any length, and for words that are not numbers.
#[inline(never)]
fn any_number(text: &[u8]) -> Option<(u64, usize)>
    ensures { result ≡ option_map (λ number. (number, first_length text.now)) (number_of (take (first_length text.now) text.now)) }
{
    let length = word_length(text);
    let number = number_of(&text[..length])?;
    Some((number, length))
}

/// The number that the bytes before the first space spell, and how many bytes these are. `None` if
/// they are not a number.
fn first_number(text: &[u8]) -> Option<(u64, usize)>
    ensures { result ≡ option_map (λ number. (number, first_length text.now)) (number_of (take (first_length text.now) text.now)) }
{
    let most = text.len().min(FITTING);
    let mut number = 0;
    let mut length = 0;
    while length < most {
        let digit = digit_of(text[length]);
        if digit > 9 {
            break;
        }
        number = number * 10 + digit;
        length += 1;
    }
    if length > 0 && (length == text.len() || text[length] == b' ') {
        return Some((number, length));
    }
    any_number(text)
}

impl<'a> Words<'a> {
    /// The words of this text.
    pub fn of(text: &'a [u8]) -> Words<'a>
        ensures { result ≡ words_of text.now }
    {
        Words { rest: text }
    }

    /// The text of the words that are left.
    pub fn rest(&self) -> &'a [u8]
        ensures { words_of result.now ≡ self.now }
    {
        self.rest
    }

    /// Whether no word is left.
    pub fn is_empty(&self) -> bool
        ensures { IsTrue result ↔ (self.now ≡ []) }
    {
        without_spaces(self.rest).is_empty()
    }

    /// Takes the next word if it is a keyword that most lines begin with, with no space before it
    /// and one after it. Otherwise returns `None` and takes no word.
    #[inline(always)]
    pub(crate) fn usual_keyword(&mut self) -> Option<Keyword>
        ensures { Takes result self.old self.new }
    {
        let (keyword, rest) = usual_keyword(self.rest)?;
        self.rest = rest;
        Some(keyword)
    }

    /// How often `+` and `=` occur in the rest of the line.
    pub(crate) fn signs(&self) -> (usize, usize) {
        let mut fresh: usize = 0;
        let mut reused: usize = 0;
        for few in self.rest.chunks(FEW) {
            let (more_fresh, more_reused) = signs_of_few(few);
            fresh = fresh.wrapping_add(usize::from(more_fresh));
            reused = reused.wrapping_add(usize::from(more_reused));
        }
        (fresh, reused)
    }

    /// The next word as a number. Reads its bytes once, both for its end and for its value.
    pub fn number(&mut self) -> Result<u64, LineFault>
        ensures { Gives result self.new (number_place self.old) }
    {
        let text = without_spaces(self.rest);
        if text.is_empty() {
            return Err(LineFault::Missing);
        }
        match first_number(text) {
            Some((number, length)) => {
                self.rest = &text[length..];
                Ok(number)
            }
            None => Err(LineFault::Number),
        }
    }

    /// The next word as a file word, or `None` if no word is left.
    pub(crate) fn file(&mut self) -> Result<Option<FileWord>, LineFault>
        ensures { Gives result self.new (file_place self.old) }
    {
        let [sign, digits @ ..] = without_spaces(self.rest) else {
            return Ok(None);
        };
        let is_fresh = is_fresh(*sign)?;
        match first_number(digits) {
            Some((number, length)) => {
                self.rest = &digits[length..];
                Ok(Some(file_word(is_fresh, FileId(number))))
            }
            None => Err(LineFault::Number),
        }
    }
}

impl<'a> Iterator for Words<'a> {
    type Item = &'a [u8];

    ghost use Rattle.std.specs.Iterator.{YieldsFirstBy, item_count};

    ghost next_gives = { YieldsFirstBy (λ word. word.now) (λ words. words) };

    ghost remaining = { item_count (λ words. words) };

    fn next(&mut self) -> Option<&'a [u8]> {
        let text = without_spaces(self.rest);
        if text.is_empty() {
            return None;
        }
        let (word, rest) = text.split_at(word_length(text));
        self.rest = rest;
        Some(word)
    }
}
