// The words that follow a server's word, one by one.
ghost use Rattle.std.specs.Prelude.{◌≡◌, ◌<◌, IfSome, IfOk};
ghost use Rattle.script_definitions.specs.ScriptWords.{or_fault, path_at, number_at, offset_at, text_at, digit_value, byte_at, path_alone, paths, words_of};
ghost use Rattle.script_lang.specs.Answers.{Gives};

use crate::refusal::Refusal;
use crate::words::{one_word, two_words};
use frang_base::{Path, PathFault, Text, parse_path};
use script_definitions::{LineFault, number_within};
use std::alloc::Global;

pub fn path(alloc: Global, word: &[u8]) -> Result<Path, Refusal>
    ensures { Gives (path_at word.now) result }
{
    match parse_path(alloc, word) {
        Ok(path) => Ok(path),
        Err(PathFault::NoMemory) => Err(Refusal::NoMemory),
        Err(PathFault::BadName | PathFault::TooLong | PathFault::TooDeep) => {
            Err(Refusal::Bad(LineFault::BadPath))
        }
    }
}

pub fn number(word: &[u8], low: u32, high: u32) -> Result<u32, LineFault>
    ensures { result ≡ number_at low high word.now }
{
    number_within(word, low, high).ok_or(LineFault::BadNumber)
}

// An offset or a length.
pub fn offset(word: &[u8]) -> Result<u32, LineFault>
    ensures { result ≡ offset_at word.now }
{
    number(word, 0, u32::MAX)
}

// A text of at most so many bytes.
pub fn text(alloc: Global, word: &[u8], most: usize) -> Result<Text, Refusal>
    ensures { Gives (text_at most word.now) result }
{
    if word.len() > most {
        return Err(Refusal::Bad(LineFault::TextTooLong));
    }
    let text = Text::of(alloc, word)?;
    Ok(text)
}

fn digit_value(digit: u8) -> Option<u8>
    ensures value { result ≡ digit_value digit }
    ensures small { IfSome result (λ n. n < 16) }
{
    match digit {
        b'0'..=b'9' => Some(digit - b'0'),
        b'a'..=b'f' => Some(digit - b'a' + 10),
        b'A'..=b'F' => Some(digit - b'A' + 10),
        _ => None,
    }
}

fn wanted_digit(digit: u8) -> Result<u8, LineFault>
    ensures value { result ≡ or_fault LineFault.BadNumber (digit_value digit) }
    ensures small { IfOk result (λ n. n < 16) }
{
    digit_value(digit).ok_or(LineFault::BadNumber)
}

// A byte by two hexadecimal digits.
pub fn byte(word: &[u8]) -> Result<u8, LineFault>
    ensures { result ≡ byte_at word.now }
{
    match word {
        [high, low] => {
            let high = wanted_digit(*high)?;
            let low = wanted_digit(*low)?;
            Ok(high * 16 + low)
        }
        _ => Err(LineFault::BadNumber),
    }
}

// One path, and no more words.
pub fn path_alone(alloc: Global, words: &[u8]) -> Result<Path, Refusal>
    ensures { Gives (path_alone (words_of words.now)) result }
{
    path(alloc, one_word(words)?)
}

// Two paths, and no more words.
pub fn paths(alloc: Global, words: &[u8]) -> Result<(Path, Path), Refusal>
    ensures { Gives (paths (words_of words.now)) result }
{
    let (first, second) = two_words(words)?;
    let first = path(alloc, first)?;
    let second = path(alloc, second)?;
    Ok((first, second))
}
