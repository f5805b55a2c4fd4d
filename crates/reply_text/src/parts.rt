// The parts of a line, which stand between single blanks, and what each says. A text that is left is cut further; where none is
// left, there are no parts.
ghost use Rattle.std.specs.Prelude.{◌≡◌, ◌==◌, ◌<◌, IfOk, IfSome};
ghost use Rattle.std.specs.Option.{option_copied};
ghost use Rattle.std.specs.List.{list_all, slice_split};
ghost use Rattle.std.specs.Str.{bytes_eq};
ghost use Rattle.frang_base.specs.Name.{is_name, is_target_byte, is_target};
ghost use Rattle.frang_base.specs.PathText.{parts_left};
ghost use Rattle.script_definitions.specs.Numerals.{number_in, count_at};
ghost use Rattle.script_definitions.specs.SaidReading.{is_end, sole_part, sole, some_bytes, two_counts, server_at, who_at, log_at, point_at, op_at, hex_value, byte_at, hex_bytes, names_of, is_path_text};

use frang_base::limits::{LOGS, SERVERS, TARGET_BYTES_MAX};
use frang_base::{Name, NameList, NoMemory, OpNo, ServerId, Text, cut};
use script_definitions::{count, number_within};
use std::alloc::Global;

// Whether two texts are of the same bytes.
pub fn same(text: &[u8], other: &[u8]) -> bool
    ensures { result ≡ bytes_eq text.now other.now }
{
    text == other
}

// Whether no part is left.
#[tactic(auto, using(script_definitions::proofs::PartsLaws::end_of_split))]
pub fn is_end(rest: Option<&[u8]>) -> bool
    ensures { result ≡ is_end (parts_left 32 (option_copied rest.entry)) }
{
    rest.is_none()
}

// The one part that is left.
#[tactic(auto, using(script_definitions::proofs::PartsLaws::sole_of_more))]
pub fn sole_part(rest: Option<&[u8]>, separator: u8) -> Option<&[u8]>
    ensures { option_copied result ≡ sole_part (parts_left separator (option_copied rest.entry)) }
{
    match cut(rest?, separator) {
        (part, None) => Some(part),
        (_, Some(_)) => None,
    }
}

pub fn two_counts(rest: Option<&[u8]>, separator: u8) -> Option<(u32, u32)>
    ensures { result ≡ two_counts (parts_left separator (option_copied rest.entry)) }
{
    let (part, rest) = cut(rest?, separator);
    let first = count(part)?;
    let second = count(sole_part(rest, separator)?)?;
    Some((first, second))
}

#[tactic(auto, using(script_definitions::proofs::NumeralLaws::number_in_most))]
fn byte_within(part: &[u8], high: u8) -> Option<u8>
    ensures { result ≡ number_in 0 high part.now }
{
    let number = number_within(part, 0, u32::from(high))?;
    Some(number as u8)
}

pub fn server(part: &[u8]) -> Option<ServerId>
    ensures { result ≡ server_at part.now }
{
    Some(ServerId(byte_within(part, (SERVERS - 1) as u8)?))
}

// A server, or `-` for the host.
pub fn who(part: &[u8]) -> Option<ServerId>
    ensures { result ≡ who_at part.now }
{
    if same(part, b"-") {
        return Some(ServerId::HOST);
    }
    server(part)
}

pub fn log(part: &[u8]) -> Option<ServerId>
    ensures { result ≡ log_at part.now }
{
    Some(ServerId(byte_within(part, (LOGS - 1) as u8)?))
}

// Two counts with a dot between them.
pub fn point(part: &[u8]) -> Option<(u32, u32)>
    ensures { result ≡ point_at part.now }
{
    two_counts(Some(part), b'.')
}

pub fn op_number(part: &[u8]) -> Option<OpNo>
    ensures { result ≡ op_at part.now }
{
    let (run, line) = point(part)?;
    Some(OpNo::of(run, line))
}

fn hex_value(digit: u8) -> Option<u8>
    ensures value { result ≡ hex_value digit }
    ensures small { IfSome result (λ n. n < 16) }
{
    match digit {
        b'0'..=b'9' => Some(digit - b'0'),
        b'a'..=b'f' => Some(digit - b'a' + 10),
        _ => None,
    }
}

fn hex_byte(high: u8, low: u8) -> Option<u8>
    ensures { result ≡ byte_at high low }
{
    let high = hex_value(high)?;
    let low = hex_value(low)?;
    Some(high * 16 + low)
}

// The bytes that lower-case hexadecimal digits write, two for each.
#[tactic(auto, using(script_definitions::proofs::PartsLaws::byte_read, script_definitions::proofs::PartsLaws::byte_refused))]
pub fn hex_bytes(alloc: Global, digits: &[u8]) -> Result<Option<Text>, NoMemory>
    ensures { IfOk result (λ bytes. bytes ≡ hex_bytes digits.now) }
{
    let mut bytes = Text::new(alloc);
    let mut rest = digits;
    while let [high, low, left @ ..] = rest {
        let Some(byte) = hex_byte(*high, *low) else {
            return Ok(None);
        };
        bytes.push(byte)?;
        rest = left;
    }
    Ok(if rest.is_empty() { Some(bytes) } else { None })
}

// All parts that are left, as names.
#[tactic(auto, using(script_definitions::proofs::PartsLaws::name_read, script_definitions::proofs::PartsLaws::name_refused))]
pub fn name_list(alloc: Global, rest: Option<&[u8]>) -> Result<Option<NameList>, NoMemory>
    ensures { IfOk result (λ names. names ≡ names_of (parts_left 32 (option_copied rest.entry))) }
{
    let mut names = NameList::new(alloc);
    let mut rest = rest;
    while let Some(left) = rest {
        let (part, after) = cut(left, b' ');
        let Some(name) = Name::of(part) else {
            return Ok(None);
        };
        names.push(name)?;
        rest = after;
    }
    Ok(Some(names))
}

fn are_names(text: &[u8]) -> bool
    ensures { result ≡ list_all is_name (slice_split (λ b. b == 47) text.now) }
{
    let mut rest = Some(text);
    while let Some(left) = rest {
        let (part, after) = cut(left, b'/');
        if Name::of(part).is_none() {
            return false;
        }
        rest = after;
    }
    true
}

// `/` alone, or `/` before each of some names, however many.
pub fn is_path_text(text: &[u8]) -> bool
    ensures { result ≡ is_path_text text.now }
{
    match text {
        [] => false,
        [slash] => *slash == b'/',
        [slash, names @ ..] => *slash == b'/' && are_names(names),
    }
}

fn are_target_bytes(text: &[u8]) -> bool
    ensures { result ≡ list_all is_target_byte text.now }
{
    text.iter().all(|byte| *byte > b' ' && *byte != 127)
}

/// Whether a text is one that a symbolic link may have as its target.
pub fn is_target(text: &[u8]) -> bool
    ensures { result ≡ is_target text.now }
{
    !text.is_empty() && text.len() <= TARGET_BYTES_MAX && are_target_bytes(text)
}

pub fn sole_count(rest: Option<&[u8]>) -> Option<u32>
    ensures { result ≡ sole count_at (parts_left 32 (option_copied rest.entry)) }
{
    count(sole_part(rest, b' ')?)
}

pub fn sole_server(rest: Option<&[u8]>) -> Option<ServerId>
    ensures { result ≡ sole server_at (parts_left 32 (option_copied rest.entry)) }
{
    server(sole_part(rest, b' ')?)
}

pub fn some_bytes(alloc: Global, digits: &[u8]) -> Result<Option<Text>, NoMemory>
    ensures { IfOk result (λ bytes. bytes ≡ some_bytes digits.now) }
{
    if digits.is_empty() {
        return Ok(None);
    }
    hex_bytes(alloc, digits)
}
