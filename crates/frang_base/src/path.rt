// Paths from texts.
ghost use Rattle.std.specs.Prelude.{◌≡◌, ◌∷◌, ◌==◌, Some, None, MatchResult};
ghost use Rattle.std.specs.List.{position, slice_split};
ghost use Rattle.std.specs.Option.{option_copied};
ghost use Rattle.frang_base.specs.PathText.{parts_left, name_fault, names_from, path_of, IsPathAnswer};

use crate::limits::{NAME_BYTES_MAX, PATH_BYTES_MAX, PATH_NAMES_MAX};
use crate::name::all_name_bytes;
use crate::{Name, NoMemory, Path, PathFault};
use std::alloc::Global;

impl From<NoMemory> for PathFault {
    ghost use Rattle.frang_base.specs.declared.fault.PathFault.TheVariants.{NoMemory as Want};

    ghost from_gives = { λ _ e. e ≡ Want };

    fn from(_: NoMemory) -> Self {
        PathFault::NoMemory
    }
}

fn position_of(text: &[u8], separator: u8) -> Option<usize>
    ensures { result ≡ position (λ b. b == separator) text.now }
{
    text.iter().position(|byte| *byte == separator)
}

/// The bytes before the first separator, and those after it, if there is one.
#[tactic(auto, using(crate::proofs::Cutting::cut_where, crate::proofs::Cutting::cut_nowhere))]
pub fn cut(text: &[u8], separator: u8) -> (&[u8], Option<&[u8]>)
    ensures { slice_split (λ b. b == separator) text.now
        ≡ result.0.now ∷ parts_left separator (option_copied result.1) }
{
    match position_of(text, separator) {
        Some(at) => (&text[..at], Some(&text[at + 1..])),
        None => (text, None),
    }
}

// The name, or why it is none after so many others.
fn next_name(before: usize, text: &[u8]) -> Result<Name, PathFault>
    ensures { MatchResult result
        (λ name. (name ≡ text.now) × (name_fault before text.now ≡ None))
        (λ f. name_fault before text.now ≡ Some f) }
{
    if before >= PATH_NAMES_MAX {
        return Err(PathFault::TooDeep);
    }
    match Name::of(text) {
        Some(name) => Ok(name),
        None if text.len() > NAME_BYTES_MAX && all_name_bytes(text) => { Err(PathFault::TooLong) }
        None => Err(PathFault::BadName),
    }
}

#[tactic(auto, using(crate::proofs::PathNames::name_read, crate::proofs::PathNames::name_refused))]
fn parse_names(alloc: Global, text: &[u8]) -> Result<Path, PathFault>
    ensures { IsPathAnswer (names_from 0 (slice_split (λ c. c == 47) text.now)) result }
{
    let mut path = Path::new(alloc);
    let mut rest = Some(text);
    while let Some(left) = rest {
        let (name, after) = cut(left, b'/');
        let name = next_name(path.len(), name)?;
        path.push(name)?;
        rest = after;
    }
    Ok(path)
}

/// The path of a text: `/` alone is the root. The first fault counts: more than 1,024 bytes (`TooLong`); no `/` at the start
/// (`BadName`); then for each name from the left: a 33rd (`TooDeep`), an empty or forbidden one (`BadName`), one of more than
/// 64 bytes (`TooLong`).
pub fn parse_path(alloc: Global, text: &[u8]) -> Result<Path, PathFault>
    ensures { IsPathAnswer (path_of text.now) result }
{
    if text.len() > PATH_BYTES_MAX {
        return Err(PathFault::TooLong);
    }
    match text {
        [b'/'] => Ok(Path::new(alloc)),
        [b'/', names @ ..] => parse_names(alloc, names),
        _ => Err(PathFault::BadName),
    }
}
