// The places of lines that are next, found by going on from where they were.
ghost use Rattle.std.specs.Prelude.{◌≡◌, ℕ, ◌==◌, ◌+◌, ◌<◌, ◌≤◌, length, drop, slice_index, slice_set, IfOk};
ghost use Rattle.std.specs.List.{position_or_len};
ghost use Rattle.world_definitions.specs.Worlds.{marks_of};
ghost use Rattle.script_places.specs.Placed.{is_next_of, is_unanswered};

use crate::marks::is_marked;
use frang_base::{Line, NoMemory, ServerId};
use std::alloc::Global;

/// How many numbers a party may have.
const PARTIES: usize = 256;

// The line isn't answered.
fn is_unanswered(line: &Line, answered: &[bool]) -> bool
    ensures { result ≡ is_unanswered (marks_of answered.now) line.now }
{
    !is_marked(answered, line.number)
}

// It is the party's, and not answered.
fn is_next_of(line: &Line, who: ServerId, answered: &[bool]) -> bool
    ensures { result ≡ is_next_of (marks_of answered.now) who.0 line.now }
{
    line.who.0 == who.0 && is_unanswered(line, answered)
}

/// From a place on, the place of a party's first line that isn't answered, or the number of lines.
pub(crate) fn next_place(lines: &[Line], answered: &[bool], who: ServerId, from: usize) -> usize
    requires { from ≤ length lines.now }
    ensures { result ≡ from + position_or_len (is_next_of (marks_of answered.now) who.0) (drop from lines.now) }
{
    let mut at = from;
    for line in &lines[from..] {
        if is_next_of(line, who, answered) {
            return at;
        }
        at += 1;
    }
    at
}

/// The same of the lines of all parties.
pub(crate) fn open_place(lines: &[Line], answered: &[bool], from: usize) -> usize
    requires { from ≤ length lines.now }
    ensures { result ≡ from + position_or_len (is_unanswered (marks_of answered.now)) (drop from lines.now) }
{
    let mut at = from;
    for line in &lines[from..] {
        if is_unanswered(line, answered) {
            return at;
        }
        at += 1;
    }
    at
}

/// A party's place.
pub(crate) fn place_of(places: &[usize], who: ServerId) -> usize
    requires { length places.now ≡ PARTIES }
    ensures place { result ≡ slice_index places.now who.0 }
    ensures party { who.0 < PARTIES }
{
    places[who.0 as usize]
}

// The party of a line has its first line at a place.
fn note(places: &mut [usize], line: &Line, at: usize)
    requires { length places.old ≡ PARTIES }
    ensures { places.new ≡ slice_set places.old line.now.who.0 at }
{
    places[line.who.0 as usize] = at;
}

/// By its number, the place of each party's first line, or the number of lines.
pub(crate) fn first_places(alloc: Global, lines: &[Line]) -> Result<Vec<usize>, NoMemory>
    ensures long { IfOk result (λ places. length places.items ≡ PARTIES) }
    ensures first { IfOk result (λ places. (who : ℕ) → who < PARTIES → slice_index places.items who ≡ position_or_len (λ line. line.who.0 == who) lines.now) }
{
    let mut places = vec![in alloc; lines.len(); PARTIES]?;
    let mut at = lines.len();
    while at > 0 {
        at -= 1;
        note(&mut places, &lines[at], at);
    }
    Ok(places)
}
