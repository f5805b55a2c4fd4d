// Which lines of a script wait for an answer.
ghost use Rattle.std.specs.Prelude.{◌≡◌, ◌||◌, ◌==◌, ◌+◌, if◌then◌else◌, nat_lt, not, false, true, drop, take, IfSome};
ghost use Rattle.std.specs.List.{list_all, slice_get};
ghost use Rattle.std.specs.Option.{option_copied};
ghost use Rattle.tree_definitions.specs.Transcript.{lines_for};
ghost use Rattle.transcript_rules.specs.Tells.{wanted};
ghost use Rattle.transcript_rules.specs.Waiting.{passes};

use frang_base::{Line, ServerId};
use std::collections::BTreeSet;

/// The first place from one on at which a line of a party stands, or the end.
#[tactic(auto, using(crate::proofs::Waits::other_party))]
pub fn next_own(script: &[Line], who: ServerId, from: usize) -> usize
    ensures lines { lines_for who.0 (drop result script.now) ≡ lines_for who.0 (drop from script.now) }
    ensures own { IfSome (slice_get script.now result) (λ l. (l.who.0 == who.0) ≡ true) }
{
    let mut next = from;
    while next < script.len() && script[next].who.0 != who.0 {
        next += 1;
    }
    next
}

// The place behind another, or that one where it is no place of a list.
fn behind(len: usize, place: usize) -> usize
    ensures { result ≡ (if nat_lt place len then place + 1 else place) }
{
    if place < len { place + 1 } else { place }
}

/// The place behind the first one from one on at which a line of a party stands, or the end.
pub fn behind_next(script: &[Line], who: ServerId, from: usize) -> usize
    ensures { lines_for who.0 (drop result script.now) ≡ drop 1 (lines_for who.0 (drop from script.now)) }
{
    let own = next_own(script, who, from);
    behind(script.len(), own)
}

// Whether nothing waits for a line.
fn passes(hosts: bool, answered: &BTreeSet<u32>, line: &Line) -> bool
    ensures { result ≡ passes hosts answered.now line.now }
{
    (hosts && line.who != ServerId::HOST) || answered.contains(&line.number)
}

/// The first place from one on at which a line waits, of the host or of any party, or the end.
#[tactic(auto, using(crate::proofs::Waits::one_passed))]
pub fn next_waiting(script: &[Line], hosts: bool, answered: &BTreeSet<u32>, from: usize) -> usize
    requires { list_all (passes hosts answered.now) (take from script.now) ≡ true }
    ensures passed { list_all (passes hosts answered.now) (take result script.now) ≡ true }
    ensures waits { IfSome (slice_get script.now result) (λ l. passes hosts answered.now l ≡ false) }
{
    let mut next = from;
    while next < script.len() && passes(hosts, answered, &script[next]) {
        next += 1;
    }
    next
}
