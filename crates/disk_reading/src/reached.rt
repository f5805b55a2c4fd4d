// Whether every node is reached from the root.
ghost use Rattle.std.specs.Prelude.{◌==◌, ◌≡◌, ◌<◌, true, false, length, IfOk, MatchBool};
ghost use Rattle.disk_definitions.specs.Standing.{IsReached};
ghost use Rattle.std.specs.List.{list_all};
ghost use Rattle.std.specs.Map.{keys_of, values_of};
ghost use Rattle.disk_reading.specs.Marks.{flag_at};
ghost use Rattle.disk_reading.specs.Reach.{AreFlaggedOn, AreReached, AreNamedBelow, HasClosed, HasSpread, NamesAscendIn, has_value, is_closed, is_closed_at, names_at, nodes_at};

use frang_base::NoMemory;
use std::alloc::Global;
use std::collections::BTreeMap;
use tree_definitions::{Entries, Node};

fn reach(flags: &mut [bool], birth: u64)
    ensures { AreFlaggedOn (λ k. birth == k) flags.old flags.new }
{
    let at = birth as usize;
    if at < flags.len() {
        flags[at] = true;
    }
}

// Flags all that a directory names.
fn reach_entries(flags: &mut [bool], entries: &Entries)
    ensures { AreFlaggedOn (has_value (values_of entries.now)) flags.old flags.new }
{
    for birth in entries.as_map().values() {
        reach(flags, *birth);
    }
}

// Flags all that the node of a birth names.
fn reach_from(flags: &mut [bool], nodes: &BTreeMap<u64, Node>, birth: u64)
    ensures { AreFlaggedOn (names_at (nodes_at nodes.now.entries birth)) flags.old flags.new }
{
    match nodes.get(&birth) {
        Some(Node::Dir { entries, .. }) => reach_entries(flags, entries),
        Some(Node::File { .. }) => {}
        Some(Node::Link { .. }) => {}
        None => {}
    }
}

// Flags what a birth with a flag names.
fn reach_birth(flags: &mut [bool], nodes: &BTreeMap<u64, Node>, birth: usize)
    requires { birth < length flags.old }
    ensures on { flag_at flags.old birth ≡ true → AreFlaggedOn (names_at (nodes_at nodes.now.entries birth)) flags.old flags.new }
    ensures off { flag_at flags.old birth ≡ false → flags.new ≡ flags.old }
{
    if flags[birth] {
        reach_from(flags, nodes, birth as u64);
    }
}

// One round: flags what the flagged ones name.
#[tactic(auto, using(crate::proofs::ReachLaws::spread_step, crate::proofs::ReachLaws::spread_none))]
fn spread(flags: &mut [bool], nodes: &BTreeMap<u64, Node>)
    requires sorted { NamesAscendIn (nodes_at nodes.now.entries) }
    requires reached { AreReached (nodes_at nodes.now.entries) flags.old }
    ensures { HasSpread (nodes_at nodes.now.entries) flags.old (length flags.old) flags.new }
{
    for birth in 0..flags.len() {
        reach_birth(flags, nodes, birth);
    }
}

// Whether the birth has a flag.
fn is_flagged(flags: &[bool], birth: u64) -> bool
    ensures { result ≡ flag_at flags.now birth }
{
    flags.get(birth as usize).copied().unwrap_or(false)
}

fn are_flagged(flags: &[bool], entries: &Entries) -> bool
    ensures { result ≡ list_all (flag_at flags.now) (values_of entries.now) }
{
    entries
        .as_map()
        .values()
        .all(|birth| is_flagged(flags, *birth))
}

fn is_closed_at(flags: &[bool], nodes: &BTreeMap<u64, Node>, birth: usize) -> bool
    requires { birth < length flags.now }
    ensures { result ≡ is_closed_at flags.now (nodes_at nodes.now.entries) birth }
{
    if !flags[birth] {
        return true;
    }
    match nodes.get(&(birth as u64)) {
        Some(Node::Dir { entries, .. }) => are_flagged(flags, entries),
        Some(Node::File { .. }) => true,
        Some(Node::Link { .. }) => true,
        None => true,
    }
}

#[tactic(auto, using(standing_laws::proofs::Bounded::all_more))]
fn is_closed(flags: &[bool], nodes: &BTreeMap<u64, Node>) -> bool
    ensures { result ≡ is_closed flags.now (nodes_at nodes.now.entries) }
{
    let mut all = true;
    for birth in 0..flags.len() {
        all = all && is_closed_at(flags, nodes, birth);
    }
    all
}

// Flags all that the flagged ones lead to, round after round.
fn close(flags: &mut [bool], nodes: &BTreeMap<u64, Node>)
    requires sorted { NamesAscendIn (nodes_at nodes.now.entries) }
    requires below { AreNamedBelow (nodes_at nodes.now.entries) (length flags.old) }
    requires reached { AreReached (nodes_at nodes.now.entries) flags.old }
    ensures { HasClosed (nodes_at nodes.now.entries) flags.old flags.new }
{
    while !is_closed(flags, nodes) {
        spread(flags, nodes);
    }
}

// Whether each node has a flag.
fn births_flagged(flags: &[bool], nodes: &BTreeMap<u64, Node>) -> bool
    ensures { result ≡ list_all (flag_at flags.now) (keys_of nodes.now.entries) }
{
    nodes.keys().all(|birth| is_flagged(flags, *birth))
}

/// Whether every node is reached from the root, where births and what nodes name lie below `n`.
pub(crate) fn all_reached(
    alloc: Global,
    nodes: &BTreeMap<u64, Node>,
    n: u32,
) -> Result<bool, NoMemory>
    requires some { 0 < n }
    requires sorted { NamesAscendIn (nodes_at nodes.now.entries) }
    requires below { AreNamedBelow (nodes_at nodes.now.entries) n }
    ensures { IfOk result (λ b. MatchBool b (IsReached (nodes_at nodes.now.entries)) (IsReached (nodes_at nodes.now.entries) → ⊥)) }
{
    let mut flags = vec![in alloc; false; n as usize]?;
    flags[0] = true;
    close(&mut flags, nodes);
    Ok(births_flagged(&flags, nodes))
}
