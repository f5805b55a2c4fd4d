// How often the tree names each inode, against its links.
ghost use Rattle.std.specs.Prelude.{◌≡◌, ◌≤◌, ◌<◌, ◌*◌, ℕ, length, sum_by, slice_index, IfOk};
ghost use Rattle.std.specs.Map.{lookup, values_of};
ghost use Rattle.tree_definitions.specs.WellFormed.{one_at, names_in};
ghost use Rattle.disk_reading.specs.Names.{AreCountedOn, counted, is_linked};
ghost use Rattle.std.specs.BTreeMap.{is_at};
ghost use Rattle.std.specs.Ordering.{nat_cmp};
ghost use Rattle.standing_laws.specs.Below.{all_below};
ghost use Rattle.tree_definitions.specs.Apply.{links_of};

use frang_base::NoMemory;
use frang_base::limits::ROOT_INODE;
use std::alloc::Global;
use std::collections::BTreeMap;
use tree_definitions::{Entries, Node};

// Counts one name more of an inode, where it has a count.
fn count_one(counts: &mut [u64], birth: u64)
    ensures { AreCountedOn (λ i. one_at i birth) counts.old counts.new }
{
    let at = birth as usize;
    if at < counts.len() {
        counts[at] = counts[at].saturating_add(1);
    }
}

// Counts the names of a directory.
fn count_entries(counts: &mut [u64], entries: &Entries)
    ensures { AreCountedOn (λ i. sum_by (one_at i) (values_of entries.now)) counts.old counts.new }
{
    for birth in entries.as_map().values() {
        count_one(counts, *birth);
    }
}

fn count_node(counts: &mut [u64], node: &Node)
    ensures { AreCountedOn (λ i. names_in i node.now) counts.old counts.new }
{
    match node {
        Node::Dir { entries, .. } => count_entries(counts, entries),
        Node::File { .. } => {}
        Node::Link { .. } => {}
    }
}

// Counts the names of all nodes.
fn count_names(counts: &mut [u64], nodes: &BTreeMap<u64, Node>)
    ensures { AreCountedOn (λ i. sum_by (names_in i) (values_of nodes.now.entries)) counts.old counts.new }
{
    for node in nodes.values() {
        count_node(counts, node);
    }
}

// The links of the node of a birth.
fn links_of(nodes: &BTreeMap<u64, Node>, birth: u64) -> u32
    ensures { result ≡ links_of (lookup (is_at (nat_cmp birth)) nodes.now.entries) }
{
    match nodes.get(&birth) {
        Some(Node::Dir { .. }) => 1,
        Some(Node::File { links, .. }) => *links,
        Some(Node::Link { links, .. }) => *links,
        None => 0,
    }
}

// Whether the node of a birth has as many names as links; the root has one that is no entry.
#[tactic(auto, using(crate::proofs::Linked::capped))]
fn is_linked(counts: &[u64], nodes: &BTreeMap<u64, Node>, i: u32) -> bool
    requires within { i < length counts.now }
    requires counted { slice_index counts.now i ≡ counted (sum_by (names_in i) (values_of nodes.now.entries)) }
    ensures { result ≡ is_linked nodes.now.entries i }
{
    let root = if i == ROOT_INODE { 1 } else { 0 };
    let names = counts[i as usize].saturating_add(root);
    names == u64::from(links_of(nodes, u64::from(i)))
}

#[tactic(auto, using(standing_laws::proofs::Bounded::all_more))]
fn are_linked(counts: &[u64], nodes: &BTreeMap<u64, Node>, n: u32) -> bool
    requires length { length counts.now ≡ n }
    requires counted { (i : ℕ) → i < n → slice_index counts.now i ≡ counted (sum_by (names_in i) (values_of nodes.now.entries)) }
    ensures { result ≡ all_below n (is_linked nodes.now.entries) }
{
    let mut all = true;
    for i in 0..n {
        all = all && is_linked(counts, nodes, i);
    }
    all
}

/// Whether each of the first `n` births has as many names as links.
pub(crate) fn links_agree(
    alloc: Global,
    nodes: &BTreeMap<u64, Node>,
    n: u32,
) -> Result<bool, NoMemory>
    ensures { IfOk result (λ b. b ≡ all_below n (is_linked nodes.now.entries)) }
{
    let mut counts = vec![in alloc; 0u64; n as usize]?;
    count_names(&mut counts, nodes);
    Ok(are_linked(&counts, nodes, n))
}
