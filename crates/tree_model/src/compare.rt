// Whether nodes are equal, and whether they are but for the bytes of files.
ghost use Rattle.std.specs.Prelude.{◌≡◌, ◌==◌, ◌&&◌, nat_eq, map};
ghost use Rattle.std.specs.List.{list_any};
ghost use Rattle.std.specs.Cmp.Lexicographic.{pointwise};
ghost use Rattle.tree_definitions.specs.Touched.{same_cell, same_node, node_shape, shape_of, births, differs};

use crate::Tree;
use std::collections::BTreeMap;
use tree_definitions::{Cells, Entries, Node};

fn same_cells(a: &Cells, b: &Cells) -> bool
    ensures { result ≡ pointwise same_cell a.now b.now }
{
    a.as_slice() == b.as_slice()
}

fn same_entries(a: &Entries, b: &Entries) -> bool
    ensures { result ≡ pointwise (λ e f. pointwise nat_eq e.0 f.0 && e.1 == f.1) a.now b.now }
{
    a.as_map() == b.as_map()
}

fn same_node(a: &Node, b: &Node) -> bool
    ensures { result ≡ same_node a.now b.now }
{
    match (a, b) {
        (
            Node::Dir { entries, blocks },
            Node::Dir {
                entries: others,
                blocks: n,
            },
        ) => same_entries(entries, others) && *blocks == *n,
        (
            Node::File { cells, links, when },
            Node::File {
                cells: others,
                links: n,
                when: at,
            },
        ) => same_cells(cells, others) && *links == *n && *when == *at,
        (
            Node::Link { target, links },
            Node::Link {
                target: other,
                links: n,
            },
        ) => target.as_slice() == other.as_slice() && *links == *n,
        _ => false,
    }
}

// Whether nodes are the same but for the bytes of files.
fn same_shape(a: &Node, b: &Node) -> bool
    ensures { result ≡ same_node (node_shape a.now) (node_shape b.now) }
{
    match (a, b) {
        (
            Node::File { cells, links, when },
            Node::File {
                cells: others,
                links: n,
                when: at,
            },
        ) => cells.len() == others.len() && *links == *n && *when == *at,
        _ => same_node(a, b),
    }
}

/// Whether two trees differ at a birth.
pub fn differs(old: &Tree, new: &Tree, birth: u64) -> bool
    ensures { result ≡ differs old.now new.now birth }
{
    match (old.node(birth), new.node(birth)) {
        (Some(a), Some(b)) => !same_node(a, b),
        (None, None) => false,
        (Some(_), None) | (None, Some(_)) => true,
    }
}

// Whether two trees differ in shape at a birth.
fn shapes_differ(old: &Tree, new: &Tree, birth: u64) -> bool
    ensures { result ≡ differs (shape_of old.now) (shape_of new.now) birth }
{
    match (old.node(birth), new.node(birth)) {
        (Some(a), Some(b)) => !same_shape(a, b),
        (None, None) => false,
        (Some(_), None) | (None, Some(_)) => true,
    }
}

// Whether two trees differ in shape at the birth of one of these nodes.
fn any_differs(nodes: &BTreeMap<u64, Node>, old: &Tree, new: &Tree) -> bool
    ensures { result ≡ list_any (differs (shape_of old.now) (shape_of new.now)) (map (λ n. n.0) nodes.now.entries) }
{
    for (birth, _) in nodes {
        if shapes_differ(old, new, *birth) {
            return true;
        }
    }
    false
}

/// Whether two trees differ in more than the bytes of files.
pub fn differ_in_shape(old: &Tree, new: &Tree) -> bool
    ensures { result ≡ list_any (differs (shape_of old.now) (shape_of new.now)) (births old.now new.now) }
{
    any_differs(old.nodes(), old, new) || any_differs(new.nodes(), old, new)
}
