// The nodes of a tree by their births, one changed at a time.
ghost use Rattle.std.specs.Prelude.{◌≡◌, IfSome, OnOk, OnErr, Some, None};
ghost use Rattle.std.specs.Ordering.{nat_cmp};
ghost use Rattle.std.specs.BTreeMap.{get, is_at, insert_entry};
ghost use Rattle.std.specs.Map.{remove_entry};
ghost use Rattle.tree_edits.specs.Counts.{blocks_in, IsSwapped};
ghost use Rattle.tree_edits.specs.Edits.{without_name, with_name, with_blocks, with_links, with_cells, with_first, with_doubt, CanPut, Names, IsEdited};
ghost use Rattle.tree_edits.specs.Written.{cells_of};

use crate::counts::Blocks;
use crate::edits::{self, Bytes};
use frang_base::{Name, NoMemory};
use std::collections::BTreeMap;
use tree_definitions::Node;

/// What the node of a birth takes, or nothing.
pub fn blocks_in(nodes: &BTreeMap<u64, Node>, birth: u64) -> Blocks
    ensures { result ≡ blocks_in nodes.now.entries birth }
{
    match nodes.get(&birth) {
        Some(node) => Blocks::of(node),
        None => Blocks::NONE,
    }
}

/// A birth gets this node, in place of one that it may have. `NoMemory` comes only where it has none.
pub fn put(nodes: &mut BTreeMap<u64, Node>, birth: u64, node: Node) -> Result<(), NoMemory>
    ensures ok { OnOk result (nodes.new.entries ≡ insert_entry nat_cmp nodes.old.entries birth node) }
    ensures there { OnOk result (get nat_cmp nodes.new birth ≡ Some node) }
    ensures swapped { IsSwapped nodes.old.entries birth nodes.new.entries }
    ensures err { OnErr result (nodes.new.entries ≡ nodes.old.entries) }
    ensures absent { OnErr result (get nat_cmp nodes.old birth ≡ None) }
{
    nodes.insert(birth, node)?;
    Ok(())
}

/// The node of a birth is gone.
pub fn remove(nodes: &mut BTreeMap<u64, Node>, birth: u64)
    ensures is { nodes.new.entries ≡ remove_entry (is_at (nat_cmp birth)) nodes.old.entries }
    ensures gone { get nat_cmp nodes.new birth ≡ None }
    ensures swapped { IsSwapped nodes.old.entries birth nodes.new.entries }
{
    nodes.remove(&birth);
}

/// A directory loses a name.
pub fn drop_name(nodes: &mut BTreeMap<u64, Node>, dir: u64, name: &Name)
    ensures { IsEdited (without_name name.now) nodes.old.entries dir nodes.new.entries }
{
    if let Some(node) = nodes.get_mut(&dir) {
        edits::drop_name(node, name);
    }
}

/// A directory has this node at a name that is there.
pub fn set_name(nodes: &mut BTreeMap<u64, Node>, dir: u64, name: &Name, birth: u64)
    requires { IfSome (get nat_cmp nodes.old dir) (Names name.now) }
    ensures { IsEdited (with_name name.now birth) nodes.old.entries dir nodes.new.entries }
{
    if let Some(node) = nodes.get_mut(&dir) {
        edits::set_name(node, name, birth);
    }
}

/// A directory has so many blocks.
pub fn set_blocks(nodes: &mut BTreeMap<u64, Node>, dir: u64, count: u32)
    ensures { IsEdited (with_blocks count) nodes.old.entries dir nodes.new.entries }
{
    if let Some(node) = nodes.get_mut(&dir) {
        edits::set_blocks(node, count);
    }
}

/// A node that is no directory has so many names.
pub fn set_links(nodes: &mut BTreeMap<u64, Node>, birth: u64, count: u32)
    ensures { IsEdited (with_links count) nodes.old.entries birth nodes.new.entries }
{
    if let Some(node) = nodes.get_mut(&birth) {
        edits::set_links(node, count);
    }
}

/// Bytes are put into a file, at a time. After `NoMemory` the nodes are as before.
#[tactic(auto, using(std::proofs::lemmas::Map::Steps::set_value_same))]
pub fn put_bytes(
    nodes: &mut BTreeMap<u64, Node>,
    birth: u64,
    when: u64,
    off: usize,
    bytes: &Bytes,
) -> Result<(), NoMemory>
    requires { IfSome (get nat_cmp nodes.old birth) (CanPut off (cells_of bytes.now)) }
    ensures ok { OnOk result (IsEdited (with_cells when off (cells_of bytes.now)) nodes.old.entries birth nodes.new.entries) }
    ensures err { OnErr result (nodes.new.entries ≡ nodes.old.entries) }
{
    if let Some(node) = nodes.get_mut(&birth) {
        edits::put_bytes(node, when, off, bytes)?;
    }
    Ok(())
}

/// A file keeps its first bytes, at a time.
pub fn cut(nodes: &mut BTreeMap<u64, Node>, birth: u64, when: u64, len: usize)
    ensures { IsEdited (with_first when len) nodes.old.entries birth nodes.new.entries }
{
    if let Some(node) = nodes.get_mut(&birth) {
        edits::cut(node, when, len);
    }
}

/// So many cells of a file from an offset on come into doubt.
pub fn doubt(nodes: &mut BTreeMap<u64, Node>, birth: u64, from: usize, count: usize)
    ensures { IsEdited (with_doubt from count) nodes.old.entries birth nodes.new.entries }
{
    if let Some(node) = nodes.get_mut(&birth) {
        edits::doubt(node, from, count);
    }
}
