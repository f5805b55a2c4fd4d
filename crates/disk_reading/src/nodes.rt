// The nodes of a disk, read off its inodes.
ghost use Rattle.std.specs.Prelude.{ℕ, [], ◌≡◌, ◌≢◌, ◌≤◌, ◌<◌, ◌*◌, true, Some, None, if◌then◌else◌, length, take, IfOk, IfSome};
ghost use Rattle.std.specs.Option.{option_map};
ghost use Rattle.frang_base.specs.Name.{is_name};
ghost use Rattle.disk_definitions.specs.Directories.{name_in};
ghost use Rattle.disk_definitions.specs.Inodes.{is_directory_inode, inode_fits};
ghost use Rattle.disk_definitions.specs.Store.{stored, entered};
ghost use Rattle.standing_laws.specs.ReadTree.{place_at, with_place, with_inode, nodes_to};
ghost use Rattle.standing_laws.specs.Below.{all_below};
ghost use Rattle.standing_laws.specs.Soundness as sound;
ghost use Rattle.disk_reading.specs.Files.{AreRead, IsNode};
ghost use Rattle.disk_reading.specs.Seen.{store_in};

use crate::decoded_disk::DecodedDisk;
use crate::files::read_cells;
use crate::sectors::{entry_at, has_kind, used_inode};
use disk_definitions::{DirEntry, Inode};
use frang_base::limits::{
    BLOCK_ENTRIES, DIRECTORY_ENTRIES_MAX, INODE_BLOCKS_MAX, KIND_DIRECTORY, KIND_FILE, KIND_FREE,
    NAME_BYTES_MAX, SEGMENT_INODES, SEGMENTS_MAX, TARGET_BYTES_MAX,
};
use frang_base::{Name, NoMemory, Text};
use std::alloc::Global;
use std::collections::BTreeMap;
use tree_definitions::{Entries, Node, Target};

// The name of an entry, where it is a new one and the entry names an inode in use of its kind.
fn agreed_name(
    disk: &DecodedDisk<'_>,
    segments: u32,
    entries: &Entries,
    entry: &DirEntry,
) -> Option<Name>
    requires few { segments ≤ SEGMENTS_MAX }
    requires name { is_name (name_in entry.now) ≡ true }
    requires len { entry.now.len ≤ NAME_BYTES_MAX }
    ensures { result ≡ (if sound.entry_agrees (store_in segments disk.now) entries.now (Some (entered entry.now)) then Some (name_in entry.now) else None) }
{
    let name = Name::of(&entry.name[..entry.len as usize])?;
    let new = entries.get(&name).is_none();
    if new && has_kind(disk, segments, entry.inode, entry.kind) {
        Some(name)
    } else {
        None
    }
}

// Adds the entry of a place, where there is one. False where it doesn't agree with those before it, or with the inode that it names.
fn add_place(
    entries: &mut Entries,
    disk: &DecodedDisk<'_>,
    segments: u32,
    place: Option<DirEntry>,
) -> Result<bool, NoMemory>
    requires few { segments ≤ SEGMENTS_MAX }
    requires proper { IfSome place (λ e. (is_name (name_in e) ≡ true) × (e.len ≤ NAME_BYTES_MAX)) }
    requires room { length entries.old < DIRECTORY_ENTRIES_MAX }
    ensures agrees { IfOk result (λ b. b ≡ sound.entry_agrees (store_in segments disk.now) entries.old (option_map entered place)) }
    ensures added { IfOk result (λ b. b ≡ true → entries.new ≡ with_place entries.old (option_map entered place)) }
{
    let Some(entry) = place else { return Ok(true) };
    let Some(name) = agreed_name(disk, segments, entries, &entry) else {
        return Ok(false);
    };
    entries.insert(name, u64::from(entry.inode))?;
    Ok(true)
}

/// The entries of a directory, in order of block, sector and place. `None` exactly where they don't agree with each other and with the
/// inodes that they name.
pub(crate) fn read_entries(
    alloc: Global,
    disk: &DecodedDisk<'_>,
    segments: u32,
    inode: &Inode,
) -> Result<Option<Entries>, NoMemory>
    requires few { segments ≤ SEGMENTS_MAX }
    requires blocks { inode.now.blocks ≤ INODE_BLOCKS_MAX }
    ensures { IfOk result (AreRead (store_in segments disk.now) (place_at (store_in segments disk.now) (stored inode.now)) (BLOCK_ENTRIES * inode.now.blocks)) }
{
    let mut entries = Entries::new(alloc);
    for q in 0..BLOCK_ENTRIES * u32::from(inode.blocks) {
        let block = inode.small[(q / BLOCK_ENTRIES) as usize];
        let place = entry_at(disk, segments, block, q % BLOCK_ENTRIES);
        if !add_place(&mut entries, disk, segments, place)? {
            return Ok(None);
        }
    }
    Ok(Some(entries))
}

// A directory. `None` exactly where its entries don't agree, or aren't as many as its size says.
fn read_directory(
    alloc: Global,
    disk: &DecodedDisk<'_>,
    segments: u32,
    inode: &Inode,
) -> Result<Option<Node>, NoMemory>
    requires few { segments ≤ SEGMENTS_MAX }
    requires kind { inode.now.kind ≡ KIND_DIRECTORY }
    requires blocks { inode.now.blocks ≤ INODE_BLOCKS_MAX }
    ensures { IfOk result (IsNode (store_in segments disk.now) (stored inode.now)) }
{
    let Some(entries) = read_entries(alloc, disk, segments, inode)? else {
        return Ok(None);
    };
    if entries.len() as u64 != inode.size {
        return Ok(None);
    }
    Ok(Some(Node::Dir {
        entries,
        blocks: u32::from(inode.blocks),
    }))
}

// The target of a link.
fn read_target(alloc: Global, inode: &Inode) -> Result<Target, NoMemory>
    requires { inode.now.size ≤ TARGET_BYTES_MAX }
    ensures { IfOk result (λ t. t ≡ take inode.now.size inode.now.target) }
{
    let mut text = Text::new(alloc);
    text.append(&inode.target[..inode.size as usize])?;
    Ok(Target::of(text))
}

// The node of an inode in use. `None` exactly where what it holds doesn't agree with the inode.
fn read_node(
    alloc: Global,
    disk: &DecodedDisk<'_>,
    segments: u32,
    inode: &Inode,
) -> Result<Option<Node>, NoMemory>
    requires few { segments ≤ SEGMENTS_MAX }
    requires fits { inode_fits inode.now ≡ true }
    requires large { inode.now.large ≤ SEGMENTS_MAX }
    requires used { inode.now.kind ≢ KIND_FREE }
    ensures { IfOk result (IsNode (store_in segments disk.now) (stored inode.now)) }
{
    let links = u32::from(inode.links);
    if inode.kind == KIND_DIRECTORY {
        return read_directory(alloc, disk, segments, inode);
    }
    if inode.kind == KIND_FILE {
        let cells = read_cells(alloc, disk, segments, inode)?;
        let when = inode.when;
        return Ok(Some(Node::File { cells, links, when }));
    }
    let target = read_target(alloc, inode)?;
    Ok(Some(Node::Link { target, links }))
}

// Adds the node of an inode in use. False where what it holds doesn't agree with the inode.
fn add_inode(
    nodes: &mut BTreeMap<u64, Node>,
    alloc: Global,
    disk: &DecodedDisk<'_>,
    segments: u32,
    i: u32,
) -> Result<bool, NoMemory>
    requires few { segments ≤ SEGMENTS_MAX }
    requires large { (g : ℕ) → sound.large_at (store_in segments disk.now) i ≡ Some g → g < segments }
    ensures agrees { IfOk result (λ b. b ≡ sound.node_agrees (store_in segments disk.now) ((store_in segments disk.now).inode i)) }
    ensures added { IfOk result (λ b. b ≡ true → nodes.new.entries ≡ with_inode (store_in segments disk.now) nodes.old.entries i ((store_in segments disk.now).inode i)) }
{
    let Some(inode) = used_inode(disk, segments, i) else {
        return Ok(true);
    };
    let Some(node) = read_node(alloc, disk, segments, &inode)? else {
        return Ok(false);
    };
    nodes.insert(u64::from(i), node)?;
    Ok(true)
}

/// Adds the nodes of all inodes in use to none. False where what one of them holds doesn't agree with it.
pub(crate) fn add_nodes(
    nodes: &mut BTreeMap<u64, Node>,
    alloc: Global,
    disk: &DecodedDisk<'_>,
    segments: u32,
) -> Result<bool, NoMemory>
    requires few { segments ≤ SEGMENTS_MAX }
    requires none { nodes.old.entries ≡ [] }
    requires large { (i g : ℕ) → i < SEGMENT_INODES * segments → sound.large_at (store_in segments disk.now) i ≡ Some g → g < segments }
    ensures agree { IfOk result (λ b. b ≡ all_below (SEGMENT_INODES * segments) (λ i. sound.node_agrees (store_in segments disk.now) ((store_in segments disk.now).inode i))) }
    ensures added { IfOk result (λ b. b ≡ true → nodes.new.entries ≡ nodes_to (store_in segments disk.now) (SEGMENT_INODES * segments)) }
{
    for i in 0..SEGMENT_INODES * segments {
        if !add_inode(nodes, alloc, disk, segments, i)? {
            return Ok(false);
        }
    }
    Ok(true)
}
