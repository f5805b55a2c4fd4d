// The sectors that a sector which was read shows to be needed, added to those that are wanted.
ghost use Rattle.std.specs.Prelude.{◌≤◌, ◌<◌, ◌+◌, ◌∷◌, [], Some, option_to_list, slice_index};
ghost use Rattle.std.specs.List.{flat_map};
ghost use Rattle.std.specs.Option.{option_map};
ghost use Rattle.frang_base.specs.declared.limits.TheConstants.{INODE_BLOCKS_MAX, SECTOR_ENTRIES, SEGMENTS_MAX, SMALL_BLOCK_SECTORS, SMALL_SECTORS_MAX};
ghost use Rattle.tree_definitions.specs.Numbers.{below};
ghost use Rattle.disk_definitions.specs.Inodes.{inode_in};
ghost use Rattle.disk_definitions.specs.Store.{entered, stored, stored_node};
ghost use Rattle.core_definitions.specs.Trees.{block_sectors, directory_sectors, entry_inodes, inode_sector, shown_by};
ghost use Rattle.host_tree.specs.Reading.{needed_by};
ghost use Rattle.host_tree.specs.Wanting.{Adds};

use dir_lookup::{entry_at, used_inode};
use disk_definitions::{DirEntry, Inode};
use frang_base::limits::{KIND_DIRECTORY, SECTOR_ENTRIES, SMALL_BLOCK_SECTORS};
use frang_base::{Block, Sector};
use frang_layout::{Region, region_of, sector_of};
use meta_version::Sectors;
use ordered_map::OrderedMap;

/// Adds the sectors that are needed by this block of a sector, but those that are read. There is room for them.
pub(crate) fn add_needed(
    wanted: &mut OrderedMap<u64, ()>,
    read: &Sectors,
    segments: u32,
    sector: Sector,
    block: &Block,
)
    requires few { segments ≤ SEGMENTS_MAX }
    requires room { SMALL_SECTORS_MAX ≤ wanted.old.spare }
    ensures { Adds read.now.entries (needed_by segments sector.0 block.now) wanted.old.entries wanted.new.entries }
{
    match region_of(sector, segments) {
        Some(region) => add_shown(wanted, read, region, block),
        None => {}
    }
}

// The same of a sector in a region: inodes and sectors of directories show some.
fn add_shown(wanted: &mut OrderedMap<u64, ()>, read: &Sectors, region: Region, block: &Block)
    requires { SMALL_SECTORS_MAX ≤ wanted.old.spare }
    ensures { Adds read.now.entries (shown_by (Some region) block.now) wanted.old.entries wanted.new.entries }
{
    match region {
        Region::Inode(_) => add_directory(wanted, read, block),
        Region::Small { .. } => add_entries(wanted, read, block),
        Region::Param => {}
        Region::Log { .. } => {}
        Region::Segment(_) => {}
        Region::Large { .. } => {}
    }
}

// Adds the sectors of a directory whose inode's sector this is.
fn add_directory(wanted: &mut OrderedMap<u64, ()>, read: &Sectors, block: &Block)
    requires { SMALL_SECTORS_MAX ≤ wanted.old.spare }
    ensures { Adds read.now.entries (directory_sectors (stored_node (inode_in block.now))) wanted.old.entries wanted.new.entries }
{
    match used_inode(block) {
        Some(inode) => add_blocks_of(wanted, read, &inode),
        None => {}
    }
}

// Adds the sectors of the blocks of a node, where it is a directory.
fn add_blocks_of(wanted: &mut OrderedMap<u64, ()>, read: &Sectors, inode: &Inode)
    requires room { SMALL_SECTORS_MAX ≤ wanted.old.spare }
    requires blocks { inode.now.blocks ≤ INODE_BLOCKS_MAX }
    ensures { Adds read.now.entries (directory_sectors (Some (stored inode.now))) wanted.old.entries wanted.new.entries }
{
    if inode.kind == KIND_DIRECTORY {
        add_blocks(wanted, read, inode);
    }
}

// Adds the sectors of the blocks of a directory.
fn add_blocks(wanted: &mut OrderedMap<u64, ()>, read: &Sectors, inode: &Inode)
    requires room { SMALL_SECTORS_MAX ≤ wanted.old.spare }
    requires blocks { inode.now.blocks ≤ INODE_BLOCKS_MAX }
    ensures { Adds read.now.entries (flat_map (λ index. block_sectors (slice_index inode.now.small index)) (below inode.now.blocks)) wanted.old.entries wanted.new.entries }
{
    for i in 0..inode.blocks {
        add_block(wanted, read, inode.small[usize::from(i)]);
    }
}

// Adds the sectors of a small block.
fn add_block(wanted: &mut OrderedMap<u64, ()>, read: &Sectors, block: u32)
    requires { SMALL_BLOCK_SECTORS ≤ wanted.old.spare }
    ensures added { Adds read.now.entries (block_sectors block) wanted.old.entries wanted.new.entries }
    ensures spare { wanted.old.spare ≤ wanted.new.spare + SMALL_BLOCK_SECTORS }
{
    for i in 0..SMALL_BLOCK_SECTORS {
        let part = i as u8;
        add_one(wanted, read, sector_of(&Region::Small { block, part }));
    }
}

// Adds the inodes of the entries of a directory's sector, where the block is one.
fn add_entries(wanted: &mut OrderedMap<u64, ()>, read: &Sectors, block: &Block)
    requires { SECTOR_ENTRIES ≤ wanted.old.spare }
    ensures { Adds read.now.entries (entry_inodes block.now) wanted.old.entries wanted.new.entries }
{
    let Some(sector) = dir_block::decode(block) else {
        return;
    };
    for place in 0..SECTOR_ENTRIES {
        add_entry(wanted, read, entry_at(&sector, place as u8));
    }
}

// Adds the inode of an entry, where there is one.
fn add_entry(wanted: &mut OrderedMap<u64, ()>, read: &Sectors, entry: Option<DirEntry>)
    requires { 0 < wanted.old.spare }
    ensures added { Adds read.now.entries (option_to_list (option_map (λ e. inode_sector e.inode) (option_map entered entry))) wanted.old.entries wanted.new.entries }
    ensures spare { wanted.old.spare ≤ wanted.new.spare + 1 }
{
    match entry {
        Some(entry) => add_one(wanted, read, sector_of(&Region::Inode(entry.inode))),
        None => {}
    }
}

// Adds a sector, where it isn't read.
fn add_one(wanted: &mut OrderedMap<u64, ()>, read: &Sectors, sector: Sector)
    requires { 0 < wanted.old.spare }
    ensures added { Adds read.now.entries (sector.0 ∷ []) wanted.old.entries wanted.new.entries }
    ensures spare { wanted.old.spare ≤ wanted.new.spare + 1 }
{
    if read.get(sector).is_none() {
        wanted.put(sector.0, ());
    }
}
