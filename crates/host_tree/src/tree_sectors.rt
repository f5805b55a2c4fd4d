// The sectors of the tree that were read, and those that are still to be read.
ghost use Rattle.std.specs.Prelude.{◌≡◌, ◌≤◌, ◌<◌, ◌*◌, ◌+◌, [], ℕ, true, length, slice_index, IfOk, IfSome, IsTrue, OnOk};
ghost use Rattle.std.specs.List.{slice_get};
ghost use Rattle.std.specs.Map.{keys_of};
ghost use Rattle.std.specs.Option.{option_map};
ghost use Rattle.frang_base.specs.Functions.{member};
ghost use Rattle.frang_base.specs.declared.limits.TheConstants.{ROOT_INODE, SECTOR_ENTRIES, SEGMENTS_MAX, SMALL_SECTORS_MAX};
ghost use Rattle.sector_bytes.specs.Sectors.{sectors_of};
ghost use Rattle.sector_bytes.specs.SectorMaps.{with_value};
ghost use Rattle.disk_definitions.specs.Directories.{directory_fits};
ghost use Rattle.disk_definitions.specs.Naming.{place_of};
ghost use Rattle.disk_definitions.specs.Store.{entry_in, stored};
ghost use Rattle.ordered_map.specs.Chunks.{joined};
ghost use Rattle.core_definitions.specs.Trees.{inode_sector};
ghost use Rattle.dir_lookup.specs.Stored.{IsUsed};
ghost use Rattle.host_tree.specs.Reading.{needed, store_read};

use crate::wanting::add_needed;
use dir_lookup::used_inode;
use disk_definitions::{DirSector, Inode};
use frang_base::limits::{
    ROOT_INODE, SEGMENT_BLOCKS, SEGMENT_INODES, SMALL_BLOCK_SECTORS, SMALL_SECTORS_MAX,
};
use frang_base::{Block, NoMemory, Sector};
use frang_layout::{Region, sector_of};
use meta_version::Sectors;
use ordered_map::{Chunk, OrderedMap};
use sector_bytes::zero_block;
use std::alloc::Global;
use std::marker::Model;

/// The sectors of a tree of so many segments that were read, each with its block, ascending, and whether there is room for one more.
#[derive(Drop)]
pub(crate) struct TreeSectors {
    segments: u32,
    blocks: Sectors,
    // Those that are needed and not read yet.
    wanted: OrderedMap<u64, ()>,
}

impl Model for TreeSectors {
    ghost use Rattle.std.specs.Prelude.{◌≤◌, ◌&&◌, nat_le, nat_lt};
    ghost use Rattle.frang_base.specs.declared.limits.TheConstants.{SEGMENTS_MAX, SMALL_SECTORS_MAX};
    ghost use Rattle.host_tree.specs.Reading.{SectorsRead};
    ghost use Rattle.host_tree.specs.Wanting.{AreWanted};

    ghost Value = { SectorsRead };

    ghost view = { λ t. record { segments = t.segments; read = t.blocks.entries; has_room = nat_lt 0 t.blocks.spare && nat_le SMALL_SECTORS_MAX t.wanted.spare } };

    ghost invariant = { λ t. (t.segments ≤ SEGMENTS_MAX) × AreWanted t.segments t.blocks.entries t.wanted.entries };
}

// The root's inode alone.
fn root_alone(alloc: Global) -> Result<OrderedMap<u64, ()>, NoMemory>
    ensures { IfOk result (λ m. m.entries ≡ with_value [] (inode_sector ROOT_INODE) tt) }
{
    let mut wanted = OrderedMap::new(alloc);
    wanted.reserve(1)?;
    wanted.put(sector_of(&Region::Inode(ROOT_INODE)).0, ());
    Ok(wanted)
}

impl TreeSectors {
    /// None read.
    pub(crate) fn new(alloc: Global, segments: u32) -> Result<TreeSectors, NoMemory>
        requires { segments ≤ SEGMENTS_MAX }
        ensures segments { IfOk result (λ t. t.segments ≡ segments) }
        ensures read { IfOk result (λ t. t.read ≡ []) }
    {
        Ok(TreeSectors {
            segments,
            blocks: Sectors::new(alloc),
            wanted: root_alone(alloc)?,
        })
    }

    /// How many were read.
    pub(crate) fn count(&self) -> usize
        ensures { result ≡ length self.now.read }
    {
        self.blocks.count()
    }

    /// Whether the sector is still to be read.
    pub(crate) fn needs(&self, sector: Sector) -> bool
        ensures { result ≡ member sector.0 (needed self.now.segments self.now.read) }
    {
        match self.wanted.get(&sector.0) {
            Some(_) => true,
            None => false,
        }
    }

    /// The first sector that is still to be read. `None` exactly where none is.
    pub(crate) fn first_needed(&self) -> Option<Sector>
        ensures { option_map (λ sector. sector.0) result ≡ slice_get (needed self.now.segments self.now.read) 0 }
    {
        match self.wanted.first() {
            Some(entry) => Some(Sector(entry.0)),
            None => None,
        }
    }

    /// The sectors that are still to be read, in pieces that follow one another.
    pub(crate) fn needed(&self) -> &[Chunk<u64, ()>]
        ensures { keys_of (joined result.now) ≡ needed self.now.segments self.now.read }
    {
        self.wanted.chunks()
    }

    /// Makes room for one more sector. Nothing else changes, whatever the answer.
    pub(crate) fn reserve(&mut self) -> Result<(), NoMemory>
        ensures segments { self.new.segments ≡ self.old.segments }
        ensures read { self.new.read ≡ self.old.read }
        ensures ok { OnOk result (self.new.has_room ≡ true) }
    {
        self.blocks.reserve(1)?;
        self.wanted.reserve(SMALL_SECTORS_MAX as usize)?;
        Ok(())
    }

    /// A sector that is needed was read, and has this block. There is room for it.
    pub(crate) fn put(&mut self, sector: Sector, block: &Block)
        requires needed { member sector.0 (needed self.old.segments self.old.read) ≡ true }
        requires room { self.old.has_room ≡ true }
        ensures segments { self.new.segments ≡ self.old.segments }
        ensures read { self.new.read ≡ with_value self.old.read sector.0 block.now }
    {
        self.blocks.put(sector, *block);
        self.wanted.remove(&sector.0);
        add_needed(&mut self.wanted, &self.blocks, self.segments, sector, block);
        // The map's keys ascend.
        let _ = self.wanted.count();
    }

    // The block of a sector, zeros where it isn't read.
    fn block(&self, sector: Sector) -> Block
        ensures { result ≡ sectors_of self.now.read sector.0 }
    {
        match self.blocks.get(sector) {
            Some(block) => *block,
            None => zero_block(),
        }
    }

    /// The inode of this number, where it is in use and on the disk.
    pub(crate) fn inode(&self, number: u64) -> Option<Inode>
        ensures is { option_map stored result ≡ (store_read self.now.segments self.now.read).inode number }
        ensures used { IfSome result IsUsed }
    {
        if number >= u64::from(SEGMENT_INODES * self.segments) {
            return None;
        }
        used_inode(&self.block(sector_of(&Region::Inode(number as u32))))
    }

    /// Sector `j` of a directory, 8 to a block. `None` where it is no sector of a directory, or past the segments.
    pub(crate) fn part(&self, directory: &Inode, j: u32) -> Option<DirSector>
        requires { j < SMALL_SECTORS_MAX }
        ensures is { (place : ℕ) → place < SECTOR_ENTRIES → entry_in result place ≡ place_of (store_read self.now.segments self.now.read).place (slice_index directory.now.small) (SECTOR_ENTRIES * j + place) }
        ensures fits { IfSome result (λ x. IsTrue (directory_fits x)) }
    {
        let block = directory.small[(j / SMALL_BLOCK_SECTORS) as usize];
        if block >= SEGMENT_BLOCKS * self.segments {
            return None;
        }
        let part = (j % SMALL_BLOCK_SECTORS) as u8;
        dir_block::decode(&self.block(sector_of(&Region::Small { block, part })))
    }
}
