// The parts of small blocks in which a directory that is reached has a name that stands before.
ghost use Rattle.std.specs.Prelude.{◌≡◌, ◌≤◌, ◌<◌, ◌+◌, ◌*◌, ◌==◌, ◌&&◌, true, false, not, is_some, length, replicate, IfOk, OnOk};
ghost use Rattle.frang_base.specs.Name.{is_name};
ghost use Rattle.tree_definitions.specs.Entries.{entry_at, with_entry};
ghost use Rattle.disk_definitions.specs.Directories.{name_in};
ghost use Rattle.disk_definitions.specs.Store.{stored};
ghost use Rattle.standing_laws.specs.ReadTree.{place_at, with_place, entries_to};
ghost use Rattle.standing_laws.specs.Below.{holds, lists, any_below};
ghost use Rattle.disk_reading.specs.Marks.{flag_at};
ghost use Rattle.disk_reading.specs.Reach.{AreFlaggedOn};
ghost use Rattle.disk_reading.specs.Seen.{store_in};
ghost use Rattle.report_rules.specs.Repeats.{repeat_at, repeats_in, repeats_to};

use crate::flags::Flags;
use disk_definitions::{DirEntry, Inode};
use disk_reading::DecodedDisk;
use disk_reading::sectors::{entry_at, used_inode};
use frang_base::limits::{
    BLOCK_ENTRIES, DIRECTORY_ENTRIES_MAX, INODE_BLOCKS_MAX, KIND_DIRECTORY, NAME_BYTES_MAX,
    SECTOR_ENTRIES, SEGMENT_BLOCKS, SEGMENT_INODES, SEGMENTS_MAX, SMALL_BLOCK_SECTORS,
};
use frang_base::{Name, NoMemory};
use std::alloc::Global;
use tree_definitions::Entries;

// The name of an entry.
fn name_of(entry: &DirEntry) -> Name
    requires name { is_name (name_in entry.now) ≡ true }
    requires len { entry.now.len ≤ NAME_BYTES_MAX }
    ensures { result ≡ name_in entry.now }
{
    match Name::of(&entry.name[..entry.len as usize]) {
        Some(name) => name,
        None => unreachable!(),
    }
}

// Adds the name of an entry. Whether it wasn't there.
fn add_name(entries: &mut Entries, entry: &DirEntry) -> Result<bool, NoMemory>
    requires name { is_name (name_in entry.now) ≡ true }
    requires len { entry.now.len ≤ NAME_BYTES_MAX }
    requires room { length entries.old < DIRECTORY_ENTRIES_MAX }
    ensures is { IfOk result (λ b. b ≡ not (is_some (entry_at entries.old (name_in entry.now)))) }
    ensures added { OnOk result (entries.new ≡ with_entry entries.old (name_in entry.now) entry.now.inode) }
{
    let name = name_of(entry);
    let new = entries.get(&name).is_none();
    entries.insert(name, u64::from(entry.inode))?;
    Ok(new)
}

// Flags the part of a place whose name stands before, and adds its name to those before.
fn flag_place(
    repeats: &mut Flags,
    entries: &mut Entries,
    disk: &DecodedDisk<'_>,
    segments: u32,
    inode: &Inode,
    q: u32,
) -> Result<(), NoMemory>
    requires few { segments ≤ SEGMENTS_MAX }
    requires blocks { inode.now.blocks ≤ INODE_BLOCKS_MAX }
    requires within { q < BLOCK_ENTRIES * inode.now.blocks }
    requires room { length entries.old < DIRECTORY_ENTRIES_MAX }
    requires before { entries.old ≡ entries_to (place_at (store_in segments disk.now) (stored inode.now)) q }
    ensures added { OnOk result (entries.new ≡ with_place entries.old (place_at (store_in segments disk.now) (stored inode.now) q)) }
    ensures flags { OnOk result (AreFlaggedOn (holds (repeat_at (place_at (store_in segments disk.now) (stored inode.now)) (stored inode.now).small q)) repeats.old repeats.new) }
{
    let block = inode.small[(q / BLOCK_ENTRIES) as usize];
    let place = q % BLOCK_ENTRIES;
    let Some(entry) = entry_at(disk, segments, block, place) else {
        return Ok(());
    };
    if add_name(entries, &entry)? {
        return Ok(());
    }
    let part = (place / SECTOR_ENTRIES) as usize;
    repeats.set(SMALL_BLOCK_SECTORS as usize * block as usize + part);
    Ok(())
}

// Flags the parts of a directory.
fn flag_directory(
    repeats: &mut Flags,
    alloc: Global,
    disk: &DecodedDisk<'_>,
    segments: u32,
    inode: &Inode,
) -> Result<(), NoMemory>
    requires few { segments ≤ SEGMENTS_MAX }
    requires blocks { inode.now.blocks ≤ INODE_BLOCKS_MAX }
    ensures { OnOk result (AreFlaggedOn (λ k. lists (repeat_at (place_at (store_in segments disk.now) (stored inode.now)) (stored inode.now).small) (BLOCK_ENTRIES * inode.now.blocks) k) repeats.old repeats.new) }
{
    let mut entries = Entries::new(alloc);
    for q in 0..BLOCK_ENTRIES * u32::from(inode.blocks) {
        flag_place(repeats, &mut entries, disk, segments, inode, q)?;
    }
    Ok(())
}

// Flags the parts of an inode, where that is a directory.
#[tactic(auto, using(disk_reading::proofs::PlaceByPlace::dir_few))]
fn flag_inode(
    repeats: &mut Flags,
    alloc: Global,
    disk: &DecodedDisk<'_>,
    segments: u32,
    d: u32,
) -> Result<(), NoMemory>
    requires few { segments ≤ SEGMENTS_MAX }
    ensures { OnOk result (AreFlaggedOn (repeats_in (store_in segments disk.now) ((store_in segments disk.now).inode d)) repeats.old repeats.new) }
{
    match used_inode(disk, segments, d) {
        Some(inode) if inode.kind == KIND_DIRECTORY => flag_directory(
            repeats, alloc, disk, segments, &inode,
        ),
        _ => Ok(()),
    }
}

// Flags the parts of an inode that is reached.
fn flag_reached(
    repeats: &mut Flags,
    alloc: Global,
    disk: &DecodedDisk<'_>,
    segments: u32,
    reached: &Flags,
    d: u32,
) -> Result<(), NoMemory>
    requires few { segments ≤ SEGMENTS_MAX }
    ensures { OnOk result (AreFlaggedOn (λ k. flag_at reached.now d && repeats_in (store_in segments disk.now) ((store_in segments disk.now).inode d) k) repeats.old repeats.new) }
{
    if reached.has(d as usize) {
        flag_inode(repeats, alloc, disk, segments, d)
    } else {
        Ok(())
    }
}

/// The flags of the parts of small blocks, 8 to a block, in which a directory that is reached has a name that stands before.
pub fn repeats(
    alloc: Global,
    disk: &DecodedDisk<'_>,
    segments: u32,
    reached: &Flags,
) -> Result<Flags, NoMemory>
    requires few { segments ≤ SEGMENTS_MAX }
    ensures { IfOk result (λ f. AreFlaggedOn (repeats_to (store_in segments disk.now) (flag_at reached.now) (SEGMENT_INODES * segments)) (replicate (SMALL_BLOCK_SECTORS * SEGMENT_BLOCKS * segments) false) f) }
{
    let mut repeats = Flags::new(
        alloc,
        (SMALL_BLOCK_SECTORS * SEGMENT_BLOCKS * segments) as usize,
    )?;
    for d in 0..SEGMENT_INODES * segments {
        flag_reached(&mut repeats, alloc, disk, segments, reached, d)?;
    }
    Ok(repeats)
}
