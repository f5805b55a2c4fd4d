// The faults of a disk, in order of their sectors and kinds.
ghost use Rattle.std.specs.Prelude.{◌≡◌, ◌≤◌, ◌<◌, ◌+◌, ◌*◌, ◌++◌, IfOk, OnOk};
ghost use Rattle.disk_definitions.specs.Regions.{sector_of};
ghost use Rattle.disk_reading.specs.Marks.{flag_at};
ghost use Rattle.disk_reading.specs.Seen.{store_in};
ghost use Rattle.report_definitions.specs.Sums as sums;
ghost use Rattle.report_definitions.specs.Report as report;
ghost use Rattle.report_rules.specs.Seen.{stored, view_in};
ghost use Rattle.report_rules.specs.Tables.{AreTables};
ghost use Rattle.disk_check.specs.Told.{faults_told};

use crate::report::Fault;
use disk_reading::DecodedDisk;
use frang_base::NoMemory;
use frang_base::limits::{SEGMENT_BLOCKS, SEGMENT_INODES, SEGMENTS_MAX, SMALL_BLOCK_SECTORS};
use frang_layout::{Region, sector_of};
use report_rules::Tables;
use report_rules::inodes::{are_blocks_fine, is_count_fine, is_named_once, is_root_fine};
use report_rules::parts::{are_entries_fine, is_sector_fine};
use report_rules::segments::{are_bits_fine, is_mark_fine, is_segment_fine};
use std::alloc::Global;

// Adds the fault of a sector, where it isn't fine.
fn push(faults: &mut Vec<Fault>, fine: bool, region: &Region, kind: u8) -> Result<(), NoMemory>
    ensures { OnOk result (faults_told faults.new.items ≡ faults_told faults.old.items ++ report.fault_unless fine (sector_of region.now) kind) }
{
    if fine {
        return Ok(());
    }
    let sector = sector_of(region);
    faults.push(Fault { sector, kind })?;
    Ok(())
}

/// The faults of a segment's own sector, of kinds 7 to 9, unless memory runs out.
pub fn segment_faults(
    alloc: Global,
    disk: &DecodedDisk<'_>,
    most: u64,
    segments: u32,
    tables: &Tables,
    k: u32,
) -> Result<Vec<Fault>, NoMemory>
    requires few { segments ≤ SEGMENTS_MAX }
    requires tables { AreTables segments (store_in segments disk.now) tables.now }
    requires within { k < segments }
    ensures { IfOk result (λ v. faults_told v.items ≡ report.segment_faults (view_in most segments disk.now) (flag_at tables.now.reached) k) }
{
    let at = Region::Segment(k);
    let mut faults = Vec::new(alloc);
    push(
        &mut faults,
        are_bits_fine(disk, segments, &tables.reached, k),
        &at,
        7,
    )?;
    push(
        &mut faults,
        is_segment_fine(disk, most, segments, tables, k),
        &at,
        8,
    )?;
    push(&mut faults, is_mark_fine(disk, segments, tables, k), &at, 9)?;
    Ok(faults)
}

// Adds the faults of an inode.
fn push_inode(
    faults: &mut Vec<Fault>,
    disk: &DecodedDisk<'_>,
    segments: u32,
    tables: &Tables,
    i: u32,
) -> Result<(), NoMemory>
    requires few { segments ≤ SEGMENTS_MAX }
    requires tables { AreTables segments (store_in segments disk.now) tables.now }
    requires within { i < SEGMENT_INODES * segments }
    ensures { OnOk result (faults_told faults.new.items ≡ faults_told faults.old.items ++ report.inode_faults (stored segments (store_in segments disk.now)) (flag_at tables.now.reached) i) }
{
    let at = Region::Inode(i);
    push(faults, is_root_fine(disk, segments, i), &at, 1)?;
    push(faults, is_count_fine(disk, segments, tables, i), &at, 4)?;
    push(faults, is_named_once(disk, segments, tables, i), &at, 5)?;
    push(faults, are_blocks_fine(disk, segments, tables, i), &at, 6)?;
    Ok(())
}

/// The faults of the inodes of a segment, in order, unless memory runs out.
pub fn inode_faults(
    alloc: Global,
    disk: &DecodedDisk<'_>,
    segments: u32,
    tables: &Tables,
    k: u32,
) -> Result<Vec<Fault>, NoMemory>
    requires few { segments ≤ SEGMENTS_MAX }
    requires tables { AreTables segments (store_in segments disk.now) tables.now }
    requires within { k < segments }
    ensures { IfOk result (λ v. faults_told v.items ≡ sums.gathered SEGMENT_INODES (λ j. report.inode_faults (stored segments (store_in segments disk.now)) (flag_at tables.now.reached) (SEGMENT_INODES * k + j))) }
{
    let mut faults = Vec::new(alloc);
    for j in 0..SEGMENT_INODES {
        push_inode(&mut faults, disk, segments, tables, SEGMENT_INODES * k + j)?;
    }
    Ok(faults)
}

// Adds the faults of a part of a small block.
fn push_part(
    faults: &mut Vec<Fault>,
    disk: &DecodedDisk<'_>,
    most: u64,
    segments: u32,
    tables: &Tables,
    block: u32,
    part: u8,
) -> Result<(), NoMemory>
    requires few { segments ≤ SEGMENTS_MAX }
    requires tables { AreTables segments (store_in segments disk.now) tables.now }
    requires within { block < SEGMENT_BLOCKS * segments }
    requires part { part < SMALL_BLOCK_SECTORS }
    ensures { OnOk result (faults_told faults.new.items ≡ faults_told faults.old.items ++ report.part_faults (view_in most segments disk.now) (flag_at tables.now.reached) block part) }
{
    let at = Region::Small { block, part };
    push(
        faults,
        is_sector_fine(disk, most, segments, tables, block, part),
        &at,
        2,
    )?;
    push(
        faults,
        are_entries_fine(disk, segments, tables, block, part),
        &at,
        3,
    )?;
    Ok(())
}

// Adds the faults of the parts of a small block.
fn push_parts(
    faults: &mut Vec<Fault>,
    disk: &DecodedDisk<'_>,
    most: u64,
    segments: u32,
    tables: &Tables,
    block: u32,
) -> Result<(), NoMemory>
    requires few { segments ≤ SEGMENTS_MAX }
    requires tables { AreTables segments (store_in segments disk.now) tables.now }
    requires within { block < SEGMENT_BLOCKS * segments }
    ensures { OnOk result (faults_told faults.new.items ≡ faults_told faults.old.items ++ sums.gathered SMALL_BLOCK_SECTORS (report.part_faults (view_in most segments disk.now) (flag_at tables.now.reached) block)) }
{
    for part in 0..SMALL_BLOCK_SECTORS as u8 {
        push_part(faults, disk, most, segments, tables, block, part)?;
    }
    Ok(())
}

/// The faults of the parts of a segment's small blocks, in order, unless memory runs out.
pub fn part_faults(
    alloc: Global,
    disk: &DecodedDisk<'_>,
    most: u64,
    segments: u32,
    tables: &Tables,
    k: u32,
) -> Result<Vec<Fault>, NoMemory>
    requires few { segments ≤ SEGMENTS_MAX }
    requires tables { AreTables segments (store_in segments disk.now) tables.now }
    requires within { k < segments }
    ensures { IfOk result (λ v. faults_told v.items ≡ sums.gathered SEGMENT_BLOCKS (λ j. sums.gathered SMALL_BLOCK_SECTORS (report.part_faults (view_in most segments disk.now) (flag_at tables.now.reached) (SEGMENT_BLOCKS * k + j)))) }
{
    let mut faults = Vec::new(alloc);
    for j in 0..SEGMENT_BLOCKS {
        push_parts(
            &mut faults,
            disk,
            most,
            segments,
            tables,
            SEGMENT_BLOCKS * k + j,
        )?;
    }
    Ok(faults)
}
