// The check of a disk, segment by segment in threads.
ghost use Rattle.std.specs.Prelude.{◌≡◌, ◌↔◌, ◌≤◌, ◌<◌, ◌*◌, ◌++◌, ℕ, List, true, Some, length, vec_len, is_some, IfOk, OnOk};
ghost use Rattle.sector_bytes.specs.Sectors.{sectors_of};
ghost use Rattle.disk_definitions.specs.Params.{param_in};
ghost use Rattle.disk_definitions.specs.Replay.{replayed};
ghost use Rattle.disk_reading.specs.Marks.{flag_at};
ghost use Rattle.disk_reading.specs.Seen.{store_in};
ghost use Rattle.report_definitions.specs.Sums as sums;
ghost use Rattle.report_definitions.specs.Report as report;
ghost use Rattle.report_definitions.specs.Laws.{StandsForSome};
ghost use Rattle.report_rules.specs.Seen.{stored, view_in};
ghost use Rattle.report_rules.specs.Tables.{AreTables};
ghost use Rattle.disk_check.specs.Parts as spec;
ghost use Rattle.disk_check.specs.Told.{faults_told, told};
ghost use Rattle.disk_check.specs.PartsTold.{AreParts, IsPart, IsReportOf};

use crate::counts::count_of_kind;
use crate::faults::{inode_faults, part_faults, segment_faults};
use crate::report::{Fault, Report};
use disk_definitions::Disk;
use disk_reading::{DecodedDisk, replayed};
use frang_base::limits::{
    KIND_DIRECTORY, KIND_FILE, KIND_LINK, RUN_VERSIONS_MAX, SEGMENT_BLOCKS, SEGMENT_INODES,
    SEGMENTS_MAX, SMALL_BLOCK_SECTORS,
};
use frang_base::{NoMemory, Sector};
use param_block::Param;
use report_rules::{Tables, read_tables};
use std::alloc::Global;
use std::thread::{Threads, map_indices};

// The faults of a part of the disk, where there was memory for them.
type Part = Result<Vec<Fault>, NoMemory>;

// Adds the faults of all parts, in order.
fn append_all(faults: &mut Vec<Fault>, parts: &[Part]) -> Result<(), NoMemory>
    ensures { OnOk result ((f : ℕ → List sums.Fault) → AreParts (length parts.now) parts.now f → faults_told faults.new.items ≡ faults_told faults.old.items ++ sums.gathered (length parts.now) f) }
{
    for part in parts {
        match part {
            Ok(part) => faults.extend_from_slice(part)?,
            Err(fault) => return Err(*fault),
        }
    }
    Ok(())
}

// The faults of a segment's own sector.
fn segment_part(
    alloc: Global,
    disk: &DecodedDisk<'_>,
    most: u64,
    segments: u32,
    tables: &Tables,
    k: usize,
) -> Part
    requires few { segments ≤ SEGMENTS_MAX }
    requires tables { AreTables segments (store_in segments disk.now) tables.now }
    requires within { k < segments }
    ensures { IsPart result (spec.segment_part most segments disk.now tables.now.reached k) }
{
    segment_faults(alloc, disk, most, segments, tables, k as u32)
}

// The same of each segment, in threads.
fn segment_parts<R: Threads + Sync>(
    rt: &R,
    alloc: Global,
    disk: &DecodedDisk<'_>,
    most: u64,
    segments: u32,
    tables: &Tables,
) -> Result<Vec<Part>, NoMemory>
    requires few { segments ≤ SEGMENTS_MAX }
    requires tables { AreTables segments (store_in segments disk.now) tables.now }
    ensures len { IfOk result (λ v. vec_len v ≡ segments) }
    ensures parts { IfOk result (λ v. AreParts segments v.items (spec.segment_part most segments disk.now tables.now.reached)) }
{
    Ok(map_indices(
        rt,
        alloc,
        segments as usize,
        &|k| { segment_part(alloc, disk, most, segments, tables, k) },
    )?)
}

// Adds the faults of the segments' own sectors.
fn append_segments<R: Threads + Sync>(
    rt: &R,
    alloc: Global,
    faults: &mut Vec<Fault>,
    disk: &DecodedDisk<'_>,
    most: u64,
    segments: u32,
    tables: &Tables,
) -> Result<(), NoMemory>
    requires few { segments ≤ SEGMENTS_MAX }
    requires tables { AreTables segments (store_in segments disk.now) tables.now }
    ensures { OnOk result (faults_told faults.new.items ≡ faults_told faults.old.items ++ sums.gathered segments (report.segment_faults (view_in most segments disk.now) (flag_at tables.now.reached))) }
{
    let parts = segment_parts(rt, alloc, disk, most, segments, tables)?;
    append_all(faults, &parts)?;
    Ok(())
}

// The faults of the inodes of a segment.
fn inode_part(
    alloc: Global,
    disk: &DecodedDisk<'_>,
    segments: u32,
    tables: &Tables,
    k: usize,
) -> Part
    requires few { segments ≤ SEGMENTS_MAX }
    requires tables { AreTables segments (store_in segments disk.now) tables.now }
    requires within { k < segments }
    ensures { IsPart result (spec.inode_part segments disk.now tables.now.reached k) }
{
    inode_faults(alloc, disk, segments, tables, k as u32)
}

// The same of each segment, in threads.
fn inode_parts<R: Threads + Sync>(
    rt: &R,
    alloc: Global,
    disk: &DecodedDisk<'_>,
    segments: u32,
    tables: &Tables,
) -> Result<Vec<Part>, NoMemory>
    requires few { segments ≤ SEGMENTS_MAX }
    requires tables { AreTables segments (store_in segments disk.now) tables.now }
    ensures len { IfOk result (λ v. vec_len v ≡ segments) }
    ensures parts { IfOk result (λ v. AreParts segments v.items (spec.inode_part segments disk.now tables.now.reached)) }
{
    Ok(map_indices(
        rt,
        alloc,
        segments as usize,
        &|k| { inode_part(alloc, disk, segments, tables, k) },
    )?)
}

// Adds the faults of the inodes.
fn append_inodes<R: Threads + Sync>(
    rt: &R,
    alloc: Global,
    faults: &mut Vec<Fault>,
    disk: &DecodedDisk<'_>,
    segments: u32,
    tables: &Tables,
) -> Result<(), NoMemory>
    requires few { segments ≤ SEGMENTS_MAX }
    requires tables { AreTables segments (store_in segments disk.now) tables.now }
    ensures { OnOk result (faults_told faults.new.items ≡ faults_told faults.old.items ++ sums.gathered (SEGMENT_INODES * segments) (report.inode_faults (stored segments (store_in segments disk.now)) (flag_at tables.now.reached))) }
{
    let parts = inode_parts(rt, alloc, disk, segments, tables)?;
    append_all(faults, &parts)?;
    Ok(())
}

// The faults of the parts of a segment's small blocks.
fn block_part(
    alloc: Global,
    disk: &DecodedDisk<'_>,
    most: u64,
    segments: u32,
    tables: &Tables,
    k: usize,
) -> Part
    requires few { segments ≤ SEGMENTS_MAX }
    requires tables { AreTables segments (store_in segments disk.now) tables.now }
    requires within { k < segments }
    ensures { IsPart result (spec.block_part most segments disk.now tables.now.reached k) }
{
    part_faults(alloc, disk, most, segments, tables, k as u32)
}

// The same of each segment, in threads.
fn block_parts<R: Threads + Sync>(
    rt: &R,
    alloc: Global,
    disk: &DecodedDisk<'_>,
    most: u64,
    segments: u32,
    tables: &Tables,
) -> Result<Vec<Part>, NoMemory>
    requires few { segments ≤ SEGMENTS_MAX }
    requires tables { AreTables segments (store_in segments disk.now) tables.now }
    ensures len { IfOk result (λ v. vec_len v ≡ segments) }
    ensures parts { IfOk result (λ v. AreParts segments v.items (spec.block_part most segments disk.now tables.now.reached)) }
{
    Ok(map_indices(
        rt,
        alloc,
        segments as usize,
        &|k| { block_part(alloc, disk, most, segments, tables, k) },
    )?)
}

// Adds the faults of the parts of the small blocks.
fn append_blocks<R: Threads + Sync>(
    rt: &R,
    alloc: Global,
    faults: &mut Vec<Fault>,
    disk: &DecodedDisk<'_>,
    most: u64,
    segments: u32,
    tables: &Tables,
) -> Result<(), NoMemory>
    requires few { segments ≤ SEGMENTS_MAX }
    requires tables { AreTables segments (store_in segments disk.now) tables.now }
    ensures { OnOk result (faults_told faults.new.items ≡ faults_told faults.old.items ++ sums.gathered (SEGMENT_BLOCKS * segments) (λ b. sums.gathered SMALL_BLOCK_SECTORS (report.part_faults (view_in most segments disk.now) (flag_at tables.now.reached) b))) }
{
    let parts = block_parts(rt, alloc, disk, most, segments, tables)?;
    append_all(faults, &parts)?;
    Ok(())
}

// All faults.
fn faults_of<R: Threads + Sync>(
    rt: &R,
    alloc: Global,
    disk: &DecodedDisk<'_>,
    most: u64,
    segments: u32,
    tables: &Tables,
) -> Result<Vec<Fault>, NoMemory>
    requires few { segments ≤ SEGMENTS_MAX }
    requires tables { AreTables segments (store_in segments disk.now) tables.now }
    ensures { IfOk result (λ v. faults_told v.items ≡ report.faults_of (view_in most segments disk.now) (flag_at tables.now.reached)) }
{
    let mut faults = Vec::new(alloc);
    append_segments(rt, alloc, &mut faults, disk, most, segments, tables)?;
    append_inodes(rt, alloc, &mut faults, disk, segments, tables)?;
    append_blocks(rt, alloc, &mut faults, disk, most, segments, tables)?;
    Ok(faults)
}

// Whether there is no fault.
fn is_nothing(faults: &[Fault]) -> bool
    ensures { result ≡ report.is_nothing (faults_told faults.now) }
{
    match faults {
        [] => true,
        [_, ..] => false,
    }
}

// The report of a disk whose versions are at most so much, without its logs.
fn report_of<R: Threads + Sync>(
    rt: &R,
    alloc: Global,
    disk: &DecodedDisk<'_>,
    most: u64,
    segments: u32,
) -> Result<Report, NoMemory>
    requires few { segments ≤ SEGMENTS_MAX }
    requires some { 1 ≤ segments }
    ensures { IfOk result (IsReportOf (view_in most segments disk.now)) }
{
    let tables = read_tables(alloc, disk, segments)?;
    let faults = faults_of(rt, alloc, disk, most, segments, &tables)?;
    let stands = is_nothing(&faults);
    Ok(Report {
        segments,
        dirs: count_of_kind(disk, segments, &tables.reached, KIND_DIRECTORY),
        files: count_of_kind(disk, segments, &tables.reached, KIND_FILE),
        links: count_of_kind(disk, segments, &tables.reached, KIND_LINK),
        blocks: tables.small.count(SEGMENT_BLOCKS * segments),
        larges: tables.large.count(segments),
        faults,
        stands,
    })
}

// The report of a disk with these parameters, without its logs.
fn check_decoded<R: Threads + Sync>(
    rt: &R,
    alloc: Global,
    disk: &DecodedDisk<'_>,
    param: &Param,
) -> Result<Report, NoMemory>
    requires { param_in (sectors_of disk.now 0) ≡ Some param.now }
    ensures { IfOk result (λ r. report.IsReport (sectors_of disk.now) (told r)) }
{
    let segments = param.segments;
    let most = RUN_VERSIONS_MAX * u64::from(param.run);
    report_of(rt, alloc, disk, most, segments)
}

/// The report of a disk by its sectors as they are: what its logs hold counts for nothing. It stands for a tree exactly where the report
/// says so. Segments are checked in threads of their own; with one processor the report is the same. After `NoMemory` nothing is known.
pub fn check_sectors<R: Threads + Sync>(
    rt: &R,
    alloc: Global,
    disk: &Disk,
) -> Result<Report, NoMemory>
    requires { is_some (param_in (sectors_of disk.now 0)) ≡ true }
    ensures report { IfOk result (λ r. report.IsReport (sectors_of disk.now) (told r)) }
    ensures stands { IfOk result (λ r. (r.stands ≡ true) ↔ StandsForSome (sectors_of disk.now)) }
{
    let Some(param) = param_block::decode(&disk.get(Sector(0))) else {
        unreachable!()
    };
    let _sectors = disk.len();
    let decoded = DecodedDisk::of(alloc, disk, param.segments)?;
    check_decoded(rt, alloc, &decoded, &param)
}

/// The report of a disk once its logs are replayed. It stands for a tree exactly where the report says so. Segments are checked in threads
/// of their own; with one processor the report is the same. After `NoMemory` nothing is known.
pub fn check<R: Threads + Sync>(rt: &R, alloc: Global, disk: &Disk) -> Result<Report, NoMemory>
    requires { is_some (param_in (sectors_of disk.now 0)) ≡ true }
    ensures report { IfOk result (λ r. report.IsReport (replayed (sectors_of disk.now)) (told r)) }
    ensures stands { IfOk result (λ r. (r.stands ≡ true) ↔ StandsForSome (replayed (sectors_of disk.now))) }
{
    let new = replayed(alloc, disk)?;
    check_sectors(rt, alloc, &new)
}
