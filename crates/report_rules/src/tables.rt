// What is known of a disk before its faults are told.
ghost use Rattle.std.specs.Prelude.{◌≡◌, ◌≤◌, ◌*◌, false, replicate, IfOk};
ghost use Rattle.standing_laws.specs.Below.{lists};
ghost use Rattle.disk_reading.specs.Marks.{flag_at};
ghost use Rattle.disk_reading.specs.Reach.{AreFlaggedOn};
ghost use Rattle.disk_reading.specs.Seen.{store_in};
ghost use Rattle.report_definitions.specs.Rules.{used, used_large};
ghost use Rattle.report_rules.specs.Seen.{stored};
ghost use Rattle.report_rules.specs.Users.{AreUsers};
ghost use Rattle.report_rules.specs.Directories.{directory_row};
ghost use Rattle.report_rules.specs.Repeats.{repeats_to};
ghost use Rattle.report_rules.specs.Tables.{AreTables};

use crate::directories::directories;
use crate::flags::Flags;
use crate::names::{Counts, names};
use crate::reach::reached;
use crate::repeats::repeats;
use crate::users::{Users, large_users, small_users};
use disk_reading::DecodedDisk;
use frang_base::NoMemory;
use frang_base::limits::{SEGMENT_BLOCKS, SEGMENT_INODES, SEGMENTS_MAX, SMALL_BLOCK_SECTORS};
use std::alloc::Global;

/// Which inodes are reached, how often each is named, who uses which block, which small blocks are directories', and in which parts of
/// these a name stands that stands before.
#[derive(Drop)]
pub struct Tables {
    pub reached: Flags,
    pub names: Counts,
    pub small: Users,
    pub large: Users,
    pub directories: Flags,
    pub repeats: Flags,
}

// Who uses which small blocks, and which large blocks.
fn users(
    alloc: Global,
    disk: &DecodedDisk<'_>,
    segments: u32,
    reached: &Flags,
) -> Result<(Users, Users), NoMemory>
    requires few { segments ≤ SEGMENTS_MAX }
    ensures small { IfOk result (λ u. AreUsers (used (stored segments (store_in segments disk.now)) (flag_at reached.now)) (SEGMENT_BLOCKS * segments) (SEGMENT_BLOCKS * segments) u.0.first.items u.0.fine) }
    ensures large { IfOk result (λ u. AreUsers (used_large (stored segments (store_in segments disk.now)) (flag_at reached.now)) segments (SEGMENT_INODES * segments) u.1.first.items u.1.fine) }
{
    let small = small_users(alloc, disk, segments, reached)?;
    let large = large_users(alloc, disk, segments, reached)?;
    Ok((small, large))
}

// Which small blocks are directories', and in which parts of these a name stands that stands before.
fn parts(
    alloc: Global,
    disk: &DecodedDisk<'_>,
    segments: u32,
    reached: &Flags,
) -> Result<(Flags, Flags), NoMemory>
    requires few { segments ≤ SEGMENTS_MAX }
    ensures directories { IfOk result (λ f. AreFlaggedOn (lists (directory_row (store_in segments disk.now) (flag_at reached.now)) (SEGMENT_BLOCKS * segments)) (replicate (SEGMENT_BLOCKS * segments) false) f.0) }
    ensures repeats { IfOk result (λ f. AreFlaggedOn (repeats_to (store_in segments disk.now) (flag_at reached.now) (SEGMENT_INODES * segments)) (replicate (SMALL_BLOCK_SECTORS * SEGMENT_BLOCKS * segments) false) f.1) }
{
    let directories = directories(alloc, disk, segments, reached)?;
    let repeats = repeats(alloc, disk, segments, reached)?;
    Ok((directories, repeats))
}

/// The tables of a disk.
pub fn read_tables(alloc: Global, disk: &DecodedDisk<'_>, segments: u32) -> Result<Tables, NoMemory>
    requires few { segments ≤ SEGMENTS_MAX }
    requires some { 1 ≤ segments }
    ensures { IfOk result (AreTables segments (store_in segments disk.now)) }
{
    let reached = reached(alloc, disk, segments)?;
    let names = names(alloc, disk, segments, &reached)?;
    let (small, large) = users(alloc, disk, segments, &reached)?;
    let (directories, repeats) = parts(alloc, disk, segments, &reached)?;
    Ok(Tables {
        reached,
        names,
        small,
        large,
        directories,
        repeats,
    })
}
