// The blocks that inodes list: none twice, and all others unused.
ghost use Rattle.std.specs.Prelude.{◌≡◌, ◌≤◌, ◌<◌, ◌*◌, ◌&&◌, ◌||◌, ℕ, true, false, not, length, replicate, IfOk};
ghost use Rattle.standing_laws.specs.Below.{all_below, lists, are_distinct};
ghost use Rattle.disk_definitions.specs.Store as store;
ghost use Rattle.standing_laws.specs.Soundness as sound;
ghost use Rattle.disk_reading.specs.Marks.{flag_at, has_flag, flagged, AreFlags, IsBelow};
ghost use Rattle.disk_reading.specs.Seen.{store_in};

use crate::decoded_disk::DecodedDisk;
use crate::marks::{block_at, is_unused, large_at};
use crate::sectors::{large_bit, use_of};
use frang_base::NoMemory;
use frang_base::limits::{SEGMENT_BLOCKS, SEGMENT_INODES, SEGMENTS_MAX};
use std::alloc::Global;

// Flags the number, where there is one. Whether it had no flag before.
fn flag(flags: &mut [bool], number: Option<u32>) -> bool
    requires { IsBelow (length flags.old) number }
    ensures new { result ≡ not (has_flag flags.old number) }
    ensures flags { flags.new ≡ flagged flags.old number }
{
    match number {
        Some(k) => {
            let new = !flags[k as usize];
            flags[k as usize] = true;
            new
        }
        None => true,
    }
}

// Flags the small blocks of all inodes. False where one is met that has its flag.
#[tactic(auto, using(crate::proofs::Flags::flags_more))]
fn flag_blocks(disk: &DecodedDisk<'_>, segments: u32, flags: &mut [bool]) -> bool
    requires few { segments ≤ SEGMENTS_MAX }
    requires none { flags.old ≡ replicate (SEGMENT_BLOCKS * segments) false }
    requires below { (t : ℕ) → t < SEGMENT_BLOCKS * segments → IsBelow (SEGMENT_BLOCKS * segments) (sound.block_at (store_in segments disk.now) t) }
    ensures length { length flags.new ≡ SEGMENT_BLOCKS * segments }
    ensures yes { result ≡ true → AreFlags (sound.block_at (store_in segments disk.now)) (SEGMENT_BLOCKS * segments) flags.new }
    ensures no { result ≡ false → are_distinct (sound.block_at (store_in segments disk.now)) (SEGMENT_BLOCKS * segments) ≡ false }
{
    for t in 0..SEGMENT_BLOCKS * segments {
        if !flag(flags, block_at(disk, segments, t)) {
            return false;
        }
    }
    true
}

// Whether each block without a flag is unused.
#[tactic(auto, using(standing_laws::proofs::Bounded::all_more))]
fn others_unused(disk: &DecodedDisk<'_>, segments: u32, flags: &[bool]) -> bool
    requires few { segments ≤ SEGMENTS_MAX }
    requires length { length flags.now ≡ SEGMENT_BLOCKS * segments }
    ensures { result ≡ all_below (SEGMENT_BLOCKS * segments) (λ k. flag_at flags.now k || store.is_unused ((store_in segments disk.now).use_of k)) }
{
    let mut all = true;
    for block in 0..SEGMENT_BLOCKS * segments {
        let used = flags[block as usize];
        all = all && (used || is_unused(use_of(disk, segments, block)));
    }
    all
}

/// Whether no small block is listed twice by inodes, and every block that isn't listed is unused.
pub(crate) fn blocks_agree(
    alloc: Global,
    disk: &DecodedDisk<'_>,
    segments: u32,
) -> Result<bool, NoMemory>
    requires few { segments ≤ SEGMENTS_MAX }
    requires below { (t : ℕ) → t < SEGMENT_BLOCKS * segments → IsBelow (SEGMENT_BLOCKS * segments) (sound.block_at (store_in segments disk.now) t) }
    ensures { IfOk result (λ b. b ≡ (are_distinct (sound.block_at (store_in segments disk.now)) (SEGMENT_BLOCKS * segments) && all_below (SEGMENT_BLOCKS * segments) (λ k. lists (sound.block_at (store_in segments disk.now)) (SEGMENT_BLOCKS * segments) k || store.is_unused ((store_in segments disk.now).use_of k)))) }
{
    let mut flags = vec![in alloc; false; (SEGMENT_BLOCKS * segments) as usize]?;
    if !flag_blocks(disk, segments, &mut flags) {
        return Ok(false);
    }
    Ok(others_unused(disk, segments, &flags))
}

// Flags the large blocks of all inodes. False where one is met that has its flag.
#[tactic(auto, using(crate::proofs::Flags::flags_more))]
fn flag_larges(disk: &DecodedDisk<'_>, segments: u32, flags: &mut [bool]) -> bool
    requires few { segments ≤ SEGMENTS_MAX }
    requires none { flags.old ≡ replicate segments false }
    requires below { (i : ℕ) → i < SEGMENT_INODES * segments → IsBelow segments (sound.large_at (store_in segments disk.now) i) }
    ensures length { length flags.new ≡ segments }
    ensures yes { result ≡ true → AreFlags (sound.large_at (store_in segments disk.now)) (SEGMENT_INODES * segments) flags.new }
    ensures no { result ≡ false → are_distinct (sound.large_at (store_in segments disk.now)) (SEGMENT_INODES * segments) ≡ false }
{
    for i in 0..SEGMENT_INODES * segments {
        if !flag(flags, large_at(disk, segments, i)) {
            return false;
        }
    }
    true
}

// Whether each large block without a flag is free.
#[tactic(auto, using(standing_laws::proofs::Bounded::all_more))]
fn others_free(disk: &DecodedDisk<'_>, segments: u32, flags: &[bool]) -> bool
    requires few { segments ≤ SEGMENTS_MAX }
    requires length { length flags.now ≡ segments }
    ensures { result ≡ all_below segments (λ g. flag_at flags.now g || not ((store_in segments disk.now).large_bit g)) }
{
    let mut all = true;
    for g in 0..segments {
        let used = flags[g as usize];
        all = all && (used || !large_bit(disk, segments, g));
    }
    all
}

/// Whether no large block is listed twice by inodes, and every large block that isn't listed is free.
pub(crate) fn larges_agree(
    alloc: Global,
    disk: &DecodedDisk<'_>,
    segments: u32,
) -> Result<bool, NoMemory>
    requires few { segments ≤ SEGMENTS_MAX }
    requires below { (i : ℕ) → i < SEGMENT_INODES * segments → IsBelow segments (sound.large_at (store_in segments disk.now) i) }
    ensures { IfOk result (λ b. b ≡ (are_distinct (sound.large_at (store_in segments disk.now)) (SEGMENT_INODES * segments) && all_below segments (λ g. lists (sound.large_at (store_in segments disk.now)) (SEGMENT_INODES * segments) g || not ((store_in segments disk.now).large_bit g)))) }
{
    let mut flags = vec![in alloc; false; segments as usize]?;
    if !flag_larges(disk, segments, &mut flags) {
        return Ok(false);
    }
    Ok(others_free(disk, segments, &flags))
}
