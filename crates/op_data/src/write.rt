// The plans of write and fill.
ghost use Rattle.std.specs.Prelude.{◌≡◌, ◌≤◌, ◌<◌, ◌-◌, ◌==◌, ◌&&◌, IfSome, List, length, max, nat_lt, ℕ};
ghost use Rattle.frang_base.specs.declared.limits.TheConstants.{FILE_BYTES_MAX, SEGMENTS_MAX, SMALL_BYTES_MAX};
ghost use Rattle.tree_definitions.specs.Tree.{small_blocks_of};
ghost use Rattle.disk_definitions.specs.Store.{stored};
ghost use Rattle.disk_definitions.specs.FilePlans as plans;
ghost use Rattle.disk_definitions.specs.FilePlans.{end_of, plan_of_file, writing_in, writing_small};
ghost use Rattle.dir_lookup.specs.Hands.{over, seen};
ghost use Rattle.plan_steps.specs.Ends.{Comes};
ghost use Rattle.plan_steps.specs.Looking.{Looks};
ghost use Rattle.op_data.specs.Files.{IsFile};
ghost use Rattle.op_data.specs.Writings.{writing_of};

use crate::edits::add_sectors;
use crate::file::file_of;
use crate::resize::{NewBlocks, resized, taken};
use crate::room::directory_blocks;
use crate::shorter::blocks_of;
use crate::writing::Writing;
use bitmap_alloc::{pick_large, pick_many};
use dir_lookup::{Hand, Looked, NumberedInode};
use frang_base::limits::{FILE_BYTES_MAX, SMALL_BYTES_MAX};
use frang_base::{Path, Reply};
use plan_steps::{Outcome, Stop, look_at_held, nothing_left};
use std::alloc::Global;

/// Writes into a file from an offset on, in bytes, which is at most its size. The outcome has the edits and the reply. `Refused` where the
/// path or the range is refused, or where every segment is held and none has the blocks that are wanted; `Segments` where others may have
/// them; `Need` where a sector isn't cached.
pub(crate) fn write_file(
    alloc: Global,
    hand: &Hand,
    path: &Path,
    writing: &Writing,
    looked: &mut Looked,
) -> Result<Outcome, Stop>
    ensures comes { Comes (over (plan_of_file path.now (plans.writing (seen hand.now) (writing_of writing.now))) hand.now) result }
    ensures looks { Looks hand.now.sectors.now.entries hand.now.held.now looked.old looked.new (plan_of_file path.now (plans.writing (seen hand.now) (writing_of writing.now))) }
{
    let file = file_of(hand, path, looked)?;
    write(alloc, hand, &file, writing, looked)
}

// The range is checked, and a large block is picked where the file needs one and has none.
fn write(
    alloc: Global,
    hand: &Hand,
    file: &NumberedInode,
    writing: &Writing,
    looked: &mut Looked,
) -> Result<Outcome, Stop>
    requires { IsFile file.now.inode }
    ensures comes { (touched : List ℕ) → Comes (over (plans.writing (seen hand.now) (writing_of writing.now) file.now.number touched (stored file.now.inode)) hand.now) result }
    ensures looks { (touched : List ℕ) → Looks hand.now.sectors.now.entries hand.now.held.now looked.old looked.new (plans.writing (seen hand.now) (writing_of writing.now) file.now.number touched (stored file.now.inode)) }
{
    let end = writing.end();
    if file.inode.size < u64::from(writing.off) {
        return Err(Stop::Refused(Reply::BadOffset));
    }
    if end > FILE_BYTES_MAX {
        return Err(Stop::Refused(Reply::TooBig));
    }
    if !needs_large(file, end) {
        return write_small(alloc, hand, file, writing, None, looked);
    }
    look_at_held(hand.held, looked);
    match pick_large(hand.held) {
        Some(large) => write_small(alloc, hand, file, writing, Some(large), looked),
        None => Err(nothing_left(hand, Reply::NoLarge)),
    }
}

// Whether bytes up to this end need a large block that the file hasn't.
fn needs_large(file: &NumberedInode, end: u64) -> bool
    ensures { result ≡ (nat_lt SMALL_BYTES_MAX end && file.now.inode.large == 0) }
{
    end > SMALL_BYTES_MAX && file.inode.large == 0
}

// The small blocks that the file needs beside its own are picked.
fn write_small(
    alloc: Global,
    hand: &Hand,
    file: &NumberedInode,
    writing: &Writing,
    large: Option<u32>,
    looked: &mut Looked,
) -> Result<Outcome, Stop>
    requires file { IsFile file.now.inode }
    requires end { end_of (writing_of writing.now) ≤ FILE_BYTES_MAX }
    requires large { IfSome large (λ g. g < SEGMENTS_MAX) }
    ensures comes { (touched : List ℕ) → Comes (over (writing_small (seen hand.now) (writing_of writing.now) file.now.number touched (stored file.now.inode) large) hand.now) result }
    ensures looks { (touched : List ℕ) → Looks hand.now.sectors.now.entries hand.now.held.now looked.old looked.new (writing_small (seen hand.now) (writing_of writing.now) file.now.number touched (stored file.now.inode) large) }
{
    let size = file.inode.size.max(writing.end());
    let count = blocks_of(size).saturating_sub(file.inode.blocks);
    if count == 0 {
        return write_in(alloc, hand, file, writing, &NewBlocks { small: &[], large });
    }
    look_at_held(hand.held, looked);
    match pick_many(alloc, hand.held, usize::from(count))? {
        Some(picks) => {
            let small = &picks;
            write_in(alloc, hand, file, writing, &NewBlocks { small, large })
        }
        None => {
            let m = directory_blocks(hand.held);
            Err(nothing_left(hand, Reply::NoBlock { m }))
        }
    }
}

// With all blocks at hand.
fn write_in(
    alloc: Global,
    hand: &Hand,
    file: &NumberedInode,
    writing: &Writing,
    more: &NewBlocks,
) -> Result<Outcome, Stop>
    requires file { IsFile file.now.inode }
    requires end { end_of (writing_of writing.now) ≤ FILE_BYTES_MAX }
    requires picks { small_blocks_of (max file.now.inode.size (end_of (writing_of writing.now))) - file.now.inode.blocks ≤ length more.now.small.now }
    requires large { IfSome more.now.large (λ g. g < SEGMENTS_MAX) }
    ensures { (touched : List ℕ) → Comes (over (writing_in (writing_of writing.now) file.now.number touched (stored file.now.inode) more.now.small.now more.now.large) hand.now) result }
{
    let size = file.inode.size.max(writing.end());
    let new = resized(&file.inode, writing.when, size, more);
    let edits = taken(alloc, file.number, &new, more)?;
    let edits = add_sectors(edits, hand, writing, &file.inode, &new)?;
    Ok(Outcome {
        reply: Reply::Ok,
        edits,
    })
}
