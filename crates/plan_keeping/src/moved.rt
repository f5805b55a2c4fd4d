// The sectors that come under other locks as a line is committed.
ghost use Rattle.std.specs.Prelude.{◌≡◌, ◌≤◌, ℕ, IfOk, OnOk, Option};
ghost use Rattle.frang_base.specs.declared.limits.TheConstants.{SEGMENTS_MAX};
ghost use Rattle.frang_base.specs.declared.lock.LockId.{LockId as Lock};
ghost use Rattle.edit_moves.specs.declared.thing.Thing.TheVariants as thing;
ghost use Rattle.plan_keeping.specs.Moved.{Covers, is_at, is_this, over, says, thing_at};

use edit_moves::{Move, Thing};
use frang_base::limits::{LARGE_BLOCK_SECTORS, SMALL_BLOCK_SECTORS};
use frang_base::{LockId, NoMemory, Sector};
use frang_layout::{Region, region_of, sector_of};
use std::alloc::Global;

/// The sectors of the things that move, each with its new lock, as far as they lie on a disk of so many segments. Its one refusal is want of memory.
pub(crate) fn moved_sectors(
    alloc: Global,
    segments: u32,
    moves: &[Move],
) -> Result<Vec<(Sector, LockId)>, NoMemory>
    requires { segments ≤ SEGMENTS_MAX }
    ensures { IfOk result (λ list. Covers list.items (says segments moves.now)) }
{
    let mut list = Vec::new(alloc);
    let mut left = moves.len();
    // From the last on: of a thing that stands twice the first move counts, and of a sector the last.
    while left > 0 {
        left -= 1;
        let one = &moves[left];
        add_thing(&mut list, segments, one)?;
    }
    Ok(list)
}

// The sectors of a thing come under its new lock.
fn add_thing(list: &mut Vec<(Sector, LockId)>, segments: u32, one: &Move) -> Result<(), NoMemory>
    requires { segments ≤ SEGMENTS_MAX }
    ensures { OnOk result ((before : ℕ → Option Lock) → Covers list.old.items before → Covers list.new.items (over (is_at segments one.now.thing) one.now.lock before)) }
{
    match one.thing {
        Thing::Inode(number) => add_inode(list, segments, number, one.lock),
        Thing::Small(block) => add_small(list, segments, block, one.lock),
        Thing::Large(block) => add_large(list, segments, block, one.lock),
    }
}

fn add_inode(
    list: &mut Vec<(Sector, LockId)>,
    segments: u32,
    number: u32,
    lock: LockId,
) -> Result<(), NoMemory>
    requires { segments ≤ SEGMENTS_MAX }
    ensures { OnOk result ((before : ℕ → Option Lock) → Covers list.old.items before → Covers list.new.items (over (is_at segments (thing.Inode number)) lock before)) }
{
    let sector = sector_of(&Region::Inode(number));
    add_sector(list, segments, &Thing::Inode(number), sector, lock)?;
    Ok(())
}

fn add_small(
    list: &mut Vec<(Sector, LockId)>,
    segments: u32,
    block: u32,
    lock: LockId,
) -> Result<(), NoMemory>
    requires { segments ≤ SEGMENTS_MAX }
    ensures { OnOk result ((before : ℕ → Option Lock) → Covers list.old.items before → Covers list.new.items (over (is_at segments (thing.Small block)) lock before)) }
{
    for part in 0..SMALL_BLOCK_SECTORS as u8 {
        let sector = sector_of(&Region::Small { block, part });
        add_sector(list, segments, &Thing::Small(block), sector, lock)?;
    }
    Ok(())
}

fn add_large(
    list: &mut Vec<(Sector, LockId)>,
    segments: u32,
    block: u32,
    lock: LockId,
) -> Result<(), NoMemory>
    requires { segments ≤ SEGMENTS_MAX }
    ensures { OnOk result ((before : ℕ → Option Lock) → Covers list.old.items before → Covers list.new.items (over (is_at segments (thing.Large block)) lock before)) }
{
    for part in 0..LARGE_BLOCK_SECTORS as u16 {
        let sector = sector_of(&Region::Large { block, part });
        add_sector(list, segments, &Thing::Large(block), sector, lock)?;
    }
    Ok(())
}

// A sector comes under a lock, where it lies on the disk and is one of this thing.
fn add_sector(
    list: &mut Vec<(Sector, LockId)>,
    segments: u32,
    own: &Thing,
    sector: Sector,
    lock: LockId,
) -> Result<(), NoMemory>
    requires { segments ≤ SEGMENTS_MAX }
    ensures { OnOk result ((before : ℕ → Option Lock) → Covers list.old.items before → Covers list.new.items (over (is_this segments own.now sector.0) lock before)) }
{
    if is_at(segments, own, sector) {
        list.push((sector, lock))?;
    }
    Ok(())
}

// Whether a sector lies on the disk and is one of this thing.
fn is_at(segments: u32, own: &Thing, sector: Sector) -> bool
    requires { segments ≤ SEGMENTS_MAX }
    ensures { result ≡ is_at segments own.now sector.0 }
{
    match thing_at(segments, sector) {
        Some(found) => found.is_same(own),
        None => false,
    }
}

// The thing of which a sector of the disk is one.
fn thing_at(segments: u32, sector: Sector) -> Option<Thing>
    requires { segments ≤ SEGMENTS_MAX }
    ensures { result ≡ thing_at segments sector.0 }
{
    match region_of(sector, segments) {
        Some(Region::Inode(number)) => Some(Thing::Inode(number)),
        Some(Region::Small { block, .. }) => Some(Thing::Small(block)),
        Some(Region::Large { block, .. }) => Some(Thing::Large(block)),
        Some(Region::Param | Region::Log { .. } | Region::Segment(_)) => None,
        None => None,
    }
}
