// Room for an entry in a directory.
ghost use Rattle.std.specs.Prelude.{ℕ, List, ◌≡◌, [], IfOk, IfSome, if◌then◌else◌, map, nat_lt};
ghost use Rattle.std.specs.Map.{keys_of};
ghost use Rattle.frang_base.specs.declared.limits.TheConstants.{INODE_BLOCKS_MAX};
ghost use Rattle.disk_definitions.specs.Held.{state_in};
ghost use Rattle.disk_definitions.specs.Picks.{is_in_state, picked_directory};
ghost use Rattle.disk_definitions.specs.Store.{stored};
ghost use Rattle.disk_definitions.specs.Plans as plans;
ghost use Rattle.disk_definitions.specs.Plans.{Finish, NoRoom};
ghost use Rattle.dir_lookup.specs.Hands.{over, seen};
ghost use Rattle.dir_lookup.specs.Looked.{Adds};
ghost use Rattle.dir_lookup.specs.Reading.{read_of};
ghost use Rattle.plan_steps.specs.Ends.{Stops};
ghost use Rattle.plan_steps.specs.Looking.{Looks, segment_number};
ghost use Rattle.plan_steps.specs.Nodes.{IsDirectory};
ghost use Rattle.plan_steps.specs.Rooms.{ClearsRoom, IsRoomOf, room_in, room_of};

use crate::block::is_zeroed;
use crate::stop::Stop;
use bitmap_alloc::{Use, pick_small};
use bitmap_block::{BlockState, state_of};
use dir_lookup::{Hand, Looked, Need, directory_at, first_vacant};
use disk_definitions::Inode;
use frang_base::limits::{DIRECTORY_ENTRIES_MAX, INODE_BLOCKS_MAX, SEGMENT_BLOCKS};
use frang_base::{Held, Reply};
use frang_layout::{Region, sector_of};

/// Room for an entry.
#[derive(Clone, Copy, PartialEq, Eq)]
pub enum Room {
    /// A free place of the directory, 56 to a block.
    Inside { place: u32 },
    /// A block that the directory takes.
    InBlock { block: u32 },
}

/// Whether a directory has as many entries as one may have, 896.
pub fn is_full(directory: &Inode) -> bool
    ensures { result ≡ plans.is_full (stored directory.now) }
{
    directory.size >= u64::from(DIRECTORY_ENTRIES_MAX)
}

/// The first free place of a directory; where there is none, a block of the held segments, as long as the directory has fewer than 16.
/// What it looked at comes to `looked`, every held segment included where it picks a block.
pub fn find_room(hand: &Hand, directory: &Inode, looked: &mut Looked) -> Result<Option<Room>, Need>
    requires { IsDirectory directory.now }
    ensures finds { read_of room_of result ≡ over (plans.find_room (seen hand.now) (stored directory.now)) hand.now }
    ensures room { IfOk result (λ r. IfSome r (IsRoomOf directory.now)) }
    ensures looks { Looks hand.now.sectors.now.entries hand.now.held.now looked.old looked.new (plans.find_room (seen hand.now) (stored directory.now)) }
{
    let found = first_vacant(hand.sectors, directory, looked)?;
    match found {
        Some(place) => Ok(Some(Room::Inside { place })),
        None => Ok(more_room(hand.held, directory, looked)),
    }
}

/// What ends a plan that found nothing free: the reply, where these are all segments of the disk, and that more are needed, where they
/// aren't.
pub fn nothing_left(hand: &Hand, reply: Reply) -> Stop
    ensures { (touched : List ℕ) → Stops (over (plans.none_left (seen hand.now) reply touched) hand.now) result }
{
    if hand.all {
        Stop::Refused(reply)
    } else {
        Stop::Segments
    }
}

// A block for a directory that has fewer than 16.
fn more_room(held: &Held, directory: &Inode, looked: &mut Looked) -> Option<Room>
    ensures finds { room_of result ≡ (if nat_lt directory.now.blocks INODE_BLOCKS_MAX then plans.room_in (picked_directory held.now) else NoRoom) }
    ensures room { IfSome result (IsRoomOf directory.now) }
    ensures looks { Adds looked.old looked.new (if nat_lt directory.now.blocks INODE_BLOCKS_MAX then map segment_number (keys_of held.now) else []) }
{
    if u32::from(directory.blocks) < INODE_BLOCKS_MAX {
        look_at_held(held, looked);
        let block = pick_small(held, Use::Directory)?;
        Some(Room::InBlock { block })
    } else {
        None
    }
}

/// A look at every held segment, as each pick makes.
pub fn look_at_held(held: &Held, looked: &mut Looked)
    ensures { Adds looked.old looked.new (map segment_number (keys_of held.now)) }
{
    for k in held.segments() {
        looked.add(sector_of(&Region::Segment(*k)));
    }
}

/// That the block of the room is clear, and its first sector cached, which comes to `looked`.
pub fn clear_room(hand: &Hand, room: &Room, looked: &mut Looked) -> Result<(), Stop>
    ensures clears { ClearsRoom hand.now (room_in room.now) result }
    ensures looks { (finish : Finish) → Looks hand.now.sectors.now.entries hand.now.held.now looked.old looked.new (plans.finish_in (seen hand.now) (room_in room.now) finish) }
{
    match room {
        Room::Inside { .. } => Ok(()),
        Room::InBlock { block } => clear_block(hand, *block, looked),
    }
}

fn clear_block(hand: &Hand, block: u32, looked: &mut Looked) -> Result<(), Stop>
    ensures clears { ClearsRoom hand.now (plans.InBlock block) result }
    ensures looks { (finish : Finish) → Looks hand.now.sectors.now.entries hand.now.held.now looked.old looked.new (plans.finish_in (seen hand.now) (plans.InBlock block) finish) }
{
    if must_clear(hand, block) {
        return Err(Stop::Clear { block });
    }
    directory_at(hand.sectors, block, 0, looked)?;
    Ok(())
}

// The block was never a directory's, and isn't known to be zero.
fn must_clear(hand: &Hand, block: u32) -> bool
    ensures { result ≡ plans.must_clear (seen hand.now) block }
{
    is_unused(hand.held, block) && !is_zeroed(hand.sectors, block)
}

fn is_unused(held: &Held, block: u32) -> bool
    ensures { result ≡ is_in_state 0 (state_in held.now block) }
{
    match held.get(block / SEGMENT_BLOCKS) {
        Some(bitmap) => state_of(bitmap, block % SEGMENT_BLOCKS) == BlockState::Unused,
        None => false,
    }
}
