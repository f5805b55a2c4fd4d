// The first users of blocks, in order of inodes, and where a block is named that is out of range or was used before.
ghost use Rattle.std.specs.Prelude.{◌≡◌, ◌≤◌, ◌<◌, ◌*◌, ◌^◌, ◌∷◌, ◌++◌, [], None, is_some, replicate, length, slice_index_or, IfOk, OnOk};
ghost use Rattle.disk_reading.specs.Marks.{flag_at};
ghost use Rattle.disk_reading.specs.Seen.{store_in};
ghost use Rattle.report_definitions.specs.Sums.{count_below};
ghost use Rattle.report_definitions.specs.Rules as rules;
ghost use Rattle.report_rules.specs.Seen.{stored};
ghost use Rattle.report_rules.specs.Users.{AreUsers, is_free, with_user};

use crate::flags::Flags;
use disk_reading::DecodedDisk;
use disk_reading::marks::{block_at, large_at};
use frang_base::NoMemory;
use frang_base::limits::{INODE_BLOCKS_MAX, SEGMENT_BLOCKS, SEGMENT_INODES, SEGMENTS_MAX};
use std::alloc::Global;

/// Of a row of places, some of which have a number: the first place of each number below a limit, and for each place whether it is the
/// first of its number and that is below the limit, or has none.
#[derive(Drop)]
pub struct Users {
    first: Vec<Option<u32>>,
    fine: Flags,
}

impl Users {
    // No places.
    fn new(alloc: Global, limit: usize) -> Result<Self, NoMemory>
        ensures first { IfOk result (λ u. u.first.items ≡ replicate limit None) }
        ensures fine { IfOk result (λ u. u.fine ≡ []) }
    {
        let first = vec![in alloc; None; limit]?;
        let fine = Flags::new(alloc, 0)?;
        Ok(Users { first, fine })
    }

    /// The first place of a number, if it has one.
    pub fn first(&self, number: usize) -> Option<u32>
        ensures { result ≡ slice_index_or self.now.first.items number None }
    {
        if number < self.first.len() {
            self.first[number]
        } else {
            None
        }
    }

    /// Whether a place has no number, or is the first of one below the limit.
    pub fn is_fine(&self, place: usize) -> bool
        ensures { result ≡ flag_at self.now.fine place }
    {
        self.fine.has(place)
    }

    // Gives a number this place, where it has none. Whether it is below the limit and had none.
    fn claim(&mut self, number: Option<u32>, place: u32) -> bool
        ensures is { result ≡ is_free self.old.first.items number }
        ensures first { self.new.first.items ≡ with_user self.old.first.items number place }
        ensures fine { self.new.fine ≡ self.old.fine }
    {
        let Some(number) = number else { return true };
        let at = number as usize;
        if at < self.first.len() && self.first[at].is_none() {
            self.first[at] = Some(place);
            true
        } else {
            false
        }
    }

    // The next place.
    fn take(&mut self, number: Option<u32>, place: u32) -> Result<(), NoMemory>
        ensures first { OnOk result (self.new.first.items ≡ with_user self.old.first.items number place) }
        ensures fine { OnOk result (self.new.fine ≡ self.old.fine ++ is_free self.old.first.items number ∷ []) }
    {
        let fine = self.claim(number, place);
        self.fine.push(fine)
    }

    /// The numbers below a limit that have a place.
    #[tactic(auto, using(crate::proofs::Counted::count_more))]
    pub fn count(&self, limit: u32) -> u32
        ensures { result ≡ count_below limit (λ k. is_some (slice_index_or self.now.first.items k None)) }
    {
        let mut count = 0;
        for k in 0..limit {
            if self.first(k as usize).is_some() {
                count += 1;
            }
        }
        count
    }
}

// The small block at a place of the row of all inodes, where its inode is reached.
fn used(disk: &DecodedDisk<'_>, segments: u32, reached: &Flags, t: u32) -> Option<u32>
    requires few { segments ≤ SEGMENTS_MAX }
    ensures { result ≡ rules.used (stored segments (store_in segments disk.now)) (flag_at reached.now) t }
{
    if reached.has((t / INODE_BLOCKS_MAX) as usize) {
        block_at(disk, segments, t)
    } else {
        None
    }
}

// The large block of an inode, where that is reached.
fn used_large(disk: &DecodedDisk<'_>, segments: u32, reached: &Flags, i: u32) -> Option<u32>
    requires few { segments ≤ SEGMENTS_MAX }
    ensures { result ≡ rules.used_large (stored segments (store_in segments disk.now)) (flag_at reached.now) i }
{
    if reached.has(i as usize) {
        large_at(disk, segments, i)
    } else {
        None
    }
}

/// The users of small blocks: 16 places for each inode.
pub fn small_users(
    alloc: Global,
    disk: &DecodedDisk<'_>,
    segments: u32,
    reached: &Flags,
) -> Result<Users, NoMemory>
    requires few { segments ≤ SEGMENTS_MAX }
    ensures { IfOk result (λ u. AreUsers (rules.used (stored segments (store_in segments disk.now)) (flag_at reached.now)) (SEGMENT_BLOCKS * segments) (SEGMENT_BLOCKS * segments) u.first.items u.fine) }
{
    let mut users = Users::new(alloc, (SEGMENT_BLOCKS * segments) as usize)?;
    for t in 0..SEGMENT_BLOCKS * segments {
        users.take(used(disk, segments, reached, t), t)?;
    }
    Ok(users)
}

/// The users of large blocks: a place for each inode.
pub fn large_users(
    alloc: Global,
    disk: &DecodedDisk<'_>,
    segments: u32,
    reached: &Flags,
) -> Result<Users, NoMemory>
    requires few { segments ≤ SEGMENTS_MAX }
    ensures { IfOk result (λ u. AreUsers (rules.used_large (stored segments (store_in segments disk.now)) (flag_at reached.now)) segments (SEGMENT_INODES * segments) u.first.items u.fine) }
{
    let mut users = Users::new(alloc, segments as usize)?;
    for i in 0..SEGMENT_INODES * segments {
        users.take(used_large(disk, segments, reached, i), i)?;
    }
    Ok(users)
}
