// What is reached from inode 0, each inode taken once.
ghost use Rattle.std.specs.Prelude.{◌≡◌, ◌≤◌, ◌<◌, ◌*◌, ◌==◌, [], false, length, replicate, IfOk, OnOk};
ghost use Rattle.disk_reading.specs.Marks.{flag_at, IsBelow};
ghost use Rattle.disk_reading.specs.Seen.{store_in};
ghost use Rattle.standing_laws.specs.Below.{holds};
ghost use Rattle.report_definitions.specs.View as view;
ghost use Rattle.report_rules.specs.Walks.{HasFlagged, IsOnTheWay};

use crate::entries::{entry_of, named_by};
use crate::flags::Flags;
use disk_reading::DecodedDisk;
use disk_reading::sectors::used_inode;
use frang_base::NoMemory;
use frang_base::limits::{DIRECTORY_ENTRIES_MAX, ROOT_INODE, SEGMENT_INODES, SEGMENTS_MAX};
use std::alloc::Global;

// What is reached so far, and which of it is still to be taken.
#[derive(Drop)]
struct Walk {
    reached: Flags,
    later: Vec<u32>,
}

impl Walk {
    // Inode 0 alone is reached, and is still to be taken.
    fn new(alloc: Global, limit: usize) -> Result<Self, NoMemory>
        requires { 0 < limit }
        ensures { IfOk result (λ w. HasFlagged (λ k. 0 == k) (replicate limit false) [] w.reached w.later.items) }
    {
        let reached = Flags::new(alloc, limit)?;
        let mut walk = Walk {
            reached,
            later: Vec::new(alloc),
        };
        walk.flag(ROOT_INODE)?;
        Ok(walk)
    }

    // Flags an inode, and has it taken later, where it isn't flagged.
    #[tactic(auto, using(crate::proofs::Walking::flagged_before))]
    fn flag(&mut self, i: u32) -> Result<(), NoMemory>
        requires { i < length self.old.reached }
        ensures { OnOk result (HasFlagged (λ k. i == k) self.old.reached self.old.later.items self.new.reached self.new.later.items) }
    {
        if self.reached.has(i as usize) {
            return Ok(());
        }
        self.reached.set(i as usize);
        self.later.push(i)?;
        Ok(())
    }

    // Flags the inode that an entry names, where it names one.
    #[tactic(auto, using(crate::proofs::Walking::flagged_nothing))]
    fn flag_named(&mut self, named: Option<u32>) -> Result<(), NoMemory>
        requires { IsBelow (length self.old.reached) named }
        ensures { OnOk result (HasFlagged (holds named) self.old.reached self.old.later.items self.new.reached self.new.later.items) }
    {
        match named {
            Some(i) => self.flag(i),
            None => Ok(()),
        }
    }

    // Flags what an inode names.
    fn flag_names(&mut self, disk: &DecodedDisk<'_>, segments: u32, d: u32) -> Result<(), NoMemory>
        requires few { segments ≤ SEGMENTS_MAX }
        requires long { length self.old.reached ≡ SEGMENT_INODES * segments }
        ensures { OnOk result (HasFlagged (view.names (store_in segments disk.now) d) self.old.reached self.old.later.items self.new.reached self.new.later.items) }
    {
        let inode = used_inode(disk, segments, d);
        for q in 0..DIRECTORY_ENTRIES_MAX {
            let entry = entry_of(disk, segments, &inode, q);
            self.flag_named(named_by(disk, segments, entry))?;
        }
        Ok(())
    }

    // Takes all that is to be taken, and what is flagged on the way.
    fn take_all(&mut self, disk: &DecodedDisk<'_>, segments: u32) -> Result<(), NoMemory>
        requires few { segments ≤ SEGMENTS_MAX }
        requires long { length self.old.reached ≡ SEGMENT_INODES * segments }
        requires begun { IsOnTheWay (store_in segments disk.now) self.old.reached self.old.later.items }
        ensures long { OnOk result (length self.new.reached ≡ SEGMENT_INODES * segments) }
        ensures reach { OnOk result (view.IsReach (store_in segments disk.now) (flag_at self.new.reached)) }
    {
        while let Some(d) = self.later.pop() {
            self.flag_names(disk, segments, d)?;
        }
        Ok(())
    }
}

/// The flags of the inodes that are reached.
pub fn reached(alloc: Global, disk: &DecodedDisk<'_>, segments: u32) -> Result<Flags, NoMemory>
    requires few { segments ≤ SEGMENTS_MAX }
    requires some { 1 ≤ segments }
    ensures long { IfOk result (λ f. length f ≡ SEGMENT_INODES * segments) }
    ensures reach { IfOk result (λ f. view.IsReach (store_in segments disk.now) (flag_at f)) }
{
    let mut walk = Walk::new(alloc, (SEGMENT_INODES * segments) as usize)?;
    walk.take_all(disk, segments)?;
    Ok(walk.reached)
}
