// How often each inode is named by the directories that are reached.
ghost use Rattle.std.specs.Prelude.{◌≡◌, ◌≤◌, ◌*◌, ◌<◌, ◌==◌, ℕ, if◌then◌else◌, replicate, length, slice_index, IfOk};
ghost use Rattle.disk_reading.specs.Marks.{flag_at};
ghost use Rattle.disk_reading.specs.Seen.{store_in};
ghost use Rattle.standing_laws.specs.Below.{holds};
ghost use Rattle.report_definitions.specs.Rules.{names_by};
ghost use Rattle.report_rules.specs.Names.{AreNames, HaveCounted};

use crate::entries::{entry_of, named_by};
use crate::flags::Flags;
use disk_reading::DecodedDisk;
use disk_reading::sectors::used_inode;
use frang_base::NoMemory;
use frang_base::limits::{DIRECTORY_ENTRIES_MAX, SEGMENT_INODES, SEGMENTS_MAX};
use std::alloc::Global;
use std::marker::Model;

/// A count for each number below a limit, which stops at the greatest number of 64 bits.
#[derive(Drop)]
pub struct Counts {
    counts: Vec<u64>,
}

impl Model for Counts {
    ghost use Rattle.std.specs.Prelude.{List, ℕ};

    ghost Value = { List ℕ };

    ghost view = { λ c. c.counts.items };
}

impl Counts {
    // All counts are 0.
    fn new(alloc: Global, limit: usize) -> Result<Self, NoMemory>
        ensures { IfOk result (λ c. c ≡ replicate limit 0) }
    {
        Ok(Counts {
            counts: vec![in alloc; 0u64; limit]?,
        })
    }

    /// The count of a number, 0 past the limit.
    pub fn get(&self, number: usize) -> u64
        ensures { result ≡ slice_index self.now number }
    {
        if number < self.counts.len() {
            self.counts[number]
        } else {
            0
        }
    }

    // Counts a number once more.
    fn add_one(&mut self, number: u32)
        ensures { HaveCounted (λ i. if number == i then 1 else 0) self.old self.new }
    {
        let at = number as usize;
        if at < self.counts.len() {
            self.counts[at] = self.counts[at].saturating_add(1);
        }
    }

    // Counts a number once more, where there is one.
    fn add(&mut self, number: Option<u32>)
        ensures { HaveCounted (λ i. if holds number i then 1 else 0) self.old self.new }
    {
        match number {
            Some(number) => self.add_one(number),
            None => {}
        }
    }

    // Counts what an inode names.
    fn add_names(&mut self, disk: &DecodedDisk<'_>, segments: u32, d: u32)
        requires few { segments ≤ SEGMENTS_MAX }
        ensures { HaveCounted (names_by (store_in segments disk.now) d) self.old self.new }
    {
        let inode = used_inode(disk, segments, d);
        for q in 0..DIRECTORY_ENTRIES_MAX {
            let entry = entry_of(disk, segments, &inode, q);
            self.add(named_by(disk, segments, entry));
        }
    }

    // Counts what an inode names, where it is reached.
    fn add_reached(&mut self, disk: &DecodedDisk<'_>, segments: u32, reached: &Flags, d: u32)
        requires few { segments ≤ SEGMENTS_MAX }
        ensures { HaveCounted (λ i. if flag_at reached.now d then names_by (store_in segments disk.now) d i else 0) self.old self.new }
    {
        if reached.has(d as usize) {
            self.add_names(disk, segments, d);
        }
    }
}

/// How often each inode is named.
pub fn names(
    alloc: Global,
    disk: &DecodedDisk<'_>,
    segments: u32,
    reached: &Flags,
) -> Result<Counts, NoMemory>
    requires few { segments ≤ SEGMENTS_MAX }
    ensures { IfOk result (AreNames segments (store_in segments disk.now) (flag_at reached.now)) }
{
    let mut counts = Counts::new(alloc, (SEGMENT_INODES * segments) as usize)?;
    for d in 0..SEGMENT_INODES * segments {
        counts.add_reached(disk, segments, reached, d);
    }
    Ok(counts)
}
