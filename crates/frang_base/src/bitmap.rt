// The allocation bitmap: one segment of it, and the segments that an operation holds.
ghost use Rattle.std.specs.Prelude.{◌≡◌, [], OnErr, OnOk, ℕ};
ghost use Rattle.std.specs.BTreeMap.{insert_entry, is_at};
ghost use Rattle.std.specs.Map.{keys_of, lookup};
ghost use Rattle.std.specs.Map.Iter.{ShowsInOrder, deref};
ghost use Rattle.std.specs.Option.{option_copied};
ghost use Rattle.std.specs.Ordering.{nat_cmp};

use crate::NoMemory;
use std::alloc::Global;
use std::collections::BTreeMap;
use std::collections::btree_map::Keys;
use std::marker::Model;

/// One segment of the allocation bitmap: which of its 64 inodes, 1,024 small blocks and one large block are in use.
#[derive(Clone, Copy, PartialEq, Eq)]
pub struct Bitmap {
    pub version: u64,
    /// Bit j is inode j of the segment, 1 in use.
    pub inodes: u64,
    /// Two bits a small block: block j in byte j / 4, at bit 2 (j mod 4). 0 is free and never a directory's, 1 file bytes,
    /// 2 free and was a directory's, 3 a directory's.
    pub states: [u8; 256],
    pub large: bool,
}

/// The bitmap segments that an operation holds, seen as the segment numbers with their bitmaps, ascending.
#[derive(Drop)]
pub struct Held {
    bitmaps: BTreeMap<u32, Bitmap>,
}

impl Model for Held {
    ghost use Rattle.std.specs.Prelude.{List, ℕ};
    ghost use Rattle.frang_base.specs.declared.bitmap.Bitmap.{Bitmap};

    ghost Value = { List (ℕ × Bitmap) };

    ghost view = { λ h. h.bitmaps.entries };
}

impl Held {
    /// No segment. It takes no memory.
    pub fn new(alloc: Global) -> Self
        ensures { result ≡ [] }
    {
        Held {
            bitmaps: BTreeMap::new(alloc),
        }
    }

    /// Segment `k` has this bitmap, in place of one that it had. After `NoMemory` nothing has changed.
    pub fn set(&mut self, k: u32, bitmap: Bitmap) -> Result<(), NoMemory>
        ensures ok { OnOk result (self.new ≡ insert_entry nat_cmp self.old k bitmap) }
        ensures err { OnErr result (self.new ≡ self.old) }
    {
        self.bitmaps.insert(k, bitmap)?;
        Ok(())
    }

    /// The bitmap of segment `k`. `None` exactly where it isn't held.
    pub fn get(&self, k: u32) -> Option<&Bitmap>
        ensures { option_copied result ≡ lookup (is_at (nat_cmp k)) self.now }
    {
        self.bitmaps.get(&k)
    }

    /// The numbers of the held segments, ascending.
    pub fn segments(&self) -> Keys<'_, u32, Bitmap>
        ensures are { result ≡ keys_of self.now }
        ensures runs { ShowsInOrder (deref {X = ℕ}) }
    {
        self.bitmaps.keys()
    }
}
