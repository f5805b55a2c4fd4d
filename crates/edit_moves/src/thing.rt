// What moves from lock to lock as one.
ghost use Rattle.std.specs.Prelude.{◌≡◌};
ghost use Rattle.edit_moves.specs.Moves.{StartsAt, count_of, is_same};

use frang_base::Sector;
use frang_base::limits::{LARGE_BLOCK_SECTORS, SMALL_BLOCK_SECTORS};
use frang_layout::{Region, sector_of};

/// An inode, a small block or a large block, by its number over all segments: its sectors are under one lock.
#[derive(Clone, Copy)]
pub enum Thing {
    Inode(u32),
    Small(u32),
    Large(u32),
}

impl Thing {
    /// Its first sector. Its sectors stand one after another, as many as `sectors` says.
    pub fn first(&self) -> Sector
        ensures { StartsAt self.now result.0 }
    {
        match self {
            Thing::Inode(number) => sector_of(&Region::Inode(*number)),
            Thing::Small(block) => sector_of(&Region::Small {
                block: *block,
                part: 0,
            }),
            Thing::Large(block) => sector_of(&Region::Large {
                block: *block,
                part: 0,
            }),
        }
    }

    /// How many sectors it has.
    pub fn sectors(&self) -> u64
        ensures { result ≡ count_of self.now }
    {
        match self {
            Thing::Inode(_) => 1,
            Thing::Small(_) => u64::from(SMALL_BLOCK_SECTORS),
            Thing::Large(_) => u64::from(LARGE_BLOCK_SECTORS),
        }
    }

    /// Whether it is the same as another.
    pub fn is_same(&self, other: &Thing) -> bool
        ensures { result ≡ is_same self.now other.now }
    {
        match (*self, *other) {
            (Thing::Inode(one), Thing::Inode(another)) => one == another,
            (Thing::Small(one), Thing::Small(another)) => one == another,
            (Thing::Large(one), Thing::Large(another)) => one == another,
            _ => false,
        }
    }
}
