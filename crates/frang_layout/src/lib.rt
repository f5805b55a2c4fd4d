//! Where things lie on the disk: the place of each sector, the sector of each place, and the lock that covers a sector while nobody
//! uses it. The contracts promise the addresses of the definition for every number; the laws, that sectors and places in range are
//! one to one. It stands on the definitions of sectors.
#![tactic(auto)]

mod laws;
mod limits;
mod place;

pub use disk_definitions::Region;
pub use laws::{sectors_and_places_agree, segments_cover_their_own};
pub use limits::{
    BITMAPS_FROM, INODES_FROM, LARGE_BLOCKS_FROM, LARGE_STRIDE, LOG_STRIDE, LOGS_FROM,
    SMALL_BLOCKS_FROM,
};
pub use place::{free_cover, region_of, sector_of};
