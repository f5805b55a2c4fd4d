// What an operation comes to, planned over cached sectors.
use crate::{ByteWrites, SectorList};
use frang_base::{Changes, Reply, Sector};

/// What an operation comes to over the sectors that are cached.
#[derive(Drop)]
pub enum Plan {
    /// This sector isn't cached, and is the first that the plan needs.
    Need(Sector),
    /// Nothing free was found in the segments that are held, and they aren't all.
    Segments,
    /// A directory takes this small block, whose eight sectors aren't cached as zero. The block's number counts from 0 over all segments.
    Clear {
        block: u32,
    },
    /// The reply, with what makes it.
    Done {
        reply: Reply,
        /// The changes of sectors with versions, ascending by sector.
        changes: Changes,
        /// The sectors of file bytes that are written, with their new bytes.
        bytes: ByteWrites,
        /// Each sector of the blocks of file bytes that are freed, ascending.
        freed: SectorList,
    },
}
