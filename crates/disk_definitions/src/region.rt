// The regions of the disk.

/// Where a sector lies: in which region, and what of it.
#[derive(Clone, Copy, PartialEq, Eq)]
pub enum Region {
    /// The parameters: sector 0.
    Param,
    /// A slot, 0 to 255, of the log of a server, 0 to 255.
    Log { server: u8, slot: u8 },
    /// A segment of the allocation bitmap.
    Segment(u32),
    /// An inode.
    Inode(u32),
    /// One of the 8 sectors of a small block.
    Small { block: u32, part: u8 },
    /// One of the 2,048 sectors of a large block.
    Large { block: u32, part: u16 },
}
