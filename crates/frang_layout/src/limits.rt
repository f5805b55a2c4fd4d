// Where the regions of the disk begin, and how far apart their parts lie, in sectors. How many of each thing there are stands among
// the limits of the system.

/// The first sector of the logs.
pub const LOGS_FROM: u64 = 2_147_483_648;

/// The sectors from the first of one log to the first of the next.
pub const LOG_STRIDE: u64 = 8_388_608;

/// The sector of the first segment of the bitmap.
pub const BITMAPS_FROM: u64 = 4_294_967_296;

/// The sector of inode 0.
pub const INODES_FROM: u64 = 10_737_418_240;

/// The first sector of small block 0.
pub const SMALL_BLOCKS_FROM: u64 = 12_884_901_888;

/// The first sector of large block 0.
pub const LARGE_BLOCKS_FROM: u64 = 287_762_808_832;

/// The sectors from the first of one large block to the first of the next.
pub const LARGE_STRIDE: u64 = 2_147_483_648;
