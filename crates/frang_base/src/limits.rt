// Each limit of the system, once. The unit stands in the name, or is what is counted. Lengths of formats that no other crate
// speaks of stand beside their format.

/// The bytes of a sector.
pub const SECTOR_BYTES: usize = 512;

/// The bytes of a version, which are the first of a sector that has one.
pub const VERSION_BYTES: usize = 8;

/// The sectors of a virtual disk: addresses are below this.
pub const SECTORS_END: u64 = 1 << 55;

/// The servers, numbered from 0.
pub const SERVERS: usize = 16;

/// The segments that a disk has at most.
pub const SEGMENTS_MAX: u32 = 64;

/// The segments of a fresh disk where no number is given.
pub const SEGMENTS_DEFAULT: u32 = 16;

/// The inodes of a segment.
pub const SEGMENT_INODES: u32 = 64;

/// The small blocks of a segment.
pub const SEGMENT_BLOCKS: u32 = 1024;

/// The sectors of a small block.
pub const SMALL_BLOCK_SECTORS: u32 = 8;

/// The bytes of a small block.
pub const SMALL_BLOCK_BYTES: u64 = 4096;

/// The sectors of a large block, which are the first of its stride.
pub const LARGE_BLOCK_SECTORS: u32 = 2048;

/// The small blocks that an inode has at most.
pub const INODE_BLOCKS_MAX: u32 = 16;

/// The bytes of a file that stand in small blocks.
pub const SMALL_BYTES_MAX: u64 = 65_536;

/// The sectors of a file that stand in small blocks.
pub const SMALL_SECTORS_MAX: u32 = 128;

/// The bytes that a file has at most.
pub const FILE_BYTES_MAX: u64 = 1_114_112;

/// The entries of a sector of a directory.
pub const SECTOR_ENTRIES: u32 = 7;

/// The entries of a block of a directory.
pub const BLOCK_ENTRIES: u32 = 56;

/// The entries that a directory has at most.
pub const DIRECTORY_ENTRIES_MAX: u32 = 896;

/// The names that a node has at most.
pub const LINKS_MAX: u16 = 1000;

/// The bytes that a name has at most.
pub const NAME_BYTES_MAX: usize = 64;

/// The names that a path has at most.
pub const PATH_NAMES_MAX: usize = 32;

/// The bytes that the text of a path has at most.
pub const PATH_BYTES_MAX: usize = 1024;

/// The symbolic links that one walk follows at most.
pub const LINKS_FOLLOWED_MAX: usize = 8;

/// The bytes that the target of a symbolic link has at most.
pub const TARGET_BYTES_MAX: usize = 384;

/// The bytes that one line writes at most.
pub const WRITE_BYTES_MAX: usize = 512;

/// The bytes that one line reads at most.
pub const READ_BYTES_MAX: usize = 4096;

/// The bytes that a script has at most.
pub const SCRIPT_BYTES_MAX: usize = 1_048_576;

/// The lines that a script has at most.
pub const SCRIPT_LINES_MAX: u32 = 65_536;

/// The bytes that an image has at most.
pub const IMAGE_BYTES_MAX: u64 = 536_870_912;

/// The ticks that one line waits at most.
pub const LINE_TICKS_MAX: u64 = 10_000;

/// The operation numbers of a run: its lines are numbered below this.
pub const RUN_LINES_END: u64 = 1 << 32;

/// The ticks of a run: a time is the number of the run times this, plus a tick below it.
pub const RUN_TICKS_END: u64 = 1 << 32;

/// The number of the last run that a disk can have.
pub const RUNS_MAX: u64 = (1 << 32) - 1;

/// The versions that a sector gets in a run at most.
pub const RUN_VERSIONS_MAX: u64 = 131_072;

/// The logs, one for each number of a server and the host.
pub const LOGS: usize = 256;

/// The sectors of a log, which are its slots.
pub const LOG_SECTORS: u64 = 256;

/// The last numbers of a log of which its records are read.
pub const LOG_WINDOW: u64 = 192;

/// The numbers that a log gives up at once, its oldest quarter.
pub const LOG_QUARTER: u64 = 64;

/// The sectors of a log that are in flight at most.
pub const LOG_IN_FLIGHT_MAX: usize = 64;

/// The numbers of log sectors are below this.
pub const LOG_NUMBERS_END: u64 = 1 << 63;

/// The bytes of a log sector that are records'.
pub const LOG_BODY_BYTES: usize = 488;

/// The sectors of a log that a record has at most.
pub const RECORD_SECTORS_MAX: u16 = 9;

/// The changes that a record has at most.
pub const RECORD_CHANGES_MAX: usize = 32;

/// The bytes that a record's changes have at most.
pub const RECORD_BYTES_MAX: usize = 4096;

/// How long a lease lasts from its beginning or its last renewal, in ticks.
pub const LEASE_TICKS: u64 = 30;

/// How long before the end of its lease a server's write may last arrive, in ticks.
pub const MARGIN_TICKS: u64 = 15;

/// At each multiple of so many ticks servers want everything written.
pub const FLUSH_TICKS: u64 = 30;

/// The last tick of the clock. A lease that begins at it ends at the last value of `u64`.
pub const LAST_TICK: u64 = u64::MAX - LEASE_TICKS;

/// The kind of an inode that is free.
pub const KIND_FREE: u8 = 0;

/// The kind of a file's inode.
pub const KIND_FILE: u8 = 1;

/// The kind of a directory's inode.
pub const KIND_DIRECTORY: u8 = 2;

/// The kind of a symbolic link's inode.
pub const KIND_LINK: u8 = 3;

/// The inode of the root.
pub const ROOT_INODE: u32 = 0;
