// How images begin, and the lengths of their parts in bytes.

/// The first bytes of every image.
pub const MARK: [u8; 8] = *b"FRANGIM1";

/// The mark and the number of entries.
pub const HEADER_BYTES: u64 = 16;

/// The number of a sector and its block.
pub const ENTRY_BYTES: u64 = 520;
