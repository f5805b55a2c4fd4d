// What is locked, and how.

/// A lock: of a server's log, of a segment of the bitmaps, or of a node, an inode with its data. Locks are ordered as they
/// are listed here, and then by their numbers.
#[derive(Clone, Copy, Debug, PartialEq, Eq, PartialOrd, Ord)]
pub enum LockId {
    Log(u8),
    Segment(u32),
    Node(u32),
}

/// A lock is held by many or by one alone.
#[derive(Clone, Copy, PartialEq, Eq)]
pub enum Mode {
    Shared,
    Sole,
}
