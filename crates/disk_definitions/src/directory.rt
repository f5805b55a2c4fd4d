// Sectors of directories.

/// A place for an entry: a name with the inode and the kind of its node, or a free place, all of it 0.
#[derive(Clone, Copy, PartialEq, Eq)]
pub struct DirEntry {
    pub inode: u32,
    /// The number of bytes of the name, 0 where the place is free.
    pub len: u8,
    /// 1 a file, 2 a directory, 3 a symbolic link.
    pub kind: u8,
    /// The name, and zeros.
    pub name: [u8; 64],
}

/// One of the 8 sectors of a directory's block.
#[derive(Clone, Copy, PartialEq, Eq)]
pub struct DirSector {
    pub version: u64,
    pub entries: [DirEntry; 7],
}
