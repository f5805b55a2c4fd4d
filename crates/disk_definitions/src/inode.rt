// Inodes.

/// A node on the disk, or a free inode, of which all but the version is 0.
#[derive(Clone, Copy, PartialEq, Eq)]
pub struct Inode {
    pub version: u64,
    /// 0 free, 1 a file, 2 a directory, 3 a symbolic link.
    pub kind: u8,
    /// The number of names: 1 for a directory.
    pub links: u16,
    /// The number of small blocks in use.
    pub blocks: u16,
    /// Bytes of a file, entries of a directory, or bytes of a target.
    pub size: u64,
    /// The number of the operation that made the node.
    pub birth: u64,
    /// The small blocks in their order; those past the number in use are 0.
    pub small: [u32; 16],
    /// The large block plus 1, or 0 where there is none.
    pub large: u32,
    /// The time of a file's last write, fill or truncate: the run's number times 2^32 plus the tick of the script. 0 for a file that
    /// was never written, and for everything but a file.
    pub when: u64,
    /// The bytes of a link's target, and zeros.
    pub target: [u8; 384],
}
