// What a small block is picked for.

/// What a small block is to hold.
#[derive(Clone, Copy, PartialEq, Eq)]
pub enum Use {
    /// Bytes of a file.
    Bytes,
    /// Entries of a directory.
    Directory,
}
