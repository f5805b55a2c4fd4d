// How a command on an image ends.

/// How a command on an image ended.
#[derive(Clone, Copy, PartialEq, Eq)]
pub enum ImageEnd {
    /// All lines were said, and the disk was saved where that was asked.
    Done,
    /// Want of memory.
    NoMemory,
    /// The image wasn't read: the call failed, and the count of reads has risen. Nothing was said.
    ReadFailed,
    /// The image has more bytes than its limit. Nothing was said.
    TooLong,
    /// The bytes are no image, with the place and the kind, 1 to 7, of their first fault, and the number at that place, which is that of a
    /// sector where an entry stands there, and 0 where the bytes end before; or there is no tree for which the replayed disk stands, kind 8
    /// at 0. Nothing was said.
    BadImage { at: u64, kind: u8, sector: u64 },
    /// A line wasn't said, after so many; the count of says has risen.
    Mute { said: u64 },
    /// All lines were said, and the disk wasn't saved; the count of writes has risen.
    WriteFailed,
}
