// How a command that runs a script ends.
use frang_base::Sector;
use script_definitions::ScriptFault;

/// How a command that runs a script ended.
#[derive(Clone, Copy, PartialEq, Eq)]
pub enum RunEnd {
    /// The run came to its end, and its figures were written and the disk was saved where that was asked.
    Done,
    /// Want of memory: before anything, in the run, or where the figures are written or the disk is saved.
    NoMemory,
    /// The script wasn't read: the call failed, and the count of reads has risen. Nothing was put or said.
    ScriptFailed,
    /// The script has more bytes than its limit. Nothing was put or said.
    ScriptTooLong,
    /// The bytes are no script, with the first bad line and the kind of its first fault. Nothing was put or said.
    BadScript(ScriptFault),
    /// The image wasn't read: the call failed, and the count of reads has risen. Nothing was put or said.
    ImageFailed,
    /// The image has more bytes than its limit. Nothing was put or said.
    ImageTooLong,
    /// The bytes are no image, with the place and the kind, 1 to 7, of their first fault, and the number at that place, which is that of a sector where an entry stands there, and 0 where the
    /// bytes end before; or there is no tree for which the replayed disk stands, kind 8 at 0. Nothing was put or said.
    BadImage { at: u64, kind: u8, sector: u64 },
    /// A line wasn't said, after so many; the count of says has risen.
    Mute { said: u64 },
    /// A get or put of the host failed at this sector, in the opening, in the run or where the disk is saved; the count of the host has risen.
    Fault { sector: Sector },
    /// The run came to its end, and its figures weren't written or the disk wasn't saved: the call failed, and the count of writes has risen.
    WriteFailed,
}
