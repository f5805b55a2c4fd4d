// What stops a run before its end.
use frang_base::Sector;

/// What stops a run before its end: a say that failed after so many lines, a get or put of the host that failed at a sector, or want of memory.
#[derive(Clone, Copy, PartialEq, Eq)]
pub enum RunFault {
    Mute { said: u64 },
    Fault { sector: Sector },
    NoMemory,
}
