// The parameters of a disk.

/// The newest format, which a fresh disk has. Those from 1 on are read. A disk of format 1 has no times, so its files show 0.0.
pub const FORMAT_NEWEST: u32 = 2;

/// The parameter sector: the format, 1 or 2; the number of segments, 1 to 64; and the number of the run, at least 1.
#[derive(Clone, Copy, PartialEq, Eq)]
pub struct Param {
    pub format: u32,
    pub segments: u32,
    pub run: u32,
}
