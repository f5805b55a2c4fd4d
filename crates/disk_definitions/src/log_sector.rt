// Sectors of logs.
use frang_base::OpNo;
use frang_base::limits::LOG_BODY_BYTES;

/// A sector of a log: a part of a record that has its sectors for itself, a packed sector, in which frames of records follow one another,
/// or an empty sector, of which all but the number is 0.
#[derive(Clone, Copy, PartialEq, Eq)]
pub struct LogSector {
    /// The sequence number, whose remainder by 256 is the slot.
    pub seq: u64,
    /// The operation of the record, 0 in an empty sector and in a packed one.
    pub op: OpNo,
    /// Which part of the record it is, from 0. In a packed sector the place in the body where the first frame that begins in it begins,
    /// or `NONE_BEGINS`.
    pub part: u16,
    /// How many parts the record has, 0 in an empty sector and `PACKED` in a packed one.
    pub parts: u16,
    /// How many bytes of the body are used.
    pub used: u16,
    pub body: [u8; LOG_BODY_BYTES],
}

impl LogSector {
    /// The number of parts of a packed sector.
    pub const PACKED: u16 = 65_535;

    /// The part of a packed sector in which no frame begins.
    pub const NONE_BEGINS: u16 = 65_535;
}
