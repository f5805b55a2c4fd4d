// A write that is wanted.
use frang_base::{Block, ServerId};
use petal_disk::Purpose;

/// A write that a server or the host wants: on whose behalf, the block, what it is of, and up to which number the log has to stand on the disk before, if it has to.
#[derive(Clone, Copy)]
pub struct WantedWrite {
    pub behalf: ServerId,
    pub block: Block,
    pub purpose: Purpose,
    pub mark: Option<u64>,
}
