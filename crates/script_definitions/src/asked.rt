// What a line asks.
use frang_base::{ServerId, What};

/// Who is asked, a server or the host, and what.
#[derive(Drop)]
pub struct Asked {
    pub who: ServerId,
    pub what: What,
}
