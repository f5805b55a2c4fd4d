// What reading of cached sectors fails by.
use frang_base::Sector;

/// A sector that isn't cached, the first that is needed.
#[derive(Clone, Copy, Debug, PartialEq, Eq)]
pub struct Need(pub Sector);
