// The lists of a plan, each made from a vector and given back as one.
use frang_base::{Block, Items, Sector};

/// Sectors of file bytes with the bytes that are written to them.
pub type ByteWrites = Items<(Sector, Block)>;

/// Sectors.
pub type SectorList = Items<Sector>;
