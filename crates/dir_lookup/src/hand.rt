// What plans are made over.
use frang_base::Held;
use usable_sectors::Usable;

/// What a plan has at hand. The sectors and the bitmaps are those of one disk.
#[derive(Clone, Copy)]
pub struct Hand<'a> {
    /// The cached sectors that may be used. Any other is as one that isn't cached.
    pub sectors: &'a Usable<'a>,
    /// The bitmaps of the segments that are held.
    pub held: &'a Held,
    /// Whether the held segments are all segments of the disk.
    pub all: bool,
}
