// What is wrong with bytes that are no image.
ghost use Rattle.std.specs.Prelude.{◌≡◌};
ghost use Rattle.image_file.specs.Images.{kind_of};

/// What is wrong at a place of an image.
#[derive(Clone, Copy, Debug, PartialEq, Eq)]
pub enum ImageFlaw {
    /// The bytes end inside the header or an entry.
    Cut,
    /// The first eight bytes aren't the mark.
    OtherMark,
    /// The number of a sector isn't greater than the one before.
    OutOfOrder,
    /// A sector in no region of the disk.
    NoRegion,
    /// A sector of zeros.
    OfZeros,
    /// Bytes after the last entry.
    BytesAfter,
    /// The parameter sector isn't the first, its run can't be followed by another, or a parameter, log, bitmap or inode sector isn't
    /// in its grammar.
    BadSector,
}

impl ImageFlaw {
    /// The number of this kind of flaw, 1 to 7.
    pub fn kind(self) -> u8
        ensures { result ≡ kind_of self }
    {
        match self {
            ImageFlaw::Cut => 1,
            ImageFlaw::OtherMark => 2,
            ImageFlaw::OutOfOrder => 3,
            ImageFlaw::NoRegion => 4,
            ImageFlaw::OfZeros => 5,
            ImageFlaw::BytesAfter => 6,
            ImageFlaw::BadSector => 7,
        }
    }
}

/// The first flaw of bytes that are no image, and its place: the byte at which the header, the entry or what follows the entries begins.
#[derive(Clone, Copy, Debug, PartialEq, Eq)]
pub struct ImageFault {
    pub at: u64,
    pub flaw: ImageFlaw,
}
