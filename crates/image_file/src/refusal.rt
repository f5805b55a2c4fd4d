// Why no disk is read.
ghost use Rattle.std.specs.Prelude.{◌≡◌};

use crate::fault::ImageFault;
use frang_base::NoMemory;

/// Why bytes aren't read as a disk.
#[derive(Clone, Copy, Debug, PartialEq, Eq)]
pub enum ImageRead {
    /// They are no image: the byte at which the first fault stands, and its kind, 1 to 7.
    Bad { at: u64, kind: u8 },
    NoMemory,
}

// The same, with the fault itself.
#[derive(Clone, Copy, PartialEq, Eq)]
pub enum Refusal {
    Bad(ImageFault),
    NoMemory,
}

impl From<NoMemory> for Refusal {
    ghost use Rattle.image_file.specs.declared.refusal.Refusal.TheVariants.{NoMemory as Want};

    ghost from_gives = { λ _ e. e ≡ Want };

    fn from(_: NoMemory) -> Self {
        Refusal::NoMemory
    }
}
