// Why a disk isn't saved.
use frang_base::{NoMemory, Sector};

/// Why a disk isn't saved: a get of the host failed, at this sector; the file wasn't written; or memory was wanting.
#[derive(Clone, Copy, PartialEq, Eq)]
pub enum SaveFault {
    Failed { sector: Sector },
    WriteFailed,
    NoMemory,
}

impl From<NoMemory> for SaveFault {
    ghost use Rattle.std.specs.Prelude.{◌≡◌};
    ghost use Rattle.disk_saving.specs.declared.fault.SaveFault.TheVariants.{NoMemory as Want};

    ghost from_gives = { λ _ e. e ≡ Want };

    fn from(_: NoMemory) -> Self {
        SaveFault::NoMemory
    }
}
