// What ends a plan before it is done.
use dir_lookup::Need;
use frang_base::{NoMemory, Reply, Sector};

/// Why a plan ends before it has all that it is made of.
#[derive(Drop)]
pub enum Stop {
    /// This sector is needed and isn't cached, the first such.
    Need(Sector),
    /// Nothing free was found in the held segments, and they aren't all.
    Segments,
    /// This small block has to be cleared first.
    Clear { block: u32 },
    /// The operation is refused with this reply, and changes nothing.
    Refused(Reply),
    /// The allocator has no memory left.
    NoMemory,
}

impl From<Need> for Stop {
    ghost use Rattle.std.specs.Prelude.{◌≡◌};
    ghost use Rattle.plan_steps.specs.declared.stop.Stop.TheVariants.{Need as Needs};

    ghost from_gives = { λ need e. e ≡ Needs need.0 };

    fn from(need: Need) -> Self {
        Stop::Need(need.0)
    }
}

impl From<NoMemory> for Stop {
    ghost use Rattle.std.specs.Prelude.{◌≡◌};
    ghost use Rattle.plan_steps.specs.declared.stop.Stop.TheVariants.{NoMemory as Want};

    ghost from_gives = { λ _ e. e ≡ Want };

    fn from(_: NoMemory) -> Self {
        Stop::NoMemory
    }
}
