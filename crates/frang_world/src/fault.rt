// Why an event isn't ready.
use frang_base::NoMemory;
use hall_runs::Event;

/// Why an event isn't ready.
#[derive(Clone, Copy)]
pub enum StepFault {
    /// The event may not happen now.
    NotEnabled { event: Event },
    NoMemory,
}

impl From<NoMemory> for StepFault {
    ghost use Rattle.std.specs.Prelude.{◌≡◌};
    ghost use Rattle.frang_world.specs.declared.fault.StepFault.TheVariants.{NoMemory as Want};

    ghost from_gives = { λ _ e. e ≡ Want };

    fn from(_want: NoMemory) -> StepFault {
        StepFault::NoMemory
    }
}
