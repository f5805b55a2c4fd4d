// Why nothing is read.
ghost use Rattle.std.specs.Prelude.{◌≡◌};

use frang_base::NoMemory;
use script_definitions::{LineFault, ScriptFault};

/// Why no script is read.
#[derive(Clone, Copy, Debug, PartialEq, Eq)]
pub enum ReadFault {
    /// The bytes are no script: the first bad line and the kind of its first fault.
    Bad(ScriptFault),
    NoMemory,
}

impl From<NoMemory> for ReadFault {
    ghost use Rattle.script_lang.specs.declared.refusal.ReadFault.TheVariants.{NoMemory as Want};

    ghost from_gives = { λ _ e. e ≡ Want };

    fn from(_: NoMemory) -> Self {
        ReadFault::NoMemory
    }
}

// Why nothing is read of a line.
#[derive(Clone, Copy, PartialEq, Eq)]
pub enum Refusal {
    Bad(LineFault),
    NoMemory,
}

impl From<NoMemory> for Refusal {
    ghost use Rattle.script_lang.specs.declared.refusal.Refusal.TheVariants.{NoMemory as Want};

    ghost from_gives = { λ _ e. e ≡ Want };

    fn from(_: NoMemory) -> Self {
        Refusal::NoMemory
    }
}

impl From<LineFault> for Refusal {
    ghost use Rattle.script_lang.specs.declared.refusal.Refusal.TheVariants.{Bad};

    ghost from_gives = { λ fault e. e ≡ Bad fault };

    fn from(fault: LineFault) -> Self {
        Refusal::Bad(fault)
    }
}
