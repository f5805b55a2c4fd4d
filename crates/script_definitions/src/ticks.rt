// How many ticks the lines of a script let pass.
ghost use Rattle.std.specs.Prelude.{◌≡◌, ◌<◌, List, ℕ, Ok};
ghost use Rattle.frang_base.specs.declared.limits.TheConstants.{RUN_TICKS_END};
ghost use Rattle.frang_base.specs.declared.script.Line.{Line};
ghost use Rattle.tree_definitions.specs.Live.{ticks_of};
ghost use Rattle.script_definitions.specs.ScriptText.{script_of};
ghost use Rattle.script_definitions.specs.Ticks.{all_ticks};

use frang_base::{HostOp, What};

/// The ticks that a line lets pass.
pub fn ticks_of(what: &What) -> u32
    ensures { result ≡ ticks_of what.now }
{
    match what {
        What::Host(HostOp::Tick { n }) => *n,
        What::Host(HostOp::Barrier | HostOp::Halt) | What::Server(_) => 0,
    }
}

/// The lines of a script that was read let so few ticks pass that each line has a time.
pub fn scripts_take_few_ticks()
    ensures { (bytes : List ℕ) (script : List Line) → script_of bytes ≡ Ok script → all_ticks script < RUN_TICKS_END }
{}
