// The times of a script's lines.
ghost use Rattle.std.specs.Prelude.{◌≡◌, ◌<◌, nat_lt};
ghost use Rattle.frang_base.specs.declared.limits.TheConstants.{RUN_TICKS_END};
ghost use Rattle.tree_definitions.specs.Live.{script_time};
ghost use Rattle.script_definitions.specs.Ticks.{all_ticks};

use frang_base::limits::RUN_TICKS_END;
use frang_base::{Line, Script};
use script_definitions::ticks_of;

/// The ticks that the lines before the one with this number let pass.
pub fn script_time(script: &[Line], number: u32) -> u64
    requires { all_ticks script.now < RUN_TICKS_END }
    ensures is { result ≡ script_time script.now number }
    ensures few { result < RUN_TICKS_END }
{
    let mut ticks = 0;
    for line in script {
        if line.number < number {
            ticks += u64::from(ticks_of(&line.what));
        }
    }
    ticks
}

/// Whether the lines of a script let so few ticks pass that each has a time; those of a script that was read do.
pub fn has_times(script: &Script) -> bool
    ensures { result ≡ nat_lt (all_ticks script.now) RUN_TICKS_END }
{
    let mut ticks = 0u64;
    for line in script.as_slice() {
        ticks = ticks.saturating_add(u64::from(ticks_of(&line.what)));
    }
    ticks < RUN_TICKS_END
}
