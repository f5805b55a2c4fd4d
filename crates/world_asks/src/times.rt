// The times of lines.
ghost use Rattle.std.specs.Prelude.{IfOk, ◌≡◌};
ghost use Rattle.tree_definitions.specs.Live.{script_time, time_in};

use frang_base::NoMemory;
use frang_base::limits::RUN_TICKS_END;
use script_places::Places;

/// The time of a script's line in a run. Want of memory comes where the number is above each line's, or the lines before let more ticks pass than a run has, which those of a script that was
/// read don't.
pub(crate) fn time_of(places: &Places, run: u32, number: u32) -> Result<u64, NoMemory>
    ensures { IfOk result (λ when. when ≡ time_in run (script_time places.now.script number)) }
{
    match places.ticks_before(number) {
        Some(ticks) if ticks < RUN_TICKS_END => Ok(u64::from(run) * RUN_TICKS_END + ticks),
        _ => Err(NoMemory),
    }
}
