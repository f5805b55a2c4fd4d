// The ticks that pass in a script before each number.
ghost use Rattle.std.specs.Prelude.{◌≡◌, IfOk, IsTrue};
ghost use Rattle.script_places.specs.Placed.{AreTicks, ascends};

use frang_base::{Line, NoMemory};
use script_definitions::ticks_of;
use std::alloc::Global;

/// By number, up to that of the last line, the ticks that the lines before let pass, or the greatest number where they are more.
pub(crate) fn ticks_by_number(alloc: Global, lines: &[Line]) -> Result<Vec<u64>, NoMemory>
    requires { IsTrue (ascends lines.now) }
    ensures { IfOk result (λ ticks. AreTicks lines.now ticks.items) }
{
    let mut ticks = Vec::new(alloc);
    let mut passed = 0u64;
    for line in lines {
        let number = line.number;
        ticks.resize(number as usize + 1, passed)?;
        passed = passed.saturating_add(u64::from(ticks_of(&line.what)));
    }
    Ok(ticks)
}
