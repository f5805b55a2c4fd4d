// How many workers run a script.
ghost use Rattle.std.specs.Prelude.{◌<◌};

use frang_base::Line;
use frang_base::limits::SERVERS;

// Which servers the lines name.
fn named_in(lines: &[Line]) -> [bool; SERVERS] {
    let mut named = [false; SERVERS];
    for line in lines {
        if let Some(is_named) = named.get_mut(usize::from(line.who.0)) {
            *is_named = true;
        }
    }
    named
}

/// One for each server that the lines name, at least one.
pub fn workers_for(lines: &[Line]) -> u8
    ensures { 0 < result }
{
    let mut workers = 0u8;
    for is_named in named_in(lines) {
        if is_named {
            workers = workers.saturating_add(1);
        }
    }
    workers.max(1)
}
