// The gate: which line of a server it keeps.
ghost use Rattle.std.specs.Prelude.{◌≡◌};
ghost use Rattle.std.specs.Option.{option_map};
ghost use Rattle.core_definitions.specs.Cores.{next_of};
ghost use Rattle.hall_runs.specs.Gates.{line_at_gate, number_to_enter};
ghost use Rattle.host_tree.specs.Reading.{HostReading};
ghost use Rattle.world_state.specs.States.{core_at};
ghost use Rattle.world_next.specs.Over.{core_over};

use frang_base::ServerId;
use world_parties::is_server;
use world_state::World;

// The number of the next line of a server or of the host.
fn next_number(world: &World, who: ServerId) -> Option<u32>
    ensures { result ≡ option_map (λ line. line.number) (next_of (core_at world.now) who.0) }
{
    match world.next_line(who) {
        Some(line) => Some(line.number),
        None => None,
    }
}

/// The number of the line that only the gate keeps from beginning at a server.
pub fn at_gate(world: &World, a: ServerId) -> Option<u32>
    ensures { (tree : HostReading) → result ≡ line_at_gate (core_over world.now tree) a.0 }
{
    if world.is_at_gate(a) {
        next_number(world, a)
    } else {
        None
    }
}

/// The number of a server's next line that hasn't passed the gate yet, while the world isn't over.
pub fn to_enter(world: &World, a: ServerId) -> Option<u32>
    ensures { (tree : HostReading) → result ≡ number_to_enter (core_over world.now tree) a.0 }
{
    if world.is_over() {
        return None;
    }
    if !is_server(a) {
        return None;
    }
    let number = next_number(world, a)?;
    if world.places().has_passed(number) {
        None
    } else {
        Some(number)
    }
}
