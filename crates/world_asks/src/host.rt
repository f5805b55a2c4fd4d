// Which writes of its recovery the host may issue next.
ghost use Rattle.std.specs.Prelude.{◌≡◌, IfSome, IsTrue, false, is_some};
ghost use Rattle.std.specs.Option.{option_copied, option_map};
ghost use Rattle.core_definitions.specs.Cores.{writes};
ghost use Rattle.core_definitions.specs.Scripts.{host_party};
ghost use Rattle.core_definitions.specs.WriteGuards.{may_issue};
ghost use Rattle.server_issues.specs.Issuing.{IsHost, IsOneThat, issuable_write, write_of};
ghost use Rattle.world_parties.specs.States.{IsFresh};
ghost use Rattle.world_state.specs.States.{core_at};

use frang_base::{Sector, ServerId};
use recovery_demon::Demon;
use server_issues::WantedWrite;
use world_state::World;

// The recovery that the host carries out, if any.
fn host_recovery(world: &World) -> Option<&Demon>
    requires going { world.now.over ≡ false }
    requires fresh { IsFresh world.now.parties host_party }
    ensures host { IsHost (core_at world.now) (option_copied result) world.now.flights.flying }
    ensures fresh { IfSome (option_copied result) (λ r. IsTrue r.is_fresh) }
{
    // What its type keeps of the writes in flight.
    let _over = world.is_over();
    world.parties().recovery(ServerId::HOST)
}

/// The write of a sector that the host may issue: its recovery wants it, and no write of the sector is in flight. `None` exactly where that isn't so.
pub fn host_write(world: &World, sector: Sector) -> Option<WantedWrite>
    requires going { world.now.over ≡ false }
    requires fresh { IsFresh world.now.parties host_party }
    ensures write { option_map write_of result ≡ issuable_write (core_at world.now) host_party sector.0 }
    ensures may { is_some result ≡ may_issue (core_at world.now) host_party sector.0 (writes (core_at world.now) host_party) }
{
    server_issues::host_write(host_recovery(world), world.flights(), sector)
}

/// A sector of which the host may issue a write. `None` exactly where there is none.
pub fn host_next_issue(world: &World) -> Option<Sector>
    requires going { world.now.over ≡ false }
    requires fresh { IsFresh world.now.parties host_party }
    ensures { IsOneThat (λ sector. may_issue (core_at world.now) host_party sector (writes (core_at world.now) host_party)) result }
{
    server_issues::host_next_issue(host_recovery(world), world.flights())
}
