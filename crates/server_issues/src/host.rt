// Which writes of its recovery the host may issue.
ghost use Rattle.std.specs.Prelude.{◌≡◌, is_some, IfSome, IsTrue, Some};
ghost use Rattle.std.specs.Option.{option_copied, option_map};
ghost use Rattle.core_definitions.specs.Cores.{Core, writes};
ghost use Rattle.core_definitions.specs.Scripts.{host_party};
ghost use Rattle.core_definitions.specs.WriteGuards.{may_issue};
ghost use Rattle.server_issues.specs.Issuing.{IsHost, IsOneThat, issuable_write, write_of};
ghost use Rattle.server_issues.specs.Nexts.{IsOneAmong, is_rescue_of};

use crate::busy::is_busy;
use crate::rescue::rescue_write;
use crate::writes::WantedWrite;
use frang_base::Sector;
use petal_disk::Flight;
use recovery_demon::Demon;

/// The write of a sector that the host may issue: its recovery wants it, and no write of the sector is in flight. `None` exactly where that isn't so. What the slots of its recovery say
/// is read off them.
pub fn host_write(recovery: Option<&Demon>, flights: &Flight, sector: Sector) -> Option<WantedWrite>
    requires { IfSome (option_copied recovery) (λ r. IsTrue r.is_fresh) }
    ensures write { (c : Core) → IsHost c (option_copied recovery.entry) flights.now.flying → option_map write_of result ≡ issuable_write c host_party sector.0 }
    ensures may { (c : Core) → IsHost c (option_copied recovery.entry) flights.now.flying → is_some result ≡ may_issue c host_party sector.0 (writes c host_party) }
{
    if is_busy(flights, sector) {
        return None;
    }
    match recovery {
        Some(demon) => rescue_write(demon, sector),
        None => None,
    }
}

// A sector of a recovery of the host whose write may be issued.
fn next_for(demon: &Demon, flights: &Flight) -> Option<Sector>
    requires { IsTrue demon.now.is_fresh }
    ensures { (c : Core) → IsHost c (Some demon.now) flights.now.flying → IsOneAmong (is_rescue_of demon.now) (λ sector. may_issue c host_party sector (writes c host_party)) result }
{
    let mut from = Sector(0);
    // All that are written are low.
    let _looked = demon.has_looked(from);
    while let Some(sector) = demon.first_write(from) {
        if host_write(Some(demon), flights, sector).is_some() {
            return Some(sector);
        }
        from = Sector(sector.0 + 1);
    }
    None
}

/// A sector of which the host may issue a write. `None` exactly where there is none. It takes no memory, and time logarithmic in what is in flight and recovered, for each sector of its
/// recovery that is in flight.
pub fn host_next_issue(recovery: Option<&Demon>, flights: &Flight) -> Option<Sector>
    requires { IfSome (option_copied recovery) (λ r. IsTrue r.is_fresh) }
    ensures { (c : Core) → IsHost c (option_copied recovery.entry) flights.now.flying → IsOneThat (λ sector. may_issue c host_party sector (writes c host_party)) result }
{
    match recovery {
        Some(demon) => next_for(demon, flights),
        None => None,
    }
}
