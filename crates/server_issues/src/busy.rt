// Whether a write of a sector is in flight.
ghost use Rattle.std.specs.Prelude.{◌≡◌};
ghost use Rattle.core_definitions.specs.Flights.{is_flying};
ghost use Rattle.flight_laws.specs.Flights.{flights_of};

use flight_laws::a_busy_sector_is_the_cores;
use frang_base::Sector;
use petal_disk::Flight;

/// Whether a write of the sector is in flight, in the core's words.
pub(crate) fn is_busy(flights: &Flight, sector: Sector) -> bool
    ensures { result ≡ is_flying (flights_of flights.now.flying) sector.0 }
{
    a_busy_sector_is_the_cores();
    // The puts are those of the writes.
    let _count = flights.count();
    flights.busy(sector).is_some()
}
