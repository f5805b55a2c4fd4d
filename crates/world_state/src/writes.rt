// What becomes of writes in flight: Lose.
ghost use Rattle.std.specs.Prelude.{◌≡◌, is_some, true};
ghost use Rattle.core_definitions.specs.WriteEffects.{landed};
ghost use Rattle.sector_bytes.specs.SectorMaps.{value_at};
ghost use Rattle.world_state.specs.Rooms.{HasLossRoom};
ghost use Rattle.world_state.specs.States.{IsWriteOf, core_at};

use crate::world::World;
use flight_laws::{a_landed_write_is_the_cores, a_write_is_the_cores};
use frang_base::{Sector, ServerId};
use petal_disk::Ticket;

impl World {
    // The party whose write in flight this is, and its sector.
    fn writer(&self, ticket: Ticket) -> (ServerId, Sector)
        requires { is_some (value_at (core_at self.now).flights ticket.0) ≡ true }
        ensures { IsWriteOf self.now ticket.0 result.0.0 result.1.0 }
    {
        a_write_is_the_cores();
        match self.flights.flying(ticket) {
            Some(flying) => (flying.put.server, flying.put.sector),
            None => unreachable!(),
        }
    }

    /// Lose: the write is gone.
    pub fn lose(&mut self, ticket: Ticket)
        requires flies { is_some (value_at (core_at self.old).flights ticket.0) ≡ true }
        requires room { HasLossRoom self.old ticket.0 }
        ensures { core_at self.new ≡ landed (core_at self.old) ticket.0 }
    {
        a_write_is_the_cores();
        a_landed_write_is_the_cores();
        let (server, sector) = self.writer(ticket);
        self.parties.lose(server, sector);
        let _count = self.flights.count();
        self.flights.lose(ticket);
    }
}
