// What is asked beside the events, and what is made that is no event: a server is held, or wants everything written.
ghost use Rattle.std.specs.Prelude.{◌≡◌, ◌<◌, IfOk, None};
ghost use Rattle.std.specs.Option.{option_map};
ghost use Rattle.frang_base.specs.Functions.{put};
ghost use Rattle.frang_base.specs.declared.limits.TheConstants.{SERVERS};
ghost use Rattle.known_locks.specs.Listed.{clerks_of};
ghost use Rattle.lock_definitions.specs.Same.{AllWishesWait, SameLocks};
ghost use Rattle.sector_bytes.specs.SectorMaps.{value_at};
ghost use Rattle.core_definitions.specs.Cores.{with_server};
ghost use Rattle.core_definitions.specs.Servers.{is_quiet, wanting_all_up};
ghost use Rattle.server_core.specs.Phases.{phase_of};
ghost use Rattle.frang_world.specs.States.{core_of};

use crate::world::{World, put_ready};
use frang_base::{NoMemory, Sector, ServerId};
use lock_definitions::ClerkLocks;
use lock_table::LockTable;
use petal_disk::Ticket;
use server_core::Phase;

// ---- what is asked

impl World {
    /// Whether it is over: nothing happens any more.
    pub fn over(&self) -> bool
        ensures { result ≡ (core_of self.now).over }
    {
        self.world.is_over()
    }

    /// What a server, 0 to 15, is.
    pub fn phase(&self, server: ServerId) -> Phase
        requires { server.0 < SERVERS }
        ensures { phase_of result ≡ ((core_of self.now).servers server.0).phase }
    {
        self.world.parties().get(server).server.phase()
    }

    /// Whether the line of a number is answered.
    pub fn answered(&self, line: u32) -> bool
        ensures { result ≡ (core_of self.now).answered line }
    {
        self.world.places().is_answered(line)
    }

    /// The party and the sector of a write in flight. `None` exactly where it isn't in flight.
    pub fn flying(&self, ticket: Ticket) -> Option<(ServerId, Sector)>
        ensures party { option_map (λ write. write.0.0) result ≡ option_map (λ flight. flight.server) (value_at (core_of self.now).flights ticket.0) }
        ensures sector { option_map (λ write. write.1.0) result ≡ option_map (λ flight. flight.sector) (value_at (core_of self.now).flights ticket.0) }
    {
        self.world.flying(ticket)
    }

    /// For each server, 0 to 15, and then for the host, the locks that it knows itself to hold, its wishes and the logs that it has taken. The lock table isn't read. Its one refusal is want
    /// of memory.
    pub fn clerks(&self) -> Result<Vec<ClerkLocks>, NoMemory>
        ensures { IfOk result (λ clerks. clerks.items ≡ clerks_of (core_of self.now).locks) }
    {
        self.world.clerks()
    }

    /// Whether a server, 0 to 15, is quiet: it is off, or up without a line under way, nothing of it is dirty, wanted or in flight, its whole log is acknowledged, and it recovers no other's.
    pub fn quiet(&self, server: ServerId) -> bool
        requires { server.0 < SERVERS }
        ensures { result ≡ is_quiet (core_of self.now).flights server.0 ((core_of self.now).servers server.0) }
    {
        self.world.is_quiet(server)
    }
}

// ---- what is made

impl World {
    /// A server, 0 to 15, is held from now on, or no longer: held, it neither begins lines nor closes, and the host answers nothing. Nothing is ready then.
    pub fn hold(&mut self, server: ServerId, on: bool)
        requires { server.0 < SERVERS }
        ensures core { core_of self.new ≡ record (core_of self.old) { paused = put (core_of self.old).paused server.0 on } }
        ensures ready { self.new.ready ≡ None }
    {
        put_ready(&mut self.ready, None);
        self.world.hold(server, on);
    }

    /// A server, 0 to 15, wants everything written, where it is up. Nothing is ready then.
    pub fn want_all(&mut self, server: ServerId)
        requires { server.0 < SERVERS }
        ensures core { core_of self.new ≡ with_server (core_of self.old) server.0 (wanting_all_up ((core_of self.old).servers server.0)) }
        ensures ready { self.new.ready ≡ None }
    {
        put_ready(&mut self.ready, None);
        self.world.want_written(server);
    }

    /// Relock: a lock table stands in the place of the present one. It has the same locks, and notes no wish that conflicts with no holder: such a wish is then no longer noted, nor listed by
    /// `clerks`, and may be asked again. Nothing is ready any more.
    pub fn set_locks(&mut self, table: LockTable)
        requires same { SameLocks table.locks (core_of self.old).locks }
        requires wait { AllWishesWait table.locks }
        ensures core { core_of self.new ≡ record (core_of self.old) { locks = table.locks } }
        ensures ready { self.new.ready ≡ None }
    {
        put_ready(&mut self.ready, None);
        self.world.set_locks(table);
    }
}
