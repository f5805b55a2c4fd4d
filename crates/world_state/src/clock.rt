// The clock: Tick.
ghost use Rattle.std.specs.Prelude.{◌≡◌, ◌<◌, ◌+◌, ◌%◌, ◌==◌, if◌then◌else◌};
ghost use Rattle.frang_base.specs.declared.limits.TheConstants.{FLUSH_TICKS, LAST_TICK};
ghost use Rattle.core_definitions.specs.Servers.{wanting_all_up};
ghost use Rattle.core_definitions.specs.WriteEffects.{flushed_at, ticked, ticks_after};
ghost use Rattle.world_state.specs.States.{core_at};

use crate::world::World;
use frang_base::ServerId;
use frang_base::limits::{FLUSH_TICKS, LEASE_TICKS};

impl World {
    // At each multiple of the ticks of a flush all servers that are up want everything written.
    fn flush(&mut self, now: u64)
        ensures core { core_at self.new ≡ record (core_at self.old) { servers = flushed_at (core_at self.old) now } }
        ensures tick { self.new.tick ≡ self.old.tick }
    {
        if now % FLUSH_TICKS == 0 {
            self.parties.flush();
        }
    }

    // So many ticks have passed since every line before the next host line is answered, with the one that passes now.
    fn ticks_after(&self) -> u64
        ensures { result ≡ ticks_after (core_at self.now) }
    {
        if self.places.is_waited_for() {
            self.ticks + 1
        } else {
            self.ticks
        }
    }

    /// Tick: the clock goes on by one; at each multiple of the ticks of a flush all servers that are up want everything written; the holds of the host on logs last from then on.
    pub fn tick(&mut self)
        requires { self.old.tick < LAST_TICK }
        ensures { core_at self.new ≡ ticked (core_at self.old) }
    {
        let now = self.tick + 1;
        let ticks = self.ticks_after();
        self.flush(now);
        self.locks.extend(ServerId::HOST, now + LEASE_TICKS);
        self.ticks = ticks;
        self.tick = now;
    }
}
