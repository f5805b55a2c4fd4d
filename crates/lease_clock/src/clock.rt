// The one clock that servers and disk share.
ghost use Rattle.std.specs.Prelude.{◌≡◌, ◌↔◌, ◌+◌, ◌≤◌, IsErr, OnOk, OnErr};

use frang_base::limits::LAST_TICK;
use std::marker::Model;

/// A clock, seen as the number of the present tick. It begins at 0 and stands at most at `LAST_TICK`.
#[derive(Drop)]
pub struct Clock {
    ticks: u64,
}

impl Model for Clock {
    ghost use Rattle.std.specs.Prelude.{ℕ, ◌≤◌};
    ghost use Rattle.frang_base.specs.declared.limits.TheConstants.{LAST_TICK};

    ghost Value = { ℕ };

    ghost view = { λ clock. clock.ticks };

    ghost invariant = { λ clock. clock.ticks ≤ LAST_TICK };
}

/// The clock stands at `LAST_TICK`.
#[derive(Clone, Copy, Debug, PartialEq, Eq)]
pub struct ClockEnd;

impl Clock {
    /// A clock at tick 0.
    pub fn new() -> Clock
        ensures { result ≡ 0 }
    {
        Clock { ticks: 0 }
    }

    /// A clock that stands at this tick.
    pub fn at(tick: u64) -> Clock
        requires { tick ≤ LAST_TICK }
        ensures { result ≡ tick }
    {
        Clock { ticks: tick }
    }

    /// The present tick.
    pub fn now(&self) -> u64
        ensures tick { result ≡ self.now }
        ensures before_the_end { result ≤ LAST_TICK }
    {
        self.ticks
    }

    /// One tick passes. `ClockEnd` comes exactly where the clock stands at `LAST_TICK`, and it then stays there.
    pub fn tick(&mut self) -> Result<(), ClockEnd>
        ensures end { IsErr result ↔ (self.old ≡ LAST_TICK) }
        ensures ok { OnOk result (self.new ≡ self.old + 1) }
        ensures err { OnErr result (self.new ≡ self.old) }
    {
        if self.ticks == LAST_TICK {
            return Err(ClockEnd);
        }
        self.ticks += 1;
        Ok(())
    }
}
