// A server's lease.
ghost use Rattle.std.specs.Prelude.{◌≡◌, ◌↔◌, ◌+◌, ◌≤◌, ℕ, IsTrue, IsErr, IfOk, IfErr};
ghost use Rattle.lock_definitions.specs.Lease.{lease_expiry, write_stamp, HasEnded, IsInTime};

use frang_base::limits::{LAST_TICK, LEASE_TICKS, MARGIN_TICKS};
use std::marker::Model;

/// A lease, seen as its expiry: the last tick at which it still stands.
#[derive(Drop)]
pub struct Lease {
    expiry: u64,
}

impl Model for Lease {
    ghost use Rattle.std.specs.Prelude.{ℕ, ◌≤◌};
    ghost use Rattle.frang_base.specs.declared.limits.TheConstants.{LEASE_TICKS};

    ghost Value = { ℕ };

    ghost view = { λ lease. lease.expiry };

    ghost invariant = { λ lease. LEASE_TICKS ≤ lease.expiry };
}

/// The lease has ended: `now` is above its expiry.
#[derive(Clone, Copy, Debug, PartialEq, Eq)]
pub struct Ended {
    pub now: u64,
    pub expiry: u64,
}

impl Lease {
    /// A lease that begins at this tick.
    pub fn new(now: u64) -> Lease
        requires { now ≤ LAST_TICK }
        ensures { result ≡ lease_expiry now }
    {
        Lease {
            expiry: now + LEASE_TICKS,
        }
    }

    /// The last tick at which the lease still stands.
    pub fn expiry(&self) -> u64
        ensures { result ≡ self.now }
    {
        self.expiry
    }

    /// The last tick at which a write may arrive that is issued under the lease as it is.
    pub fn stamp(&self) -> u64
        ensures { result ≡ write_stamp self.now }
    {
        self.expiry - MARGIN_TICKS
    }

    /// Whether the lease has ended at this tick.
    pub fn ended(&self, now: u64) -> bool
        ensures { IsTrue result ↔ HasEnded now self.now }
    {
        now > self.expiry
    }

    /// Renews the lease at this tick, and gives its new expiry. `Ended` comes exactly where it has ended; it shows the tick and
    /// the expiry, and the lease is as before.
    pub fn renew(&mut self, now: u64) -> Result<u64, Ended>
        requires { now ≤ LAST_TICK }
        ensures ended { IsErr result ↔ HasEnded now self.old }
        ensures ok { IfOk result (λ expiry. (expiry ≡ lease_expiry now) × (self.new ≡ expiry)) }
        ensures err { IfErr result (λ e. (e.now ≡ now) × (e.expiry ≡ self.old) × (self.new ≡ self.old)) }
    {
        if self.ended(now) {
            return Err(Ended {
                now,
                expiry: self.expiry,
            });
        }
        *self = Lease::new(now);
        Ok(self.expiry)
    }
}

/// A write that was issued under a lease and arrives in time arrives while the lease still stands for `MARGIN_TICKS`.
pub fn writes_arrive_under_their_lease()
    ensures { (renewed now : ℕ) → IsInTime (write_stamp (lease_expiry renewed)) now → ¬ HasEnded (now + MARGIN_TICKS) (lease_expiry renewed) }
{}
