// Who has taken the logs of dead servers.
ghost use Rattle.std.specs.Prelude.{◌≡◌, Some, None, map, slice_index_or, slice_set};
ghost use Rattle.lock_definitions.specs.Locks.{no_logs};
ghost use Rattle.lock_definitions.specs.Calls.{hold_against, hold_extended, hold_not_by};

use frang_base::ServerId;
use frang_base::limits::LOGS;
use lock_definitions::LogHold;
use std::marker::Model;

/// The hold on each log, by the number of the dead server; seen as the list of them.
#[derive(Drop)]
pub(crate) struct Logs {
    holds: [Option<LogHold>; LOGS],
}

impl Model for Logs {
    ghost use Rattle.std.specs.Prelude.{◌≡◌, List, Option, length};
    ghost use Rattle.frang_base.specs.declared.limits.TheConstants.{LOGS};
    ghost use Rattle.lock_definitions.specs.declared.claim.LogHold.{LogHold};

    ghost Value = { List (Option LogHold) };

    ghost view = { λ logs. logs.holds };

    ghost invariant = { λ logs. length logs.holds ≡ LOGS };
}

#[tactic(auto, unfolding(lock_definitions::specs::Locks::no_logs))]
fn no_logs() -> [Option<LogHold>; LOGS]
    ensures { result ≡ no_logs }
{
    [None; LOGS]
}

// The hold of another taker than this one, where its lease hasn't ended.
fn hold_against(hold: Option<LogHold>, by: ServerId, now: u64) -> Option<LogHold>
    ensures { result ≡ hold_against by.0 now hold }
{
    match hold {
        Some(hold) if hold.by.0 != by.0 && now <= hold.expiry => Some(hold),
        _ => None,
    }
}

// The hold with this expiry, where it is this taker's.
fn hold_extended(hold: Option<LogHold>, by: ServerId, expiry: u64) -> Option<LogHold>
    ensures { result ≡ hold_extended by.0 expiry hold }
{
    match hold {
        Some(hold) if hold.by.0 == by.0 => Some(LogHold { by, expiry }),
        _ => hold,
    }
}

// The hold, where it isn't this taker's.
fn hold_not_by(hold: Option<LogHold>, by: ServerId) -> Option<LogHold>
    ensures { result ≡ hold_not_by by.0 hold }
{
    match hold {
        Some(hold) if hold.by.0 == by.0 => None,
        _ => hold,
    }
}

impl Logs {
    /// Logs that nobody has taken.
    pub(crate) fn new() -> Logs
        ensures { result ≡ no_logs }
    {
        Logs { holds: no_logs() }
    }

    /// The hold on the log of a dead server.
    pub(crate) fn hold(&self, dead: ServerId) -> Option<LogHold>
        ensures { result ≡ slice_index_or self.now dead.0 None }
    {
        self.holds[dead.0 as usize]
    }

    /// The hold that refuses the log of a dead server to a taker at this tick.
    pub(crate) fn hold_against(&self, dead: ServerId, by: ServerId, now: u64) -> Option<LogHold>
        ensures { result ≡ hold_against by.0 now (slice_index_or self.now dead.0 None) }
    {
        hold_against(self.holds[dead.0 as usize], by, now)
    }

    /// The log of a dead server is taken.
    pub(crate) fn take(&mut self, dead: ServerId, hold: LogHold)
        ensures { self.new ≡ slice_set self.old dead.0 (Some hold) }
    {
        self.holds[dead.0 as usize] = Some(hold);
    }

    /// The holds of this taker have this expiry.
    pub(crate) fn extend(&mut self, by: ServerId, expiry: u64)
        ensures { self.new ≡ map (hold_extended by.0 expiry) self.old }
    {
        for hold in self.holds.iter_mut() {
            *hold = hold_extended(*hold, by, expiry);
        }
    }

    /// The holds of a dead server, and the hold on its log, are gone.
    pub(crate) fn clear(&mut self, dead: ServerId)
        ensures { self.new ≡ slice_set (map (hold_not_by dead.0) self.old) dead.0 None }
    {
        for hold in self.holds.iter_mut() {
            *hold = hold_not_by(*hold, dead);
        }
        self.holds[dead.0 as usize] = None;
    }
}
