// Which logs of dead servers are known to be taken, by whom.
ghost use Rattle.std.specs.Prelude.{◌≡◌, ◌<◌, ◌++◌, [], ◌∷◌, Some, None, map, length, slice_index_or, slice_set, IfOk, OnOk};
ghost use Rattle.std.specs.List.{cons_option};
ghost use Rattle.lock_definitions.specs.Locks.{no_logs};
ghost use Rattle.lock_definitions.specs.Calls.{hold_extended, hold_not_by};
ghost use Rattle.known_locks.specs.Listed.{log_by, logs_from};

use frang_base::limits::LOGS;
use frang_base::{NoMemory, ServerId};
use lock_definitions::{LogHold, LogList};
use std::alloc::Global;
use std::marker::Model;

/// What the takers of logs know, by the number of the dead server; seen as the list of it.
#[derive(Drop)]
pub(crate) struct Takers {
    holds: [Option<LogHold>; LOGS],
}

impl Model for Takers {
    ghost use Rattle.std.specs.Prelude.{◌≡◌, List, Option, length};
    ghost use Rattle.frang_base.specs.declared.limits.TheConstants.{LOGS};
    ghost use Rattle.lock_definitions.specs.declared.claim.LogHold.{LogHold};

    ghost Value = { List (Option LogHold) };

    ghost view = { λ takers. takers.holds };

    ghost invariant = { λ takers. length takers.holds ≡ LOGS };
}

#[tactic(auto, unfolding(lock_definitions::specs::Locks::no_logs))]
fn no_logs() -> [Option<LogHold>; LOGS]
    ensures { result ≡ no_logs }
{
    [None; LOGS]
}

// The hold with this expiry, where it is this taker's.
fn hold_extended(hold: Option<LogHold>, by: ServerId, expiry: u64) -> Option<LogHold>
    ensures { result ≡ hold_extended by.0 expiry hold }
{
    match hold {
        Some(hold) if hold.by.0 == by.0 => Some(LogHold { by, expiry }),
        _ => hold,
    }
}

// The hold, where it isn't this taker's.
fn hold_not_by(hold: Option<LogHold>, by: ServerId) -> Option<LogHold>
    ensures { result ≡ hold_not_by by.0 hold }
{
    match hold {
        Some(hold) if hold.by.0 == by.0 => None,
        _ => hold,
    }
}

// Adds a log, where it is this party's.
fn add_log(
    logs: &mut LogList,
    party: ServerId,
    dead: u8,
    hold: Option<LogHold>,
) -> Result<(), NoMemory>
    ensures { OnOk result (logs.new ≡ logs.old ++ cons_option (log_by party.0 dead hold) []) }
{
    match hold {
        Some(hold) if hold.by.0 == party.0 => logs.push((ServerId(dead), hold.expiry)),
        _ => Ok(()),
    }
}

impl Takers {
    /// Nobody has taken a log.
    pub(crate) fn new() -> Takers
        ensures { result ≡ no_logs }
    {
        Takers { holds: no_logs() }
    }

    /// The log of a dead server is taken.
    pub(crate) fn take(&mut self, dead: ServerId, hold: LogHold)
        ensures { self.new ≡ slice_set self.old dead.0 (Some hold) }
    {
        self.holds[dead.0 as usize] = Some(hold);
    }

    /// The holds of this taker have this expiry.
    pub(crate) fn extend(&mut self, by: ServerId, expiry: u64)
        ensures { self.new ≡ map (hold_extended by.0 expiry) self.old }
    {
        for hold in self.holds.iter_mut() {
            *hold = hold_extended(*hold, by, expiry);
        }
    }

    /// The holds of a dead server, and the hold on its log, are gone.
    pub(crate) fn clear(&mut self, dead: ServerId)
        ensures { self.new ≡ slice_set (map (hold_not_by dead.0) self.old) dead.0 None }
    {
        for hold in self.holds.iter_mut() {
            *hold = hold_not_by(*hold, dead);
        }
        self.holds[dead.0 as usize] = None;
    }

    /// The logs that a party has taken, each with its expiry, ascending by dead server.
    pub(crate) fn logs(&self, alloc: Global, party: ServerId) -> Result<LogList, NoMemory>
        ensures { IfOk result (λ logs. logs ≡ logs_from party.0 0 self.now) }
    {
        let mut logs = LogList::new(alloc);
        for (dead, hold) in self.holds.iter().enumerate() {
            add_log(&mut logs, party, dead as u8, *hold)?;
        }
        Ok(logs)
    }
}
