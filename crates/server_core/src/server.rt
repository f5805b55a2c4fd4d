// A server.
ghost use Rattle.std.specs.Prelude.{◌≡◌, is_some, Option};
ghost use Rattle.std.specs.Option.{option_copied, option_map};
ghost use Rattle.core_definitions.specs.Flights.{Flights, has_flights};
ghost use Rattle.core_definitions.specs.LineEffects.{number_under};
ghost use Rattle.core_definitions.specs.Rings.{is_all_reached};
ghost use Rattle.core_definitions.specs.Servers.{answer_at_first, first_server, is_answering, is_clean, is_dead, is_doomed, is_in_mount, is_off, is_still, is_up};
ghost use Rattle.core_definitions.specs.Recoveries.{Recovery};
ghost use Rattle.server_core.specs.Phases.{arming_of, phase_of, reply_of};

use crate::answers::PlainAnswer;
use crate::kinds::{is_mount, is_unmount};
use crate::phase::{Arming, Phase};
use crate::under::Under;
use clerk_cache::Cache;
use frang_base::{Op, ServerId};
use ordered_map::OrderedMap;
use std::alloc::Global;
use std::marker::Model;
use wal_ring::Ring;

/// A server, seen as that of the core's definition but for its recovery, which is kept beside it; which one it is, and the room that its memory has. Who is mounted has a ring.
#[derive(Drop)]
pub struct Server {
    pub(crate) id: ServerId,
    pub(crate) phase: Phase,
    pub(crate) expiry: u64,
    pub(crate) owes: bool,
    pub(crate) failed: bool,
    pub(crate) arming: Option<Arming>,
    // None before the first mount, and behind a recovery of its log.
    pub(crate) ring: Option<Ring>,
    pub(crate) cache: Cache,
    pub(crate) staying_log: u64,
    // Of cleared blocks the sectors whose zeros aren't acknowledged.
    pub(crate) pending: OrderedMap<u64, ()>,
    pub(crate) under: Option<Under>,
    pub(crate) alloc: Global,
}

impl Model for Server {
    ghost use Rattle.std.specs.Prelude.{◌≡◌, true, is_some, None};
    ghost use Rattle.std.specs.Map.{keys_of};
    ghost use Rattle.std.specs.Option.{option_map};
    ghost use Rattle.core_definitions.specs.Servers.{is_in_mount};
    ghost use Rattle.server_core.specs.Phases.{arming_of, phase_of};
    ghost use Rattle.server_core.specs.States.{State, names_in, ring_in, sectors_in, slots_under, under_in};

    ghost Value = { State };

    ghost view = { λ s. record {
      id = s.id.0;
      server = record {
        phase = phase_of s.phase;
        expiry = s.expiry;
        owes = s.owes;
        failed = s.failed;
        arming = option_map arming_of s.arming;
        ring = ring_in s.ring;
        cache = s.cache.entries;
        staying = s.cache.staying;
        staying_log = s.staying_log;
        pending = keys_of s.pending.entries;
        under = under_in s.under;
        recovery = None;
      };
      flying = s.cache.flying;
      spare = s.cache.spare;
      sectors = sectors_in s.ring;
      names = names_in s.ring;
      zeros = s.pending.spare;
      slots = slots_under s.under;
    } };

    ghost invariant = { λ s. is_in_mount (phase_of s.phase) ≡ true → is_some s.ring ≡ true };
}

// ---- what it is

impl Server {
    /// A server with nothing in memory, off. It takes no memory.
    pub fn new(alloc: Global, id: ServerId) -> Server
        ensures server { result.server ≡ first_server }
        ensures id { result.id ≡ id.0 }
    {
        Server {
            id,
            phase: Phase::Off,
            expiry: 0,
            owes: false,
            failed: false,
            arming: None,
            ring: None,
            cache: Cache::new(alloc),
            staying_log: 0,
            pending: OrderedMap::new(alloc),
            under: None,
            alloc,
        }
    }

    /// Which server it is.
    pub fn id(&self) -> ServerId
        ensures { result.0 ≡ self.now.id }
    {
        self.id
    }

    /// What it is.
    pub fn phase(&self) -> Phase
        ensures { phase_of result ≡ self.now.server.phase }
    {
        self.phase
    }

    /// Whether it is mounted and not stalled.
    pub fn is_up(&self) -> bool
        ensures { result ≡ is_up self.now.server.phase }
    {
        matches!(self.phase, Phase::Up)
    }

    /// Whether it isn't mounted.
    pub fn is_off(&self) -> bool
        ensures { result ≡ is_off self.now.server.phase }
    {
        matches!(self.phase, Phase::Off)
    }

    /// Whether it is stalled.
    pub fn is_still(&self) -> bool
        ensures { result ≡ is_still self.now.server.phase }
    {
        matches!(self.phase, Phase::Still)
    }

    /// Whether its next event is its death.
    pub fn is_doomed(&self) -> bool
        ensures { result ≡ is_doomed self.now.server.phase }
    {
        matches!(self.phase, Phase::Doomed { .. })
    }

    /// Whether it is dead, its log not recovered.
    pub fn is_dead(&self) -> bool
        ensures { result ≡ is_dead self.now.server.phase }
    {
        matches!(self.phase, Phase::Dead)
    }

    /// Whether it begins and answers lines: it is off, up or dead.
    pub fn is_answering(&self) -> bool
        ensures { result ≡ is_answering self.now.server.phase }
    {
        match self.phase {
            Phase::Off => true,
            Phase::Up => true,
            Phase::Dead => true,
            Phase::Still => false,
            Phase::Doomed { .. } => false,
        }
    }

    /// Whether a failed call counts for its mount: it is up, still or doomed.
    pub fn is_in_mount(&self) -> bool
        ensures { result ≡ is_in_mount self.now.server.phase }
    {
        match self.phase {
            Phase::Up => true,
            Phase::Still => true,
            Phase::Doomed { .. } => true,
            Phase::Off => false,
            Phase::Dead => false,
        }
    }

    /// The last tick of its lease.
    pub fn expiry(&self) -> u64
        ensures { result ≡ self.now.server.expiry }
    {
        self.expiry
    }

    /// Whether a get or put of its mount failed.
    pub fn has_failed(&self) -> bool
        ensures { result ≡ self.now.server.failed }
    {
        self.failed
    }

    /// Where it is to die, if it is.
    pub fn arming(&self) -> Option<Arming>
        ensures { option_map arming_of result ≡ self.now.server.arming }
    {
        self.arming
    }

    /// Its line under way.
    pub fn under(&self) -> Option<&Under>
        ensures { option_map (λ u. u.under) (option_copied result) ≡ self.now.server.under }
    {
        self.under.as_ref()
    }

    /// The number of its line under way, 0 where there is none.
    pub fn line_number(&self) -> u32
        ensures { result ≡ number_under self.now.server.under }
    {
        match &self.under {
            Some(under) => under.number(),
            None => 0,
        }
    }
}

// ---- answers

impl Server {
    /// The answer that is fixed for a line as it begins, if one is: who owes answers `ok` to an unmount and else `expired`; `down` where it isn't mounted; `already` where it is and
    /// the line is a mount.
    pub fn answer_at_first(&self, operation: &Op) -> Option<PlainAnswer>
        ensures { option_map reply_of result ≡ answer_at_first self.now.server operation.now }
    {
        if self.owes {
            return Some(if is_unmount(operation) {
                PlainAnswer::Ok
            } else {
                PlainAnswer::Expired
            });
        }
        if is_mount(operation) {
            if self.is_up() {
                Some(PlainAnswer::Already)
            } else {
                None
            }
        } else if self.is_up() {
            None
        } else {
            Some(PlainAnswer::Down)
        }
    }

    /// Whether its whole log is acknowledged.
    pub fn is_all_reached(&self) -> bool
        ensures { result ≡ is_all_reached self.now.server.ring }
    {
        match &self.ring {
            Some(ring) => ring.is_all_reached(),
            None => true,
        }
    }

    /// Whether nothing of it is dirty, in flight, not acknowledged or under recovery; `flies`: a write of its present mount is in flight; `recovers`: it recovers a log.
    pub fn is_clean(&self, flies: bool, recovers: bool) -> bool
        ensures { (flights : Flights) (recovery : Option Recovery) → has_flights flights self.now.id ≡ flies → is_some recovery ≡ recovers →
            result ≡ is_clean flights self.now.id (record self.now.server { recovery = recovery }) }
    {
        self.cache.is_all_clean() && !flies && self.is_all_reached() && !recovers
    }
}
