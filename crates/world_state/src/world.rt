// The world: what it is, and what is asked of its parties.
ghost use Rattle.std.specs.Prelude.{◌≡◌, ◌≤◌, ◌<◌, IfOk, IsTrue};
ghost use Rattle.std.specs.Option.{option_copied};
ghost use Rattle.frang_base.specs.declared.limits.TheConstants.{SEGMENTS_MAX, SERVERS};
ghost use Rattle.core_definitions.specs.Cores.{clean_at, expiry_of, first_core, is_all_answered, next_of};
ghost use Rattle.core_definitions.specs.Settings.{setting_of};
ghost use Rattle.core_definitions.specs.WriteGuards.{is_worker};
ghost use Rattle.script_places.specs.Placed.{ascends};
ghost use Rattle.world_state.specs.States.{IsKept, core_at};

use flight_laws::the_mounts_writes_are_the_cores;
use frang_base::limits::LEASE_TICKS;
use frang_base::{Line, NoMemory, Script, ServerId};
use known_locks::KnownLocks;
use lock_table::LockTable;
use petal_disk::Flight;
use script_places::Places;
use std::alloc::Global;
use std::marker::Model;
use world_parties::Parties;

/// The world of several servers, seen as a value of which `core_at` is the core.
#[derive(Drop)]
pub struct World {
    pub(crate) places: Places,
    pub(crate) run: u32,
    pub(crate) tick: u64,
    pub(crate) parties: Parties,
    pub(crate) locks: KnownLocks,
    pub(crate) flights: Flight,
    // So many ticks have passed since every line before the next host line is answered.
    pub(crate) ticks: u64,
    pub(crate) over: bool,
    pub(crate) alloc: Global,
}

impl Model for World {
    ghost use Rattle.world_state.specs.States.{IsKept, State};

    ghost Value = { State };

    ghost view = { λ w. record { places = w.places; run = w.run; tick = w.tick; parties = w.parties; locks = w.locks; flights = w.flights; ticks = w.ticks; over = w.over } };

    ghost invariant = { λ w. IsKept (record { places = w.places; run = w.run; tick = w.tick; parties = w.parties; locks = w.locks; flights = w.flights; ticks = w.ticks; over = w.over }) };
}

impl World {
    /// Nothing has happened yet. The numbers of the script's lines ascend. Its one refusal is want of memory.
    pub fn new(alloc: Global, script: Script, segments: u32, run: u32) -> Result<World, NoMemory>
        requires script { IsTrue (ascends script) }
        requires disk { segments ≤ SEGMENTS_MAX }
        ensures { IfOk result (λ w. core_at w ≡ first_core (setting_of script segments run)) }
    {
        let places = Places::new(alloc, script)?;
        let parties = Parties::new(alloc, segments)?;
        let locks = KnownLocks::new(alloc);
        let flights = Flight::new(alloc);
        Ok(World {
            places,
            run,
            tick: 0,
            parties,
            locks,
            flights,
            ticks: 0,
            over: false,
            alloc,
        })
    }

    /// The sixteen servers, and the recovery of the host.
    pub fn parties(&self) -> &Parties
        ensures { result.now ≡ self.now.parties }
    {
        &self.parties
    }

    /// The locks.
    pub fn locks(&self) -> &LockTable
        ensures { result.now.locks ≡ self.now.locks.locks }
    {
        self.locks.table()
    }

    /// The writes in flight.
    pub fn flights(&self) -> &Flight
        ensures { result.now ≡ self.now.flights }
    {
        &self.flights
    }

    /// The script with its marks.
    pub fn places(&self) -> &Places
        ensures { result.now ≡ self.now.places }
    {
        &self.places
    }

    /// The clock.
    pub fn now(&self) -> u64
        ensures { result ≡ self.now.tick }
    {
        self.tick
    }

    /// The number of the run.
    pub fn run(&self) -> u32
        ensures { result ≡ self.now.run }
    {
        self.run
    }

    /// Whether it is over: nothing happens any more. What its type keeps is known then.
    pub fn is_over(&self) -> bool
        ensures over { result ≡ self.now.over }
        ensures kept { IsKept self.now }
    {
        self.over
    }

    /// The next line of a server or of the host: its first that isn't answered. `None` exactly where all its lines are.
    pub fn next_line(&self, who: ServerId) -> Option<&Line>
        ensures { option_copied result ≡ next_of (core_at self.now) who.0 }
    {
        self.places.next(who)
    }

    /// Whether every line is answered.
    pub fn is_all_answered(&self) -> bool
        ensures { result ≡ is_all_answered (core_at self.now) }
    {
        self.places.is_all_answered()
    }

    // Until when the lease of a server that is up lasts, or of the host, which counts as renewed at every moment.
    pub(crate) fn expiry(&self, a: ServerId) -> u64
        requires { IsTrue (is_worker (core_at self.now) a.0) }
        ensures { result ≡ expiry_of (core_at self.now) a.0 }
    {
        if a == ServerId::HOST {
            self.tick + LEASE_TICKS
        } else {
            self.parties.get(a).server.expiry()
        }
    }

    // Whether a party is a server that is up, or the host.
    pub(crate) fn is_worker(&self, a: ServerId) -> bool
        ensures { result ≡ is_worker (core_at self.now) a.0 }
    {
        self.parties.is_worker(a)
    }

    // Whether a server is clean.
    pub(crate) fn is_clean(&self, a: ServerId) -> bool
        requires { a.0 < SERVERS }
        ensures { result ≡ clean_at (core_at self.now) a.0 }
    {
        the_mounts_writes_are_the_cores();
        let flies = self.flights.has_flights(a);
        self.parties.is_clean(a, flies)
    }
}
