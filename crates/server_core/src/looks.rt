// What is read of a server for what it wants written.
ghost use Rattle.std.specs.Prelude.{◌≡◌, Bool, is_some, not, true};
ghost use Rattle.std.specs.Map.{keys_of};
ghost use Rattle.std.specs.Option.{option_copied, option_map};
ghost use Rattle.frang_base.specs.Functions.{member};
ghost use Rattle.frang_base.specs.declared.op.Op.{Op};
ghost use Rattle.core_definitions.specs.Logs.{is_none};
ghost use Rattle.core_definitions.specs.Rings.{is_oldest_named, next_write};
ghost use Rattle.core_definitions.specs.Servers.{asked_by, asks, is_in_mount};
ghost use Rattle.log_slots.specs.Reading.{log_rules};
ghost use Rattle.ordered_map.specs.Chunks.{joined};
ghost use Rattle.ring_definitions.specs.Rings.{last, next_sector};
ghost use Rattle.server_core.specs.States.{cached_in, ring_in};
ghost use Rattle.tree_definitions.specs.Touched.{is_sync, is_unmount};

use crate::kinds::{is_sync, is_unmount};
use crate::server::Server;
use clerk_cache::Cache;
use frang_base::{Block, Op, Sector};
use ordered_map::Chunk;
use wal_ring::Ring;

// ---- its cache and what is pending

impl Server {
    /// Its cached sectors.
    pub fn cache(&self) -> &Cache
        ensures { result.now ≡ cached_in self.now }
    {
        &self.cache
    }

    /// Whether the sector is of a cleared block and its zeros aren't acknowledged.
    pub fn is_pending(&self, sector: Sector) -> bool
        ensures { result ≡ member sector.0 self.now.server.pending }
    {
        self.pending.get(&sector.0).is_some()
    }

    /// Whether some sector is.
    pub fn has_pending(&self) -> bool
        ensures { result ≡ not (is_none self.now.server.pending) }
    {
        self.pending.first().is_some()
    }

    /// The sectors that are, ascending, in pieces that follow one another.
    pub fn pending(&self) -> &[Chunk<u64, ()>]
        ensures { keys_of (joined result.now) ≡ self.now.server.pending }
    {
        self.pending.chunks()
    }
}

// ---- its log

// The number of the first sector of a log that isn't issued.
fn next_number(ring: &Ring) -> Option<u64>
    ensures { result ≡ option_map (λ next. next.0) (next_write ring.now.ring) }
{
    let sent = ring.sent();
    if sent < ring.last() {
        Some(sent + 1)
    } else {
        None
    }
}

impl Server {
    /// Its log in memory. Who is mounted has one; who has none has a log that holds nothing.
    pub fn ring(&self) -> Option<&Ring>
        ensures ring { ring_in (option_copied result) ≡ self.now.server.ring }
        ensures mounted { is_in_mount self.now.server.phase ≡ true → is_some result ≡ true }
    {
        self.ring.as_ref()
    }

    /// Every number up to this one of its log is acknowledged.
    pub fn reached(&self) -> u64
        ensures { result ≡ self.now.server.ring.reached }
    {
        match &self.ring {
            Some(ring) => ring.reached(),
            None => 0,
        }
    }

    /// The last number of its log.
    pub fn last_number(&self) -> u64
        ensures { result ≡ last self.now.server.ring }
    {
        match &self.ring {
            Some(ring) => ring.last(),
            None => 0,
        }
    }

    /// The number of the first sector of its log that isn't issued. `None` exactly where all are.
    pub fn next_number(&self) -> Option<u64>
        ensures { result ≡ option_map (λ next. next.0) (next_write self.now.server.ring) }
    {
        match &self.ring {
            Some(ring) => next_number(ring),
            None => None,
        }
    }

    /// That sector, which may be the open one, with its number. `None` exactly where all are issued, or the number is more than 64 past the one up to which all are acknowledged.
    pub fn next_log_sector(&self) -> Option<(u64, Block)>
        ensures { result ≡ next_sector self.now.server.ring }
    {
        match &self.ring {
            Some(ring) => ring.next_sector(),
            None => None,
        }
    }

    /// The log stays wanted up to this number.
    pub fn staying_log(&self) -> u64
        ensures { result ≡ self.now.server.staying_log }
    {
        self.staying_log
    }

    /// Whether the oldest records of its log name a sector. It takes time in the number of the names of the log.
    pub fn is_oldest_named(&self, sector: Sector) -> bool
        ensures { result ≡ is_oldest_named log_rules self.now.server.ring sector.0 }
    {
        match &self.ring {
            Some(ring) => ring.is_oldest_named(sector),
            None => false,
        }
    }
}

// ---- its line under way

impl Server {
    // What the line under way asks, while its answer is open.
    fn open_operation(&self) -> Option<&Op>
        ensures { (test : Op → Bool) → asked_by test (option_copied result) ≡ asks test self.now.server }
    {
        let under = self.under.as_ref()?;
        if under.is_open() {
            under.operation()
        } else {
            None
        }
    }

    /// Whether an unmount is under way whose answer is open.
    pub fn asks_unmount(&self) -> bool
        ensures { result ≡ asks is_unmount self.now.server }
    {
        match self.open_operation() {
            Some(operation) => is_unmount(operation),
            None => false,
        }
    }

    /// Whether a sync is.
    pub fn asks_sync(&self) -> bool
        ensures { result ≡ asks is_sync self.now.server }
    {
        match self.open_operation() {
            Some(operation) => is_sync(operation),
            None => false,
        }
    }
}
