// What the events of locks, writes and lines make of a server.
ghost use Rattle.std.specs.Prelude.{◌≡◌, ◌<◌, ◌≤◌, ◌+◌, ◌++◌, true, false, if◌then◌else◌, IsSomeAnd, List, Some, None};
ghost use Rattle.disk_definitions.specs.Plans.{Lock};
ghost use Rattle.disk_definitions.specs.Written.{ascending};
ghost use Rattle.disk_definitions.specs.Regions.{sector_of};
ghost use Rattle.disk_definitions.specs.declared.region.Region.TheVariants as region;
ghost use Rattle.sector_bytes.specs.SectorMaps.{room_for, with_value};
ghost use Rattle.cache_definitions.specs.Caches.{any_cached, clean, dirty_sectors, dropped, is_dirty_at, is_dirty_under, mark_at, still_has};
ghost use Rattle.cache_definitions.specs.Flags.{among_cached, but, with_cached};
ghost use Rattle.ring_definitions.specs.Rings as rings;
ghost use Rattle.ring_definitions.specs.Rings.{reclaimed_of};
ghost use Rattle.set_definitions.specs.Sets.{first_set};
ghost use Rattle.core_definitions.specs.LineEffects.{cached_under, refused_under, set_anew, set_grown, slot_read, with_under};
ghost use Rattle.core_definitions.specs.Servers.{wanting_all};
ghost use Rattle.core_definitions.specs.Settings.{disk_logs};
ghost use Rattle.core_definitions.specs.WriteEffects.{acknowledged, clean_now, counted, ring_after};
ghost use Rattle.core_definitions.specs.Writes.{comes_clean, is_mark_reached};
ghost use Rattle.flight_laws.specs.Flights.{purpose_of};
ghost use Rattle.server_core.specs.Effects.{GrowsTo, IsNext, IsSlot};
ghost use Rattle.server_core.specs.States.{KeepsRoom, KeepsRoomBut};

use crate::pending::take_out;
use crate::server::Server;
use clerk_cache::Cache;
use frang_base::{Block, LockId, Sector};
use frang_layout::{Region, sector_of};
use lock_sets::{LockSet, SeenSectors};
use petal_disk::Purpose;

// ---- what is made of a cache

// The sectors under a lock, of which none is dirty, are dropped.
fn drop_clean(cache: &mut Cache, lock: LockId)
    requires { any_cached (is_dirty_under lock) cache.old.entries ≡ false }
    ensures entries { cache.new.entries ≡ dropped cache.old.entries lock }
    ensures staying { cache.new.staying ≡ cache.old.staying }
    ensures flying { cache.new.flying ≡ among_cached cache.new.entries cache.old.flying }
    ensures spare { cache.old.spare ≤ cache.new.spare }
{
    match cache.drop_cover(lock) {
        Ok(()) => {}
        Err(_) => unreachable!(),
    }
}

// What is dirty joins what stays wanted.
fn want_all(cache: &mut Cache)
    ensures entries { cache.new.entries ≡ cache.old.entries }
    ensures staying { cache.new.staying ≡ ascending (cache.old.staying ++ dirty_sectors cache.old.entries) }
    ensures flying { cache.new.flying ≡ cache.old.flying }
    ensures spare { cache.new.spare ≡ cache.old.spare }
{
    cache.want_all();
}

// A sector that isn't dirty is cached, clean and under this lock. Since only a dirty one stays wanted, none stays so less.
fn set_clean(cache: &mut Cache, sector: Sector, block: Block, cover: LockId)
    requires room { room_for cache.old.entries sector.0 ≤ cache.old.spare }
    requires clean { is_dirty_at cache.old.entries sector.0 ≡ false }
    ensures entries { cache.new.entries ≡ with_value cache.old.entries sector.0 (clean block cover) }
    ensures staying { cache.new.staying ≡ cache.old.staying }
    ensures flying { cache.new.flying ≡ cache.old.flying }
    ensures spare { cache.new.spare + room_for cache.old.entries sector.0 ≡ cache.old.spare }
{
    let _stays = cache.stays(sector);
    cache.set_clean(sector, block, cover);
}

// ---- its locks, and what it wants

impl Server {
    /// The sectors under a lock leave its cache. Nothing under the lock is dirty.
    pub fn drop_under(&mut self, lock: LockId)
        requires { any_cached (is_dirty_under lock) self.old.server.cache ≡ false }
        ensures server { self.new.server ≡ record self.old.server { cache = dropped self.old.server.cache lock } }
        ensures flying { self.new.flying ≡ among_cached self.new.server.cache self.old.flying }
        ensures room { KeepsRoom self.old self.new }
    {
        drop_clean(&mut self.cache, lock);
    }

    /// It wants everything: each sector that is dirty stays wanted until it is clean, and the log up to its last number. Such a wish joins the one before.
    pub fn want_all(&mut self)
        ensures server { self.new.server ≡ wanting_all self.old.server }
        ensures flying { self.new.flying ≡ self.old.flying }
        ensures room { KeepsRoom self.old self.new }
    {
        want_all(&mut self.cache);
        self.staying_log = self.staying_log.max(self.last_number());
    }
}

// ---- its writes

impl Server {
    /// A write of it is issued: where it is one of its log, that of the next sector, with its number. An armed server's count falls.
    pub fn issued(&mut self, purpose: Purpose)
        requires { IsNext self.old.server.ring (purpose_of purpose) }
        ensures server { self.new.server ≡ record self.old.server { ring = ring_after (purpose_of purpose) self.old.server.ring; arming = counted self.old.server.arming } }
        ensures flying { self.new.flying ≡ self.old.flying }
        ensures room { KeepsRoom self.old self.new }
    {
        if let Purpose::OfLog(number) = purpose {
            self.log_sector_issued(number);
        }
        self.count_issue();
    }

    /// A write of a sector is in flight, or no longer: where the sector is cached, that is kept of it. It takes no memory.
    pub fn set_flies(&mut self, sector: Sector, flies: bool)
        ensures server { self.new.server ≡ self.old.server }
        ensures flying { self.new.flying ≡ (if flies then with_cached self.old.server.cache sector.0 self.old.flying else but sector.0 self.old.flying) }
        ensures room { KeepsRoom self.old self.new }
    {
        self.cache.set_flies(sector, flies);
    }

    // The next sector of its log is issued.
    fn log_sector_issued(&mut self, number: u64)
        requires { IsSomeAnd (rings.next_sector self.old.server.ring) (λ next. next.0 ≡ number) }
        ensures server { self.new.server ≡ record self.old.server { ring = rings.issued self.old.server.ring } }
        ensures flying { self.new.flying ≡ self.old.flying }
        ensures room { KeepsRoom self.old self.new }
    {
        match &mut self.ring {
            Some(ring) => ring.issued(number),
            None => unreachable!(),
        }
    }

    // A write less is left before it dies, where it is armed.
    fn count_issue(&mut self)
        ensures server { self.new.server ≡ record self.old.server { arming = counted self.old.server.arming } }
        ensures flying { self.new.flying ≡ self.old.flying }
        ensures room { KeepsRoom self.old self.new }
    {
        if let Some(arming) = &mut self.arming {
            arming.k = arming.k.saturating_sub(1);
        }
    }

    /// A write of its present mount was taken: a number of its log is acknowledged; a sector in place is clean, and neither stays wanted nor is pending, where the cache still
    /// has this block of it and its mark is reached. One of its recovery changes nothing here, since that is kept beside it.
    pub fn acknowledged(&mut self, sector: Sector, block: &Block, purpose: Purpose)
        ensures server { self.new.server ≡ acknowledged sector.0 block.now (purpose_of purpose) self.old.server }
        ensures flying { self.new.flying ≡ self.old.flying }
        ensures room { KeepsRoom self.old self.new }
    {
        match purpose {
            Purpose::OfLog(number) => self.number_acknowledged(number),
            Purpose::InPlace(_) => self.place_acknowledged(sector, block),
            Purpose::OfRecovery => self.has_no_recovery(),
        }
    }

    // It is seen without a recovery.
    fn has_no_recovery(&self)
        ensures { self.now.server.recovery ≡ None }
    {
        let _id = self.id;
    }

    // A number of its log is acknowledged.
    fn number_acknowledged(&mut self, number: u64)
        ensures server { self.new.server ≡ record self.old.server { ring = rings.acked self.old.server.ring number } }
        ensures flying { self.new.flying ≡ self.old.flying }
        ensures room { KeepsRoom self.old self.new }
    {
        if let Some(ring) = &mut self.ring {
            ring.acked(number);
        }
    }

    // A sector was written in place.
    fn place_acknowledged(&mut self, sector: Sector, block: &Block)
        ensures server { self.new.server ≡ (if comes_clean self.old.server sector.0 block.now then clean_now sector.0 self.old.server else self.old.server) }
        ensures flying { self.new.flying ≡ self.old.flying }
        ensures room { KeepsRoom self.old self.new }
    {
        if self.comes_clean(sector, block) {
            self.clean(sector, block);
        }
    }

    // A sector in place is clean once a write of this block has arrived.
    fn comes_clean(&self, sector: Sector, block: &Block) -> bool
        ensures { result ≡ comes_clean self.now.server sector.0 block.now }
    {
        self.still_has(sector, block) && self.is_mark_reached(sector)
    }

    // The cache still has this block of the sector.
    fn still_has(&self, sector: Sector, block: &Block) -> bool
        ensures { result ≡ still_has self.now.server.cache sector.0 block.now }
    {
        match self.cache.get(sector) {
            Some(held) => held == block,
            None => false,
        }
    }

    // The mark of a sector is reached, or it has none.
    fn is_mark_reached(&self, sector: Sector) -> bool
        ensures { result ≡ is_mark_reached self.now.server.ring (mark_at self.now.server.cache sector.0) }
    {
        match self.cache.mark(sector) {
            Some(mark) => mark <= self.reached(),
            None => true,
        }
    }

    // The sector, of which the cache still has this block, is clean.
    fn clean(&mut self, sector: Sector, block: &Block)
        requires { still_has self.old.server.cache sector.0 block.now ≡ true }
        ensures server { self.new.server ≡ clean_now sector.0 self.old.server }
        ensures flying { self.new.flying ≡ self.old.flying }
        ensures room { KeepsRoom self.old self.new }
    {
        self.cache.clean(sector, block);
        take_out(&mut self.pending, sector);
    }
}

// ---- what its line reads

impl Server {
    /// Whether a sector of its cache is dirty.
    pub fn is_dirty(&self, sector: Sector) -> bool
        ensures { result ≡ is_dirty_at self.now.server.cache sector.0 }
    {
        self.cache.mark(sector).is_some()
    }

    /// A sector that its line needs was read: it is cached, clean and under this lock. It isn't dirty before, and there is room for it.
    pub fn fetched(&mut self, sector: Sector, block: Block, cover: LockId)
        requires room { room_for self.old.server.cache sector.0 ≤ self.old.spare }
        requires clean { is_dirty_at self.old.server.cache sector.0 ≡ false }
        ensures server { self.new.server ≡ cached_under self.old.server sector.0 block (Some cover) }
        ensures flying { self.new.flying ≡ self.old.flying }
        ensures room { KeepsRoomBut (record { spare = room_for self.old.server.cache sector.0; sectors = 0; names = 0; zeros = 0 }) self.old self.new }
    {
        set_clean(&mut self.cache, sector, block, cover);
    }

    /// A slot of its log was read, for a mount under way. There is room for it.
    pub fn slot_read(&mut self, sector: Sector, block: &Block)
        requires slot { IsSlot self.old.id sector.0 }
        requires room { 0 < self.old.slots }
        ensures server { self.new.server ≡ with_under self.old.server (slot_read self.old.id sector.0 block.now) }
        ensures flying { self.new.flying ≡ self.old.flying }
        ensures room { KeepsRoom self.old self.new }
    {
        let slot = self.slot_of(sector);
        if let Some(under) = &mut self.under {
            under.read_slot(slot, block);
        }
    }

    // The slot of its log that a sector is.
    fn slot_of(&self, sector: Sector) -> u8
        requires { IsSlot self.now.id sector.0 }
        ensures { result + sector_of (region.Log self.now.id 0) ≡ sector.0 }
    {
        let first = Region::Log {
            server: self.id.0,
            slot: 0,
        };
        (sector.0 - sector_of(&first).0) as u8
    }

    /// A get failed under its mount line, and is kept with it.
    pub fn get_refused(&mut self)
        ensures server { self.new.server ≡ with_under self.old.server refused_under }
        ensures flying { self.new.flying ≡ self.old.flying }
        ensures room { KeepsRoom self.old self.new }
    {
        if let Some(under) = &mut self.under {
            under.fail_get();
        }
    }
}

// ---- its line once more

impl Server {
    /// The set of its line begins anew, since a sector that it saw has moved, and nothing is seen: `first` is the set with which a line over paths begins.
    pub fn line_anew(&mut self, first: LockSet)
        requires { first ≡ first_set }
        ensures server { self.new.server ≡ with_under self.old.server set_anew }
        ensures flying { self.new.flying ≡ self.old.flying }
        ensures room { KeepsRoom self.old self.new }
    {
        let alloc = self.alloc;
        if let Some(under) = &mut self.under {
            under.begin_anew(alloc, first);
        }
    }

    /// The set of its line has grown to this one, and it has seen these sectors.
    pub fn line_grown(&mut self, set: LockSet, seen: SeenSectors)
        ensures server { (needs : List Lock) → GrowsTo self.old.server.under needs set → self.new.server ≡ with_under self.old.server (set_grown needs seen) }
        ensures flying { self.new.flying ≡ self.old.flying }
        ensures room { KeepsRoom self.old self.new }
    {
        if let Some(under) = &mut self.under {
            under.grow(set, seen);
        }
    }

    /// Its log gives up its oldest records, as far as their sectors are issued. That what they name stands on the disk was seen before.
    pub fn reclaim(&mut self)
        ensures server { self.new.server ≡ record self.old.server { ring = reclaimed_of disk_logs.quarter self.old.server.ring } }
        ensures flying { self.new.flying ≡ self.old.flying }
        ensures room { KeepsRoom self.old self.new }
    {
        if let Some(ring) = &mut self.ring {
            ring.give_up();
        }
    }
}
