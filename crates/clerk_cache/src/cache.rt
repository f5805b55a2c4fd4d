// The cached sectors.
ghost use Rattle.std.specs.Prelude.{◌≡◌, ℕ, ◌+◌, ◌<◌, ◌≤◌, ◌++◌, [], None, not, if◌then◌else◌, is_some, true, false, IsOk, IsSome, IfOk, OnErr, OnOk};
ghost use Rattle.std.specs.List.Sorted.{IsStrictlySortedBy};
ghost use Rattle.std.specs.Option.{option_and_then, option_copied, option_map};
ghost use Rattle.std.specs.Ordering.{nat_cmp, on};
ghost use Rattle.std.specs.Str.{bytes_eq};
ghost use Rattle.sector_bytes.specs.Blocks.{zero_block};
ghost use Rattle.sector_bytes.specs.Changes.{is_change};
ghost use Rattle.sector_bytes.specs.SectorMaps.{Ascend, value_at, with_value, without, adjusted, room_for};
ghost use Rattle.meta_version.specs.Updates.{IsOlder};
ghost use Rattle.flush_order.specs.Marks.{next_reached, sector_reached};
ghost use Rattle.cache_definitions.specs.Caches.{any_cached, block_at, blocks_of, clean, cleaned, cover_at, dirty, dirty_sectors, dropped, first_cached, forgotten, is_dirty, is_dirty_at, is_dirty_bytes, is_dirty_bytes_at, is_dirty_under, is_under, mark_at, still_has, with_change, with_cover, with_written};
ghost use Rattle.cache_definitions.specs.Flags.{among_cached, but, but_all, with_cached};
ghost use Rattle.frang_base.specs.Functions.{member};
ghost use Rattle.ordered_map.specs.Chunks.{joined};
ghost use Rattle.clerk_cache.specs.Kept.{state_marks, state_set};
ghost use Rattle.clerk_cache.specs.Marks.{idle_marks_of, is_one, is_one_of_bytes, is_one_staying, is_one_under, marks_of};
ghost use Rattle.clerk_cache.specs.Dropping.{numbers_of, DropOutcome};

use crate::state::{Changed, Cleaned, Flown, Moved, SectorState, is_staying};
use crate::states::States;
use cache_definitions::Dirt;
use flush_order::Mark;
use frang_base::{Block, Change, LockId, NoMemory, Sector};
use meta_version::Sectors;
use ordered_map::{Chunk, Place};
use sector_bytes::zero_block;
use std::alloc::Global;
use std::marker::Model;

/// The cached sectors of a server. Contracts see them as entries, a sector's number with its block, the lock that covers it and,
/// where it is dirty, its mark and whether it is one of file bytes, ascending by sector; of these the dirty sectors that stay wanted and
/// those with a write in flight; and for how many more entries there is room. Only a dirty sector stays wanted, so that its flag goes
/// with its dirt: where the definition of the core leaves a sector among those that stay while it takes its dirt, the sector isn't dirty
/// before. That a write is in flight is said by who issues and takes in writes, of sectors that are cached.
pub struct Cache {
    sectors: Sectors,
    states: States,
    alloc: Global,
}

// By one call, wherever it is dropped.
impl Drop for Cache {
    fn drop(self) {
        let Cache {
            sectors: _sectors,
            states: _states,
            alloc: _,
        } = self;
    }
}

impl Model for Cache {
    ghost use Rattle.cache_definitions.specs.Flags.{FlaggedCache};

    ghost Value = { FlaggedCache };

    ghost use Rattle.clerk_cache.specs.Kept.{cache_of, AreKept};

    ghost view = { λ cache. cache_of cache.sectors cache.states };

    ghost invariant = { λ cache. AreKept cache.sectors.entries cache.states.entries };
}

/// A cover isn't dropped: this sector under it is dirty.
#[derive(Clone, Copy, Debug, PartialEq, Eq)]
pub struct Dirty {
    pub sector: Sector,
}

// The sector of a mark, where it is reached.
fn sector_reached(mark: Option<Mark>, reached: u64) -> Option<Sector>
    ensures { result ≡ sector_reached reached mark }
{
    match mark {
        Some(mark) if mark.mark <= reached => Some(mark.sector),
        _ => None,
    }
}

// Adds the marks of the dirty sectors of a piece.
fn add_marks(marks: &mut Vec<Mark>, states: &[(u64, SectorState)]) -> Result<(), NoMemory>
    ensures { OnOk result (marks.new.items ≡ marks.old.items ++ state_marks states.now) }
{
    for entry in states {
        if let Some(dirt) = entry.1.dirt {
            let sector = Sector(entry.0);
            let mark = dirt.mark;
            marks.push(Mark { sector, mark })?;
        }
    }
    Ok(())
}

// The dirty sectors of these, with their marks.
fn marks_of(alloc: Global, pieces: &[Chunk<u64, SectorState>]) -> Result<Vec<Mark>, NoMemory>
    ensures { IfOk result (λ marks. marks.items ≡ state_marks (joined pieces.now)) }
{
    let mut marks = Vec::new(alloc);
    for piece in pieces {
        add_marks(&mut marks, piece.entries())?;
    }
    Ok(marks)
}

// What is kept of a sector that is set, in place of what was.
fn set_over(old: Option<SectorState>, cover: LockId, dirt: Option<Dirt>) -> SectorState
    ensures { result ≡ state_set cover dirt old }
{
    match old {
        Some(state) => SectorState {
            cover,
            dirt,
            stays: dirt.is_some() && is_staying(state),
            flies: state.flies,
        },
        None => SectorState {
            cover,
            dirt,
            stays: false,
            flies: false,
        },
    }
}

// The two are the same block.
fn is_same(a: &Block, b: &Block) -> bool
    ensures { result ≡ bytes_eq a.now b.now }
{
    a == b
}

impl Cache {
    /// Nothing cached. It takes no memory.
    pub fn new(alloc: Global) -> Cache
        ensures entries { result.entries ≡ [] }
        ensures staying { result.staying ≡ [] }
        ensures flying { result.flying ≡ [] }
    {
        Cache {
            sectors: Sectors::new(alloc),
            states: States::new(alloc),
            alloc,
        }
    }

    /// Makes room for `n` more sectors. Nothing else changes, whatever the answer. It takes no memory where there is that room.
    pub fn reserve(&mut self, n: usize) -> Result<(), NoMemory>
        ensures entries { self.new.entries ≡ self.old.entries }
        ensures staying { self.new.staying ≡ self.old.staying }
        ensures flying { self.new.flying ≡ self.old.flying }
        ensures ok { OnOk result (n ≤ self.new.spare) }
        ensures sure { n ≤ self.old.spare → IsOk result }
        ensures spare { self.old.spare ≤ self.new.spare }
    {
        self.sectors.reserve(n)?;
        self.states.reserve(n)
    }

    /// The sectors with their blocks, for the plans.
    pub fn sectors(&self) -> &Sectors
        ensures { result.now.entries ≡ blocks_of self.now.entries }
    {
        &self.sectors
    }

    /// The block of a sector. `None` exactly where it isn't cached.
    pub fn get(&self, sector: Sector) -> Option<&Block>
        ensures { option_copied result ≡ block_at self.now.entries sector.0 }
    {
        self.sectors.get(sector)
    }

    /// The lock that covers a sector. `None` exactly where the sector isn't cached.
    pub fn cover(&self, sector: Sector) -> Option<LockId>
        ensures cover { result ≡ cover_at self.now.entries sector.0 }
        ensures ordered { Ascend self.now.entries }
    {
        match self.states.get(sector) {
            Some(state) => Some(state.cover),
            None => None,
        }
    }

    // The dirt of a sector. `None` exactly where it isn't dirty.
    fn dirt(&self, sector: Sector) -> Option<Dirt>
        ensures { result ≡ option_and_then (λ cached. cached.dirt) (value_at self.now.entries sector.0) }
    {
        match self.states.get(sector) {
            Some(state) => state.dirt,
            None => None,
        }
    }

    /// The mark of a sector. `None` exactly where it isn't dirty.
    pub fn mark(&self, sector: Sector) -> Option<u64>
        ensures { result ≡ mark_at self.now.entries sector.0 }
    {
        match self.dirt(sector) {
            Some(dirt) => Some(dirt.mark),
            None => None,
        }
    }

    /// The sector is dirty, and one of file bytes.
    pub fn is_bytes(&self, sector: Sector) -> bool
        ensures { result ≡ is_dirty_bytes_at self.now.entries sector.0 }
    {
        match self.dirt(sector) {
            Some(dirt) => dirt.is_bytes,
            None => false,
        }
    }

    /// The sector stays wanted until it is clean. It is dirty then.
    pub fn stays(&self, sector: Sector) -> bool
        ensures stays { result ≡ member sector.0 self.now.staying }
        ensures dirty { result ≡ true → is_dirty_at self.now.entries sector.0 ≡ true }
    {
        match self.states.get(sector) {
            Some(state) => is_staying(state),
            None => false,
        }
    }

    /// The sector is cached, and a write of it is in flight.
    pub fn flies(&self, sector: Sector) -> bool
        ensures { result ≡ member sector.0 self.now.flying }
    {
        match self.states.get(sector) {
            Some(state) => state.flies,
            None => false,
        }
    }

    // Caches a sector with this block, cover and dirt. Its flags stay, but that a clean sector doesn't stay wanted.
    fn set(&mut self, sector: Sector, block: Block, cover: LockId, dirt: Option<Dirt>)
        requires { room_for self.old.entries sector.0 ≤ self.old.spare }
        ensures entries { self.new.entries ≡ with_value self.old.entries sector.0 (record { block = block; cover = cover; dirt = dirt }) }
        ensures clean { dirt ≡ None → self.new.staying ≡ but sector.0 self.old.staying }
        ensures dirty { IsSome dirt → self.new.staying ≡ self.old.staying }
        ensures flying { self.new.flying ≡ self.old.flying }
        ensures spare { self.new.spare + room_for self.old.entries sector.0 ≡ self.old.spare }
    {
        let state = set_over(self.states.get(sector), cover, dirt);
        self.sectors.put(sector, block);
        self.states.put(self.sectors.last_place(), sector, state);
    }

    /// Caches a sector as the disk has it, under this lock. The sector is cached already, or there is room. It takes no memory.
    pub fn set_clean(&mut self, sector: Sector, block: Block, cover: LockId)
        requires { room_for self.old.entries sector.0 ≤ self.old.spare }
        ensures entries { self.new.entries ≡ with_value self.old.entries sector.0 (clean block cover) }
        ensures staying { self.new.staying ≡ but sector.0 self.old.staying }
        ensures flying { self.new.flying ≡ self.old.flying }
        ensures spare { self.new.spare + room_for self.old.entries sector.0 ≡ self.old.spare }
    {
        self.set(sector, block, cover, None);
    }

    /// Caches a sector of file bytes that the disk doesn't have yet, with this mark and under this lock. The sector is cached already,
    /// or there is room. It takes no memory.
    pub fn set_bytes(&mut self, sector: Sector, block: Block, mark: u64, cover: LockId)
        requires { room_for self.old.entries sector.0 ≤ self.old.spare }
        ensures entries { self.new.entries ≡ with_value self.old.entries sector.0 (dirty block cover mark true) }
        ensures staying { self.new.staying ≡ self.old.staying }
        ensures flying { self.new.flying ≡ self.old.flying }
        ensures spare { self.new.spare + room_for self.old.entries sector.0 ≡ self.old.spare }
    {
        let dirt = Some(Dirt {
            mark,
            is_bytes: true,
        });
        self.set(sector, block, cover, dirt);
    }

    /// Caches a sector of metadata as zeros that the disk doesn't have yet, with this mark and under this lock, whatever was cached of
    /// it. The sector is cached already, or there is room. It takes no memory.
    pub fn set_zeros(&mut self, sector: Sector, mark: u64, cover: LockId)
        requires { room_for self.old.entries sector.0 ≤ self.old.spare }
        ensures entries { self.new.entries ≡ with_value self.old.entries sector.0 (dirty zero_block cover mark false) }
        ensures staying { self.new.staying ≡ self.old.staying }
        ensures flying { self.new.flying ≡ self.old.flying }
        ensures spare { self.new.spare + room_for self.old.entries sector.0 ≡ self.old.spare }
    {
        let dirt = Some(Dirt {
            mark,
            is_bytes: false,
        });
        self.set(sector, zero_block(), cover, dirt);
    }

    /// Lays a change over its sector, which is cached and older than the change. The sector is then dirty metadata with this mark, and
    /// under this lock. It takes no memory.
    pub fn change(&mut self, change: &Change, mark: u64, cover: LockId)
        requires well_formed { is_change change.now ≡ true }
        requires older { IsOlder (block_at self.old.entries change.now.sector.0) change.now }
        ensures entries { self.new.entries ≡ with_change self.old.entries change.now mark cover }
        ensures staying { self.new.staying ≡ self.old.staying }
        ensures flying { self.new.flying ≡ self.old.flying }
        ensures spare { self.new.spare ≡ self.old.spare }
    {
        self.sectors.change(change);
        let dirt = Dirt {
            mark,
            is_bytes: false,
        };
        let near = self.sectors.last_place();
        self.states
            .edit(near, change.sector, &Changed { cover, dirt });
    }

    /// The sector isn't cached afterwards, whether it was dirty or not. It takes no memory.
    pub fn forget(&mut self, sector: Sector)
        ensures entries { self.new.entries ≡ without self.old.entries sector.0 }
        ensures staying { self.new.staying ≡ but sector.0 self.old.staying }
        ensures flying { self.new.flying ≡ but sector.0 self.old.flying }
        ensures spare { self.old.spare ≤ self.new.spare }
    {
        self.forget_near(None, sector);
    }

    // The same, looking for the sector at a place first, and then from there on.
    fn forget_near(&mut self, near: Option<Place>, sector: Sector)
        ensures entries { self.new.entries ≡ without self.old.entries sector.0 }
        ensures staying { self.new.staying ≡ but sector.0 self.old.staying }
        ensures flying { self.new.flying ≡ but sector.0 self.old.flying }
        ensures clean { is_dirty_at self.old.entries sector.0 ≡ false → self.new.staying ≡ self.old.staying }
        ensures spare { self.old.spare ≤ self.new.spare }
    {
        self.sectors.remove_near(near, sector);
        self.states.remove(self.sectors.last_place(), sector);
    }

    /// None of these sectors is cached afterwards, whether it was dirty or not. It takes no memory. Where they ascend it is one pass: each
    /// is looked for from where the one before it lay.
    pub fn forget_all(&mut self, sectors: &[Sector])
        ensures entries { self.new.entries ≡ forgotten self.old.entries (numbers_of sectors.now) }
        ensures staying { self.new.staying ≡ but_all (numbers_of sectors.now) self.old.staying }
        ensures flying { self.new.flying ≡ but_all (numbers_of sectors.now) self.old.flying }
        ensures spare { self.old.spare ≤ self.new.spare }
    {
        for sector in sectors {
            let last = self.sectors.last_place();
            self.forget_near(last, *sector);
        }
    }

    /// The sector was written as this block: it is no longer dirty where it still holds that block. It takes no memory.
    pub fn clean(&mut self, sector: Sector, block: &Block)
        ensures entries { self.new.entries ≡ with_written self.old.entries sector.0 block.now }
        ensures staying { self.new.staying ≡ (if still_has self.old.entries sector.0 block.now then but sector.0 self.old.staying else self.old.staying) }
        ensures flying { self.new.flying ≡ self.old.flying }
        ensures spare { self.new.spare ≡ self.old.spare }
    {
        match self.held_at(sector, block) {
            Some(place) => self.mark_clean(place, sector),
            None => {}
        }
    }

    // Where the sector lies, if it is cached with this block.
    fn held_at(&self, sector: Sector, block: &Block) -> Option<Place>
        ensures { is_some result ≡ still_has self.now.entries sector.0 block.now }
    {
        match self.sectors.find(sector) {
            Some((place, held)) => {
                if is_same(held, block) {
                    Some(place)
                } else {
                    None
                }
            }
            None => None,
        }
    }

    // The sector isn't dirty afterwards, where it is cached. It is looked for at a place first.
    fn mark_clean(&mut self, place: Place, sector: Sector)
        ensures entries { self.new.entries ≡ cleaned self.old.entries sector.0 }
        ensures staying { self.new.staying ≡ but sector.0 self.old.staying }
        ensures flying { self.new.flying ≡ self.old.flying }
        ensures spare { self.new.spare ≡ self.old.spare }
    {
        self.states.edit(Some(place), sector, &Cleaned);
    }

    /// The dirty sectors with their marks, ascending by sector.
    pub fn dirty(&self) -> Result<Vec<Mark>, NoMemory>
        ensures marks { IfOk result (λ marks. marks.items ≡ marks_of self.now.entries) }
        ensures ordered { IfOk result (λ marks. IsStrictlySortedBy (on (λ mark. mark.sector.0) nat_cmp) marks.items) }
    {
        marks_of(self.alloc, self.states.pieces())
    }

    /// The dirty sector with the least mark, of one mark the least sector, where that mark is at most `reached`. It takes no memory.
    pub fn next_dirty(&self, reached: u64) -> Option<Sector>
        ensures { result ≡ next_reached (marks_of self.now.entries) reached }
    {
        sector_reached(self.states.first_mark(), reached)
    }

    /// The dirty sector without a write in flight with the least mark, of one mark the least sector, where that mark is at most `reached`.
    /// It takes no memory.
    pub fn next_idle(&self, reached: u64) -> Option<Sector>
        ensures { result ≡ next_reached (idle_marks_of is_one self.now) reached }
    {
        sector_reached(self.states.first_idle(), reached)
    }

    /// The same, among those of file bytes.
    pub fn next_bytes(&self, reached: u64) -> Option<Sector>
        ensures { result ≡ next_reached (idle_marks_of is_one_of_bytes self.now) reached }
    {
        sector_reached(self.states.first_bytes(), reached)
    }

    /// The same, among those that stay wanted.
    pub fn next_staying(&self, reached: u64) -> Option<Sector>
        ensures { result ≡ next_reached (idle_marks_of (is_one_staying self.now.staying) self.now) reached }
    {
        sector_reached(self.states.first_staying(), reached)
    }

    /// The same, among those under a lock.
    pub fn next_under(&self, lock: LockId, reached: u64) -> Option<Sector>
        ensures { result ≡ next_reached (idle_marks_of (is_one_under lock) self.now) reached }
    {
        sector_reached(self.states.first_waiting(lock), reached)
    }

    /// A write of a sector is in flight, or no longer: where the sector is cached, that is kept of it. It takes no memory.
    pub fn set_flies(&mut self, sector: Sector, flies: bool)
        ensures entries { self.new.entries ≡ self.old.entries }
        ensures staying { self.new.staying ≡ self.old.staying }
        ensures flying { self.new.flying ≡ (if flies then with_cached self.old.entries sector.0 self.old.flying else but sector.0 self.old.flying) }
        ensures spare { self.new.spare ≡ self.old.spare }
    {
        self.states.edit(None, sector, &Flown { flies });
    }

    /// All that is dirty stays wanted from now on, each sector until it is clean; what stayed so is among that. It takes no memory, and time
    /// proportional to how many are dirty that don't stay wanted yet: a flag is set on each of them, so that a sector costs it once from
    /// when it gets dirty until it is clean.
    pub fn want_all(&mut self)
        ensures entries { self.new.entries ≡ self.old.entries }
        ensures staying { self.new.staying ≡ dirty_sectors self.old.entries }
        ensures joined { (s : ℕ) → member s self.old.staying ≡ true → is_dirty_at self.old.entries s ≡ true }
        ensures ordered { Ascend self.old.entries }
        ensures flying { self.new.flying ≡ self.old.flying }
        ensures spare { self.new.spare ≡ self.old.spare }
    {
        self.states.want_all();
    }

    /// No sector under this lock is dirty: exactly then `drop_cover` answers `Ok`.
    pub fn is_clean(&self, lock: LockId) -> bool
        ensures { result ≡ not (any_cached (is_dirty_under lock) self.now.entries) }
    {
        self.first_dirty(lock).is_none()
    }

    /// No sector is dirty.
    pub fn is_all_clean(&self) -> bool
        ensures { result ≡ not (any_cached is_dirty self.now.entries) }
    {
        self.states.first_mark().is_none()
    }

    /// Some sector is dirty and one of file bytes, whether a write of it is in flight or not. It takes constant time.
    pub fn has_dirty_bytes(&self) -> bool
        ensures { result ≡ any_cached is_dirty_bytes self.now.entries }
    {
        self.states.has_bytes()
    }

    /// Puts a cached sector under another lock. Its block and its dirt stay. It takes no memory.
    pub fn move_cover(&mut self, sector: Sector, cover: LockId)
        requires { IsSome (value_at self.old.entries sector.0) }
        ensures entries { self.new.entries ≡ with_cover self.old.entries sector.0 cover }
        ensures staying { self.new.staying ≡ self.old.staying }
        ensures flying { self.new.flying ≡ self.old.flying }
        ensures spare { self.new.spare ≡ self.old.spare }
    {
        self.states.edit(None, sector, &Moved { cover });
    }

    // The first sector under a lock.
    fn first_under(&self, lock: LockId) -> Option<u64>
        ensures sector { result ≡ first_cached (is_under lock) self.now.entries }
        ensures ordered { Ascend self.now.entries }
        ensures flying { self.now.flying ≡ among_cached self.now.entries self.now.flying }
    {
        self.states.first_under(lock)
    }

    // The first dirty sector under a lock.
    fn first_dirty(&self, lock: LockId) -> Option<u64>
        ensures { result ≡ first_cached (is_dirty_under lock) self.now.entries }
    {
        self.states.first_dirty(lock)
    }

    // Drops the sectors under a lock, in one pass: they ascend, and each is looked for from where the one before it lay.
    fn drop_all(&mut self, lock: LockId)
        requires { any_cached (is_dirty_under lock) self.old.entries ≡ false }
        ensures entries { self.new.entries ≡ dropped self.old.entries lock }
        ensures staying { self.new.staying ≡ self.old.staying }
        ensures flying { self.new.flying ≡ among_cached self.new.entries self.old.flying }
        ensures spare { self.old.spare ≤ self.new.spare }
    {
        while let Some(sector) = self.first_under(lock) {
            let last = self.sectors.last_place();
            self.forget_near(last, Sector(sector));
        }
    }

    /// Drops all sectors under a lock from the cache. `Dirty` comes exactly where one of them is dirty, and names the first such;
    /// freed sectors are under their segment's lock. The cache is then unchanged. It takes no memory.
    pub fn drop_cover(&mut self, lock: LockId) -> Result<(), Dirty>
        ensures outcome { DropOutcome lock self.old.entries self.new.entries result }
        ensures staying { self.new.staying ≡ self.old.staying }
        ensures flying { OnOk result (self.new.flying ≡ among_cached self.new.entries self.old.flying) }
        ensures unchanged { OnErr result (self.new ≡ self.old) }
        ensures spare { self.old.spare ≤ self.new.spare }
    {
        if let Some(sector) = self.first_dirty(lock) {
            let sector = Sector(sector);
            return Err(Dirty { sector });
        }
        self.drop_all(lock);
        Ok(())
    }
}
