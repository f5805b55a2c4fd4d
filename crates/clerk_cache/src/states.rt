// What is kept beside the blocks, and the sectors in orders of their marks and covers.
ghost use Rattle.std.specs.Prelude.{◌≡◌, ◌+◌, ◌<◌, ◌≤◌, [], is_some, length, IsOk, OnOk};
ghost use Rattle.sector_bytes.specs.SectorMaps.{value_at, with_value, without, adjusted, room_for, Ascend};
ghost use Rattle.flush_order.specs.Marks.{least, first_mark};
ghost use Rattle.ordered_map.specs.Chunks.{joined};
ghost use Rattle.clerk_cache.specs.Kept.{all_wanted, first_state, is_idle, is_idle_bytes, is_idle_staying, is_idle_under, is_state_bytes, is_state_dirty_under, is_state_fresh, is_state_under, passing_marks, state_marks};

use crate::covered::{Covered, first_of};
use crate::covered_mark::{CoveredMark, first_mark_of};
use crate::keys::{exchange, reserve, take_out};
use crate::state::{SectorState, Wanted, keys_of, recount};
use flush_order::Mark;
use frang_base::{LockId, NoMemory, Sector};
use ordered_map::{Chunk, Edit, OrderedMap, Place};
use std::alloc::Global;
use std::marker::Model;

/// What is kept of the cached sectors beside their blocks: entries ascending by sector, and for how many more there is room. What is
/// asked by mark or by cover is found in time logarithmic in their number. Each edit looks for its sector at a place first, where one is
/// given: where the sector lies in a map of the same sectors.
#[derive(Drop)]
pub(crate) struct States {
    states: OrderedMap<u64, SectorState>,
    // The dirty sectors with their marks.
    marks: OrderedMap<Mark, ()>,
    // Of these the ones without a write in flight.
    idle: OrderedMap<Mark, ()>,
    // Of those the file bytes.
    bytes: OrderedMap<Mark, ()>,
    // Of those without a write in flight the ones that stay wanted.
    staying: OrderedMap<Mark, ()>,
    // The dirty sectors that don't stay wanted, with their marks.
    fresh: OrderedMap<Mark, ()>,
    // All sectors with their covers.
    covers: OrderedMap<Covered, ()>,
    // The dirty sectors with their covers.
    dirty: OrderedMap<Covered, ()>,
    // The dirty sectors without a write in flight with their covers and marks.
    waiting: OrderedMap<CoveredMark, ()>,
    // How many are of dirty file bytes.
    bytes_count: usize,
}

impl Model for States {
    ghost use Rattle.sector_bytes.specs.SectorMaps.{Spacious};
    ghost use Rattle.clerk_cache.specs.declared.state.SectorState.{SectorState};

    ghost Value = { Spacious SectorState };

    ghost use Rattle.clerk_cache.specs.Indexing.{most_of_all, states_of, AreIndexed};

    ghost view = { λ s. states_of s.states (most_of_all s.states s.marks s.idle s.bytes s.staying s.fresh s.covers s.dirty s.waiting) };

    ghost invariant = { λ s. AreIndexed s.states.entries (most_of_all s.states s.marks s.idle s.bytes s.staying s.fresh s.covers s.dirty s.waiting) s.bytes_count s.marks.entries s.idle.entries s.bytes.entries s.staying.entries s.fresh.entries s.covers.entries s.dirty.entries s.waiting.entries };
}

// The first of the marks.
fn first_mark(marks: &OrderedMap<Mark, ()>) -> Option<Mark>
    ensures { result ≡ first_mark marks.now.entries }
{
    match marks.first() {
        Some(entry) => Some(entry.0),
        None => None,
    }
}

impl States {
    /// Nothing. It takes no memory.
    pub(crate) fn new(alloc: Global) -> States
        ensures { result.entries ≡ [] }
    {
        States {
            states: OrderedMap::new(alloc),
            marks: OrderedMap::new(alloc),
            idle: OrderedMap::new(alloc),
            bytes: OrderedMap::new(alloc),
            staying: OrderedMap::new(alloc),
            fresh: OrderedMap::new(alloc),
            covers: OrderedMap::new(alloc),
            dirty: OrderedMap::new(alloc),
            waiting: OrderedMap::new(alloc),
            bytes_count: 0,
        }
    }

    /// What is kept, ascending by sector, in pieces that follow one another.
    pub(crate) fn pieces(&self) -> &[Chunk<u64, SectorState>]
        ensures { joined result.now ≡ self.now.entries }
    {
        self.states.chunks()
    }

    /// What is kept of a sector.
    pub(crate) fn get(&self, sector: Sector) -> Option<SectorState>
        ensures value { result ≡ value_at self.now.entries sector.0 }
        ensures ordered { Ascend self.now.entries }
    {
        self.states.get(&sector.0).copied()
    }

    /// The least mark.
    pub(crate) fn first_mark(&self) -> Option<Mark>
        ensures { result ≡ least (state_marks self.now.entries) }
    {
        first_mark(&self.marks)
    }

    /// The least mark of the dirty sectors without a write in flight.
    pub(crate) fn first_idle(&self) -> Option<Mark>
        ensures { result ≡ least (passing_marks is_idle self.now.entries) }
    {
        first_mark(&self.idle)
    }

    /// The same, of those of file bytes.
    pub(crate) fn first_bytes(&self) -> Option<Mark>
        ensures { result ≡ least (passing_marks is_idle_bytes self.now.entries) }
    {
        first_mark(&self.bytes)
    }

    /// The same, of those that stay wanted.
    pub(crate) fn first_staying(&self) -> Option<Mark>
        ensures { result ≡ least (passing_marks is_idle_staying self.now.entries) }
    {
        first_mark(&self.staying)
    }

    /// The same, of those under a lock.
    pub(crate) fn first_waiting(&self, lock: LockId) -> Option<Mark>
        ensures { result ≡ least (passing_marks (is_idle_under lock) self.now.entries) }
    {
        first_mark_of(&self.waiting, lock)
    }

    /// The least mark of the dirty sectors that don't stay wanted.
    pub(crate) fn first_fresh(&self) -> Option<Mark>
        ensures mark { result ≡ least (passing_marks is_state_fresh self.now.entries) }
        ensures ordered { Ascend self.now.entries }
    {
        first_mark(&self.fresh)
    }

    /// Some sector is one of dirty file bytes.
    pub(crate) fn has_bytes(&self) -> bool
        ensures { result ≡ is_some (first_state is_state_bytes self.now.entries) }
    {
        self.bytes_count > 0
    }

    /// The first sector under a lock. It is looked for first from where the last one lay that was removed.
    pub(crate) fn first_under(&self, lock: LockId) -> Option<u64>
        ensures { result ≡ first_state (is_state_under lock) self.now.entries }
    {
        first_of(&self.covers, self.covers.last_place(), lock)
    }

    /// The first dirty sector under a lock.
    pub(crate) fn first_dirty(&self, lock: LockId) -> Option<u64>
        ensures { result ≡ first_state (is_state_dirty_under lock) self.now.entries }
    {
        first_of(&self.dirty, None, lock)
    }

    /// Makes room for `n` more sectors, each of which may be dirty. Nothing else changes, whatever the answer. It takes no memory where
    /// there is that room.
    pub(crate) fn reserve(&mut self, n: usize) -> Result<(), NoMemory>
        ensures entries { self.new.entries ≡ self.old.entries }
        ensures ok { OnOk result (n ≤ self.new.spare) }
        ensures sure { n ≤ self.old.spare → IsOk result }
        ensures spare { self.old.spare ≤ self.new.spare }
    {
        let held = self.states.count();
        let states = self.states.reserve(n).is_ok();
        let marks = reserve(&mut self.marks, held, n).is_ok();
        let idle = reserve(&mut self.idle, held, n).is_ok();
        let bytes = reserve(&mut self.bytes, held, n).is_ok();
        let staying = reserve(&mut self.staying, held, n).is_ok();
        let fresh = reserve(&mut self.fresh, held, n).is_ok();
        let covers = reserve(&mut self.covers, held, n).is_ok();
        let dirty = reserve(&mut self.dirty, held, n).is_ok();
        let waiting = reserve(&mut self.waiting, held, n).is_ok();
        if states && marks && idle && bytes && staying && fresh && covers && dirty && waiting {
            Ok(())
        } else {
            Err(NoMemory)
        }
    }

    /// Keeps this of a sector, of which something is kept or for which there is room. It takes no memory.
    pub(crate) fn put(&mut self, near: Option<Place>, sector: Sector, state: SectorState)
        requires { room_for self.old.entries sector.0 ≤ self.old.spare }
        ensures entries { self.new.entries ≡ with_value self.old.entries sector.0 state }
        ensures spare { self.new.spare + room_for self.old.entries sector.0 ≡ self.old.spare }
    {
        let before = self.states.replace_near(near, sector.0, state);
        // Those that are counted are among these.
        let _held = self.states.count();
        self.bytes_count = recount(self.bytes_count, before, Some(state));
        let old = keys_of(sector, before);
        let new = keys_of(sector, Some(state));
        exchange(&mut self.marks, old.mark, new.mark);
        exchange(&mut self.idle, old.idle, new.idle);
        exchange(&mut self.bytes, old.bytes, new.bytes);
        exchange(&mut self.staying, old.staying, new.staying);
        exchange(&mut self.fresh, old.fresh, new.fresh);
        exchange(&mut self.covers, old.cover, new.cover);
        exchange(&mut self.dirty, old.dirty, new.dirty);
        exchange(&mut self.waiting, old.waiting, new.waiting);
    }

    /// Edits what is kept of a sector, where something is. It takes no memory.
    pub(crate) fn edit<E: Edit<SectorState>>(
        &mut self,
        near: Option<Place>,
        sector: Sector,
        edit: &E,
    )
        ensures entries { self.new.entries ≡ adjusted (E.edited edit.now) self.old.entries sector.0 }
        ensures spare { self.new.spare ≡ self.old.spare }
    {
        match self.get(sector) {
            Some(state) => {
                let mut edited = state;
                edit.edit(&mut edited);
                self.put(near, sector, edited);
            }
            None => {}
        }
    }

    /// Each dirty sector stays wanted from now on. It takes no memory, and time proportional to how many are dirty that don't stay wanted
    /// yet, so that a sector costs it once from when it gets dirty until it is clean.
    pub(crate) fn want_all(&mut self)
        ensures entries { self.new.entries ≡ all_wanted self.old.entries }
        ensures spare { self.new.spare ≡ self.old.spare }
    {
        while let Some(mark) = self.first_fresh() {
            self.edit(None, mark.sector, &Wanted);
        }
    }

    /// Nothing is kept of the sector afterwards. Its cover is looked for first where that of the last one lay that was removed: those of
    /// one lock follow one another. It takes no memory.
    pub(crate) fn remove(&mut self, near: Option<Place>, sector: Sector)
        ensures entries { self.new.entries ≡ without self.old.entries sector.0 }
        ensures spare { self.old.spare ≤ self.new.spare }
    {
        let before = self.states.take_near(near, &sector.0);
        // Those that are counted are among these.
        let _held = self.states.count();
        self.bytes_count = recount(self.bytes_count, before, None);
        let old = keys_of(sector, before);
        let last = self.covers.last_place();
        take_out(&mut self.marks, None, old.mark);
        take_out(&mut self.idle, None, old.idle);
        take_out(&mut self.bytes, None, old.bytes);
        take_out(&mut self.staying, None, old.staying);
        take_out(&mut self.fresh, None, old.fresh);
        take_out(&mut self.covers, last, old.cover);
        take_out(&mut self.dirty, None, old.dirty);
        take_out(&mut self.waiting, None, old.waiting);
    }
}
