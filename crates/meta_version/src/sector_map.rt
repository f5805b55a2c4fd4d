// A map from sectors to values, in order of the sectors.
ghost use Rattle.std.specs.Prelude.{◌≡◌, ◌+◌, ◌<◌, ◌≤◌, [], is_some, IsOk, OnOk, OnErr};
ghost use Rattle.std.specs.Option.{option_copied};
ghost use Rattle.std.specs.Ordering.{nat_cmp};
ghost use Rattle.sector_bytes.specs.SectorMaps.{Ascend, value_at, with_value, without, room_for};
ghost use Rattle.sorted_entries.specs.Places.{place_of};

use frang_base::{NoMemory, Sector};
use std::alloc::Global;
use std::marker::Model;

/// A map from a few sectors to values, whose entries lie one after the other. Contracts see it as its entries, a sector's number with
/// its value, ascending by sector, and for how many more entries there is room. A look-up takes time logarithmic in the number of
/// entries, and an insertion moves those behind it.
#[derive(Drop)]
pub struct SectorMap<T> {
    entries: Vec<(u64, T)>,
}

impl<T> Model for SectorMap<T> {
    ghost use Rattle.std.specs.Prelude.{◌-◌, vec_len, vec_capacity};
    ghost use Rattle.sector_bytes.specs.SectorMaps.{Ascend, Spacious, spacious_code};

    ghost Value = { Spacious T };

    ghost coded = { spacious_code T.code };

    ghost view = { λ map. record { entries = map.entries.items; spare = vec_capacity map.entries - vec_len map.entries } };

    ghost invariant = { λ map. Ascend map.entries.items };
}

impl<T: Drop> SectorMap<T> {
    /// An empty map. It takes no memory.
    pub fn new(alloc: Global) -> Self
        ensures { result.entries ≡ [] }
    {
        SectorMap {
            entries: Vec::new(alloc),
        }
    }

    /// All entries, ascending by sector.
    pub fn entries(&self) -> &[(u64, T)]
        ensures entries { result.now ≡ self.now.entries }
        ensures ordered { Ascend self.now.entries }
    {
        &self.entries
    }

    // The sector's place, or the place where it would go.
    fn place(&self, sector: Sector) -> Result<usize, usize>
        ensures place { result ≡ place_of nat_cmp sector.0 self.now.entries }
        ensures missing { OnErr result (value_at self.now.entries sector.0 ≡ None) }
    {
        self.entries
            .binary_search_by(|entry| entry.0.cmp(&sector.0))
    }

    /// The value at a sector. `None` exactly where the sector isn't set.
    pub fn get(&self, sector: Sector) -> Option<&T>
        ensures { option_copied result ≡ value_at self.now.entries sector.0 }
    {
        match self.place(sector) {
            Ok(at) => Some(&self.entries[at].1),
            Err(_) => None,
        }
    }

    /// Whether a sector is set.
    pub fn has(&self, sector: Sector) -> bool
        ensures { result ≡ is_some (value_at self.now.entries sector.0) }
    {
        self.get(sector).is_some()
    }

    /// Makes room for `n` more entries. Nothing else changes, whatever the answer. It takes no memory where there is that room.
    pub fn reserve(&mut self, n: usize) -> Result<(), NoMemory>
        ensures entries { self.new.entries ≡ self.old.entries }
        ensures ok { OnOk result (n ≤ self.new.spare) }
        ensures sure { n ≤ self.old.spare → IsOk result }
        ensures spare { self.old.spare ≤ self.new.spare }
    {
        self.entries.reserve(n)?;
        Ok(())
    }

    /// Sets a sector that is set, or for which there is room. It takes no memory.
    pub fn put(&mut self, sector: Sector, value: T)
        requires { room_for self.old.entries sector.0 ≤ self.old.spare }
        ensures entries { self.new.entries ≡ with_value self.old.entries sector.0 value }
        ensures spare { self.new.spare + room_for self.old.entries sector.0 ≡ self.old.spare }
    {
        match self.place(sector) {
            Ok(at) => self.entries[at] = (sector.0, value),
            Err(at) => match self.entries.insert(at, (sector.0, value)) {
                Ok(()) => {}
                Err(_) => unreachable!(),
            },
        }
    }

    /// Sets a sector. After `NoMemory` the map is as before; it doesn't come where there is room.
    pub fn set(&mut self, sector: Sector, value: T) -> Result<(), NoMemory>
        ensures ok { OnOk result (self.new.entries ≡ with_value self.old.entries sector.0 value) }
        ensures err { OnErr result (self.new.entries ≡ self.old.entries) }
        ensures sure { 0 < self.old.spare → IsOk result }
        ensures spare { self.old.spare ≤ self.new.spare + 1 }
    {
        self.reserve(1)?;
        self.put(sector, value);
        Ok(())
    }

    /// The sector isn't set afterwards, and all others stay. It takes no memory.
    pub fn remove(&mut self, sector: Sector)
        ensures entries { self.new.entries ≡ without self.old.entries sector.0 }
        ensures spare { self.old.spare ≤ self.new.spare }
    {
        if let Ok(at) = self.place(sector) {
            let _ = self.entries.remove(at);
        }
    }
}
