// The recovery of a log.
ghost use Rattle.std.specs.Prelude.{◌≡◌, ◌≤◌, ◌<◌, ◌^◌, ◌++◌, ℕ, [], None, true, false, is_some, IfOk, IfSome, IsSome, IsTrue, OnOk};
ghost use Rattle.std.specs.List.{slice_get};
ghost use Rattle.std.specs.Map.{keys_of};
ghost use Rattle.std.specs.Option.{option_copied, option_map};
ghost use Rattle.std.specs.Ordering.{nat_cmp};
ghost use Rattle.frang_base.specs.Functions.{member};
ghost use Rattle.frang_base.specs.declared.limits.TheConstants.{SEGMENTS_MAX};
ghost use Rattle.sector_bytes.specs.SectorMaps.{Ascend, value_at, with_value, without};
ghost use Rattle.core_definitions.specs.EndEffects.{slot_loaded};
ghost use Rattle.core_definitions.specs.Recoveries.{recovery_of};
ghost use Rattle.core_definitions.specs.WriteEffects.{acknowledged_for};
ghost use Rattle.recovery_demon.specs.Recovering.{all_wanted, behind_loads, first_sector_from, greatest_kept, is_all_done, looks_wanted, wanted_over, write_sectors, writes_wanted};
ghost use Rattle.recovery_demon.specs.Inside.{replay_wants};
ghost use Rattle.log_slots.specs.Reading.{are_all_read, unread_slots};

use crate::Next;
use crate::listing::{push_loads, push_looks, push_writes};
use crate::replay::Replay;
use frang_base::{Block, NoMemory, OpNo, Sector, ServerId};
use log_slots::Slots;
use std::alloc::Global;
use std::marker::Model;

/// The recovery of a dead server's log, seen as that of the core's definition, with the writes for it that are issued and not acknowledged. It is fresh where
/// what its slots say is read off them, or not all of them are read; and ready where there is room for the next change.
#[derive(Drop)]
pub struct Demon {
    dead: ServerId,
    segments: u32,
    slots: Slots,
    // Once all slots are read.
    replay: Option<Replay>,
    alloc: Global,
}

impl Model for Demon {
    ghost use Rattle.recovery_demon.specs.Recovering.{Recovering};

    ghost Value = { Recovering };

    ghost use Rattle.recovery_demon.specs.Inside.{AreTied, recovering_of};

    ghost view = { λ d. recovering_of d.dead.0 d.segments d.slots d.replay };

    ghost invariant = { λ d. AreTied d.dead.0 d.segments d.slots.entries d.replay };
}

// Adds what a replay wants done, in order.
fn push_replay(list: &mut Vec<Next>, replay: &Replay) -> Result<(), NoMemory>
    ensures { OnOk result (list.new.items ≡ list.old.items ++ replay_wants replay.now.replay) }
{
    push_looks(list, replay.looks())?;
    push_writes(list, replay.waiting())?;
    if replay.is_over() {
        list.push(Next::Done {
            keeps: replay.greatest(),
        })?;
    }
    Ok(())
}

impl Demon {
    /// The recovery of a server's log at its beginning, on a disk of so many segments.
    pub fn new(alloc: Global, dead: ServerId, segments: u32) -> Result<Demon, NoMemory>
        requires { segments ≤ SEGMENTS_MAX }
        ensures recovery { IfOk result (λ d. d.recovery ≡ recovery_of dead.0) }
        ensures segments { IfOk result (λ d. d.segments ≡ segments) }
        ensures issued { IfOk result (λ d. d.issued ≡ []) }
    {
        Ok(Demon {
            dead,
            segments,
            slots: Slots::new(alloc)?,
            replay: None,
            alloc,
        })
    }

    /// All that may be done now: loads, looks, writes and the end, in this order, each ascending. Nothing is listed exactly where an issued write
    /// isn't acknowledged and nothing may be done before it is. It takes time and memory in proportion to the list, and where the demon isn't fresh, to the log too.
    pub fn wants(&self) -> Result<Vec<Next>, NoMemory>
        ensures { IfOk result (λ list. list.items ≡ all_wanted self.now.segments self.now.recovery self.now.issued) }
    {
        let mut list = Vec::new(self.alloc);
        push_loads(&mut list, self.slots.unread())?;
        self.push_behind_loads(&mut list)?;
        Ok(list)
    }

    /// Reads off the slots what they say, once all are read. Nothing that is seen changes but that it is fresh, whatever the answer.
    pub fn refresh(&mut self) -> Result<(), NoMemory>
        ensures same { self.new.recovery ≡ self.old.recovery }
        ensures issued { self.new.issued ≡ self.old.issued }
        ensures segments { self.new.segments ≡ self.old.segments }
        ensures ok { OnOk result (IsTrue self.new.is_fresh) }
    {
        if self.replay.is_none() && self.slots.are_all_read() {
            let replay = Replay::new(self.alloc, self.dead, self.segments, &self.slots)?;
            self.replay = Some(replay);
        }
        Ok(())
    }

    /// Takes the memory of the next change. Nothing that is seen changes but that it is fresh and ready, whatever the answer.
    pub fn ready(&mut self) -> Result<(), NoMemory>
        ensures same { self.new.recovery ≡ self.old.recovery }
        ensures issued { self.new.issued ≡ self.old.issued }
        ensures segments { self.new.segments ≡ self.old.segments }
        ensures fresh { OnOk result (IsTrue self.new.is_fresh) }
        ensures ready { OnOk result (IsTrue self.new.is_ready) }
    {
        self.refresh()?;
        match &mut self.replay {
            Some(replay) => replay.ready(),
            None => self.slots.reserve(),
        }
    }

    /// A slot is read, and has this block.
    pub fn loaded(&mut self, slot: u8, block: &Block)
        requires ready { IsTrue self.old.is_ready }
        requires wanted { IsTrue (member slot (unread_slots self.old.recovery.slots)) }
        ensures recovery { self.new.recovery ≡ slot_loaded slot block.now self.old.recovery }
        ensures issued { self.new.issued ≡ self.old.issued }
        ensures segments { self.new.segments ≡ self.old.segments }
    {
        match &self.replay {
            Some(_) => unreachable!(),
            None => self.slots.put(slot, block),
        }
    }

    /// A sector is looked at, and has this block.
    pub fn looked(&mut self, sector: Sector, block: &Block)
        requires ready { IsTrue self.old.is_ready }
        requires wanted { IsTrue (member sector.0 (looks_wanted self.old.segments self.old.recovery)) }
        ensures recovery { self.new.recovery ≡ record self.old.recovery { looked = with_value self.old.recovery.looked sector.0 (wanted_over self.old.recovery sector.0 block.now) } }
        ensures issued { self.new.issued ≡ self.old.issued }
        ensures segments { self.new.segments ≡ self.old.segments }
    {
        match &mut self.replay {
            Some(replay) => replay.looked(sector, block),
            None => unreachable!(),
        }
    }

    /// A wanted write is issued.
    pub fn issued(&mut self, sector: Sector)
        requires ready { IsTrue self.old.is_ready }
        requires wanted { IsSome (value_at (writes_wanted self.old.segments self.old.recovery self.old.issued) sector.0) }
        ensures recovery { self.new.recovery ≡ self.old.recovery }
        ensures issued { IfSome (value_at (writes_wanted self.old.segments self.old.recovery self.old.issued) sector.0) (λ block. self.new.issued ≡ with_value self.old.issued sector.0 block) }
        ensures segments { self.new.segments ≡ self.old.segments }
    {
        match &mut self.replay {
            Some(replay) => replay.issued(sector),
            None => unreachable!(),
        }
    }

    /// A write that was issued is gone without being acknowledged, as one that came late: it is wanted again.
    pub fn lost(&mut self, sector: Sector)
        requires ready { IsTrue self.old.is_ready }
        requires issued { IsSome (value_at self.old.issued sector.0) }
        ensures recovery { self.new.recovery ≡ self.old.recovery }
        ensures issued { self.new.issued ≡ without self.old.issued sector.0 }
        ensures segments { self.new.segments ≡ self.old.segments }
    {
        match &mut self.replay {
            Some(replay) => replay.lost(sector),
            None => unreachable!(),
        }
    }

    /// A write that was issued is acknowledged.
    pub fn written(&mut self, sector: Sector)
        requires ready { IsTrue self.old.is_ready }
        requires issued { IsSome (value_at self.old.issued sector.0) }
        ensures recovery { self.new.recovery ≡ acknowledged_for sector.0 self.old.recovery }
        ensures issued { self.new.issued ≡ without self.old.issued sector.0 }
        ensures segments { self.new.segments ≡ self.old.segments }
    {
        match &mut self.replay {
            Some(replay) => replay.written(sector),
            None => unreachable!(),
        }
    }

    /// The server whose log it is.
    pub fn dead(&self) -> ServerId
        ensures { result.0 ≡ self.now.recovery.dead }
    {
        self.dead
    }

    /// The first slot to read. `None` exactly where all are read.
    pub fn first_load(&self) -> Option<u8>
        ensures { result ≡ slice_get (unread_slots self.now.recovery.slots) 0 }
    {
        self.slots.first_unread()
    }

    /// Whether the slot is to be read.
    pub fn wants_load(&self, slot: u8) -> bool
        ensures { result ≡ member slot (unread_slots self.now.recovery.slots) }
    {
        self.slots.is_unread(slot)
    }

    /// The first sector to look at. `None` exactly where there is none.
    pub fn first_look(&self) -> Option<Sector>
        requires { IsTrue self.now.is_fresh }
        ensures { option_map (λ sector. sector.0) result ≡ slice_get (looks_wanted self.now.segments self.now.recovery) 0 }
    {
        match &self.replay {
            Some(replay) => replay.first_look(),
            None => None,
        }
    }

    /// Whether the sector is to be looked at.
    pub fn wants_look(&self, sector: Sector) -> bool
        requires { IsTrue self.now.is_fresh }
        ensures { result ≡ member sector.0 (looks_wanted self.now.segments self.now.recovery) }
    {
        match &self.replay {
            Some(replay) => replay.is_to_look(sector),
            None => false,
        }
    }

    /// The first sector to write that isn't below this one. `None` exactly where there is none.
    pub fn first_write(&self, from: Sector) -> Option<Sector>
        requires { IsTrue self.now.is_fresh }
        ensures { option_map (λ sector. sector.0) result ≡ first_sector_from (write_sectors self.now.segments self.now.recovery self.now.issued) from.0 }
    {
        match &self.replay {
            Some(replay) => replay.first_write(from),
            None => None,
        }
    }

    /// The block that is to be written at a sector. `None` exactly where no write of it is wanted, or it is issued.
    pub fn bytes(&self, sector: Sector) -> Option<&Block>
        requires { IsTrue self.now.is_fresh }
        ensures { option_copied result ≡ value_at (writes_wanted self.now.segments self.now.recovery self.now.issued) sector.0 }
    {
        match &self.replay {
            Some(replay) => replay.bytes(sector),
            None => None,
        }
    }

    /// Whether a write of the sector is issued and not acknowledged.
    pub fn has_issued(&self, sector: Sector) -> bool
        ensures { result ≡ is_some (value_at self.now.issued sector.0) }
    {
        match &self.replay {
            Some(replay) => replay.is_issued(sector),
            None => false,
        }
    }

    /// Whether the sector was looked at. The sectors that were ascend, and those to write are below 2^40.
    pub fn has_looked(&self, sector: Sector) -> bool
        requires { IsTrue self.now.is_fresh }
        ensures looked { result ≡ is_some (value_at self.now.recovery.looked sector.0) }
        ensures ordered { Ascend self.now.recovery.looked }
        ensures low { (sector : ℕ) → is_some (value_at (writes_wanted self.now.segments self.now.recovery self.now.issued) sector) ≡ true → sector < 2 ^ 40 }
    {
        match &self.replay {
            Some(replay) => replay.has_looked(sector),
            None => false,
        }
    }

    /// Whether all wanted writes are acknowledged, those of the seal too.
    pub fn is_done(&self) -> bool
        requires { IsTrue self.now.is_fresh }
        ensures { result ≡ is_all_done self.now.segments self.now.recovery }
    {
        match &self.replay {
            Some(replay) => replay.is_over(),
            None => false,
        }
    }

    /// The greatest operation of the log, 0 where it holds none.
    pub fn greatest(&self) -> OpNo
        requires fresh { IsTrue self.now.is_fresh }
        requires read { are_all_read self.now.recovery.slots ≡ true }
        ensures { result.0 ≡ greatest_kept self.now.recovery }
    {
        match &self.replay {
            Some(replay) => replay.greatest(),
            None => unreachable!(),
        }
    }

    // Adds what is wanted done once all slots are read.
    fn push_behind_loads(&self, list: &mut Vec<Next>) -> Result<(), NoMemory>
        ensures { OnOk result (list.new.items ≡ list.old.items ++ behind_loads self.now.segments self.now.recovery self.now.issued) }
    {
        match &self.replay {
            Some(replay) => push_replay(list, replay),
            None => self.push_unread_replay(list),
        }
    }

    // Adds what a replay wants done at its beginning, where all slots are read.
    fn push_unread_replay(&self, list: &mut Vec<Next>) -> Result<(), NoMemory>
        requires looked { self.now.recovery.looked ≡ [] }
        requires written { self.now.recovery.written ≡ [] }
        requires issued { self.now.issued ≡ [] }
        ensures { OnOk result (list.new.items ≡ list.old.items ++ behind_loads self.now.segments self.now.recovery self.now.issued) }
    {
        if self.slots.are_all_read() {
            let replay = Replay::new(self.alloc, self.dead, self.segments, &self.slots)?;
            push_replay(list, &replay)?;
        }
        Ok(())
    }
}
