// What becomes of the recovery that a party carries out.
ghost use Rattle.std.specs.Prelude.{◌≡◌, [], ◌||◌, ◌==◌, IfSome, IsSome, IsSomeAnd, IsTrue, None, OnOk, Some};
ghost use Rattle.std.specs.Option.{option_map};
ghost use Rattle.frang_base.specs.Functions.{member};
ghost use Rattle.core_definitions.specs.EndEffects.{slot_loaded};
ghost use Rattle.core_definitions.specs.LineGuards.{is_server};
ghost use Rattle.core_definitions.specs.Recoveries.{Recovery};
ghost use Rattle.core_definitions.specs.Scripts.{host_party};
ghost use Rattle.core_definitions.specs.WriteEffects.{acknowledged_for};
ghost use Rattle.sector_bytes.specs.SectorMaps.{value_at, with_value, without};
ghost use Rattle.recovery_demon.specs.Recovering.{looks_wanted, wanted_over, writes_wanted};
ghost use Rattle.log_slots.specs.Reading.{unread_slots};
ghost use Rattle.world_parties.specs.States.{Becomes, IsFresh, IsReady, IsRecovery, IsSame, Keeps, KeepsBut, RestStays, issued_at, recovering_by, recovery_in, servers_at};

use crate::parties::Parties;
use crate::party::set;
use frang_base::{Block, NoMemory, Sector, ServerId};
use recovery_demon::Demon;

// ---- out of its place, and back

impl Parties {
    // The recovery of a server or of the host, which carries out none from then on.
    fn take_recovery(&mut self, by: ServerId) -> Option<Demon>
        requires { IsTrue (is_server by.0 || by.0 == host_party) }
        ensures is { result ≡ recovering_by self.old by.0 }
        ensures core { recovery_in result ≡ (servers_at self.old by.0).recovery }
        ensures fits { IsRecovery self.old.segments by.0 result }
        ensures gone { Becomes self.old self.new by.0 (record (servers_at self.old by.0) { recovery = None }) }
        ensures rest { RestStays self.old self.new by.0 }
        ensures none { recovering_by self.new by.0 ≡ None }
    {
        if by == ServerId::HOST {
            self.host.take()
        } else {
            self.list[usize::from(by.0)].take_recovery()
        }
    }

    /// A server or the host carries out this recovery from now on, which is of this disk and of another server's log, or none.
    pub fn set_recovery(&mut self, by: ServerId, recovery: Option<Demon>)
        requires party { IsTrue (is_server by.0 || by.0 == host_party) }
        requires fits { IsRecovery self.old.segments by.0 recovery }
        ensures becomes { Becomes self.old self.new by.0 (record (servers_at self.old by.0) { recovery = recovery_in recovery }) }
        ensures is { recovering_by self.new by.0 ≡ recovery }
        ensures rest { RestStays self.old self.new by.0 }
        ensures keeps { IfSome recovery (λ r. r.issued ≡ []) → Keeps self.old self.new }
    {
        if by == ServerId::HOST {
            set(&mut self.host, recovery);
        } else {
            self.list[usize::from(by.0)].set_recovery(recovery);
        }
    }
}

// ---- what it has read

impl Parties {
    /// A slot of the dead server's log was read by the recovery of a party, if there is one, and has this block.
    pub fn load(&mut self, by: ServerId, slot: u8, block: &Block)
        requires party { IsTrue (is_server by.0 || by.0 == host_party) }
        requires ready { IsReady self.old by.0 }
        requires wanted { IfSome (servers_at self.old by.0).recovery (λ r. IsTrue (member slot (unread_slots r.slots))) }
        ensures becomes { Becomes self.old self.new by.0 (record (servers_at self.old by.0) { recovery = option_map (slot_loaded slot block.now) (servers_at self.old by.0).recovery }) }
        ensures keeps { Keeps self.old self.new }
    {
        if let Some(mut demon) = self.take_recovery(by) {
            demon.loaded(slot, block);
            self.set_recovery(by, Some(demon));
        }
    }

    /// A sector that the log's records name was looked at by the recovery of a party, if there is one, and has this block.
    pub fn look(&mut self, by: ServerId, sector: Sector, block: &Block)
        requires party { IsTrue (is_server by.0 || by.0 == host_party) }
        requires ready { IsReady self.old by.0 }
        requires wanted { IfSome (servers_at self.old by.0).recovery (λ r. IsTrue (member sector.0 (looks_wanted self.old.segments r))) }
        ensures becomes { Becomes self.old self.new by.0 (record (servers_at self.old by.0) { recovery = option_map (λ (r : Recovery). record r { looked = with_value r.looked sector.0 (wanted_over r sector.0 block.now) }) (servers_at self.old by.0).recovery }) }
        ensures keeps { Keeps self.old self.new }
    {
        if let Some(mut demon) = self.take_recovery(by) {
            demon.looked(sector, block);
            self.set_recovery(by, Some(demon));
        }
    }
}

// ---- what it is made ready for

impl Parties {
    /// What the slots of a party's recovery say is read off them, if there is one. It changes nothing else, whatever the answer.
    pub fn refresh(&mut self, by: ServerId) -> Result<(), NoMemory>
        requires { IsTrue (is_server by.0 || by.0 == host_party) }
        ensures same { IsSame self.old self.new }
        ensures keeps { Keeps self.old self.new }
        ensures rest { RestStays self.old self.new by.0 }
        ensures ok { OnOk result (IsFresh self.new by.0) }
    {
        match self.take_recovery(by) {
            Some(mut demon) => {
                let made = demon.refresh();
                self.set_recovery(by, Some(demon));
                made
            }
            None => Ok(()),
        }
    }

    /// The same, and there is room for the next change of the recovery.
    pub fn ready(&mut self, by: ServerId) -> Result<(), NoMemory>
        requires { IsTrue (is_server by.0 || by.0 == host_party) }
        ensures same { IsSame self.old self.new }
        ensures keeps { Keeps self.old self.new }
        ensures rest { RestStays self.old self.new by.0 }
        ensures fresh { OnOk result (IsFresh self.new by.0) }
        ensures ready { OnOk result (IsReady self.new by.0) }
    {
        match self.take_recovery(by) {
            Some(mut demon) => {
                let made = demon.ready();
                self.set_recovery(by, Some(demon));
                made
            }
            None => Ok(()),
        }
    }
}

// ---- its writes

// A write of the recovery is gone, where one of this sector was issued.
fn lose_issued(demon: &mut Demon, sector: Sector)
    requires { IsTrue demon.old.is_ready }
    ensures recovery { demon.new.recovery ≡ demon.old.recovery }
    ensures segments { demon.new.segments ≡ demon.old.segments }
    ensures issued { demon.new.issued ≡ without demon.old.issued sector.0 }
{
    if demon.has_issued(sector) {
        demon.lost(sector);
    }
}

impl Parties {
    /// A write of the recovery of a party is issued. Nothing else changes.
    pub fn rescue_issued(&mut self, by: ServerId, sector: Sector)
        requires party { IsTrue (is_server by.0 || by.0 == host_party) }
        requires ready { IsReady self.old by.0 }
        requires wanted { IsSomeAnd (recovering_by self.old by.0) (λ r. IsSome (value_at (writes_wanted r.segments r.recovery r.issued) sector.0)) }
        ensures same { IsSame self.old self.new }
        ensures keeps { KeepsBut self.old self.new by.0 sector.0 }
    {
        match self.take_recovery(by) {
            Some(mut demon) => {
                demon.issued(sector);
                self.set_recovery(by, Some(demon));
            }
            None => {}
        }
    }

    /// A write of the recovery of a party is gone without being acknowledged, where one of this sector was issued: it is wanted again. Nothing else changes.
    pub fn rescue_lost(&mut self, by: ServerId, sector: Sector)
        requires party { IsTrue (is_server by.0 || by.0 == host_party) }
        requires ready { IsReady self.old by.0 }
        ensures same { IsSame self.old self.new }
        ensures keeps { Keeps self.old self.new }
        ensures gone { value_at (issued_at self.new by.0) sector.0 ≡ None }
    {
        match self.take_recovery(by) {
            Some(mut demon) => {
                lose_issued(&mut demon, sector);
                self.set_recovery(by, Some(demon));
            }
            None => {}
        }
    }

    /// A write of the recovery of a party, if there is one, that was issued is acknowledged.
    pub fn rescue_written(&mut self, by: ServerId, sector: Sector)
        requires party { IsTrue (is_server by.0 || by.0 == host_party) }
        requires ready { IsReady self.old by.0 }
        requires issued { IfSome (recovering_by self.old by.0) (λ r. IsSome (value_at r.issued sector.0)) }
        ensures becomes { Becomes self.old self.new by.0 (record (servers_at self.old by.0) { recovery = option_map (acknowledged_for sector.0) (servers_at self.old by.0).recovery }) }
        ensures keeps { Keeps self.old self.new }
        ensures gone { value_at (issued_at self.new by.0) sector.0 ≡ None }
    {
        match self.take_recovery(by) {
            Some(mut demon) => {
                demon.written(sector);
                self.set_recovery(by, Some(demon));
            }
            None => {}
        }
    }
}
