// Recoveries: Recover, Load, Look, Finish.
ghost use Rattle.std.specs.Prelude.{◌≡◌, ◌&&◌, ◌||◌, ◌==◌, [], IfOk, IsTrue, OnOk};
ghost use Rattle.std.specs.List.{list_any};
ghost use Rattle.core_definitions.specs.Cores.{parties};
ghost use Rattle.core_definitions.specs.EndEffects.{finished, loaded, looked, recovering};
ghost use Rattle.core_definitions.specs.EndGuards.{is_hold_over, is_recovering, is_recovery, is_through, is_to_recover, may_finish, may_recover, may_take, none_up, wants_look, wants_slot};
ghost use Rattle.core_definitions.specs.LineGuards.{is_server};
ghost use Rattle.core_definitions.specs.Recoveries.{recovery_of};
ghost use Rattle.core_definitions.specs.Scripts.{host_party};
ghost use Rattle.core_definitions.specs.WriteGuards.{is_worker};
ghost use Rattle.tree_definitions.specs.Numbers.{below};
ghost use Rattle.world_parties.specs.States.{IsFresh, IsReady, RestStays};
ghost use Rattle.world_state.specs.States.{IsRecoveredBy, core_at};

use crate::world::World;
use frang_base::{Block, NoMemory, Sector, ServerId};
use lock_definitions::LogHold;
use recovery_demon::Demon;
use world_parties::is_server;

// Whether nobody has taken a log, or the taker's lease has ended.
fn is_hold_over(now: u64, hold: Option<LogHold>) -> bool
    ensures { result ≡ is_hold_over now hold }
{
    match hold {
        Some(hold) => hold.expiry < now,
        None => true,
    }
}

// ---- who is to be recovered, and by whom

impl World {
    // Whether a server's log waits for a recovery: it is dead, its lease has ended, and nobody whose lease lasts has taken its log.
    fn is_to_recover(&self, dead: ServerId) -> bool
        ensures { result ≡ is_to_recover (core_at self.now) dead.0 }
    {
        if !is_server(dead) {
            return false;
        }
        let server = &self.parties.get(dead).server;
        server.is_dead()
            && server.expiry() < self.tick
            && is_hold_over(self.tick, self.locks.table().log_hold(dead))
    }

    // Whether the log of a server below this one waits.
    fn is_one_below(&self, dead: ServerId) -> bool
        ensures { result ≡ list_any (is_to_recover (core_at self.now)) (below dead.0) }
    {
        for a in 0..dead.0 {
            if self.is_to_recover(ServerId(a)) {
                return true;
            }
        }
        false
    }

    // Whether a recovery is under way, by a server that is up or by the host.
    fn is_one_recovering(&self) -> bool
        ensures { result ≡ list_any (is_recovering (core_at self.now)) parties }
    {
        self.parties.is_any_recovering() || self.parties.is_host_recovering()
    }

    // Whether no server is up.
    fn is_none_up(&self) -> bool
        ensures { result ≡ none_up (core_at self.now) }
    {
        !self.parties.is_any_up()
    }

    // Whether a party may take a log: it is a server that is up, or the host where no server is.
    fn may_take(&self, by: ServerId) -> bool
        ensures { result ≡ may_take (core_at self.now) by.0 }
    {
        self.parties.is_up(by) || (by == ServerId::HOST && self.is_none_up())
    }

    /// Whether a party may begin to recover a dead server's log.
    pub fn may_recover(&self, dead: ServerId, by: ServerId) -> bool
        ensures { result ≡ may_recover (core_at self.now) dead.0 by.0 }
    {
        self.is_to_recover(dead)
            && !self.is_one_below(dead)
            && !self.is_one_recovering()
            && self.may_take(by)
    }
}

// ---- its beginning and its end

impl World {
    /// The recovery of a dead server's log as it begins. Its one refusal is want of memory.
    pub fn ready_recover(&self, dead: ServerId) -> Result<Demon, NoMemory>
        ensures recovery { IfOk result (λ demon. demon.recovery ≡ recovery_of dead.0) }
        ensures disk { IfOk result (λ demon. demon.segments ≡ self.now.parties.segments) }
        ensures issued { IfOk result (λ demon. demon.issued ≡ []) }
    {
        Demon::new(self.alloc, dead, self.parties.segments())
    }

    /// Recover: the log is taken, and this recovery, as it was made ready, begins.
    pub fn recover(&mut self, dead: ServerId, by: ServerId, demon: Demon)
        requires may { IsTrue (may_recover (core_at self.old) dead.0 by.0) }
        requires demon { demon.recovery ≡ recovery_of dead.0 }
        requires disk { demon.segments ≡ self.old.parties.segments }
        requires issued { demon.issued ≡ [] }
        ensures { core_at self.new ≡ recovering (core_at self.old) dead.0 by.0 }
    {
        let until = self.expiry(by);
        let _ = self.locks.take_log(dead, by, self.tick, until);
        self.parties.set_recovery(by, Some(demon));
    }

    // The server whose log a party recovers.
    fn recovered_by(&self, by: ServerId) -> ServerId
        requires { IsTrue (may_finish (core_at self.now) by.0) }
        ensures { IsRecoveredBy self.now by.0 result.0 }
    {
        match self.parties.recovery(by) {
            Some(demon) => demon.dead(),
            None => unreachable!(),
        }
    }

    /// Finish: the recovery is over, and the server whose log it was is off, its ring gone, its locks given back.
    pub fn finish(&mut self, by: ServerId)
        requires { IsTrue (may_finish (core_at self.old) by.0) }
        ensures { core_at self.new ≡ finished (core_at self.old) by.0 }
    {
        let dead = self.recovered_by(by);
        self.parties.set_recovery(by, None);
        self.parties.recovered(dead);
        self.locks.clear(dead);
    }
}

// ---- what it wants

impl World {
    // Whether the recovery of a party that works wants this slot read.
    fn is_slot_wanted(&self, by: ServerId, slot: u8) -> bool
        requires { IsTrue (is_worker (core_at self.now) by.0) }
        ensures { result ≡ is_recovery (wants_slot (core_at self.now) slot) ((core_at self.now).servers by.0).recovery }
    {
        match self.parties.recovery(by) {
            Some(demon) => demon.wants_load(slot),
            None => false,
        }
    }

    /// Whether a recovery's party works, and its recovery wants this slot read.
    pub fn may_load(&self, by: ServerId, slot: u8) -> bool
        ensures { result ≡ (is_worker (core_at self.now) by.0 && is_recovery (wants_slot (core_at self.now) slot) ((core_at self.now).servers by.0).recovery) }
    {
        self.is_worker(by) && self.is_slot_wanted(by, slot)
    }

    // Whether the recovery of a party that works wants this sector looked at.
    fn is_look_wanted(&self, by: ServerId, sector: Sector) -> bool
        requires worker { IsTrue (is_worker (core_at self.now) by.0) }
        requires fresh { IsFresh self.now.parties by.0 }
        ensures { result ≡ is_recovery (wants_look (core_at self.now) sector.0) ((core_at self.now).servers by.0).recovery }
    {
        match self.parties.recovery(by) {
            Some(demon) => demon.wants_look(sector),
            None => false,
        }
    }

    /// Whether a recovery's party works, and its recovery wants this sector looked at.
    pub fn may_look(&self, by: ServerId, sector: Sector) -> bool
        requires { IsFresh self.now.parties by.0 }
        ensures { result ≡ (is_worker (core_at self.now) by.0 && is_recovery (wants_look (core_at self.now) sector.0) ((core_at self.now).servers by.0).recovery) }
    {
        self.is_worker(by) && self.is_look_wanted(by, sector)
    }

    // Whether the recovery of a party that works is through.
    fn is_through(&self, by: ServerId) -> bool
        requires worker { IsTrue (is_worker (core_at self.now) by.0) }
        requires fresh { IsFresh self.now.parties by.0 }
        ensures { result ≡ is_recovery (is_through (core_at self.now)) ((core_at self.now).servers by.0).recovery }
    {
        match self.parties.recovery(by) {
            Some(demon) => demon.is_done(),
            None => false,
        }
    }

    /// Whether a recovery's party works, and its recovery is through: all its wanted writes are acknowledged, the seal too.
    pub fn may_finish(&self, by: ServerId) -> bool
        requires { IsFresh self.now.parties by.0 }
        ensures { result ≡ may_finish (core_at self.now) by.0 }
    {
        self.is_worker(by) && self.is_through(by)
    }
}

// ---- what it is made ready for, and what it does

impl World {
    /// What the slots of a party's recovery say is read off them, if it carries out one. The core is the same, whatever the answer.
    pub fn refresh_recovery(&mut self, by: ServerId) -> Result<(), NoMemory>
        requires { IsTrue (is_server by.0 || by.0 == host_party) }
        ensures core { core_at self.new ≡ core_at self.old }
        ensures rest { RestStays self.old.parties self.new.parties by.0 }
        ensures ok { OnOk result (IsFresh self.new.parties by.0) }
    {
        self.parties.refresh(by)
    }

    /// The same, and there is room for the next change of the recovery.
    pub fn ready_recovery(&mut self, by: ServerId) -> Result<(), NoMemory>
        requires { IsTrue (is_worker (core_at self.old) by.0) }
        ensures core { core_at self.new ≡ core_at self.old }
        ensures rest { RestStays self.old.parties self.new.parties by.0 }
        ensures fresh { OnOk result (IsFresh self.new.parties by.0) }
        ensures ready { OnOk result (IsReady self.new.parties by.0) }
    {
        self.parties.ready(by)
    }

    /// Load: a slot of the dead server's log was read, and has this block.
    pub fn load(&mut self, by: ServerId, slot: u8, block: &Block)
        requires ready { IsReady self.old.parties by.0 }
        requires worker { IsTrue (is_worker (core_at self.old) by.0) }
        requires wanted { IsTrue (is_recovery (wants_slot (core_at self.old) slot) ((core_at self.old).servers by.0).recovery) }
        ensures { core_at self.new ≡ loaded (core_at self.old) by.0 slot block.now }
    {
        self.parties.load(by, slot, block);
    }

    /// Look: a sector that the log's records name was read, and has this block.
    pub fn look(&mut self, by: ServerId, sector: Sector, block: &Block)
        requires ready { IsReady self.old.parties by.0 }
        requires worker { IsTrue (is_worker (core_at self.old) by.0) }
        requires wanted { IsTrue (is_recovery (wants_look (core_at self.old) sector.0) ((core_at self.old).servers by.0).recovery) }
        ensures { core_at self.new ≡ looked (core_at self.old) by.0 sector.0 block.now }
    {
        self.parties.look(by, sector, block);
    }
}
