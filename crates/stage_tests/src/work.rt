// A mounted server with its line, the locks and a small disk.
use crate::logs::ring_of;
use crate::words::DISK_SEGMENTS;
use frang_base::{Line, LockId, Mode, NoMemory, Op, Sector, ServerId, What};
use kept_plans::KeptPlan;
use line_stages::{oldest_sectors, wants_plan};
use lock_table::LockTable;
use meta_version::Sectors;
use plan_disks::{bytes_op, look_op, names_op, sectors_of};
use plan_keeping::{LineToPlan, plan_to_keep};
use server_core::{Server, Under};
use std::alloc::Global;
use test_tables::split;

/// The number of the server.
pub(crate) const NUMBER: ServerId = ServerId(3);

/// The number of another one.
pub(crate) const OTHER: ServerId = ServerId(4);

// Line 7 of run 3, and tick 9 of it.
const BIRTH: u64 = 3 * 4_294_967_296 + 7;

const WHEN: u64 = 3 * 4_294_967_296 + 9;

/// A server that is mounted at tick 10; the locks; a disk of two segments; and what is kept of its line and its log.
#[derive(Drop)]
pub(crate) struct Work {
    pub server: Server,
    pub table: LockTable,
    pub disk: Sectors,
    pub plan: Option<KeptPlan>,
    pub oldest: Vec<Sector>,
    pub alloc: Global,
}

// A line of the server that asks this.
fn line_asking(what: Op) -> Line {
    Line {
        number: 7,
        who: NUMBER,
        what: What::Server(what),
    }
}

// A server that is mounted at tick 10, whose log has records of these sectors, each so many times.
fn mounted(alloc: Global, records: &[(u64, u32)]) -> Result<Server, NoMemory> {
    let ring = ring_of(alloc, records)?;
    let mut server = Server::new(alloc, NUMBER);
    server.mount(ring, 10);
    Ok(server)
}

// What a line asks.
fn op_of(alloc: Global, line: &str) -> Result<Op, NoMemory> {
    let (verb, _) = split(line, " ");
    match verb {
        "sync" => Ok(Op::Sync),
        "write" => bytes_op(alloc, line),
        "stat" => look_op(alloc, line),
        _ => names_op(alloc, line),
    }
}

impl Work {
    /// A disk of these sectors, and a server whose log has records of these sectors, each so many times.
    pub(crate) fn new(alloc: Global, disk: &str, records: &[(u64, u32)]) -> Result<Work, NoMemory> {
        let disk = sectors_of(alloc, disk)?;
        let server = mounted(alloc, records)?;
        Ok(Work {
            server,
            table: LockTable::new(alloc),
            disk,
            plan: None,
            oldest: Vec::new(alloc),
            alloc,
        })
    }

    /// A line begins.
    pub(crate) fn begin(&mut self, line: &str) -> Result<(), NoMemory> {
        let operation = op_of(self.alloc, line)?;
        self.begin_asking(line, &operation)
    }

    // A line begins that asks this operation.
    fn begin_asking(&mut self, line: &str, operation: &Op) -> Result<(), NoMemory> {
        let fixed = self.server.answer_at_first(operation);
        let line = line_asking(op_of(self.alloc, line)?);
        let under = Under::of(self.alloc, line, operation, fixed)?;
        self.server.begin(under);
        Ok(())
    }

    /// The plan of its line over what it has cached.
    pub(crate) fn planned(&self) -> Result<KeptPlan, NoMemory> {
        let Some(under) = self.server.under() else {
            return Err(NoMemory);
        };
        let Some(operation) = under.operation() else {
            return Err(NoMemory);
        };
        let line = LineToPlan {
            operation,
            number: BIRTH,
            when: WHEN,
            segments: DISK_SEGMENTS,
        };
        plan_to_keep(self.alloc, self.server.cache(), under, &line)
    }

    /// What is kept of its line and its log is made, where it isn't there: a plan only where one is wanted.
    pub(crate) fn refresh(&mut self) -> Result<(), NoMemory> {
        self.refresh_plan()?;
        self.refresh_oldest()
    }

    fn refresh_plan(&mut self) -> Result<(), NoMemory> {
        if self.plan.is_none() && wants_plan(&self.table, &self.server) {
            self.plan = Some(self.planned()?);
        }
        Ok(())
    }

    fn refresh_oldest(&mut self) -> Result<(), NoMemory> {
        self.oldest = oldest_sectors(self.alloc, &self.server)?;
        Ok(())
    }

    /// Its plan is forgotten.
    pub(crate) fn forget(&mut self) {
        self.plan = None;
    }

    /// A server, 0 to 15, wants a lock.
    pub(crate) fn want(&mut self, who: ServerId, lock: LockId, mode: Mode) -> Result<(), NoMemory> {
        if who.0 >= 16 {
            return Err(NoMemory);
        }
        let _ = self.table.want(who, lock, mode)?;
        Ok(())
    }

    /// A server gives up a lock, where it holds it.
    pub(crate) fn release(&mut self, who: ServerId, lock: LockId) -> bool {
        if self.table.held(who, lock).is_none() {
            return false;
        }
        self.table.release(who, lock);
        true
    }

    /// A sector of the disk is cached under a lock.
    pub(crate) fn fetch(&mut self, sector: Sector, cover: LockId) -> Result<bool, NoMemory> {
        let Some(block) = self.disk.get(sector) else {
            return Ok(false);
        };
        let block = *block;
        if self.server.is_dirty(sector) {
            return Ok(false);
        }
        self.server.reserve_sectors(1)?;
        self.server.fetched(sector, block, cover);
        Ok(true)
    }
}
