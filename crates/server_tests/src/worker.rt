// A mounted server with its locks and its writes in flight.
use crate::asked::{Asked, line_of, op_of};
use frang_base::{
    Block, Change, Changes, LockId, Mode, NoMemory, OpNo, Patch, Patches, Redo, Reply, Sector,
    ServerId, Text,
};
use frang_outside::Put;
use lock_table::LockTable;
use meta_version::SectorList;
use petal_disk::{Flight, Purpose};
use server_core::{BytesSet, Outcome, Server, Under};
use server_issues::{Issuer, WantedWrite};
use std::alloc::Global;
use wal_ring::Ring;

/// Its number.
pub(crate) const NUMBER: ServerId = ServerId(3);

/// A server that is mounted at tick 10, its log behind 255; the locks, and the writes in flight.
#[derive(Drop)]
pub(crate) struct Worker {
    pub server: Server,
    pub table: LockTable,
    pub flights: Flight,
    pub now: u64,
    alloc: Global,
}

/// A block of this version whose first byte after the version is as given.
pub(crate) fn small_block(version: u8, byte: u8) -> Block {
    let mut block = [0; 512];
    block[0] = version;
    block[8] = byte;
    block
}

// A change of a sector to this version, by a byte.
fn change_of(alloc: Global, sector: u64, version: u64) -> Result<Change, NoMemory> {
    let mut patches = Patches::new(alloc);
    let bytes = Text::of(alloc, &[7])?;
    patches.push(Patch { at: 8, bytes })?;
    Ok(Change {
        sector: Sector(sector),
        version,
        patches,
    })
}

/// What a line that changes these sectors, each to version 2, and sets bytes of these comes to: `bytes` come under the lock, and so do `moves`.
pub(crate) fn outcome_of(
    alloc: Global,
    changes: &[u64],
    bytes: &[u64],
    freed: &[u64],
    moves: &[u64],
    cover: LockId,
) -> Result<Outcome, NoMemory> {
    let mut list = Vec::new(alloc);
    for sector in changes {
        list.push(change_of(alloc, *sector, 2)?)?;
    }
    let redo = if changes.is_empty() {
        None
    } else {
        Some(Redo {
            op: OpNo(1),
            changes: Changes::from_vec(list),
        })
    };
    let mut sets = Vec::new(alloc);
    for sector in bytes {
        sets.push(BytesSet {
            sector: Sector(*sector),
            block: small_block(0, 9),
            cover,
        })?;
    }
    let mut gone = Vec::new(alloc);
    for sector in freed {
        gone.push(Sector(*sector))?;
    }
    let mut moved = Vec::new(alloc);
    for sector in moves {
        moved.push((Sector(*sector), cover))?;
    }
    Ok(Outcome {
        reply: Reply::Ok,
        redo,
        bytes: sets,
        freed: SectorList::from_vec(gone),
        moves: moved,
    })
}

impl Worker {
    pub(crate) fn new(alloc: Global) -> Result<Worker, NoMemory> {
        let ring = Ring::at(alloc, 255)?;
        let mut server = Server::new(alloc, NUMBER);
        server.mount(ring, 10);
        Ok(Worker {
            server,
            table: LockTable::new(alloc),
            flights: Flight::new(alloc),
            now: 10,
            alloc,
        })
    }

    /// A sector is read, in version 1 with this byte, and cached under a lock.
    pub(crate) fn fetch(&mut self, sector: u64, byte: u8, cover: LockId) -> Result<bool, NoMemory> {
        let sector = Sector(sector);
        if self.server.is_dirty(sector) {
            return Ok(false);
        }
        self.server.reserve_sectors(1)?;
        self.server.fetched(sector, small_block(1, byte), cover);
        Ok(true)
    }

    /// An outcome is committed.
    pub(crate) fn commit(&mut self, outcome: Outcome) -> Result<bool, NoMemory> {
        if !self.server.is_in_mount() {
            return Ok(false);
        }
        self.server.reserve_commit(&outcome)?;
        let reply = self.server.commit(outcome);
        Ok(matches!(&reply, Reply::Ok))
    }

    /// A block is cleared.
    pub(crate) fn clear(&mut self, block: u32) -> Result<bool, NoMemory> {
        self.server.reserve_block()?;
        self.server.clear(block);
        Ok(true)
    }

    /// A line begins.
    pub(crate) fn begin(&mut self, asked: Asked) -> Result<bool, NoMemory> {
        let operation = op_of(self.alloc, asked);
        let fixed = self.server.answer_at_first(&operation);
        let under = Under::of(self.alloc, line_of(self.alloc, 8, asked), &operation, fixed)?;
        self.server.begin(under);
        Ok(true)
    }

    /// A server, 0 to 15, wants a lock.
    pub(crate) fn want(&mut self, who: u8, lock: LockId, mode: Mode) -> Result<bool, NoMemory> {
        if who >= 16 {
            return Ok(false);
        }
        let _ = self.table.want(ServerId(who), lock, mode)?;
        Ok(true)
    }

    /// The writes that it may issue.
    pub(crate) fn issuer(&self) -> Option<Issuer<'_>> {
        if self.server.id().0 >= 16 {
            return None;
        }
        Some(Issuer::new(
            &self.server,
            None,
            &self.table,
            &self.flights,
            self.now,
            false,
            &[],
        ))
    }

    fn write(&self, sector: Sector) -> Option<WantedWrite> {
        self.issuer()?.write(sector)
    }

    // A write is issued of it: of its log the next sector.
    fn issued(&mut self, purpose: Purpose) -> bool {
        let Purpose::OfLog(number) = purpose else {
            self.server.issued(purpose);
            return true;
        };
        match self.server.next_log_sector() {
            Some((next, _)) if next == number => {
                self.server.issued(purpose);
                true
            }
            _ => false,
        }
    }

    /// The write of a sector is issued, where it may be.
    pub(crate) fn issue(&mut self, sector: u64) -> Result<bool, NoMemory> {
        let sector = Sector(sector);
        let Some(write) = self.write(sector) else {
            return Ok(false);
        };
        self.flights.reserve()?;
        if !self.issued(write.purpose) {
            return Ok(false);
        }
        let bytes = write.block;
        let put = Put {
            server: NUMBER,
            behalf: write.behalf,
            stamp: 25,
            now: self.now,
            sector,
            bytes,
        };
        self.server.set_flies(sector, true);
        Ok(self.flights.issue_as(put, write.purpose).is_ok())
    }

    /// The write of a sector arrives, and is taken.
    pub(crate) fn arrive(&mut self, sector: u64) -> bool {
        let sector = Sector(sector);
        let Some(ticket) = self.flights.busy(sector) else {
            return false;
        };
        let (block, purpose) = match self.flights.flying(ticket) {
            Some(flying) => (flying.put.bytes, flying.purpose),
            None => return false,
        };
        if self.flights.get(ticket).is_none() {
            return false;
        }
        self.flights.lose(ticket);
        self.server.set_flies(sector, false);
        self.server.acknowledged(sector, &block, purpose);
        true
    }
}
