// A lock table whose claims are gone through from their start, and 10,000 drawn calls of it beside the same of the table in order.
ghost use Rattle.std.specs.Prelude.{◌≤◌, vec_len};

use crate::draws::{Draws, expect_alike};
use frang_base::{LockId, Mode, NoMemory, ServerId};
use lock_table::{AskedFor, LockTable, LogTaken, Wanted};
use std::alloc::Global;
use std::process::Abort;
use std::test::Fail;

// So many servers call, and so many locks are called for.
const CALLERS: u8 = 6;

const LOCKS: u32 = 8;

// The plain table never wants memory for its claims: what is refused is refused by the other, which is then as it was.
const ROOM: usize = 64;

#[derive(Clone, Copy)]
struct Entry {
    server: u8,
    lock: LockId,
    held: Option<Mode>,
    wishes_shared: bool,
    wishes_sole: bool,
}

#[derive(Clone, Copy)]
struct Log {
    dead: u8,
    by: u8,
    expiry: u64,
}

// The claims in order of their locks, and the logs that are taken.
#[derive(Drop)]
struct PlainTable {
    entries: Vec<Entry>,
    logs: Vec<Log>,
    alloc: Global,
}

// What is wanted conflicts with what another holds.
fn is_in_the_way(held: Option<Mode>, mode: Mode) -> bool {
    match held {
        Some(Mode::Sole) => true,
        Some(Mode::Shared) => mode == Mode::Sole,
        None => false,
    }
}

fn is_wish(entry: &Entry, mode: Mode) -> bool {
    match mode {
        Mode::Shared => entry.wishes_shared,
        Mode::Sole => entry.wishes_sole,
    }
}

// The entry once the mode is granted.
fn granted(entry: Entry, mode: Mode) -> Entry {
    if mode == Mode::Sole || entry.held == Some(Mode::Sole) {
        Entry {
            held: Some(Mode::Sole),
            wishes_shared: false,
            wishes_sole: false,
            ..entry
        }
    } else {
        Entry {
            held: Some(Mode::Shared),
            wishes_shared: false,
            ..entry
        }
    }
}

fn wishing(entry: Entry, mode: Mode) -> Entry {
    match mode {
        Mode::Shared => Entry {
            wishes_shared: true,
            ..entry
        },
        Mode::Sole => Entry {
            wishes_sole: true,
            ..entry
        },
    }
}

impl PlainTable {
    fn entry(&self, server: u8, lock: LockId) -> Entry {
        for entry in &self.entries {
            if entry.server == server && entry.lock == lock {
                return *entry;
            }
        }
        Entry {
            server,
            lock,
            held: None,
            wishes_shared: false,
            wishes_sole: false,
        }
    }

    // Where an entry of this lock goes.
    fn place(&self, lock: LockId) -> usize
        ensures { result ≤ vec_len self.now.entries }
    {
        match self.entries.iter().position(|entry| lock < entry.lock) {
            Some(at) => at,
            None => self.entries.len(),
        }
    }

    fn set(&mut self, new: Entry) -> Result<(), NoMemory> {
        self.entries.retain(|entry| entry.server != new.server || entry.lock != new.lock);
        if new.held.is_some() || new.wishes_shared || new.wishes_sole {
            let at = self.place(new.lock);
            self.entries.insert(at, new)?;
        }
        Ok(())
    }

    fn holders(&self, server: u8, lock: LockId, mode: Mode) -> u32 {
        let mut holders = 0u32;
        for entry in &self.entries {
            if entry.lock == lock && entry.server != server && is_in_the_way(entry.held, mode) {
                holders |= 1u32.wrapping_shl(u32::from(entry.server));
            }
        }
        holders
    }

    fn want(&mut self, server: u8, lock: LockId, mode: Mode) -> Result<Wanted, NoMemory> {
        let holders = self.holders(server, lock, mode);
        let entry = self.entry(server, lock);
        if holders == 0 {
            self.set(granted(entry, mode))?;
            Ok(Wanted::Granted)
        } else {
            self.set(wishing(entry, mode))?;
            Ok(Wanted::Wait { holders })
        }
    }

    fn hold(&mut self, server: u8, lock: LockId, held: Option<Mode>) -> Result<(), NoMemory> {
        let entry = self.entry(server, lock);
        self.set(Entry { held, ..entry })
    }

    fn is_wished(&self, server: u8, lock: LockId, mode: Mode) -> bool {
        let mut wished = false;
        for entry in &self.entries {
            wished |= entry.lock == lock && entry.server != server && is_wish(entry, mode);
        }
        wished
    }

    fn asked_for(&self, server: u8, lock: LockId, held: Option<Mode>) -> Option<AskedFor> {
        let held = held?;
        if held == Mode::Sole && self.is_wished(server, lock, Mode::Shared) {
            return Some(AskedFor::Downgrade);
        }
        if self.is_wished(server, lock, Mode::Sole) {
            return Some(AskedFor::Release);
        }
        None
    }

    fn revokes(&self, server: u8) -> Result<Vec<(LockId, AskedFor)>, NoMemory> {
        let mut all = Vec::new(self.alloc);
        for entry in &self.entries {
            if entry.server == server
                && let Some(asked) = self.asked_for(server, entry.lock, entry.held)
            {
                all.push((entry.lock, asked))?;
            }
        }
        Ok(all)
    }

    fn take_log(&mut self, new: Log, now: u64) -> Result<Result<(), LogTaken>, NoMemory> {
        for log in &self.logs {
            if log.dead == new.dead && log.by != new.by && now <= log.expiry {
                let by = ServerId(log.by);
                let expiry = log.expiry;
                return Ok(Err(LogTaken { by, expiry }));
            }
        }
        self.logs.retain(|log| log.dead != new.dead);
        self.logs.push(new)?;
        Ok(Ok(()))
    }

    fn extend(&mut self, by: u8, expiry: u64) {
        for log in self.logs.iter_mut() {
            if log.by == by {
                log.expiry = expiry;
            }
        }
    }

    fn clear(&mut self, dead: u8) {
        self.entries.retain(|entry| entry.server != dead);
        self.logs.retain(|log| log.dead != dead && log.by != dead);
    }
}

// The table and the plain one.
#[derive(Drop)]
struct Both {
    table: LockTable,
    plain: PlainTable,
}

fn lock_of(n: u64) -> LockId {
    let n = (n % u64::from(LOCKS)) as u32;
    match n % 3 {
        0 => LockId::Node(n),
        1 => LockId::Segment(n),
        _ => LockId::Log(n as u8),
    }
}

fn mode_of(n: u64) -> Mode {
    if n % 3 == 0 { Mode::Sole } else { Mode::Shared }
}

impl Both {
    fn new(alloc: Global) -> Result<Both, NoMemory> {
        let entries = Vec::with_capacity(alloc, ROOM)?;
        let logs = Vec::with_capacity(alloc, ROOM)?;
        let plain = PlainTable {
            entries,
            logs,
            alloc,
        };
        let table = LockTable::new(alloc);
        Ok(Both { table, plain })
    }

    // Each call below is made on both, and says whether they answered the same.

    fn want(&mut self, server: u8, lock: LockId, mode: Mode) -> Result<bool, NoMemory> {
        if server >= 16 {
            return Ok(false);
        }
        let answer = self.table.want(ServerId(server), lock, mode)?;
        Ok(answer == self.plain.want(server, lock, mode)?)
    }

    fn reserve(&mut self, server: u8, lock: LockId) -> Result<bool, NoMemory> {
        if server >= 16 {
            return Ok(false);
        }
        self.table.reserve(ServerId(server), lock)?;
        Ok(true)
    }

    // A server gives a lock, as a whole or in part.
    fn give(&mut self, server: u8, lock: LockId, whole: bool) -> Result<bool, NoMemory> {
        let s = ServerId(server);
        let entry = self.plain.entry(server, lock);
        match self.table.held(s, lock) {
            Some(Mode::Sole) if !whole => {
                self.table.downgrade(s, lock);
                self.plain.hold(server, lock, Some(Mode::Shared))?;
                Ok(entry.held == Some(Mode::Sole))
            }
            Some(_) => {
                self.table.release(s, lock);
                self.plain.hold(server, lock, None)?;
                Ok(entry.held.is_some())
            }
            None => Ok(entry.held.is_none()),
        }
    }

    fn take_log(&mut self, dead: u8, by: u8, now: u64) -> Result<bool, NoMemory> {
        let expiry = now.saturating_add(5);
        let answer = self
            .table
            .take_log(ServerId(dead), ServerId(by), now, expiry);
        Ok(answer == self.plain.take_log(Log { dead, by, expiry }, now)?)
    }

    fn extend(&mut self, by: u8, expiry: u64) {
        self.table.extend(ServerId(by), expiry);
        self.plain.extend(by, expiry);
    }

    fn clear(&mut self, dead: u8) {
        self.table.clear(ServerId(dead));
        self.plain.clear(dead);
    }

    // A server is asked for the same by both.
    fn is_asked_alike(&self, server: u8) -> Result<bool, NoMemory> {
        let s = ServerId(server);
        let asked = self.table.revokes(s)?;
        let same = asked.as_slice() == self.plain.revokes(server)?.as_slice();
        let some = self.table.is_asked(s) != asked.is_empty();
        Ok(same && some && self.table.first_asked(s) == asked.first().copied())
    }

    // It holds the same by both.
    fn holds_alike(&self, server: u8) -> bool {
        for n in 0..u64::from(LOCKS) {
            let lock = lock_of(n);
            if self.table.held(ServerId(server), lock) != self.plain.entry(server, lock).held {
                return false;
            }
        }
        true
    }

    fn are_alike(&self) -> Result<bool, NoMemory> {
        for server in 0..CALLERS {
            if !self.holds_alike(server) || !self.is_asked_alike(server)? {
                return Ok(false);
            }
        }
        Ok(true)
    }

    // A drawn call of both; false where they answer differently.
    fn call(&mut self, draws: &mut Draws) -> Result<bool, NoMemory> {
        let kind = draws.draw() % 16;
        let server = (draws.draw() % u64::from(CALLERS)) as u8;
        let lock = lock_of(draws.draw());
        let number = draws.draw() % 32;
        match kind {
            0..=6 => self.want(server, lock, mode_of(number)),
            7..=10 => self.give(server, lock, number % 2 == 0),
            11 => self.reserve(server, lock),
            12 | 13 => self.take_log(server, (number % 8) as u8, number),
            14 => {
                self.extend(server, number);
                Ok(true)
            }
            _ => {
                if number % 4 == 0 {
                    self.clear(server);
                }
                self.is_asked_alike(server)
            }
        }
    }
}

// All calls are answered alike, and leave both alike.
fn expect_same_calls(rt: &impl Abort, both: &mut Both) {
    let mut draws = Draws::of(1);
    for i in 1..=10_000 {
        let is_answered = both.call(&mut draws) != Ok(false);
        expect_alike(rt, is_answered, "answers", i);
        expect_alike(rt, both.are_alike() != Ok(false), "locks", i);
    }
}

#[test]
fn the_table_in_order_is_the_plain_one(rt: HostRuntime) -> Result<(), Fail> {
    let mut both = Both::new(rt.alloc())?;
    expect_same_calls(&rt, &mut both);
    Ok(())
}
