// A cache that is searched from its front, and 10,000 drawn calls of it beside the same of the cache in order.
use crate::blocks::{change_of, small_block};
use crate::draws::{Draws, expect_alike};
use clerk_cache::{Cache, Dirty};
use frang_base::{Block, Change, LockId, NoMemory, Sector};
use meta_version::{apply, is_change, version_of};
use std::alloc::Global;
use std::process::Abort;
use std::test::Fail;

// So many sectors are cached at most.
const SECTORS: u64 = 16;

// The plain cache never wants memory: what is refused is refused by the other, which is then as it was.
const ROOM: usize = 32;

// Marks are below this.
const MARKS: u64 = 8;

#[derive(Clone, Copy)]
struct Entry {
    sector: Sector,
    block: Block,
    cover: LockId,
    mark: Option<u64>,
    // Where there is a mark: one of file bytes.
    is_bytes: bool,
    // Where there is a mark: it stays wanted.
    stays: bool,
    flies: bool,
}

impl Entry {
    // Without flags.
    fn new(
        sector: Sector,
        block: Block,
        cover: LockId,
        mark: Option<u64>,
        is_bytes: bool,
    ) -> Entry {
        Entry {
            sector,
            block,
            cover,
            mark,
            is_bytes,
            stays: false,
            flies: false,
        }
    }

    // Dirty, and written for this cause.
    fn is_next(&self, cause: Cause) -> bool {
        match cause {
            Cause::Dirty => true,
            Cause::Idle => !self.flies,
            Cause::Bytes => !self.flies && self.is_bytes,
            Cause::Staying => !self.flies && self.stays,
            Cause::Under(lock) => !self.flies && self.cover == lock,
        }
    }
}

// Which of the dirty sectors is asked for: one of all, or of those without a write in flight, and of these of the file bytes, of those that
// stay wanted or of those under a lock.
#[derive(Clone, Copy)]
enum Cause {
    Dirty,
    Idle,
    Bytes,
    Staying,
    Under(LockId),
}

static CAUSES: [Cause; 6] = [
    Cause::Dirty,
    Cause::Idle,
    Cause::Bytes,
    Cause::Staying,
    Cause::Under(LockId::Segment(0)),
    Cause::Under(LockId::Node(1)),
];

fn next_of(cache: &Cache, cause: Cause, reached: u64) -> Option<Sector> {
    match cause {
        Cause::Dirty => cache.next_dirty(reached),
        Cause::Idle => cache.next_idle(reached),
        Cause::Bytes => cache.next_bytes(reached),
        Cause::Staying => cache.next_staying(reached),
        Cause::Under(lock) => cache.next_under(lock, reached),
    }
}

// The sector is below the least one so far.
fn is_below(sector: Sector, least: Option<Sector>) -> bool {
    match least {
        Some(least) => sector.0 < least.0,
        None => true,
    }
}

// The mark is below the least one so far, or the same at a lesser sector.
fn is_before(mark: u64, sector: Sector, least: Option<(u64, Sector)>) -> bool {
    match least {
        Some((at, other)) => mark < at || mark == at && sector.0 < other.0,
        None => true,
    }
}

// The cached sectors, in the order in which they came.
#[derive(Drop)]
struct PlainCache {
    entries: Vec<Entry>,
}

impl PlainCache {
    fn entry(&self, sector: Sector) -> Option<&Entry> {
        for entry in &self.entries {
            if entry.sector == sector {
                return Some(entry);
            }
        }
        None
    }

    fn forget(&mut self, sector: Sector) {
        self.entries.retain(|entry| entry.sector != sector);
    }

    // Its flags stay, but that a clean sector doesn't stay wanted.
    fn set(&mut self, entry: Entry) -> Result<(), NoMemory> {
        let flags = self.entry(entry.sector).map(|old| (old.stays, old.flies));
        let (stays, flies) = flags.unwrap_or((false, false));
        self.forget(entry.sector);
        self.entries.push(Entry {
            stays: stays && entry.mark.is_some(),
            flies,
            ..entry
        })?;
        Ok(())
    }

    fn want_all(&mut self) {
        for entry in &mut self.entries {
            entry.stays = entry.mark.is_some();
        }
    }

    fn set_flies(&mut self, sector: Sector, flies: bool) {
        for entry in &mut self.entries {
            if entry.sector == sector {
                entry.flies = flies;
            }
        }
    }

    fn clean(&mut self, sector: Sector, block: &Block) -> Result<(), NoMemory> {
        match self.entry(sector) {
            Some(entry) if entry.block == *block => {
                let entry = *entry;
                self.set(Entry {
                    mark: None,
                    is_bytes: false,
                    ..entry
                })
            }
            _ => Ok(()),
        }
    }

    fn change(&mut self, change: &Change, mark: u64, cover: LockId) -> Result<(), NoMemory> {
        match self.entry(change.sector) {
            Some(entry) if is_change(change) => {
                let mut block = entry.block;
                let _ = apply(&mut block, change);
                self.set(Entry::new(change.sector, block, cover, Some(mark), false))
            }
            _ => Ok(()),
        }
    }

    fn move_cover(&mut self, sector: Sector, cover: LockId) -> Result<(), NoMemory> {
        match self.entry(sector) {
            Some(entry) => {
                let entry = *entry;
                self.set(Entry { cover, ..entry })
            }
            None => Ok(()),
        }
    }

    // No sector is dirty.
    fn is_all_clean(&self) -> bool {
        for entry in &self.entries {
            if entry.mark.is_some() {
                return false;
            }
        }
        true
    }

    // The least dirty sector under a lock.
    fn first_dirty(&self, lock: LockId) -> Option<Sector> {
        let mut first: Option<Sector> = None;
        for entry in &self.entries {
            let here = entry.cover == lock && entry.mark.is_some();
            if here && is_below(entry.sector, first) {
                first = Some(entry.sector);
            }
        }
        first
    }

    fn drop_cover(&mut self, lock: LockId) -> Result<(), Dirty> {
        if let Some(sector) = self.first_dirty(lock) {
            return Err(Dirty { sector });
        }
        self.entries.retain(|entry| entry.cover != lock);
        Ok(())
    }

    // The sector with the least mark of a cause, of one mark the least, where it is reached.
    fn next_of(&self, cause: Cause, reached: u64) -> Option<Sector> {
        let mut first: Option<(u64, Sector)> = None;
        for entry in &self.entries {
            if let Some(mark) = entry.mark
                && mark <= reached
                && entry.is_next(cause)
                && is_before(mark, entry.sector, first)
            {
                first = Some((mark, entry.sector));
            }
        }
        let (_, sector) = first?;
        Some(sector)
    }
}

fn lock_of(n: u64) -> LockId {
    if n % 2 == 0 {
        LockId::Segment((n / 2 % 4) as u32)
    } else {
        LockId::Node((n / 2 % 4) as u32)
    }
}

// The cache in order and the plain one.
#[derive(Drop)]
struct Both {
    cache: Cache,
    plain: PlainCache,
    alloc: Global,
}

impl Both {
    fn new(alloc: Global) -> Result<Both, NoMemory> {
        let entries = Vec::with_capacity(alloc, ROOM)?;
        Ok(Both {
            cache: Cache::new(alloc),
            plain: PlainCache { entries },
            alloc,
        })
    }

    // Caches a sector, dirty where there is a mark: as file bytes, or else as zeros.
    fn set(&mut self, entry: Entry) -> Result<(), NoMemory> {
        self.cache.reserve(1)?;
        match entry.mark {
            Some(mark) if entry.is_bytes => self
                .cache
                .set_bytes(entry.sector, entry.block, mark, entry.cover),
            Some(mark) => self.cache.set_zeros(entry.sector, mark, entry.cover),
            None => self.cache.set_clean(entry.sector, entry.block, entry.cover),
        }
        self.plain.set(entry)
    }

    // Lays a change over a cached sector that is older.
    fn change(&mut self, change: &Change, mark: u64, cover: LockId) -> Result<(), NoMemory> {
        let Some(block) = self.cache.get(change.sector) else {
            return Ok(());
        };
        if !is_change(change) || change.version <= version_of(block) {
            return Ok(());
        }
        self.cache.change(change, mark, cover);
        self.plain.change(change, mark, cover)
    }

    fn clean(&mut self, sector: Sector, block: &Block) -> Result<(), NoMemory> {
        self.cache.clean(sector, block);
        self.plain.clean(sector, block)
    }

    fn want_all(&mut self) {
        self.cache.want_all();
        self.plain.want_all();
    }

    fn set_flies(&mut self, sector: Sector, flies: bool) {
        self.cache.set_flies(sector, flies);
        self.plain.set_flies(sector, flies);
    }

    fn forget(&mut self, sector: Sector) {
        self.cache.forget(sector);
        self.plain.forget(sector);
    }

    fn forget_all(&mut self, sectors: &[Sector]) {
        self.cache.forget_all(sectors);
        for sector in sectors {
            self.plain.forget(*sector);
        }
    }

    // Puts a cached sector under another lock.
    fn move_cover(&mut self, sector: Sector, cover: LockId) -> Result<(), NoMemory> {
        if self.cache.cover(sector).is_some() {
            self.cache.move_cover(sector, cover);
        }
        self.plain.move_cover(sector, cover)
    }

    // Both answer the same when a cover is dropped.
    fn drop_cover(&mut self, lock: LockId) -> bool {
        self.cache.is_clean(lock) == self.plain.first_dirty(lock).is_none()
            && self.cache.drop_cover(lock) == self.plain.drop_cover(lock)
    }

    // The two hold the same of a sector.
    fn is_alike(&self, sector: Sector) -> bool {
        let cached = self.cache.get(sector);
        let cover = self.cache.cover(sector);
        let mark = self.cache.mark(sector);
        let is_bytes = self.cache.is_bytes(sector);
        let stays = self.cache.stays(sector);
        let flies = self.cache.flies(sector);
        match self.plain.entry(sector) {
            Some(entry) => {
                cached == Some(&entry.block)
                    && cover == Some(entry.cover)
                    && mark == entry.mark
                    && is_bytes == entry.is_bytes
                    && stays == entry.stays
                    && flies == entry.flies
            }
            None => {
                cached.is_none()
                    && cover.is_none()
                    && mark.is_none()
                    && !(is_bytes || stays || flies)
            }
        }
    }

    fn are_alike(&self) -> bool {
        for n in 0..SECTORS {
            if !self.is_alike(Sector(n)) {
                return false;
            }
        }
        true
    }

    // The same dirty sectors may go.
    fn go_alike(&self) -> bool {
        if self.cache.is_all_clean() != self.plain.is_all_clean() {
            return false;
        }
        for reached in 0..MARKS {
            if !self.are_next_alike(reached) {
                return false;
            }
        }
        true
    }

    // The same sector is next, for each cause.
    fn are_next_alike(&self, reached: u64) -> bool {
        for cause in &CAUSES {
            if next_of(&self.cache, *cause, reached) != self.plain.next_of(*cause, reached) {
                return false;
            }
        }
        true
    }

    // A drawn call of both; false where they answer differently.
    fn call(&mut self, draws: &mut Draws) -> Result<bool, NoMemory> {
        let kind = draws.draw() % 14;
        let number = draws.draw() % SECTORS;
        let sector = Sector(number);
        let cover = lock_of(draws.draw() % 8);
        let n = draws.draw() % MARKS;
        let block = small_block(1, n as u8);
        match kind {
            0 => self.set(Entry::new(sector, block, cover, None, false))?,
            1 | 2 => self.set(Entry::new(sector, block, cover, Some(n), true))?,
            3 => self.clean(sector, &block)?,
            4 => self.forget(sector),
            5 => self.move_cover(sector, cover)?,
            6 => {
                let change = change_of(self.alloc, number, n, 7)?;
                self.change(&change, n, cover)?;
            }
            7 => self.forget_all(&[Sector(n), sector]),
            8 => {
                let zeros = small_block(0, 0);
                self.set(Entry::new(sector, zeros, cover, Some(n), false))?;
            }
            9 => self.want_all(),
            10 | 11 => self.set_flies(sector, true),
            12 => self.set_flies(sector, false),
            _ => return Ok(self.drop_cover(cover)),
        }
        Ok(self.is_alike(sector))
    }
}

// All calls are answered alike, and leave both alike.
fn expect_same_calls(rt: &impl Abort, both: &mut Both) {
    let mut draws = Draws::of(1);
    for i in 1..=10_000u32 {
        let answer = both.call(&mut draws);
        expect_alike(rt, answer != Ok(false), "answers", i);
        expect_alike(rt, both.go_alike(), "dirty sectors", i);
        if i % 100 == 0 || answer == Err(NoMemory) {
            expect_alike(rt, both.are_alike(), "sectors", i);
        }
    }
}

#[test]
fn the_cache_in_order_is_the_plain_one(rt: HostRuntime) -> Result<(), Fail> {
    let mut both = Both::new(rt.alloc())?;
    expect_same_calls(&rt, &mut both);
    Ok(())
}
