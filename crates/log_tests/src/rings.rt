// A run of a ring worked out by hand: what each call answers, and what is then reached, free and named.
ghost use Rattle.std.specs.Prelude.{◌≡◌, ◌<◌, ◌≤◌, ◌^◌, length, true, IfOk, IsTrue};
ghost use Rattle.sector_bytes.specs.Changes.{is_change};
ghost use Rattle.disk_definitions.specs.Records.{change_bytes};
ghost use Rattle.ring_definitions.specs.Rings as rings;
ghost use Rattle.ring_definitions.specs.Rings.{is_record};

use frang_base::{Change, Changes, NoMemory, OpNo, Patch, Patches, Redo, Sector, Text};
use log_record::{LogSector, sector_read};
use std::alloc::Global;
use std::process::Abort;
use std::test::Fail;
use wal_ring::{Ring, RingFault};

// A ring, with the last numbers that were issued and given, by which its calls are allowed.
#[derive(Drop)]
struct Run {
    ring: Ring,
    sent: u64,
    last: u64,
    ghost numbers: { (sent ≡ rings.sent ring.ring) × (last ≡ rings.last ring.ring) },
}

// What is done with a ring.
#[derive(Clone, Copy)]
enum Step {
    // A record of this operation names this sector, in this version, and the one behind it, in version 1, each with so many bytes.
    Append(u64, u64, u64, usize),
    // A record of so many bytes is appended again and again, until it is refused.
    Fill(usize),
    Room,
    Issue,
    // Sectors are issued until none may be.
    IssueAll,
    Acknowledge(u64),
    // The last numbers issued and given, and whether all are acknowledged.
    Numbers,
    Oldest,
    // Whether the oldest records name this sector.
    IsOldest(u64),
    Reclaim(&'static [(Sector, u64)]),
    // It says the room that is then there.
    GiveUp,
}

impl Run {
    // Makes room for a record and appends it, which then takes no memory.
    fn append(&mut self, redo: &Redo) -> Result<u64, RingFault>
        requires { IsTrue (is_record redo.now) }
    {
        if self.last >= 1 << 62 {
            return Err(RingFault::NoMemory);
        }
        self.ring.reserve(redo)?;
        match self.ring.append(redo) {
            Ok(number) => {
                self.last = number;
                Ok(number)
            }
            Err(_) => unreachable!(),
        }
    }

    fn fill(&mut self, redo: &Redo) -> Result<u64, RingFault>
        requires { IsTrue (is_record redo.now) }
    {
        for _ in 0..2000 {
            self.append(redo)?;
        }
        Ok(0)
    }

    fn issue(&mut self) -> Option<LogSector> {
        let (seq, block) = self.ring.next_sector()?;
        self.ring.issued(seq);
        self.sent = seq;
        sector_read(&block, (seq % 256) as u8)
    }

    // The last number that is issued.
    fn issue_all(&mut self) -> u64 {
        for _ in 0..200 {
            if self.issue().is_none() {
                break;
            }
        }
        self.sent
    }

    // What is then reached.
    fn acked(&mut self, seq: u64) -> Option<u64> {
        if seq > self.sent {
            return None;
        }
        self.ring.acked(seq);
        Some(self.ring.reached())
    }

    fn append_said(
        &mut self,
        alloc: Global,
        op: u64,
        sector: u64,
        version: u64,
        len: usize,
    ) -> Result<String, NoMemory> {
        let redo = record_of(alloc, op, sector, version, len)?;
        Ok(format!(in alloc; "{:?}", self.append(&redo))?)
    }

    fn fill_said(&mut self, alloc: Global, len: usize) -> Result<String, NoMemory> {
        let redo = record_of(alloc, 1, 1, 1, len)?;
        Ok(format!(in alloc; "{:?}", self.fill(&redo))?)
    }

    fn room_said(&self, alloc: Global) -> Result<String, NoMemory> {
        let small = record_of(alloc, 1, 1, 1, 1)?;
        Ok(format!(in alloc; "{:?}", self.ring.room(&small)?)?)
    }

    fn issue_said(&mut self, alloc: Global) -> Result<String, NoMemory> {
        match self.issue() {
            Some(x) => words(alloc, &x),
            None => Ok(format!(in alloc; "none")?),
        }
    }

    fn issue_all_said(&mut self, alloc: Global) -> Result<String, NoMemory> {
        Ok(format!(in alloc; "{:?}", self.issue_all())?)
    }

    fn acked_said(&mut self, alloc: Global, seq: u64) -> Result<String, NoMemory> {
        Ok(format!(in alloc; "{:?}", self.acked(seq))?)
    }

    fn numbers_said(&self, alloc: Global) -> Result<String, NoMemory> {
        let (sent, last) = (self.ring.sent(), self.ring.last());
        Ok(format!(in alloc; "{sent}, {last}, {}", self.ring.is_all_reached())?)
    }

    fn is_oldest_said(&self, alloc: Global, sector: u64) -> Result<String, NoMemory> {
        Ok(format!(in alloc; "{}", self.ring.is_oldest_named(Sector(sector)))?)
    }

    fn give_up_said(&mut self, alloc: Global) -> Result<String, NoMemory> {
        self.ring.give_up();
        self.room_said(alloc)
    }

    fn oldest_said(&self, alloc: Global) -> Result<String, NoMemory> {
        Ok(format!(in alloc; "{:?}", self.ring.oldest()?)?)
    }

    fn reclaim_said(&mut self, alloc: Global, disk: &[(Sector, u64)]) -> Result<String, NoMemory> {
        Ok(format!(in alloc; "{:?}", self.ring.reclaim(disk))?)
    }

    // What the step answers, in words.
    fn answer(&mut self, alloc: Global, step: Step) -> Result<String, NoMemory> {
        match step {
            Step::Append(op, sector, version, len) => {
                self.append_said(alloc, op, sector, version, len)
            }
            Step::Fill(len) => self.fill_said(alloc, len),
            Step::Room => self.room_said(alloc),
            Step::Issue => self.issue_said(alloc),
            Step::IssueAll => self.issue_all_said(alloc),
            Step::Acknowledge(seq) => self.acked_said(alloc, seq),
            Step::Numbers => self.numbers_said(alloc),
            Step::Oldest => self.oldest_said(alloc),
            Step::IsOldest(sector) => self.is_oldest_said(alloc, sector),
            Step::Reclaim(disk) => self.reclaim_said(alloc, disk),
            Step::GiveUp => self.give_up_said(alloc),
        }
    }
}

// The number of a packed sector, the place where the first frame begins in it and how many bytes it uses.
fn words(alloc: Global, x: &LogSector) -> Result<String, NoMemory> {
    let (seq, op) = (x.seq, x.op.0);
    let (part, parts, used) = (x.part, x.parts, x.used);
    if op != 0 || parts != LogSector::PACKED {
        return Ok(format!(in alloc; "{seq} isn't packed")?);
    }
    Ok(format!(in alloc; "{seq}: from {part}, {used} bytes")?)
}

fn run_at(alloc: Global, end: u64) -> Result<Run, NoMemory>
    requires first { 255 ≤ end }
    requires small { end < 2 ^ 62 }
{
    Ok(Run {
        ring: Ring::at(alloc, end)?,
        sent: end,
        last: end,
    })
}

// A change of a sector to this version, of these bytes.
fn change_of(alloc: Global, sector: u64, version: u64, bytes: &[u8]) -> Result<Change, NoMemory>
    requires sector { sector < 2 ^ 55 }
    requires some { 1 ≤ length bytes.now }
    requires few { length bytes.now ≤ 400 }
    ensures formed { IfOk result (λ c. is_change c ≡ true) }
    ensures sector { IfOk result (λ c. c.sector.0 ≡ sector) }
    ensures short { IfOk result (λ c. length (change_bytes c) ≤ 422) }
{
    let mut patches = Patches::new(alloc);
    let bytes = Text::of(alloc, bytes)?;
    patches.push(Patch { at: 8, bytes })?;
    Ok(Change {
        sector: Sector(sector),
        version,
        patches,
    })
}

// A record of two changes. It is one that may stand in a log.
fn record_of(
    alloc: Global,
    op: u64,
    sector: u64,
    version: u64,
    len: usize,
) -> Result<Redo, NoMemory>
    ensures { IfOk result (λ redo. IsTrue (is_record redo)) }
{
    let sector = sector.min(1 << 50);
    let len = len.max(1).min(400);
    let bytes = &[7; 400][..len];
    let first = change_of(alloc, sector, version, bytes)?;
    let second = change_of(alloc, sector + 1, 1, bytes)?;
    let changes = Changes::from_vec(vec![in alloc; first, second]?);
    let op = OpNo(op.max(1));
    Ok(Redo { op, changes })
}

// A ring that begins behind 255 answers as worked out.
fn expect(rt: &impl Abort, alloc: Global, rows: &[Row]) -> Result<(), Fail> {
    let mut run = run_at(alloc, 255)?;
    for (row, (step, said)) in rows.iter().enumerate() {
        let answer = run.answer(alloc, *step)?;
        assert!(rt; answer.as_str() == *said, "row {row}: {answer}");
    }
    Ok(())
}

// What is done with a ring, and what that answers.
type Row = (Step, &'static str);

const DISK: [(Sector, u64); 3] = [(Sector(5), 1), (Sector(6), 2), (Sector(7), 1)];

const OLDER: [(Sector, u64); 3] = [(Sector(5), 1), (Sector(6), 1), (Sector(7), 1)];

const SHORTER: [(Sector, u64); 2] = [(Sector(5), 1), (Sector(6), 2)];

const FIRST_QUARTER: [(Sector, u64); 4] = [
    (Sector(1), 1),
    (Sector(2), 1),
    (Sector(8), 1),
    (Sector(9), 1),
];

static ANSWERS: [Row; 27] = [
    (Step::Append(1, 5, 1, 1), "Ok(256)"),
    (Step::Room, "(0, 191)"),
    // 430 bytes of its frame have room behind the first one
    (Step::Append(2, 6, 2, 400), "Ok(257)"),
    (Step::Room, "(0, 190)"),
    (Step::Issue, "256: from 0, 488 bytes"),
    (Step::Room, "(0, 190)"),
    (Step::Issue, "257: from 65535, 426 bytes"),
    (Step::Room, "(1, 190)"),
    (Step::Issue, "none"),
    (Step::Acknowledge(257), "Some(255)"),
    (Step::Acknowledge(256), "Some(257)"),
    (Step::Acknowledge(257), "Some(257)"),
    (
        Step::Oldest,
        "[(Sector(5), 1), (Sector(6), 2), (Sector(7), 1)]",
    ),
    (
        Step::Reclaim(&OLDER),
        "Err(Unwritten { sector: Sector(6) })",
    ),
    (
        Step::Reclaim(&SHORTER),
        "Err(Unwritten { sector: Sector(7) })",
    ),
    (Step::Reclaim(&DISK), "Ok(())"),
    (Step::Oldest, "[]"),
    (Step::Room, "(1, 192)"),
    // 1,615 frames of 58 bytes have room, and 26 bytes are left
    (Step::Append(3, 8, 1, 1), "Ok(258)"),
    (Step::Fill(1), "Err(Full { need: 1, free: 0 })"),
    (Step::Append(4, 8, 2, 400), "Err(Full { need: 2, free: 0 })"),
    (Step::IssueAll, "321"),
    (Step::Acknowledge(321), "Some(257)"),
    (Step::Issue, "none"),
    (Step::Acknowledge(258), "Some(258)"),
    (Step::IssueAll, "322"),
    (
        Step::Oldest,
        "[(Sector(1), 1), (Sector(2), 1), (Sector(8), 1), (Sector(9), 1)]",
    ),
];

#[test]
fn a_ring_answers_as_worked_out_by_hand(rt: HostRuntime) -> Result<(), Fail> {
    expect(&rt, rt.alloc(), &ANSWERS)
}

static QUARTER: [Row; 12] = [
    (Step::Append(1, 8, 1, 1), "Ok(256)"),
    // 109 frames of 856 bytes have room behind it, and 334 bytes are left
    (Step::Fill(400), "Err(Full { need: 2, free: 0 })"),
    // none is issued: the oldest name what nothing is asked of and nothing given up of
    (
        Step::Oldest,
        "[(Sector(1), 1), (Sector(2), 1), (Sector(8), 1), (Sector(9), 1)]",
    ),
    (Step::Reclaim(&[]), "Ok(())"),
    (Step::Room, "(0, 0)"),
    (Step::IssueAll, "319"),
    (Step::Reclaim(&[]), "Err(Unwritten { sector: Sector(8) })"),
    (Step::Room, "(0, 0)"),
    (Step::Reclaim(&FIRST_QUARTER), "Ok(())"),
    (Step::Room, "(0, 64)"),
    (Step::Oldest, "[(Sector(1), 1), (Sector(2), 1)]"),
    (Step::Append(2, 1, 2, 400), "Ok(449)"),
];

#[test]
fn the_oldest_quarter_is_given_up_as_far_as_it_is_issued(rt: HostRuntime) -> Result<(), Fail> {
    expect(&rt, rt.alloc(), &QUARTER)
}

static OPEN: [Row; 11] = [
    (Step::Append(1, 5, 1, 1), "Ok(256)"),
    (Step::Issue, "256: from 0, 58 bytes"),
    (Step::Append(2, 6, 1, 1), "Ok(257)"),
    (Step::Append(3, 8, 1, 1), "Ok(257)"),
    // the records in the open sector are among the oldest, and aren't given up
    (
        Step::Oldest,
        "[(Sector(5), 1), (Sector(6), 1), (Sector(7), 1), (Sector(8), 1), (Sector(9), 1)]",
    ),
    (Step::Reclaim(&DISK), "Ok(())"),
    (
        Step::Oldest,
        "[(Sector(6), 1), (Sector(7), 1), (Sector(8), 1), (Sector(9), 1)]",
    ),
    (Step::Room, "(0, 191)"),
    (Step::Append(4, 8, 2, 1), "Ok(257)"),
    (Step::Issue, "257: from 0, 174 bytes"),
    (
        Step::Oldest,
        "[(Sector(6), 1), (Sector(7), 1), (Sector(8), 2), (Sector(9), 1)]",
    ),
];

#[test]
fn a_reclaim_leaves_the_open_sector(rt: HostRuntime) -> Result<(), Fail> {
    expect(&rt, rt.alloc(), &OPEN)
}

static NUMBERS: [Row; 11] = [
    (Step::Append(1, 5, 1, 1), "Ok(256)"),
    (Step::Numbers, "255, 256, false"),
    (Step::Issue, "256: from 0, 58 bytes"),
    (Step::Numbers, "256, 256, false"),
    (Step::Acknowledge(256), "Some(256)"),
    (Step::Numbers, "256, 256, true"),
    (Step::IsOldest(6), "true"),
    (Step::IsOldest(7), "false"),
    (Step::GiveUp, "(1, 192)"),
    (Step::IsOldest(6), "false"),
    (Step::Oldest, "[]"),
];

#[test]
fn a_ring_tells_its_numbers_and_gives_up_unasked(rt: HostRuntime) -> Result<(), Fail> {
    expect(&rt, rt.alloc(), &NUMBERS)
}

// each frame fills its sector
static CLOSED: [Row; 3] = [
    (Step::Fill(216), "Err(Full { need: 1, free: 0 })"),
    (Step::Room, "(1, 0)"),
    (Step::Issue, "256: from 0, 488 bytes"),
];

#[test]
fn a_full_ring_whose_last_sector_is_closed_refuses_one_more(rt: HostRuntime) -> Result<(), Fail> {
    expect(&rt, rt.alloc(), &CLOSED)
}
