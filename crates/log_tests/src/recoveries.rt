// Recoveries of log 0, step by step, whose counts and sectors were worked out by hand.
use crate::blocks::{empty_block, part_block};
use crate::replays::{LOG_0, are_so, set, with_logs, with_packed_log};
use disk_definitions::Disk;
use frang_base::{NoMemory, OpNo, Sector, ServerId};
use recovery_demon::{Demon, Next};
use std::alloc::Global;
use std::test::Fail;

// Disks of 16 segments by what log 0 holds; how many sectors are looked at and how many are written; the greatest operation; and sectors afterwards.
static ROWS: [(&str, u16, u16, u64, &str); 6] = [
    ("two records", 4, 3, 5, "i1 0:030000000000000021230304"),
    (
        "two in one sector",
        4,
        3,
        5,
        "i1 0:030000000000000021230304",
    ),
    (
        "the second is torn",
        4,
        3,
        5,
        "i1 0:020000000000000021020304",
    ),
    (
        "a gap",
        4,
        67,
        5,
        "2147483650 0:0201\n2147483651 0:0301\n2147483713 0:4101\n2147483714",
    ),
    ("a gap and a seal", 4, 3, 5, "2147483650 0:0201"),
    ("no record", 0, 0, 0, "i1 0:010000000000000001020304"),
];

// Lays empty sectors in log 0, from one number up to another.
fn lay_empty(disk: &mut Disk, first: u64, last: u64) -> Result<(), NoMemory> {
    for number in first..=last {
        set(disk, LOG_0 + number % 256, empty_block(number))?;
    }
    Ok(())
}

// The disk of a row. Two records are those of operations 5 and 4, numbered 256 and 257.
fn disk_of(alloc: Global, row: &str) -> Result<Disk, NoMemory> {
    let mut disk = with_logs(alloc)?;
    match row {
        "two in one sector" => return with_packed_log(alloc),
        "the second is torn" => set(&mut disk, LOG_0 + 1, part_block(257, 4, 0, 2, &[7]))?,
        "a gap" => lay_empty(&mut disk, 260, 260)?,
        "a gap and a seal" => lay_empty(&mut disk, 258, 321)?,
        "no record" => lay_empty(&mut disk, 0, 1)?,
        _ => {}
    }
    Ok(disk)
}

// What was done in a recovery, and the greatest operation once all was.
#[derive(Drop)]
struct Done {
    loads: u16,
    looks: u16,
    writes: u16,
    keeps: Option<OpNo>,
}

fn load(demon: &mut Demon, disk: &Disk, slot: u8) -> Result<(), NoMemory> {
    demon.ready()?;
    if demon.wants_load(slot) {
        demon.loaded(slot, &disk.get(Sector(LOG_0 + u64::from(slot))));
    }
    Ok(())
}

fn look(demon: &mut Demon, disk: &Disk, sector: Sector) -> Result<(), NoMemory> {
    demon.ready()?;
    if demon.wants_look(sector) {
        demon.looked(sector, &disk.get(sector));
    }
    Ok(())
}

// Issues the write of a sector, and loses it.
fn lose(demon: &mut Demon, sector: Sector) -> Result<(), NoMemory> {
    demon.ready()?;
    if demon.bytes(sector).is_some() {
        demon.issued(sector);
    }
    demon.ready()?;
    if demon.has_issued(sector) {
        demon.lost(sector);
    }
    Ok(())
}

fn write(demon: &mut Demon, disk: &mut Disk, sector: Sector) -> Result<(), NoMemory> {
    demon.ready()?;
    let Some(block) = demon.bytes(sector).copied() else {
        return Ok(());
    };
    demon.issued(sector);
    disk.set(sector, block)?;
    demon.ready()?;
    if demon.has_issued(sector) {
        demon.written(sector);
    }
    Ok(())
}

fn step(demon: &mut Demon, disk: &mut Disk, next: Next, done: &mut Done) -> Result<(), NoMemory> {
    match next {
        Next::Load { slot } => {
            load(demon, disk, slot)?;
            done.loads = done.loads.saturating_add(1);
        }
        Next::Look(sector) => {
            look(demon, disk, sector)?;
            done.looks = done.looks.saturating_add(1);
        }
        Next::Write(sector) => {
            lose(demon, sector)?;
            write(demon, disk, sector)?;
            done.writes = done.writes.saturating_add(1);
        }
        Next::Done { keeps } => done.keeps = Some(keeps),
    }
    Ok(())
}

// What is asked one by one is the first of the list.
fn is_asked_first(demon: &mut Demon, next: Next) -> Result<bool, NoMemory> {
    demon.refresh()?;
    Ok(match next {
        Next::Load { slot } => demon.first_load() == Some(slot),
        Next::Look(sector) => demon.first_load().is_none() && demon.first_look() == Some(sector),
        Next::Write(sector) => {
            demon.first_look().is_none() && demon.first_write(Sector(0)) == Some(sector)
        }
        Next::Done { .. } => demon.first_write(Sector(0)).is_none() && demon.is_done(),
    })
}

// Recovers log 0, each time by the first or by the last of what may be done; and whether what was asked one by one was the first of it.
fn recover(alloc: Global, disk: &mut Disk, by_last: bool) -> Result<(Done, bool), NoMemory> {
    let mut demon = Demon::new(alloc, ServerId(0), 16)?;
    let mut done = Done {
        loads: 0,
        looks: 0,
        writes: 0,
        keeps: None,
    };
    let mut is_so = true;
    for _ in 0..400 {
        let wants = demon.wants()?;
        let (Some(first), Some(last)) = (wants.first().copied(), wants.last().copied()) else {
            return Ok((done, false));
        };
        is_so = is_so && is_asked_first(&mut demon, first)?;
        let next = if by_last { last } else { first };
        step(&mut demon, disk, next, &mut done)?;
        if done.keeps.is_some() {
            return Ok((done, is_so));
        }
    }
    Ok((done, false))
}

#[test]
fn logs_are_recovered_as_worked_out_by_hand(rt: HostRuntime) -> Result<(), Fail> {
    for (row, looks, writes, keeps, sectors) in &ROWS {
        for by_last in [false, true] {
            let mut disk = disk_of(rt.alloc(), row)?;
            let (done, is_so) = recover(rt.alloc(), &mut disk, by_last)?;
            assert!(rt; is_so, "{row}");
            assert!(rt; done.loads == 256 && done.looks == *looks, "{row}");
            assert!(rt;
                done.writes == *writes && done.keeps == Some(OpNo(*keeps)),
                "{row}"
            );
            assert!(rt; are_so(&disk, sectors)?, "{row}");
        }
    }
    Ok(())
}
