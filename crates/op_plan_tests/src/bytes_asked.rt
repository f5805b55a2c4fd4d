// Plans of operations on file bytes over a disk, and what is told of them.
ghost use Rattle.disk_definitions.specs.Held.{AreSegments};
ghost use Rattle.op_data.specs.Bytes.{IsOfBytes};

use crate::expected::expect_told;
use dir_lookup::{Hand, Looked};
use frang_base::{NoMemory, Op};
use meta_version::Sectors;
use op_data::plan_bytes;
use plan_disks::{
    CachedDisk, Segments, are_all, bytes_op, ended_told, held_of, sectors_of, when_of, written_told,
};
use std::alloc::Global;
use std::process::Abort;
use std::test::Fail;
use test_tables::{columns, has_rows, is_row};

/// What is told of a plan: its edits, or what they write.
#[derive(Clone, Copy)]
pub(crate) enum Telling {
    Edits,
    Written,
}

/// A disk by its sectors, the segments that settings name, and what is told of plans over it.
#[derive(Clone, Copy)]
pub(crate) struct Setup {
    pub(crate) disk: &'static str,
    pub(crate) segments: Segments,
    pub(crate) telling: Telling,
}

/// Tick 600 of run 3, the time of a plan whose setting has none.
pub(crate) const WHEN: u64 = 3 * 4_294_967_296 + 600;

/// Each plan is as worked out: a row has an operation, the setting in which it is asked, and what is told.
pub(crate) fn expect(
    rt: &impl Abort,
    alloc: Global,
    setup: &Setup,
    rows: &str,
) -> Result<(), Fail> {
    let sectors = sectors_of(alloc, setup.disk)?;
    expect_over(rt, alloc, &sectors, setup, rows)
}

fn expect_over(
    rt: &impl Abort,
    alloc: Global,
    sectors: &Sectors,
    setup: &Setup,
    rows: &str,
) -> Result<(), Fail> {
    assert!(rt; has_rows(rows));
    for row in rows.lines() {
        if is_row(row) {
            let (line, setting, wanted) = columns(row);
            let text = told(alloc, sectors, setup, line, setting)?;
            expect_told(rt, row, text.as_str(), wanted);
        }
    }
    Ok(())
}

fn told(
    alloc: Global,
    sectors: &Sectors,
    setup: &Setup,
    line: &str,
    setting: &str,
) -> Result<String, NoMemory> {
    // All sectors are cached here.
    if setting.split_once("-").is_some() {
        return Err(NoMemory);
    }
    let held = held_of(alloc, setup.segments, setting)?;
    let cached = CachedDisk::of(alloc, sectors)?;
    let usable = cached.usable();
    let hand = Hand {
        sectors: &usable,
        held: &held,
        all: are_all(setting),
    };
    told_at_hand(alloc, &hand, setup.telling, line, when_of(setting, WHEN)?)
}

fn told_at_hand(
    alloc: Global,
    hand: &Hand,
    telling: Telling,
    line: &str,
    when: u64,
) -> Result<String, NoMemory>
    requires { AreSegments hand.now.held.now }
{
    let op = bytes_op(alloc, line)?;
    told_of(alloc, hand, telling, &op, when)
}

// What is told of the plan of an operation.
fn told_of(
    alloc: Global,
    hand: &Hand,
    telling: Telling,
    op: &Op,
    when: u64,
) -> Result<String, NoMemory>
    requires segments { AreSegments hand.now.held.now }
    requires bytes { IsOfBytes op.now }
{
    let mut looked = Looked::unasked();
    let ended = plan_bytes(alloc, op, when, hand, &mut looked);
    match telling {
        Telling::Edits => ended_told(alloc, &ended),
        Telling::Written => written_told(alloc, hand, ended),
    }
}
