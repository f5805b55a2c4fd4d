// Plans of operations on names over a disk, and what is told of them.
ghost use Rattle.disk_definitions.specs.Allowed.{IsAllowed};
ghost use Rattle.disk_definitions.specs.Held.{AreSegments};
ghost use Rattle.op_dir.specs.Names.{IsOfNames};

use crate::bytes_asked::{Setup, Telling};
use crate::expected::expect_told;
use dir_lookup::{Hand, Looked};
use frang_base::{NoMemory, Op};
use meta_version::Sectors;
use op_dir::plan_names;
use plan_disks::{
    CachedDisk, are_all, ended_told, held_of, leave_out, names_op, sectors_of, written_told,
};
use std::alloc::Global;
use std::process::Abort;
use std::test::Fail;
use test_tables::{columns, has_rows, is_row};

// Line 7 of run 3.
const BIRTH: u64 = 3 * 4_294_967_296 + 7;

/// Each plan is as worked out: a row has an operation, the setting in which it is asked, and what is told.
pub(crate) fn expect(
    rt: &impl Abort,
    alloc: Global,
    setup: &Setup,
    rows: &str,
) -> Result<(), Fail> {
    assert!(rt; has_rows(rows));
    for row in rows.lines() {
        if is_row(row) {
            let (line, setting, wanted) = columns(row);
            let text = told(alloc, setup, line, setting)?;
            expect_told(rt, row, text.as_str(), wanted);
        }
    }
    Ok(())
}

fn told(alloc: Global, setup: &Setup, line: &str, setting: &str) -> Result<String, NoMemory> {
    // No operation on names has a time.
    if setting.split_once("@").is_some() {
        return Err(NoMemory);
    }
    let mut sectors = sectors_of(alloc, setup.disk)?;
    leave_out(&mut sectors, setting)?;
    told_over(alloc, &sectors, setup, line, setting)
}

// What is told over the cached sectors.
fn told_over(
    alloc: Global,
    sectors: &Sectors,
    setup: &Setup,
    line: &str,
    setting: &str,
) -> Result<String, NoMemory> {
    let held = held_of(alloc, setup.segments, setting)?;
    let cached = CachedDisk::of(alloc, sectors)?;
    let usable = cached.usable();
    let hand = Hand {
        sectors: &usable,
        held: &held,
        all: are_all(setting),
    };
    told_at_hand(alloc, &hand, setup.telling, line)
}

fn told_at_hand(
    alloc: Global,
    hand: &Hand,
    telling: Telling,
    line: &str,
) -> Result<String, NoMemory>
    requires { AreSegments hand.now.held.now }
{
    let op = names_op(alloc, line)?;
    told_of(alloc, hand, telling, &op)
}

// What is told of the plan of an operation.
fn told_of(alloc: Global, hand: &Hand, telling: Telling, op: &Op) -> Result<String, NoMemory>
    requires segments { AreSegments hand.now.held.now }
    requires names { IsOfNames op.now }
    requires allowed { IsAllowed op.now }
{
    let mut looked = Looked::unasked();
    let ended = plan_names(alloc, op, BIRTH, hand, &mut looked);
    match telling {
        Telling::Edits => ended_told(alloc, &ended),
        Telling::Written => written_told(alloc, hand, ended),
    }
}
