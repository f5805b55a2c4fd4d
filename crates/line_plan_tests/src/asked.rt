// Lines over a disk, and what is told of their plans.
ghost use Rattle.std.specs.Prelude.{◌≡◌, true};
ghost use Rattle.disk_definitions.specs.Held.{AreSegments};
ghost use Rattle.line_plan.specs.Lines.{TargetFits};

use crate::needed::locks_told;
use crate::planned;
use dir_lookup::{Hand, Looked};
use edit_moves::{Move, Thing, cover_among, moves_of};
use frang_base::limits::TARGET_BYTES_MAX;
use frang_base::{Line, NoMemory, Op, Script, Sector, ServerId, What};
use frang_layout::{Region, region_of};
use line_plan::{LineEnd, plan_line};
use meta_version::Sectors;
use plan_disks::{
    CachedDisk, Segments, are_all, bytes_op, held_of, leave_out_but, look_op, names_op,
    outcome_told, put_sectors, sectors_of,
};
use plan_locks::nodes_in;
use plan_steps::Outcome;
use planned_lines::plan_for_core;
use script_lang::print_script;
use std::alloc::Global;
use std::fmt::Write;
use std::process::Abort;
use std::test::Fail;
use test_tables::{columns, has_rows, is_row, split};

/// What is at hand of a disk.
#[derive(Clone, Copy)]
pub(crate) struct Disk {
    /// Its sectors.
    pub(crate) laid: &'static str,
    /// What is laid over them.
    pub(crate) more: &'static str,
    /// The segments that are named.
    pub(crate) segments: Segments,
    /// Those of them that are held, and whether these are said to be all.
    pub(crate) held: &'static str,
}

/// What is told of the plan of a line.
#[derive(Clone, Copy)]
pub(crate) enum Telling {
    /// How it ends.
    End,
    /// The sectors at which it looks.
    Looks,
    /// The locks that it needs where it is done or has a block cleared.
    Locks,
    /// How it ends where it is planned for the core.
    ForCore,
}

// Line 7 of run 3, and tick 9 of it.
const BIRTH: u64 = 3 * 4_294_967_296 + 7;

const WHEN: u64 = 3 * 4_294_967_296 + 9;

/// Of each line is told what was worked out: a row has a line, the sector that isn't cached, and what is told.
pub(crate) fn expect(
    rt: &impl Abort,
    alloc: Global,
    disk: &Disk,
    telling: Telling,
    rows: &str,
) -> Result<(), Fail> {
    assert!(rt; has_rows(rows));
    for row in rows.lines() {
        if is_row(row) {
            let (line, setting, wanted) = columns(row);
            let text = told(alloc, disk, telling, line, setting)?;
            assert!(rt; text.as_str().trim() == wanted, "{row}: {text}");
        }
    }
    Ok(())
}

fn told(
    alloc: Global,
    disk: &Disk,
    telling: Telling,
    line: &str,
    setting: &str,
) -> Result<String, NoMemory> {
    let mut sectors = sectors_of(alloc, disk.laid)?;
    put_sectors(&mut sectors, disk.more)?;
    leave_out_but(&mut sectors, setting, "whole")?;
    told_over(alloc, disk, telling, line, &sectors)
}

// What is told of a line over these sectors.
fn told_over(
    alloc: Global,
    disk: &Disk,
    telling: Telling,
    line: &str,
    sectors: &Sectors,
) -> Result<String, NoMemory> {
    let held = held_of(alloc, disk.segments, disk.held)?;
    let cached = CachedDisk::of(alloc, sectors)?;
    let usable = cached.usable();
    let hand = Hand {
        sectors: &usable,
        held: &held,
        all: are_all(disk.held),
    };
    told_at_hand(alloc, &hand, telling, line)
}

fn told_at_hand(
    alloc: Global,
    hand: &Hand,
    telling: Telling,
    line: &str,
) -> Result<String, NoMemory>
    requires { AreSegments hand.now.held.now }
{
    let op = op_of(alloc, line)?;
    if !fits(&op) {
        return Err(NoMemory);
    }
    told_of(alloc, hand, telling, &op)
}

// What is told of the plan of an operation.
fn told_of(alloc: Global, hand: &Hand, telling: Telling, op: &Op) -> Result<String, NoMemory>
    requires fits { TargetFits op.now }
    requires held { AreSegments hand.now.held.now }
{
    match telling {
        Telling::End => end_of(alloc, hand, op),
        Telling::Looks => looks_by(alloc, hand, op),
        Telling::Locks => locks_by(alloc, hand, op),
        Telling::ForCore => for_core(alloc, hand, op),
    }
}

fn end_of(alloc: Global, hand: &Hand, op: &Op) -> Result<String, NoMemory>
    requires { TargetFits op.now }
{
    let mut looked = Looked::new(alloc);
    let end = plan_line(alloc, hand, BIRTH, WHEN, op, &mut looked)?;
    let sectors = looked.sectors()?;
    end_told(alloc, hand, &sectors, &end)
}

fn looks_by(alloc: Global, hand: &Hand, op: &Op) -> Result<String, NoMemory>
    requires { TargetFits op.now }
{
    let mut looked = Looked::new(alloc);
    plan_line(alloc, hand, BIRTH, WHEN, op, &mut looked)?;
    looks_of(alloc, looked)
}

fn locks_by(alloc: Global, hand: &Hand, op: &Op) -> Result<String, NoMemory>
    requires { TargetFits op.now }
{
    let mut looked = Looked::new(alloc);
    let end = plan_line(alloc, hand, BIRTH, WHEN, op, &mut looked)?;
    locks_of(alloc, hand, looked, &end)
}

fn for_core(alloc: Global, hand: &Hand, op: &Op) -> Result<String, NoMemory>
    requires fits { TargetFits op.now }
    requires held { AreSegments hand.now.held.now }
{
    let planned = plan_for_core(alloc, hand, 1, BIRTH, WHEN, op)?;
    planned::end_told(alloc, &planned.end)
}

fn looks_of(alloc: Global, looked: Looked) -> Result<String, NoMemory> {
    let sectors = looked.sectors()?;
    looks_told(alloc, &sectors)
}

fn locks_of(alloc: Global, hand: &Hand, looked: Looked, end: &LineEnd) -> Result<String, NoMemory> {
    let sectors = looked.sectors()?;
    locks_told(alloc, hand, &sectors, end)
}

// The sectors at which the plan of a line looked, in order.
fn looks_told(alloc: Global, sectors: &[Sector]) -> Result<String, NoMemory> {
    let mut text = String::new(alloc);
    for sector in sectors {
        add_sector(&mut text, *sector)?;
    }
    Ok(text)
}

// An inode by its number, a segment by its, a sector of a small block by block and part.
fn add_sector(text: &mut String, sector: Sector) -> Result<(), NoMemory> {
    match region_of(sector, 1) {
        Some(Region::Inode(number)) => write!(text, "i{number} ")?,
        Some(Region::Segment(number)) => write!(text, "k{number} ")?,
        Some(Region::Small { block, part }) => write!(text, "s{block}.{part} ")?,
        _ => write!(text, "? ")?,
    }
    Ok(())
}

// How a line ends: what is done and what moves by it, or what is missing and its cover, or what has to be cleared and for which operation.
fn end_told(
    alloc: Global,
    hand: &Hand,
    looked: &[Sector],
    end: &LineEnd,
) -> Result<String, NoMemory> {
    match end {
        LineEnd::Done(outcome) => done_told(alloc, outcome),
        LineEnd::Need(sector) => need_told(alloc, hand, looked, *sector),
        LineEnd::Segments => Ok(format!(in alloc; "segments")?),
        LineEnd::Clear { block, over } => {
            let line = line_told(alloc, over)?;
            Ok(format!(in alloc; "clear {block} for {line}")?)
        }
    }
}

// What is done, and what moves by it.
fn done_told(alloc: Global, outcome: &Outcome) -> Result<String, NoMemory> {
    let mut text = outcome_told(alloc, outcome)?;
    for moved in &moves_of(alloc, outcome.edits.as_slice())? {
        add_move(&mut text, moved)?;
    }
    Ok(text)
}

// An operation as a line of server 0 of a script.
fn line_told(alloc: Global, op: &Op) -> Result<String, NoMemory> {
    let mut script = Script::new(alloc);
    script.push(Line {
        number: 1,
        who: ServerId(0),
        what: What::Server(op.try_copy()?),
    })?;
    let mut bytes = Vec::new(alloc);
    print_script(alloc, &script, &mut bytes)?;
    let mut text = String::new(alloc);
    for byte in &bytes {
        if *byte != b'\n' {
            text.push(char::from(*byte))?;
        }
    }
    Ok(text)
}

// A sector that is missing, and the lock that covers it on the disk, which has one segment, by the inodes at which the line looked.
fn need_told(
    alloc: Global,
    hand: &Hand,
    looked: &[Sector],
    sector: Sector,
) -> Result<String, NoMemory> {
    let mut text = String::new(alloc);
    write!(text, "needs {}", sector.0)?;
    let nodes = nodes_in(alloc, 1, looked)?;
    if let Some(lock) = cover_among(hand, 1, &nodes, sector) {
        write!(text, " under {lock:?}")?;
    }
    Ok(text)
}

/// A thing that moves, and the lock under which its sectors are then.
pub(crate) fn add_move(text: &mut String, moved: &Move) -> Result<(), NoMemory> {
    let lock = moved.lock;
    match moved.thing {
        Thing::Inode(number) => write!(text, ", inode {number} under {lock:?}")?,
        Thing::Small(block) => write!(text, ", block {block} under {lock:?}")?,
        Thing::Large(block) => write!(text, ", large {block} under {lock:?}")?,
    }
    Ok(())
}

// The operation of a line.
fn op_of(alloc: Global, line: &str) -> Result<Op, NoMemory> {
    let (verb, _) = split(line, " ");
    match verb {
        "sync" => Ok(Op::Sync),
        "read" | "write" | "truncate" => bytes_op(alloc, line),
        "stat" | "list" => look_op(alloc, line),
        _ => names_op(alloc, line),
    }
}

// A target is no longer than one may be.
fn fits(op: &Op) -> bool
    ensures { result ≡ true → TargetFits op.now }
{
    match op {
        Op::Symlink { target, .. } => target.len() <= TARGET_BYTES_MAX,
        _ => true,
    }
}
