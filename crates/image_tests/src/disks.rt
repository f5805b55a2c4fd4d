// A small disk, edits of it, and what its check tells.
use disk_definitions::Disk;
use frang_base::{NoMemory, Sector};
use fsck_report::{Fault, Report, check};
use std::alloc::Global;
use std::sync::Wait;
use std::thread::Threads;
use test_tables::{columns, has_rows, is_row, lay_on, number, sector, split};

// A sound disk of two segments. The root, in block 0, names the directory `d`, the files `f` and `g` and the link `l`; `d`, in block 1,
// names `f` as `h`. The file `f` has blocks 2 and 3; `g`, inode 64, has blocks 1024 to 1039 and large block 1. Block 4 was a directory's.
const SMALL: &str = "
0 0:'FRANGPAR 8:020000000200000001
k0 0:01 8:0f 16:5f02
k1 0:01 8:01 16:55555555 272:01
i0 0:01 8:0200010001 16:04
i1 0:01 8:0200010001 16:01 32:01
i2 0:01 8:0100020002 16:8813 32:0200000003
i3 0:01 8:030001 16:01 128:'x
i64 0:01 8:0100010010 16:010001 \
    32:000400000104000002040000030400000404000005040000060400000704000008040000090400000a0400000b0400000c0400000d0400000e0400000f04 96:02
s0 0:01 8:010000000102'd 80:020000000101'f 152:030000000103'l 224:400000000101'g
s1 0:01 8:020000000101'h
";

/// The report of the disk of these pieces, the later ones laid over the others, where it has parameters.
pub fn report_of(
    rt: &(impl Threads + Wait + Sync),
    alloc: Global,
    pieces: &str,
    later: &str,
) -> Result<Option<Report>, NoMemory> {
    let mut disk = Disk::new(alloc);
    lay_on(&mut disk, pieces)?;
    lay_on(&mut disk, later)?;
    match param_block::decode(&disk.get(Sector(0))) {
        Some(_) => Ok(Some(check(rt, alloc, &disk)?)),
        None => Ok(None),
    }
}

/// That of the small disk with these laid over it.
pub fn small_report(
    rt: &(impl Threads + Wait + Sync),
    alloc: Global,
    later: &str,
) -> Result<Option<Report>, NoMemory> {
    report_of(rt, alloc, SMALL, later)
}

// A fault by its sector and its kind, as `k0:7`.
fn is_fault(fault: &Fault, word: &str) -> bool {
    let (place, kind) = split(word, ":");
    sector(place) == Some(fault.sector.0) && number(kind) == Some(u64::from(fault.kind))
}

fn are_faults(found: &[Fault], told: &str) -> bool {
    let mut words = told.split_whitespace();
    for fault in found {
        match words.next() {
            Some(word) if is_fault(fault, word) => {}
            _ => return false,
        }
    }
    words.next().is_none()
}

// How many blocks, directories, files, large blocks and links are reached.
fn counts_told(alloc: Global, report: &Report) -> Result<String, NoMemory> {
    let (blocks, dirs, files) = (report.blocks, report.dirs, report.files);
    let (larges, links) = (report.larges, report.links);
    Ok(format!(in alloc; "{blocks} {dirs} {files} {larges} {links}")?)
}

// Whether the report has these counts and faults, and stands exactly where there are none.
fn is_told(alloc: Global, report: &Report, counts: &str, faults: &str) -> Result<bool, NoMemory> {
    let found = counts_told(alloc, report)?;
    let stands = report.stands == faults.is_empty();
    Ok(found.as_str() == counts && are_faults(&report.faults, faults) && stands)
}

fn is_row_told(
    rt: &(impl Threads + Wait + Sync),
    alloc: Global,
    row: &str,
) -> Result<bool, NoMemory> {
    let (later, counts, faults) = columns(row);
    match small_report(rt, alloc, later)? {
        Some(report) => is_told(alloc, &report, counts, faults),
        None => Ok(false),
    }
}

/// The first row that is told otherwise; an empty text where there is none. A row has what is laid over the small disk, which has 20 blocks, 2
/// directories, 2 files, a large block and a link; how many of these are then reached; and the faults.
pub fn first_other<'a>(
    rt: &(impl Threads + Wait + Sync),
    alloc: Global,
    rows: &'a str,
) -> Result<&'a str, NoMemory> {
    for row in rows.lines() {
        if is_row(row) && !is_row_told(rt, alloc, row)? {
            return Ok(row);
        }
    }
    Ok(if has_rows(rows) { "" } else { "no row" })
}
