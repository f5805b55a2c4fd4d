// The bodies of records worked out by hand, and for each rule a neighbour that breaks it alone.
use crate::blocks::{CHANGE_HEAD, add};
use frang_base::{Change, Changes, NoMemory, OpNo, Patch, Redo, Sector};
use log_record::{decode, encode, fits};
use std::alloc::Global;
use std::test::Fail;
use test_tables::lay;

// Two changes. Sector 5 becomes version 3, bytes 8 and 9 become 1 and 0 and byte 16 becomes 7; sector 258 becomes version 2^56, and
// byte 511 becomes 9.
static BODY: [u8; 54] = [
    2, 0, 5, 0, 0, 0, 0, 0, 0, 0, 3, 0, 0, 0, 0, 0, 0, 0, 2, 0, 8, 0, 2, 0, 1, 0, 16, 0, 1, 0, 7,
    2, 1, 0, 0, 0, 0, 0, 0, 0, 0, 0, 0, 0, 0, 0, 1, 1, 0, 255, 1, 1, 0, 9,
];

// The first bytes of the body, zeros where there are no more, and these pieces laid over them.
fn edited(alloc: Global, len: usize, edits: &str) -> Result<Vec<u8>, NoMemory> {
    let mut bytes = BODY.as_slice().to_vec(alloc)?;
    bytes.resize(len, 0)?;
    lay(&mut bytes, edits)?;
    Ok(bytes)
}

// A change of a sector by one patch of so many bytes.
fn push_change(bytes: &mut Vec<u8>, sector: u8, len: u16) -> Result<(), NoMemory> {
    bytes.push(sector)?;
    add(bytes, &CHANGE_HEAD)?;
    add(bytes, &len.to_le_bytes())?;
    for _ in 0..len {
        bytes.push(sector)?;
    }
    Ok(())
}

// So many changes of a patch each, of sectors from 0 on, each with so many bytes, and the last with more.
fn long(alloc: Global, count: u8, len: u16, more: u16) -> Result<Vec<u8>, NoMemory> {
    let mut bytes = Vec::new(alloc);
    bytes.push(count)?;
    bytes.push(0)?;
    for sector in 0..count {
        let is_last = sector.saturating_add(1) == count;
        let more = if is_last { more } else { 0 };
        push_change(&mut bytes, sector, len.saturating_add(more))?;
    }
    Ok(bytes)
}

// The bytes as a record, written again.
fn again(alloc: Global, bytes: &[u8]) -> Result<Option<Vec<u8>>, NoMemory> {
    let Some(redo) = decode(alloc, bytes)? else {
        return Ok(None);
    };
    Ok(Some(encode(alloc, &redo)?))
}

// What the bytes are, how many there are, what is edited of them, and whether they are a record's.
static BODIES: [(&str, usize, &str, bool); 22] = [
    ("as it is", 54, "", true),
    ("no bytes", 0, "", false),
    ("half a number", 1, "", false),
    ("no changes", 2, "0:00", false),
    ("one change", 31, "0:01", true),
    ("a change too few", 54, "0:03", false),
    ("a byte left over", 55, "", false),
    ("a byte cut off", 53, "", false),
    ("the sector before", 54, "31:04 32:00", false),
    ("the same sector", 54, "31:05 32:00", false),
    ("the next sector", 54, "31:06 32:00", true),
    ("the last sector", 54, "37:7f", true),
    ("no sector", 54, "37:80", false),
    ("no patches", 49, "47:00", false),
    ("in the version", 54, "20:07", false),
    ("touching", 54, "26:0a", true),
    ("overlapping", 54, "26:09", false),
    ("descending patches", 54, "20:14", false),
    ("a patch of no bytes", 53, "51:00", false),
    ("up to the end", 55, "49:fe 51:02", true),
    ("past the end", 55, "51:02", false),
    ("behind the end", 54, "49:00 50:02", false),
];

// The bytes are read where they are a record's, and written as they were.
fn is_read(alloc: Global, bytes: &[u8], read: bool) -> Result<bool, NoMemory> {
    Ok(match again(alloc, bytes)? {
        Some(written) => read && written.as_slice() == bytes,
        None => !read,
    })
}

#[test]
fn bodies_are_read_and_written_as_worked_out_by_hand(rt: HostRuntime) -> Result<(), Fail> {
    for (what, len, edits, read) in &BODIES {
        let bytes = edited(rt.alloc(), *len, edits)?;
        assert!(rt; is_read(rt.alloc(), &bytes, *read)?, "{what}");
    }
    Ok(())
}

// How many changes there are, how many bytes in each and how many more in the last, all bytes, and whether they are a record's.
static LONG: [(u8, u16, u16, usize, bool); 4] = [
    (32, 1, 0, 738, true),
    (33, 1, 0, 761, false),
    (8, 489, 6, 4_096, true),
    (8, 489, 7, 4_097, false),
];

#[test]
fn long_bodies_are_read_up_to_their_limits(rt: HostRuntime) -> Result<(), Fail> {
    for (count, len, more, all, read) in &LONG {
        let bytes = long(rt.alloc(), *count, *len, *more)?;
        let is_so_long = bytes.len() == *all;
        assert!(rt;
            is_so_long && is_read(rt.alloc(), &bytes, *read)?,
            "{count} changes, {all} bytes"
        );
    }
    Ok(())
}

// The places of a change in the record and of a patch in the change, and what stands there: the sector, the version, the place and the bytes.
type Field = (usize, usize, u64, u64, u16, &'static [u8]);

static FIELDS: [Field; 3] = [
    (0, 0, 5, 3, 8, &[1, 0]),
    (0, 1, 5, 3, 16, &[7]),
    (1, 0, 258, 1 << 56, 511, &[9]),
];

// How many changes there are, and how many patches in each.
static COUNTS: [usize; 2] = [2, 1];

fn has_field(changes: &[Change], field: &Field) -> bool {
    let (place, at, sector, version, from, bytes) = *field;
    match changes.get(place) {
        Some(change) => {
            change.sector == Sector(sector)
                && change.version == version
                && is_patch(change.patches.get(at), from, bytes)
        }
        None => false,
    }
}

fn is_patch(patch: Option<&Patch>, from: u16, bytes: &[u8]) -> bool {
    match patch {
        Some(patch) => patch.at == from && patch.bytes.as_slice() == bytes,
        None => false,
    }
}

fn has_counts(changes: &[Change]) -> bool {
    for (change, count) in changes.iter().zip(&COUNTS) {
        if change.patches.len() != *count {
            return false;
        }
    }
    changes.len() == COUNTS.len()
}

#[test]
fn fields_stand_at_their_places(rt: HostRuntime) -> Result<(), Fail> {
    let redo = decode(rt.alloc(), &BODY)?.expect(&rt, "a record");
    let changes = redo.changes.as_slice();
    assert!(rt; redo.op == OpNo(0) && has_counts(changes));
    for field in &FIELDS {
        assert!(rt; has_field(changes, field));
    }
    Ok(())
}

fn without_changes(alloc: Global) -> Redo {
    Redo {
        op: OpNo(1),
        changes: Changes::from_vec(Vec::new(alloc)),
    }
}

#[test]
fn a_record_fits_with_some_changes(rt: HostRuntime) -> Result<(), Fail> {
    let redo = decode(rt.alloc(), &BODY)?.expect(&rt, "a record");
    assert!(rt; fits(&redo));
    assert!(rt; !fits(&without_changes(rt.alloc())));
    Ok(())
}
