// Logs by their pieces, and whether they are read as worked out.
use crate::blocks::{CHANGE_HEAD, add, empty_block, packed_block, part_block, put, slot_of};
use frang_base::limits::{LOG_BODY_BYTES, LOG_SECTORS, SECTOR_BYTES};
use frang_base::{Block, NoMemory, OpNo, Redo};
use log_reading::{greatest_operation, is_sealed, read_log};
use std::alloc::Global;
use std::process::Abort;
use std::test::Fail;
use test_tables::{columns, has_rows, is_row, number, split};

// The place of the first frame in a sector where none begins.
const NONE: u16 = 65_535;

fn push_sevens(bytes: &mut Vec<u8>, count: u16) -> Result<(), NoMemory> {
    bytes.resize(bytes.len().saturating_add(usize::from(count)), 7)?;
    Ok(())
}

// A change of a sector that takes so many bytes.
fn push_change(bytes: &mut Vec<u8>, sector: u8, size: u16) -> Result<(), NoMemory> {
    let patch = size.saturating_sub(22);
    bytes.push(sector)?;
    add(bytes, &CHANGE_HEAD)?;
    add(bytes, &patch.to_le_bytes())?;
    push_sevens(bytes, patch)
}

// The body of a record with this length, of changes of at most 500 bytes.
fn body(alloc: Global, len: u16) -> Result<Vec<u8>, NoMemory> {
    let mut left = len.saturating_sub(2);
    let count = left.div_ceil(500).min(9) as u8;
    let mut bytes = Vec::new(alloc);
    bytes.push(count)?;
    bytes.push(0)?;
    for sector in 0..count {
        push_change(&mut bytes, sector, left.min(500))?;
        left = left.saturating_sub(500);
    }
    Ok(bytes)
}

fn push_frame(alloc: Global, bytes: &mut Vec<u8>, op: u64, len: u16) -> Result<(), NoMemory> {
    let body = body(alloc, len)?;
    add(bytes, &op.to_le_bytes())?;
    add(bytes, &len.to_le_bytes())?;
    add(bytes, &body)
}

// Frames one behind the other, by the operation and the length of the body of each, and where each begins.
fn stream(alloc: Global, frames: &[u64]) -> Result<(Vec<u8>, Vec<usize>), NoMemory> {
    let mut bytes = Vec::new(alloc);
    let mut begins = Vec::new(alloc);
    for frame in frames.chunks(2) {
        begins.push(bytes.len())?;
        push_frame(alloc, &mut bytes, at(frame, 0), small_at(frame, 1))?;
    }
    Ok((bytes, begins))
}

// The place of the first of these that is in the sector whose first byte has this place.
fn first_in(begins: &[usize], from: usize) -> u16 {
    for begin in begins {
        if *begin >= from && *begin - from < LOG_BODY_BYTES {
            return (*begin - from) as u16;
        }
    }
    NONE
}

// Packed sectors of these frames, the first with this number.
fn lay_run(alloc: Global, slots: &mut [Block], first: u64, frames: &[u64]) -> Result<(), NoMemory> {
    let (bytes, begins) = stream(alloc, frames)?;
    for piece in 0..bytes.len().div_ceil(LOG_BODY_BYTES).min(20) {
        let from = LOG_BODY_BYTES * piece;
        let number = first.saturating_add(piece as u64);
        let rest = &bytes[from.min(bytes.len())..];
        let block = packed_block(number, first_in(&begins, from), rest);
        put(slots, slot_of(number), block);
    }
    Ok(())
}

// A packed sector in which the first frame begins at this place, with the next so many bytes of a frame of operation 7 and a body of 100 bytes: the first
// 60, or else the last 50.
fn lay_bytes(
    alloc: Global,
    slots: &mut [Block],
    number: u64,
    begins: u16,
    len: u16,
) -> Result<(), NoMemory> {
    let mut bytes = Vec::new(alloc);
    push_frame(alloc, &mut bytes, 7, 100)?;
    let from = if len == 60 { 0 } else { 60 };
    let end = usize::from(len).saturating_add(from).min(bytes.len());
    let block = packed_block(number, begins, &bytes[from.min(end)..end]);
    put(slots, slot_of(number), block);
    Ok(())
}

// A packed sector: the head of a frame of operation 9 with this length and a body of 3 bytes that is none, and a frame of operation 8.
fn lay_head(alloc: Global, slots: &mut [Block], number: u64, len: u16) -> Result<(), NoMemory> {
    let mut bytes = Vec::new(alloc);
    add(&mut bytes, b"\x09\0\0\0\0\0\0\0")?;
    add(&mut bytes, &len.to_le_bytes())?;
    add(&mut bytes, b"\x01\0\x05")?;
    push_frame(alloc, &mut bytes, 8, 100)?;
    let block = packed_block(number, 0, &bytes);
    put(slots, slot_of(number), block);
    Ok(())
}

// A part of a record of so many parts, at most 9.
fn lay_part(
    alloc: Global,
    slots: &mut [Block],
    number: u64,
    op: u64,
    part: u16,
    parts: u16,
) -> Result<(), NoMemory> {
    let bytes = body(alloc, parts.min(9).saturating_mul(452).saturating_add(2))?;
    let from = usize::from(part)
        .saturating_mul(LOG_BODY_BYTES)
        .min(bytes.len());
    let block = part_block(number, op, part, parts, &bytes[from..]);
    put(slots, slot_of(number), block);
    Ok(())
}

fn lay_record(
    alloc: Global,
    slots: &mut [Block],
    first: u64,
    op: u64,
    parts: u16,
) -> Result<(), NoMemory> {
    for part in 0..parts {
        let number = first.saturating_add(u64::from(part));
        lay_part(alloc, slots, number, op, part, parts)?;
    }
    Ok(())
}

fn put_empty(slots: &mut [Block], number: u64) {
    let block = empty_block(number);
    put(slots, slot_of(number), block);
}

fn lay_empty(slots: &mut [Block], first: u64, last: u64) {
    for number in first..=last {
        put_empty(slots, number);
    }
}

fn lay_garbage(slots: &mut [Block], first: usize, last: usize) {
    for slot in first..=last {
        put(slots, slot, [7; SECTOR_BYTES]);
    }
}

fn put_placed(slots: &mut [Block], number: u64, slot: usize) {
    let block = part_block(number, 0, 0, 0, &[]);
    put(slots, slot, block);
}

fn put_no_body(slots: &mut [Block], number: u64, op: u64) {
    let block = part_block(number, op, 0, 1, b"\x01\0\x05");
    put(slots, slot_of(number), block);
}

// The number at a place, 0 where there is none.
fn at(numbers: &[u64], place: usize) -> u64 {
    numbers.get(place).copied().unwrap_or(0)
}

fn small_at(numbers: &[u64], place: usize) -> u16 {
    at(numbers, place).min(65_535) as u16
}

// The slot that a number tells.
fn slot_at(numbers: &[u64], place: usize) -> usize {
    at(numbers, place).min(LOG_SECTORS) as usize
}

// A piece whose bytes take memory.
fn lay_made(alloc: Global, slots: &mut [Block], word: &str, n: &[u64]) -> Result<(), NoMemory> {
    let first = at(n, 0);
    match word {
        "frames" => lay_run(alloc, slots, first, n.get(1..).unwrap_or(&[])),
        "record" => lay_record(alloc, slots, first, at(n, 1), small_at(n, 2)),
        "part" => lay_part(
            alloc,
            slots,
            first,
            at(n, 1),
            small_at(n, 2),
            small_at(n, 3),
        ),
        "bytes" => lay_bytes(alloc, slots, first, small_at(n, 1), small_at(n, 2)),
        "head" => lay_head(alloc, slots, first, small_at(n, 1)),
        _ => Ok(()),
    }
}

// The pieces of a log are laid over one of zeros, which holds the numbers 0 to 255, each by its word and its numbers:
// - `empty 256 300`: empty sectors, from one number up to another.
// - `frames 256 1 100 2 50`: packed sectors from a number on; each frame by its operation and the length of its body.
// - `bytes 256 0 60` and `head 256 3`: as `lay_bytes` and `lay_head` say.
// - `record 256 7 2`: all sectors of a record with sectors of its own, from a number on; its operation, and how many parts it has.
// - `part 256 7 0 2`: one sector of a record, with a number; the operation, the part, and how many parts there are.
// - `no_body 256 7`: the only sector of a record of this operation, whose body is that of none.
// - `placed 256 5`: an empty sector with a number, in any slot.
// - `garbage 5 9`: no sectors, from one slot up to another.
// - `lacks 256`: the slot of this number as it was at first, since the sector didn't arrive.
fn lay(alloc: Global, slots: &mut [Block], word: &str, n: &[u64]) -> Result<(), NoMemory> {
    match word {
        "empty" => lay_empty(slots, at(n, 0), at(n, 1)),
        "garbage" => lay_garbage(slots, slot_at(n, 0), slot_at(n, 1)),
        "placed" => put_placed(slots, at(n, 0), slot_at(n, 1)),
        "no_body" => put_no_body(slots, at(n, 0), at(n, 1)),
        "lacks" => put(slots, slot_of(at(n, 0)), [0; SECTOR_BYTES]),
        _ => return lay_made(alloc, slots, word, n),
    }
    Ok(())
}

fn numbers_of(alloc: Global, words: &str) -> Result<Vec<u64>, NoMemory> {
    let mut numbers = Vec::new(alloc);
    for word in words.split_whitespace() {
        match number(word) {
            Some(number) => numbers.push(number)?,
            None => return Err(NoMemory),
        }
    }
    Ok(numbers)
}

// How many numbers a piece has at least, by its word.
fn fewest_numbers(word: &str) -> Option<usize> {
    match word {
        "" => Some(0),
        "frames" | "lacks" => Some(1),
        "empty" | "garbage" | "placed" | "no_body" | "head" => Some(2),
        "record" | "bytes" => Some(3),
        "part" => Some(4),
        _ => None,
    }
}

// What is no piece is refused by the error that want of memory has.
fn lay_piece(alloc: Global, slots: &mut [Block], piece: &str) -> Result<(), NoMemory> {
    let (word, words) = split(piece.trim(), " ");
    let numbers = numbers_of(alloc, words)?;
    match fewest_numbers(word) {
        Some(fewest) if fewest <= numbers.len() => lay(alloc, slots, word, &numbers),
        _ => Err(NoMemory),
    }
}

// The slots of the log of these pieces.
fn slots_with(alloc: Global, pieces: &str) -> Result<Vec<Block>, NoMemory> {
    let mut slots = vec![in alloc; [0; SECTOR_BYTES]; LOG_SECTORS as usize]?;
    for piece in pieces.split(',') {
        lay_piece(alloc, &mut slots, piece)?;
    }
    Ok(slots)
}

/// Whether the log of these pieces is sealed.
pub(crate) fn sealed(alloc: Global, pieces: &str) -> Result<Option<bool>, NoMemory> {
    let slots = slots_with(alloc, pieces)?;
    if slots.len() != LOG_SECTORS as usize {
        return Ok(None);
    }
    Ok(Some(is_sealed(alloc, &slots)?))
}

// The end of the log of these pieces, and its records.
fn read(alloc: Global, pieces: &str) -> Result<Option<(u64, Vec<Redo>)>, NoMemory> {
    let slots = slots_with(alloc, pieces)?;
    if slots.len() != LOG_SECTORS as usize {
        return Ok(None);
    }
    Ok(Some(read_log(alloc, &slots)?))
}

// The records are of these operations, in order, the greatest of which is the log's.
fn are_records(records: &[Redo], operations: &[u64]) -> bool {
    let mut greatest = 0;
    for (place, record) in records.iter().enumerate() {
        if operations.get(place) != Some(&record.op.0) {
            return false;
        }
        greatest = record.op.0.max(greatest);
    }
    records.len() == operations.len() && greatest_operation(records) == OpNo(greatest)
}

// The log of these pieces has this end and these records, told by their operations.
fn is_read(alloc: Global, pieces: &str, told: &str) -> Result<bool, NoMemory> {
    let (wanted, operations) = split(told, ":");
    let operations = numbers_of(alloc, operations)?;
    Ok(match read(alloc, pieces)? {
        Some((end, records)) => {
            number(wanted) == Some(end) && are_records(&records, &operations)
        }
        None => false,
    })
}

/// Each of these logs is read as worked out: a row has its name, its pieces, and its end with the operations of its records.
pub(crate) fn expect(rt: &impl Abort, alloc: Global, rows: &str) -> Result<(), Fail> {
    assert!(rt; has_rows(rows));
    for row in rows.lines() {
        if is_row(row) {
            let (name, pieces, told) = columns(row);
            assert!(rt; is_read(alloc, pieces, told)?, "{name}");
        }
    }
    Ok(())
}
