// Packed sectors that wait to be issued, and a frame more on them.
ghost use Rattle.std.specs.Prelude.{◌≡◌, ◌<◌, ◌+◌, ◌-◌, ◌≤◌, ◌++◌, ◌/◌, ◌⊎◌, length, IsTrue};
ghost use Rattle.std.specs.List.{list_all};
ghost use Rattle.std.specs.VecDeque.{deque_len, deque_capacity};
ghost use Rattle.frang_base.specs.declared.limits.TheConstants.{LOG_BODY_BYTES, LOG_NUMBERS_END, LOG_SECTORS};
ghost use Rattle.sector_bytes.specs.Bytes.{zeros};
ghost use Rattle.disk_definitions.specs.LogSectors.{is_packed_sector, none_begins};
ghost use Rattle.disk_definitions.specs.Frames.{frame_bytes, frame_most};
ghost use Rattle.ring_definitions.specs.Rings as rings;
ghost use Rattle.ring_definitions.specs.Rings.{is_record, sectors_for, packed_sectors, framed};
ghost use Rattle.wal_ring.specs.Kept.{is_waiting, filled_last};

use frang_base::limits::LOG_BODY_BYTES;
use frang_base::{OpNo, Redo};
use log_record::{FRAME_HEAD, LogSector, record_length};
use std::collections::VecDeque;

/// How many bytes the frame of a record has.
pub(crate) fn frame_length(redo: &Redo) -> usize
    requires { IsTrue (is_record redo.now) }
    ensures bytes { result ≡ length (frame_bytes redo.now) }
    ensures few { result ≤ frame_most }
{
    FRAME_HEAD + record_length(redo)
}

/// For how many bytes the last of the sectors that wait has room.
pub(crate) fn open_room(waiting: &VecDeque<LogSector>) -> usize
    ensures room { result ≡ rings.open_room waiting.now.items }
    ensures few { result ≤ LOG_BODY_BYTES }
{
    match waiting.back() {
        Some(last) => LOG_BODY_BYTES.saturating_sub(usize::from(last.used)),
        None => 0,
    }
}

/// Puts a frame on the sectors that wait: on the last one where it has room, and then on further ones, of which the first has this number. There is room
/// for them.
pub(crate) fn put_frame(waiting: &mut VecDeque<LogSector>, next: u64, frame: &[u8])
    requires some { 1 ≤ length frame.now }
    requires few { length frame.now ≤ frame_most }
    requires next { LOG_SECTORS ≤ next }
    requires numbers { next + 10 < LOG_NUMBERS_END }
    requires room { deque_len waiting.old + sectors_for (length frame.now - rings.open_room waiting.old.items) ≤ deque_capacity waiting.old }
    requires fits { IsTrue (list_all is_waiting waiting.old.items) }
    ensures items { waiting.new.items ≡ framed next waiting.old.items frame.now }
    ensures len { deque_len waiting.new ≡ deque_len waiting.old + sectors_for (length frame.now - rings.open_room waiting.old.items) }
    ensures fit { IsTrue (list_all is_waiting waiting.new.items) }
    ensures capacity { deque_capacity waiting.old ≤ deque_capacity waiting.new }
{
    let room = open_room(waiting);
    if room == 0 {
        put_sectors(waiting, next, 0, frame);
    } else {
        let (begun, rest) = frame.split_at(room.min(frame.len()));
        fill_last(waiting, begun);
        put_sectors(waiting, next, LogSector::NONE_BEGINS, rest);
    }
}

// Puts bytes on the last of the sectors that wait, which has room for them.
fn fill_last(waiting: &mut VecDeque<LogSector>, bytes: &[u8])
    requires some { 1 ≤ length bytes.now }
    requires room { length bytes.now ≤ rings.open_room waiting.old.items }
    requires fits { IsTrue (list_all is_waiting waiting.old.items) }
    ensures items { waiting.new.items ≡ filled_last waiting.old.items bytes.now }
    ensures len { deque_len waiting.new ≡ deque_len waiting.old }
    ensures fit { IsTrue (list_all is_waiting waiting.new.items) }
    ensures capacity { deque_capacity waiting.old ≤ deque_capacity waiting.new }
{
    let Some(last) = waiting.pop_back() else {
        return;
    };
    match waiting.push_back(filled(last, bytes)) {
        Ok(()) => {}
        Err(_) => unreachable!(),
    }
}

// The sector with these bytes behind its own, at which a frame begins.
fn filled(sector: LogSector, bytes: &[u8]) -> LogSector
    requires some { 1 ≤ length bytes.now }
    requires room { sector.used + length bytes.now ≤ LOG_BODY_BYTES }
    requires fits { IsTrue (is_waiting sector) }
    ensures sector { result ≡ rings.filled sector bytes.now }
    ensures fits { IsTrue (is_waiting result) }
{
    let used = usize::from(sector.used);
    let mut body = sector.body;
    body[used..used + bytes.len()].copy_from_slice(bytes);
    let begins = sector.part == LogSector::NONE_BEGINS;
    LogSector {
        seq: sector.seq,
        op: sector.op,
        part: if begins { sector.used } else { sector.part },
        parts: sector.parts,
        used: (used + bytes.len()) as u16,
        body,
    }
}

// Adds packed sectors with these bytes behind those that wait, the first with this number and part. There is room for them.
fn put_sectors(waiting: &mut VecDeque<LogSector>, first: u64, part: u16, bytes: &[u8])
    requires part { (part ≡ 0) ⊎ (part ≡ none_begins) }
    requires few { length bytes.now ≤ frame_most }
    requires first { LOG_SECTORS ≤ first }
    requires numbers { first + 10 < LOG_NUMBERS_END }
    requires room { deque_len waiting.old + sectors_for (length bytes.now) ≤ deque_capacity waiting.old }
    requires fits { IsTrue (list_all is_waiting waiting.old.items) }
    ensures items { waiting.new.items ≡ waiting.old.items ++ packed_sectors first part bytes.now }
    ensures len { deque_len waiting.new ≡ deque_len waiting.old + sectors_for (length bytes.now) }
    ensures fit { IsTrue (list_all is_waiting waiting.new.items) }
    ensures capacity { deque_capacity waiting.old ≤ deque_capacity waiting.new }
{
    let mut number = first;
    let mut part = part;
    let mut rest = bytes;
    while !rest.is_empty() {
        let (piece, behind) = rest.split_at(rest.len().min(LOG_BODY_BYTES));
        match waiting.push_back(packed_sector(number, part, piece)) {
            Ok(()) => {}
            Err(_) => unreachable!(),
        }
        number += 1;
        part = LogSector::NONE_BEGINS;
        rest = behind;
    }
}

// A packed sector with these bytes.
fn packed_sector(number: u64, part: u16, bytes: &[u8]) -> LogSector
    requires part { (part ≡ 0) ⊎ (part ≡ none_begins) }
    requires some { 1 ≤ length bytes.now }
    requires few { length bytes.now ≤ LOG_BODY_BYTES }
    requires first { LOG_SECTORS ≤ number }
    requires numbers { number < LOG_NUMBERS_END }
    ensures sector { result ≡ rings.packed_sector number part bytes.now }
    ensures fits { IsTrue (is_waiting result) }
{
    LogSector {
        seq: number,
        op: OpNo(0),
        part,
        parts: LogSector::PACKED,
        used: bytes.len() as u16,
        body: padded(bytes),
    }
}

// The bytes, and zeros behind them.
#[tactic(auto, unfolding(sector_bytes::specs::Bytes::zeros))]
fn padded(bytes: &[u8]) -> [u8; LOG_BODY_BYTES]
    requires { length bytes.now ≤ LOG_BODY_BYTES }
    ensures { result ≡ bytes.now ++ zeros (LOG_BODY_BYTES - length bytes.now) }
{
    let mut body = [0; LOG_BODY_BYTES];
    body[..bytes.len()].copy_from_slice(bytes);
    body
}
