// Sectors worked out by hand.
ghost use Rattle.std.specs.Prelude.{◌<◌, ◌%◌, ◌^◌, IsTrue};
ghost use Rattle.disk_definitions.specs.LogSectors.{log_sector_fits};

use frang_base::{Block, OpNo};
use log_record::{LogSector, sector_read, sector_write};

// The only sector of a record of operation 2^32 + 5 in slot 2, whose body is one byte.
fn only_part() -> LogSector
    ensures { IsTrue (log_sector_fits (result.seq % 256) result) }
{
    let mut body = [0; 488];
    body[0] = 9;
    LogSector {
        seq: 258,
        op: OpNo((1 << 32) + 5),
        part: 0,
        parts: 1,
        used: 1,
        body,
    }
}

fn empty(seq: u64) -> LogSector
    requires { seq < 2 ^ 63 }
    ensures { IsTrue (log_sector_fits (result.seq % 256) result) }
{
    LogSector {
        seq,
        op: OpNo(0),
        part: 0,
        parts: 0,
        used: 0,
        body: [0; 488],
    }
}

fn put_byte(block: &mut Block, at: usize, byte: u8) {
    if let Some(place) = block.get_mut(at) {
        *place = byte;
    }
}

fn block_of(bytes: &[(usize, u8)]) -> Block {
    let mut block = [0; 512];
    for (at, byte) in bytes {
        put_byte(&mut block, *at, *byte);
    }
    block
}

static ONLY_PART: [(usize, u8); 7] = [(0, 2), (1, 1), (8, 5), (12, 1), (18, 1), (20, 1), (24, 9)];

#[test]
fn sectors_are_written_as_worked_out_by_hand(rt: HostRuntime) {
    let mut block = [7; 512];
    sector_write(&only_part(), &mut block);
    assert!(rt; block == block_of(&ONLY_PART));
    assert!(rt; sector_read(&block, 2) == Some(only_part()));
    sector_write(&empty(256), &mut block);
    assert!(rt; block == block_of(&[(1, 1)]));
    assert!(rt; sector_read(&block, 0) == Some(empty(256)));
}

static SLOTS: [u8; 3] = [0, 7, 255];

#[test]
fn zeros_are_the_empty_sector_of_their_slot(rt: HostRuntime) {
    let mut block = [7; 512];
    sector_write(&empty(7), &mut block);
    assert!(rt; block == [0; 512]);
    for slot in &SLOTS {
        let found = sector_read(&[0; 512], *slot);
        assert!(rt; found == Some(empty(u64::from(*slot))), "slot {slot}");
    }
}

// What is changed in the block of the only part, by its place and the byte there.
static OTHER: [(&str, usize, u8); 11] = [
    ("a number below 256", 1, 0),
    ("another slot", 0, 3),
    ("a number from 2^63 on", 7, 128),
    ("a part that is no part", 16, 1),
    ("no parts", 18, 0),
    ("no bytes used", 20, 0),
    ("more bytes than there are", 21, 2),
    ("a byte before the body", 22, 1),
    ("another byte before the body", 23, 1),
    ("a byte behind the used ones", 25, 1),
    ("the last byte", 511, 1),
];

#[test]
fn other_blocks_are_refused(rt: HostRuntime) {
    for (what, at, byte) in &OTHER {
        let mut block = block_of(&ONLY_PART);
        put_byte(&mut block, *at, *byte);
        assert!(rt; sector_read(&block, 2).is_none(), "{what}");
    }
}

// A packed sector in which the first frame begins at this place, with so many bytes in use and an operation, of which a packed one has none.
fn packed(begins: u16, used: u16, op: u8) -> Block {
    let [begins, begins_high] = begins.to_le_bytes();
    let [used, used_high] = used.to_le_bytes();
    block_of(&[
        (0, 2),
        (1, 1),
        (8, op),
        (16, begins),
        (17, begins_high),
        (18, 255),
        (19, 255),
        (20, used),
        (21, used_high),
        (24, 9),
    ])
}

// Where the first frame begins, how many bytes are in use, the operation, and whether it is a sector.
static PACKED: [(u16, u16, u8, bool); 8] = [
    (0, 1, 0, true),
    (487, 488, 0, true),
    (65_535, 488, 0, true),
    (1, 1, 0, false),
    (488, 488, 0, false),
    (0, 0, 0, false),
    (0, 489, 0, false),
    (0, 1, 5, false),
];

// The block is read, as a packed sector with so many bytes in use, or isn't.
fn is_read(block: &Block, used: u16, read: bool) -> bool {
    match sector_read(block, 2) {
        Some(sector) => read && sector.parts == LogSector::PACKED && sector.used == used,
        None => !read,
    }
}

#[test]
fn packed_sectors_are_read(rt: HostRuntime) {
    for (begins, used, op, read) in &PACKED {
        assert!(rt;
            is_read(&packed(*begins, *used, *op), *used, *read),
            "from {begins}, {used} bytes, operation {op}"
        );
    }
}

// A part, how many there are, how many bytes are in use, and whether it is a sector.
static PARTS: [(u8, u8, u16, bool); 7] = [
    (0, 2, 488, true),
    (0, 2, 487, false),
    (1, 2, 487, true),
    (8, 9, 488, true),
    (8, 10, 488, false),
    (9, 10, 488, false),
    (8, 9, 489, false),
];

// The block of the only part, but for these fields.
fn block_with(part: u8, parts: u8, used: u16) -> Block {
    let [used, used_high] = used.to_le_bytes();
    let mut block = block_of(&ONLY_PART);
    block[16] = part;
    block[18] = parts;
    block[20] = used;
    block[21] = used_high;
    block
}

#[test]
fn parts_of_longer_records_use_their_body(rt: HostRuntime) {
    for (part, parts, used, read) in &PARTS {
        let found = sector_read(&block_with(*part, *parts, *used), 2);
        assert!(rt;
            found.is_some() == *read,
            "part {part} of {parts}, {used} bytes"
        );
    }
}
