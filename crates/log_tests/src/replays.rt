// Disks with logs whose replay was worked out by hand.
use crate::blocks::{add, packed_block, part_block};
use disk_definitions::Disk;
use disk_replay::{greatest, is_replayed as may_change, records_of, replayed, replayed_block};
use frang_base::{Block, NoMemory, OpNo, Sector, ServerId};
use std::alloc::Global;
use std::test::Fail;
use test_tables::{block_of, lay_on, sector, split};

const PARAMETER_SECTOR: u64 = 0;

pub(crate) const LOG_0: u64 = 2_147_483_648;

const LOG_255: u64 = 4_286_578_688;

const SEGMENT_0: u64 = 4_294_967_296;

const SEGMENT_16: u64 = 4_294_967_312;

const INODE_1: u64 = 10_737_418_241;

const INODE_2: u64 = 10_737_418_242;

const BLOCK_0: u64 = 12_884_901_888;

const LARGE_0: u64 = 287_762_808_832;

// A change by one patch of one byte: the sector, the version, the byte's place and its value.
type OneByte = (u64, u64, u16, u8);

// A disk of 16 segments in its first run: its parameters, and the other sectors that are set, but for the logs.
const PARAMETERS: &str = "0 0:'FRANGPAR 8:010000001000000001";

const BEFORE: &str = "
k0 0:01000000000000000506
i1 0:010000000000000001020304
i2 0:050000000000000007
l0 0:'bytes
";

// The first record of log 0. Replays change its third, fifth and seventh sector, but the sixth is as new.
static MANY: [OneByte; 8] = [
    (PARAMETER_SECTOR, u64::MAX, 16, 2),
    (LOG_0 + 9, 9, 8, 1),
    (SEGMENT_0, 2, 8, 0x20),
    (SEGMENT_16, 9, 8, 1),
    (INODE_1, 2, 8, 0x21),
    (INODE_2, 5, 8, 1),
    (BLOCK_0, 1, 511, 0x22),
    (LARGE_0, u64::MAX, 8, 1),
];

// The second record of log 0, and that of log 255.
static SECOND: [OneByte; 1] = [(INODE_1, 3, 9, 0x23)];

static OTHER: [OneByte; 1] = [(INODE_1, 4, 10, 0x24)];

// What those sectors and the logs hold once all is replayed. Inode 1 was changed by three records, in their order.
const AFTER: &str = "
0 0:'FRANGPAR 8:010000001000000001
2147483648
2147483649
2147483657
4286578688
k0 0:02000000000000002006
k16
i1 0:040000000000000021232404
i2 0:050000000000000007
s0 0:01 511:22
l0 0:'bytes
";

fn push_change(bytes: &mut Vec<u8>, change: &OneByte) -> Result<(), NoMemory> {
    let (sector, version, place, byte) = *change;
    add(bytes, &sector.to_le_bytes())?;
    add(bytes, &version.to_le_bytes())?;
    add(bytes, b"\x01\0")?;
    add(bytes, &place.to_le_bytes())?;
    add(bytes, b"\x01\0")?;
    bytes.push(byte)?;
    Ok(())
}

// The body of a record of these changes, fewer than 256.
fn body(alloc: Global, changes: &[OneByte]) -> Result<Vec<u8>, NoMemory> {
    let mut bytes = Vec::new(alloc);
    bytes.push(changes.len().min(255) as u8)?;
    bytes.push(0)?;
    for change in changes {
        push_change(&mut bytes, change)?;
    }
    Ok(bytes)
}

// The record of an operation, alone in the sector of a log with this number.
fn record(alloc: Global, number: u64, op: u64, changes: &[OneByte]) -> Result<Block, NoMemory> {
    let body = body(alloc, changes)?;
    Ok(part_block(number, op, 0, 1, &body))
}

pub(crate) fn set(disk: &mut Disk, sector: u64, block: Block) -> Result<(), NoMemory> {
    disk.set(Sector(sector), block)
}

// Lays two records in log 0 and one in log 255, as an older program wrote them, and what stands beside the logs.
fn lay_logs(alloc: Global, disk: &mut Disk) -> Result<(), NoMemory> {
    lay_on(disk, PARAMETERS)?;
    lay_on(disk, BEFORE)?;
    set(disk, LOG_0, record(alloc, 256, 5, &MANY)?)?;
    set(disk, LOG_0 + 1, record(alloc, 257, 4, &SECOND)?)?;
    set(disk, LOG_255, record(alloc, 256, 9, &OTHER)?)
}

pub(crate) fn with_logs(alloc: Global) -> Result<Disk, NoMemory> {
    let mut disk = Disk::new(alloc);
    lay_logs(alloc, &mut disk)?;
    Ok(disk)
}

// The frame of a record.
fn push_frame(
    alloc: Global,
    bytes: &mut Vec<u8>,
    op: u64,
    changes: &[OneByte],
) -> Result<(), NoMemory> {
    let body = body(alloc, changes)?;
    let len = body.len().min(4096) as u16;
    add(bytes, &op.to_le_bytes())?;
    add(bytes, &len.to_le_bytes())?;
    add(bytes, &body)
}

// The records of log 0 packed in one sector.
fn packed_log(alloc: Global) -> Result<Block, NoMemory> {
    let mut bytes = Vec::new(alloc);
    push_frame(alloc, &mut bytes, 5, &MANY)?;
    push_frame(alloc, &mut bytes, 4, &SECOND)?;
    Ok(packed_block(256, 0, &bytes))
}

// The same disk with that sector.
pub(crate) fn with_packed_log(alloc: Global) -> Result<Disk, NoMemory> {
    let mut disk = with_logs(alloc)?;
    set(&mut disk, LOG_0, packed_log(alloc)?)?;
    set(&mut disk, LOG_0 + 1, [0; 512])?;
    Ok(disk)
}

// Whether a line's sector has the pieces that it tells, and zeros else.
fn is_so(disk: &Disk, line: &str) -> Result<bool, NoMemory> {
    let (word, pieces) = split(line, " ");
    match sector(word) {
        Some(number) => Ok(disk.get(Sector(number)) == block_of(0, pieces)?),
        None => Ok(line.is_empty()),
    }
}

// Whether all sectors of a text are as its lines tell.
pub(crate) fn are_so(disk: &Disk, text: &str) -> Result<bool, NoMemory> {
    for line in text.lines() {
        if !is_so(disk, line)? {
            return Ok(false);
        }
    }
    Ok(true)
}

// What the replay of a disk holds is as worked out.
fn is_as_worked_out(once: &Disk) -> Result<bool, NoMemory> {
    are_so(once, AFTER)
}

// Servers, and the greatest operations of their logs.
static GREATEST: [(u8, u64); 3] = [(0, 5), (7, 0), (255, 9)];

fn greatest_of(alloc: Global, disk: &Disk, server: u8) -> Result<u64, NoMemory> {
    let OpNo(op) = greatest(alloc, disk, ServerId(server))?;
    Ok(op)
}

// The greatest operations of the disk's logs are as worked out.
fn are_greatest(alloc: Global, disk: &Disk) -> Result<bool, NoMemory> {
    for (server, op) in &GREATEST {
        if greatest_of(alloc, disk, *server)? != *op {
            return Ok(false);
        }
    }
    Ok(true)
}

fn replay(alloc: Global, disk: &Disk) -> Result<Disk, NoMemory> {
    replayed(alloc, disk)
}

// The greatest operations of the disk's logs and what its replay, and the replay of that, hold are as worked out.
fn is_replayed(alloc: Global, disk: &Disk) -> Result<bool, NoMemory> {
    let once = replay(alloc, disk)?;
    Ok(are_greatest(alloc, disk)? && is_left(alloc, &once)?)
}

// So is what a replay leaves, whose logs are empty.
fn is_left(alloc: Global, once: &Disk) -> Result<bool, NoMemory> {
    let twice = replay(alloc, once)?;
    let is_empty = greatest_of(alloc, once, 0)? == 0;
    Ok(is_as_worked_out(once)? && is_as_worked_out(&twice)? && is_empty)
}

#[test]
fn logs_are_replayed_in_their_order(rt: HostRuntime) -> Result<(), Fail> {
    let disk = with_logs(rt.alloc())?;
    assert!(rt; is_replayed(rt.alloc(), &disk)?);
    Ok(())
}

#[test]
fn packed_logs_are_replayed_in_their_order(rt: HostRuntime) -> Result<(), Fail> {
    let disk = with_packed_log(rt.alloc())?;
    assert!(rt; is_replayed(rt.alloc(), &disk)?);
    Ok(())
}

// What is otherwise without parameters.
const UNCHANGED: &str = "
0 0:'FRANGPAR 8:02
2147483648
4286578688
s0
";

fn without_parameters(alloc: Global) -> Result<Disk, NoMemory> {
    let mut disk = with_logs(alloc)?;
    set(
        &mut disk,
        PARAMETER_SECTOR,
        block_of(0, "0:'FRANGPAR 8:02")?,
    )?;
    Ok(disk)
}

// Its replay changes nothing but the logs.
fn stays_as_it_is(alloc: Global, disk: &Disk) -> Result<bool, NoMemory> {
    let once = replay(alloc, disk)?;
    Ok(are_so(&once, BEFORE)? && are_so(&once, UNCHANGED)?)
}

#[test]
fn without_parameters_no_change_is_made(rt: HostRuntime) -> Result<(), Fail> {
    let disk = without_parameters(rt.alloc())?;
    assert!(rt; stays_as_it_is(rt.alloc(), &disk)?);
    Ok(())
}

// Inode 1 once both records of log 0 are replayed.
const INODE_1_AFTER: &str = "0:030000000000000021230304";

fn is_block_replayed(alloc: Global, disk: &Disk) -> Result<bool, NoMemory> {
    let records = records_of(alloc, disk, ServerId(0))?;
    let block = replayed_block(&records, Sector(INODE_1), &disk.get(Sector(INODE_1)));
    Ok(block == block_of(0, INODE_1_AFTER)?)
}

#[test]
fn one_sector_is_replayed_as_all_are(rt: HostRuntime) -> Result<(), Fail> {
    let disk = with_logs(rt.alloc())?;
    assert!(rt; is_block_replayed(rt.alloc(), &disk)?);
    assert!(rt; may_change(16, Sector(INODE_1)) && !may_change(16, Sector(LOG_0)));
    Ok(())
}
