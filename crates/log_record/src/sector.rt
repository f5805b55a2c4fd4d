// A sector of a log as a block, and back.
ghost use Rattle.std.specs.Prelude.{◌≡◌, ◌<◌, ◌+◌, ◌%◌, ◌==◌, ◌&&◌, IfSome, IsTrue, drop, if◌then◌else◌, nat_le};
ghost use Rattle.frang_base.specs.declared.limits.TheConstants.{LOG_BODY_BYTES, LOG_SECTORS};
ghost use Rattle.sector_bytes.specs.Bytes as spec;
ghost use Rattle.disk_definitions.specs.LogSectors as sectors;
ghost use Rattle.disk_definitions.specs.LogSectors.{log_sector_bytes, log_sector_fields, log_sector_fits, log_sector_in, numbered_bytes, numbered_sector_in, is_empty_sector, is_filled_sector, is_packed_sector, is_record_sector};

use byteorder::{ByteOrder, LittleEndian};
use disk_definitions::LogSector;
use frang_base::limits::{
    LOG_BODY_BYTES, LOG_NUMBERS_END, LOG_SECTORS, RECORD_SECTORS_MAX, SECTOR_BYTES,
};
use frang_base::{Block, OpNo};
use sector_bytes::{are_zero, is_zero_block, zero_block};

/// Makes the block this sector of a log.
pub fn sector_write(s: &LogSector, to: &mut Block)
    requires { IsTrue (log_sector_fits (s.now.seq % LOG_SECTORS) s.now) }
    ensures { to.new ≡ log_sector_bytes s.now }
{
    if s.seq < LOG_SECTORS {
        *to = zero_block();
    } else {
        write_fields(s, to);
    }
}

/// The sector of a log that the block in this slot is. `None` exactly where no such sector may stand there.
pub fn sector_read(b: &Block, slot: u8) -> Option<LogSector>
    ensures value { result ≡ log_sector_in slot b.now }
    ensures fits { IfSome result (λ x. IsTrue (log_sector_fits slot x)) }
{
    if is_zero_block(b) {
        return Some(empty_sector(slot));
    }
    numbered_sector(b, slot, fields(b))
}

// The fields one after the other.
fn write_fields(s: &LogSector, to: &mut Block)
    ensures { to.new ≡ numbered_bytes s.now }
{
    *to = [0; SECTOR_BYTES];
    LittleEndian::write_u64(&mut to[..8], s.seq);
    LittleEndian::write_u64(&mut to[8..16], s.op.0);
    LittleEndian::write_u16(&mut to[16..18], s.part);
    LittleEndian::write_u16(&mut to[18..20], s.parts);
    LittleEndian::write_u16(&mut to[20..22], s.used);
    to[24..].copy_from_slice(&s.body);
}

// What stands at the places of the fields.
fn fields(b: &Block) -> LogSector
    ensures { result ≡ log_sector_fields b.now }
{
    LogSector {
        seq: LittleEndian::read_u64(b),
        op: OpNo(LittleEndian::read_u64(&b[8..])),
        part: LittleEndian::read_u16(&b[16..]),
        parts: LittleEndian::read_u16(&b[18..]),
        used: LittleEndian::read_u16(&b[20..]),
        body: body_of(b),
    }
}

fn body_of(b: &Block) -> [u8; LOG_BODY_BYTES]
    ensures { result ≡ drop 24 b.now }
{
    let mut body = [0; LOG_BODY_BYTES];
    body.copy_from_slice(&b[24..]);
    body
}

// The empty sector that stands in this slot as zeros.
#[tactic(auto, unfolding(sector_bytes::specs::Bytes::zeros))]
fn empty_sector(slot: u8) -> LogSector
    ensures { result ≡ sectors.empty_sector slot }
{
    LogSector {
        seq: u64::from(slot),
        op: OpNo(0),
        part: 0,
        parts: 0,
        used: 0,
        body: [0; LOG_BODY_BYTES],
    }
}

// This sector with a number of its own, where the block is it.
fn numbered_sector(b: &Block, slot: u8, s: LogSector) -> Option<LogSector>
    ensures { result ≡ numbered_sector_in slot b.now s }
{
    if s.seq < LOG_SECTORS || !fits(&s, slot) {
        return None;
    }
    let mut again = [0; SECTOR_BYTES];
    write_fields(&s, &mut again);
    (again == *b).then_some(s)
}

// The sector may stand in this slot.
fn fits(s: &LogSector, slot: u8) -> bool
    ensures { result ≡ log_sector_fits slot s.now }
{
    s.seq < LOG_NUMBERS_END
        && s.seq % LOG_SECTORS == u64::from(slot)
        && (is_empty(s) || is_filled(s))
}

// All but the number is 0.
fn is_empty(s: &LogSector) -> bool
    ensures { result ≡ is_empty_sector s.now }
{
    s.op.0 == 0 && s.part == 0 && s.parts == 0 && s.used == 0 && are_zero(&s.body)
}

// The sector has bytes of records.
fn is_filled(s: &LogSector) -> bool
    ensures { result ≡ is_filled_sector s.now }
{
    is_record(s) || is_packed(s)
}

// Frames of records follow one another in the sector.
fn is_packed(s: &LogSector) -> bool
    ensures { result ≡ is_packed_sector s.now }
{
    let used = usize::from(s.used);
    s.seq >= LOG_SECTORS
        && s.op.0 == 0
        && s.parts == LogSector::PACKED
        && 1 <= used
        && used <= LOG_BODY_BYTES
        && (s.part < s.used || s.part == LogSector::NONE_BEGINS)
        && are_zero(&s.body[used..])
}

// The sector is a part of a record that has its sectors for itself.
fn is_record(s: &LogSector) -> bool
    ensures { result ≡ is_record_sector s.now }
{
    s.seq >= LOG_SECTORS
        && s.op.0 >= 1
        && s.part < s.parts
        && s.parts <= RECORD_SECTORS_MAX
        && uses_its_body(s)
}

// Every part but the last uses the whole body, the last at least one byte, and zeros follow.
fn uses_its_body(s: &LogSector) -> bool
    requires { s.now.part < s.now.parts }
    ensures { result ≡ (if s.now.part + 1 == s.now.parts then nat_le 1 s.now.used && nat_le s.now.used LOG_BODY_BYTES else s.now.used == LOG_BODY_BYTES) && spec.are_zero (drop s.now.used s.now.body) }
{
    let fills = if s.part + 1 == s.parts {
        1 <= s.used && s.used as usize <= LOG_BODY_BYTES
    } else {
        s.used as usize == LOG_BODY_BYTES
    };
    fills && are_zero(&s.body[usize::from(s.used)..])
}
