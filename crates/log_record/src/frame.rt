// Frames of packed sectors: an operation, the length of a record's body, and the body.
ghost use Rattle.std.specs.Prelude.{◌≡◌, ◌+◌, ◌<◌, ◌≤◌, ◌^◌, ◌++◌, length, vec_len, vec_capacity, IsTrue, OnOk, OnErr};
ghost use Rattle.std.specs.Option.{option_map};
ghost use Rattle.byteorder.specs.Endian.{little_bytes};
ghost use Rattle.disk_definitions.specs.Frames.{frame_bytes, frame_read};
ghost use Rattle.disk_definitions.specs.Records.{record_fits};

use crate::reading::Unread;
use crate::writing::{push_record, record_length};
use byteorder::{ByteOrder, LittleEndian};
use frang_base::limits::RECORD_BYTES_MAX;
use frang_base::{NoMemory, OpNo, Redo};

/// The bytes of a frame before the record's body: the operation's number and the length of the body.
pub const FRAME_HEAD: usize = 10;

/// The bytes that a frame has at most.
pub const FRAME_BYTES_MAX: usize = FRAME_HEAD + RECORD_BYTES_MAX;

/// The first frame of some bytes, with what follows it.
#[derive(Clone, Copy)]
pub struct Frame<'a> {
    pub op: OpNo,
    /// What has the place of a record's body.
    pub body: &'a [u8],
    /// The bytes behind the frame.
    pub rest: &'a [u8],
}

/// The frame with which the bytes begin. `None` exactly where they don't hold a whole one, or its length is 0 or more than 4,096.
#[tactic(auto, unfolding(disk_definitions::specs::Frames::frame_read))]
pub fn read_frame(bytes: &[u8]) -> Option<Frame<'_>>
    ensures { option_map (λ f. ((f.op.0, f.body.now), f.rest.now)) result ≡ frame_read bytes.now }
{
    let mut unread = Unread { bytes };
    let op = OpNo(unread.long()?);
    let len = usize::from(unread.short()?);
    if len == 0 || len > RECORD_BYTES_MAX {
        return None;
    }
    let body = unread.run(len)?;
    Some(Frame {
        op,
        body,
        rest: unread.bytes,
    })
}

/// Adds the frame of a record behind the bytes. `NoMemory` comes only where there is no room for it; the bytes may then end with a part of it.
pub fn push_frame(bytes: &mut Vec<u8>, redo: &Redo) -> Result<(), NoMemory>
    requires { IsTrue (record_fits redo.now.changes) }
    ensures bytes { OnOk result (bytes.new.items ≡ bytes.old.items ++ frame_bytes redo.now) }
    ensures full { OnErr result (vec_capacity bytes.old < vec_len bytes.old + length (frame_bytes redo.now)) }
    ensures capacity { vec_capacity bytes.old ≤ vec_capacity bytes.new }
{
    bytes.extend_from_slice(&frame_head(redo.op, record_length(redo)))?;
    push_record(bytes, redo)
}

fn frame_head(op: OpNo, len: usize) -> [u8; FRAME_HEAD]
    requires { len < 2 ^ 16 }
    ensures { result ≡ little_bytes 8 op.0 ++ little_bytes 2 len }
{
    let mut bytes = [0; FRAME_HEAD];
    LittleEndian::write_u64(&mut bytes[..8], op.0);
    LittleEndian::write_u16(&mut bytes[8..], len as u16);
    bytes
}
