// The body of a record, from its changes.
ghost use Rattle.std.specs.Prelude.{◌≡◌, ◌+◌, ◌<◌, ◌≤◌, ◌^◌, ◌++◌, length, true, vec_len, vec_capacity, IfOk, IsTrue, OnOk, OnErr};
ghost use Rattle.frang_base.specs.declared.limits.TheConstants.{SECTOR_BYTES};
ghost use Rattle.byteorder.specs.Endian.{little_bytes};
ghost use Rattle.sector_bytes.specs.Changes.{is_change};
ghost use Rattle.disk_definitions.specs.Records.{change_bytes, patch_bytes, record_bytes, record_fits};

use crate::reading::fit;
use byteorder::{ByteOrder, LittleEndian};
use frang_base::limits::RECORD_BYTES_MAX;
use frang_base::{Change, NoMemory, Patch, Redo};
use std::alloc::Global;

// The bytes before a record's changes, before a change's patches and before a patch's bytes.
const RECORD_HEAD: usize = 2;

const CHANGE_HEAD: usize = 18;

const PATCH_HEAD: usize = 4;

/// The body of a record that may stand in a log: its changes as bytes. The operation's number isn't among them, since it stands in
/// each sector of the record.
pub fn encode(alloc: Global, redo: &Redo) -> Result<Vec<u8>, NoMemory>
    requires { IsTrue (record_fits redo.now.changes) }
    ensures { IfOk result (λ v. v.items ≡ record_bytes redo.now.changes) }
{
    let mut body = Vec::new(alloc);
    push_record(&mut body, redo)?;
    Ok(body)
}

/// Adds the body of a record behind the bytes. `NoMemory` comes only where there is no room for it; the bytes may then end with a part of it.
pub(crate) fn push_record(body: &mut Vec<u8>, redo: &Redo) -> Result<(), NoMemory>
    requires { IsTrue (record_fits redo.now.changes) }
    ensures bytes { OnOk result (body.new.items ≡ body.old.items ++ record_bytes redo.now.changes) }
    ensures full { OnErr result (vec_capacity body.old < vec_len body.old + length (record_bytes redo.now.changes)) }
    ensures capacity { vec_capacity body.old ≤ vec_capacity body.new }
{
    let changes = redo.changes.as_slice();
    body.extend_from_slice(&count_bytes(changes.len()))?;
    for change in changes {
        push_change(body, change)?;
    }
    Ok(())
}

fn push_change(body: &mut Vec<u8>, change: &Change) -> Result<(), NoMemory>
    requires { is_change change.now ≡ true }
    ensures bytes { OnOk result (body.new.items ≡ body.old.items ++ change_bytes change.now) }
    ensures full { OnErr result (vec_capacity body.old < vec_len body.old + length (change_bytes change.now)) }
    ensures capacity { vec_capacity body.old ≤ vec_capacity body.new }
{
    body.extend_from_slice(&change_head(change))?;
    for patch in change.patches.as_slice() {
        push_patch(body, patch)?;
    }
    Ok(())
}

fn push_patch(body: &mut Vec<u8>, patch: &Patch) -> Result<(), NoMemory>
    requires { length patch.now.bytes ≤ SECTOR_BYTES }
    ensures bytes { OnOk result (body.new.items ≡ body.old.items ++ patch_bytes patch.now) }
    ensures full { OnErr result (vec_capacity body.old < vec_len body.old + length (patch_bytes patch.now)) }
    ensures capacity { vec_capacity body.old ≤ vec_capacity body.new }
{
    body.extend_from_slice(&patch_head(patch))?;
    body.extend_from_slice(patch.bytes.as_slice())?;
    Ok(())
}

/// How many bytes the body of a record has. It takes no memory.
pub fn record_length(redo: &Redo) -> usize
    requires { IsTrue (record_fits redo.now.changes) }
    ensures { result ≡ length (record_bytes redo.now.changes) }
{
    body_length(redo.changes.as_slice())
}

/// Whether a record may stand in a log: it has 1 to 32 changes, each well formed, in ascending order of their sectors, and its body
/// has at most 4,096 bytes. It takes no memory, and time in the number of its changes and patches.
pub fn fits(redo: &Redo) -> bool
    ensures { result ≡ record_fits redo.now.changes }
{
    let changes = redo.changes.as_slice();
    if !fit(changes) {
        return false;
    }
    body_length(changes) <= RECORD_BYTES_MAX
}

// How many bytes the body of these changes has.
fn body_length(changes: &[Change]) -> usize
    requires { length (record_bytes changes.now) < 2 ^ 18 }
    ensures { result ≡ length (record_bytes changes.now) }
{
    let mut bytes = RECORD_HEAD;
    for change in changes {
        bytes += change_length(change);
    }
    bytes
}

fn change_length(change: &Change) -> usize
    requires { length (change_bytes change.now) < 2 ^ 18 }
    ensures { result ≡ length (change_bytes change.now) }
{
    let mut bytes = CHANGE_HEAD;
    let patches = change.patches.as_slice();
    for patch in patches {
        bytes += PATCH_HEAD + patch.bytes.len();
    }
    bytes
}

fn count_bytes(count: usize) -> [u8; RECORD_HEAD]
    requires { count < 2 ^ 16 }
    ensures { result ≡ little_bytes 2 count }
{
    let mut bytes = [0; RECORD_HEAD];
    LittleEndian::write_u16(&mut bytes, count as u16);
    bytes
}

// A change's sector, its version and how many patches it has.
fn change_head(change: &Change) -> [u8; CHANGE_HEAD]
    requires { length change.now.patches < 2 ^ 16 }
    ensures { result ≡ little_bytes 8 change.now.sector.0 ++ little_bytes 8 change.now.version ++ little_bytes 2 (length change.now.patches) }
{
    let mut bytes = [0; CHANGE_HEAD];
    LittleEndian::write_u64(&mut bytes[..8], change.sector.0);
    LittleEndian::write_u64(&mut bytes[8..16], change.version);
    LittleEndian::write_u16(&mut bytes[16..], change.patches.len() as u16);
    bytes
}

// A patch's place and its length.
fn patch_head(patch: &Patch) -> [u8; PATCH_HEAD]
    requires { length patch.now.bytes < 2 ^ 16 }
    ensures { result ≡ little_bytes 2 patch.now.at ++ little_bytes 2 (length patch.now.bytes) }
{
    let mut bytes = [0; PATCH_HEAD];
    LittleEndian::write_u16(&mut bytes[..2], patch.at);
    LittleEndian::write_u16(&mut bytes[2..], patch.bytes.len() as u16);
    bytes
}
