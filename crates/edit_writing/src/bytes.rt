// The bytes of files that edits write.
ghost use Rattle.std.specs.Prelude.{◌≡◌, IfOk, map};
ghost use Rattle.std.specs.Option.{option_map};
ghost use Rattle.disk_definitions.specs.Written as written;
ghost use Rattle.dir_lookup.specs.Planned.{write_by};
ghost use Rattle.plan_steps.specs.Edits.{edit_of, edits_of};

use crate::edited::{copy_of, sector_of_edit};
use frang_base::{Block, NoMemory, Sector};
use meta_version::ByteWrites;
use plan_steps::Edit;
use std::alloc::Global;

/// The sectors of file bytes that the edits write with their new bytes, in the order of the edits. Its one refusal is want of memory.
pub fn byte_writes(alloc: Global, edits: &[Edit]) -> Result<ByteWrites, NoMemory>
    ensures { IfOk result (λ bytes. bytes ≡ map write_by (written.byte_writes (edits_of edits.now))) }
{
    let mut writes = Vec::new(alloc);
    for edit in edits {
        if let Some(write) = byte_write(edit) {
            writes.push(write)?;
        }
    }
    Ok(ByteWrites::from_vec(writes))
}

// The sector that an edit of file bytes writes, with its new bytes.
fn byte_write(edit: &Edit) -> Option<(Sector, Block)>
    ensures { result ≡ option_map write_by (written.byte_write (edit_of edit.now)) }
{
    match edit {
        Edit::Bytes { bytes, .. } | Edit::LargeBytes { bytes, .. } => {
            Some((sector_of_edit(edit), copy_of(bytes)))
        }
        _ => None,
    }
}
