// The plan of a truncate.
ghost use Rattle.std.specs.Prelude.{◌≡◌, ◌≤◌, ◌++◌, ℕ, List, IfOk, OnOk, map, false, [], None};
ghost use Rattle.disk_definitions.specs.Edits.{SetLarge, SetUse};
ghost use Rattle.disk_definitions.specs.Store.{Fresh, stored};
ghost use Rattle.disk_definitions.specs.FilePlans.{cut_by, cutting, large_segment, plan_truncated};
ghost use Rattle.dir_lookup.specs.Hands.{over};
ghost use Rattle.plan_steps.specs.Edits.{edits_of};
ghost use Rattle.plan_steps.specs.Ends.{Comes};
ghost use Rattle.plan_steps.specs.Looking.{Looks};
ghost use Rattle.op_data.specs.Files.{IsFile};

use crate::file::file_of;
use crate::resize::add_inode;
use crate::segments::all_held;
use crate::shorter::{blocks_past, large_past, shortened};
use bitmap_block::BlockState;
use dir_lookup::{Hand, Looked, NumberedInode};
use frang_base::{NoMemory, Path, Reply};
use plan_steps::{Edit, Outcome, Stop, push};
use std::alloc::Global;

/// A file gets `len` bytes, at most as many as it has, at the time `when`: the blocks past its end are free, and its inode has the new
/// size and the time. `Refused` where the path or the length is refused; `Need` where a sector isn't cached, or a segment that changes
/// isn't held.
pub(crate) fn truncate_file(
    alloc: Global,
    hand: &Hand,
    path: &Path,
    when: u64,
    len: u32,
    looked: &mut Looked,
) -> Result<Outcome, Stop>
    ensures comes { Comes (over (plan_truncated when path.now len) hand.now) result }
    ensures looks { Looks hand.now.sectors.now.entries hand.now.held.now looked.old looked.new (plan_truncated when path.now len) }
{
    let file = file_of(hand, path, looked)?;
    cut(alloc, hand, &file, when, len, looked)
}

fn cut(
    alloc: Global,
    hand: &Hand,
    file: &NumberedInode,
    when: u64,
    len: u32,
    looked: &mut Looked,
) -> Result<Outcome, Stop>
    requires { IsFile file.now.inode }
    ensures comes { (touched : List ℕ) → Comes (over (cutting when len file.now.number touched (stored file.now.inode)) hand.now) result }
    ensures looks { (touched : List ℕ) → Looks hand.now.sectors.now.entries hand.now.held.now looked.old looked.new (cutting when len file.now.number touched (stored file.now.inode)) }
{
    if u64::from(len) > file.inode.size {
        return Err(Stop::Refused(Reply::BadOffset));
    }
    let blocks = blocks_past(&file.inode, len);
    let large = large_past(&file.inode, len);
    all_held(hand.held, blocks, large, looked)?;
    let edits = cut_edits(alloc, file, when, len)?;
    Ok(Outcome {
        reply: Reply::Ok,
        edits,
    })
}

// The edits of a cut, block after block and then the inode.
fn cut_edits(
    alloc: Global,
    file: &NumberedInode,
    when: u64,
    len: u32,
) -> Result<Vec<Edit>, NoMemory>
    requires file { IsFile file.now.inode }
    requires len { len ≤ file.now.inode.size }
    ensures { IfOk result (λ edits. edits_of edits.items ≡ (cut_by when file.now.number [] (stored file.now.inode) len).edits) }
{
    let mut edits = small_freed(alloc, blocks_past(&file.inode, len))?;
    add_large(&mut edits, large_past(&file.inode, len))?;
    add_inode(&mut edits, file.number, &shortened(&file.inode, when, len))?;
    Ok(edits)
}

// Each of these small blocks is free, and never was a directory's.
fn small_freed(alloc: Global, blocks: &[u32]) -> Result<Vec<Edit>, NoMemory>
    ensures { IfOk result (λ edits. edits_of edits.items ≡ map (λ k. SetUse k Fresh) blocks.now) }
{
    let mut edits = Vec::new(alloc);
    for block in blocks {
        let block = *block;
        let state = BlockState::Unused;
        push(&mut edits, Edit::Use { block, state })?;
    }
    Ok(edits)
}

// The large block is free, where there is one.
fn add_large(edits: &mut Vec<Edit>, large: Option<u32>) -> Result<(), NoMemory>
    ensures { OnOk result (edits_of edits.new.items ≡ edits_of edits.old.items ++ map (λ g. SetLarge g false) (large_segment large)) }
{
    match large {
        Some(block) => push(edits, Edit::Large { block, used: false }),
        None => Ok(()),
    }
}
