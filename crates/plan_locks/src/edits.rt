// The locks under which edits are made.
ghost use Rattle.std.specs.Prelude.{◌≡◌, OnOk, filter, map};
ghost use Rattle.std.specs.Map.{keys_of};
ghost use Rattle.set_definitions.specs.Sets.{joined_all};
ghost use Rattle.disk_definitions.specs.Plans.{shared_nodes, sole_nodes, sole_segments, says_full};
ghost use Rattle.plan_steps.specs.Edits.{edit_of, edits_of};
ghost use Rattle.disk_definitions.specs.FoundLocks.{edit_locks, edit_locks_of, full_locks, owns_at_hand};

use edit_moves::owns_small;
use frang_base::limits::{SEGMENT_BLOCKS, SEGMENT_INODES};
use frang_base::{Held, LockId, Mode, NoMemory, Reply};
use lock_sets::LockSet;
use plan_steps::Edit;
use usable_sectors::Usable;

/// Nodes join a set, each shared.
pub(crate) fn join_nodes(set: &mut LockSet, nodes: &[u32]) -> Result<(), NoMemory>
    ensures { OnOk result (set.new ≡ joined_all set.old (shared_nodes nodes.now)) }
{
    for node in nodes {
        set.join(LockId::Node(*node), Mode::Shared)?;
    }
    Ok(())
}

/// The locks of edits join a set, where these nodes were looked at.
#[tactic(auto, using(crate::proofs::Joined::joined_two))]
pub(crate) fn join_edits(
    set: &mut LockSet,
    sectors: &Usable,
    nodes: &[u32],
    edits: &[Edit],
) -> Result<(), NoMemory>
    ensures { OnOk result (set.new ≡ joined_all set.old (edit_locks (owns_at_hand sectors.now.entries) nodes.now (edits_of edits.now))) }
{
    for edit in edits {
        join_edit(set, sectors, nodes, edit)?;
    }
    Ok(())
}

// A name in a block is under its directory; the bytes of a file are under the file, whose inode is edited too.
fn join_edit(
    set: &mut LockSet,
    sectors: &Usable,
    nodes: &[u32],
    edit: &Edit,
) -> Result<(), NoMemory>
    ensures { OnOk result (set.new ≡ joined_all set.old (edit_locks_of (owns_at_hand sectors.now.entries) nodes.now (edit_of edit.now))) }
{
    match edit {
        Edit::Inode { number, .. } => set.join(LockId::Node(*number), Mode::Sole),
        Edit::Bit { number, .. } => {
            set.join(LockId::Segment(*number / SEGMENT_INODES), Mode::Sole)
        }
        Edit::Use { block, .. } => set.join(LockId::Segment(*block / SEGMENT_BLOCKS), Mode::Sole),
        Edit::Place { block, .. } => join_owners(set, sectors, nodes, *block),
        Edit::Large { block, .. } => set.join(LockId::Segment(*block), Mode::Sole),
        Edit::Bytes { .. } => Ok(()),
        Edit::LargeBytes { .. } => Ok(()),
    }
}

// Of these nodes those that have the block join a set, sole.
fn join_owners(
    set: &mut LockSet,
    sectors: &Usable,
    nodes: &[u32],
    block: u32,
) -> Result<(), NoMemory>
    ensures { OnOk result (set.new ≡ joined_all set.old (sole_nodes (filter (λ inode. owns_at_hand sectors.now.entries inode block) nodes.now))) }
{
    for node in nodes {
        let owns = owns_small(sectors, *node, block);
        if owns {
            set.join(LockId::Node(*node), Mode::Sole)?;
        }
    }
    Ok(())
}

/// Each held segment joins a set, sole, where the reply says that an allocation found nothing.
pub(crate) fn join_full(set: &mut LockSet, held: &Held, reply: &Reply) -> Result<(), NoMemory>
    ensures { OnOk result (set.new ≡ joined_all set.old (full_locks held.now reply.now)) }
{
    if says_full(reply) {
        join_held(set, held)
    } else {
        Ok(())
    }
}

fn join_held(set: &mut LockSet, held: &Held) -> Result<(), NoMemory>
    ensures { OnOk result (set.new ≡ joined_all set.old (sole_segments (keys_of held.now))) }
{
    for segment in held.segments() {
        set.join(LockId::Segment(*segment), Mode::Sole)?;
    }
    Ok(())
}

// The reply says that an allocation found nothing.
fn says_full(reply: &Reply) -> bool
    ensures { result ≡ says_full reply.now }
{
    match reply {
        Reply::NoInode | Reply::NoDirBlock | Reply::NoLarge | Reply::NoBlock { .. } => true,
        _ => false,
    }
}
