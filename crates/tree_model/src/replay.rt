// The tree after an entry.
ghost use Rattle.std.specs.Prelude.{◌≡◌, true, OnOk, OnErr, IsTrue};
ghost use Rattle.std.specs.List.{list_all};
ghost use Rattle.frang_base.specs.Name.{is_target_byte, is_target};
ghost use Rattle.tree_definitions.specs.Apply.{is_path_op};
ghost use Rattle.tree_definitions.specs.Perform.{Goes};
ghost use Rattle.tree_definitions.specs.History.{may_be_ok, leaves_tree, tree_after};
ghost use Rattle.file_tree.specs.CanApply.{CanApply};
ghost use Rattle.tree_model.specs.Replayed.{after_reading, after_redo, after_step_redo, is_within, item_within, all_within, IsPathStep};
ghost use Rattle.file_tree.specs.Walks.{step_by};

use crate::again::{done_again, is_path_op};
use crate::{History, Tree};
use file_tree::Step;
use frang_base::limits::TARGET_BYTES_MAX;
use frang_base::{Name, NoMemory, Op, OpNo, Reply};
use tree_definitions::{Entry, Item};

fn may_be_ok(op: &Op) -> bool
    ensures { result ≡ may_be_ok op.now }
{
    matches!(
        op,
        Op::Sync | Op::Unmount | Op::Crash | Op::CrashAt { .. } | Op::CutAt { .. } | Op::Stall
    )
}

/// Whether a reply leaves the tree: one that isn't the operation's own, or `ok` to a line without a path.
pub fn leaves_tree(op: &Op, reply: &Reply) -> bool
    ensures { result ≡ leaves_tree op.now reply.now }
{
    match reply {
        Reply::Down | Reply::Expired | Reply::Io | Reply::Already | Reply::Mounted => true,
        Reply::Ok => may_be_ok(op),
        _ => false,
    }
}

/// A read with its reply. After `NoMemory` the tree is as before.
pub fn read_again(
    tree: &mut Tree,
    path: &[Name],
    off: u32,
    len: u32,
    reply: &Reply,
) -> Result<(), NoMemory>
    ensures ok { OnOk result (tree.new ≡ after_reading tree.old path.now off len reply.now) }
    ensures err { OnErr result (tree.new ≡ tree.old) }
{
    match reply {
        Reply::Shown(bytes) => tree.show(path, off, len, bytes.as_slice()),
        _ => Ok(()),
    }
}

// An operation over paths without links, done again; one that is answered otherwise than before leaves the tree.
fn redo(tree: &mut Tree, op: &Op, number: OpNo, when: u64, reply: &Reply) -> Result<(), NoMemory>
    requires { CanApply tree.old op.now }
    ensures ok { OnOk result (tree.new ≡ after_redo tree.old op.now number.0 when reply.now) }
{
    if let Some(next) = done_again(tree, op, number, when, reply)? {
        *tree = next;
    }
    Ok(())
}

// An operation over paths without links, done again, a read too.
fn redo_op(tree: &mut Tree, op: &Op, number: OpNo, when: u64, reply: &Reply) -> Result<(), NoMemory>
    requires has_path { is_path_op op.now ≡ true }
    requires within { is_within op.now ≡ true }
    ensures ok { OnOk result (tree.new ≡ after_step_redo tree.old (Goes op.now) number.0 when reply.now) }
{
    match op {
        Op::Read { path, off, len } => read_again(tree, path.as_slice(), *off, *len, reply),
        _ => redo(tree, op, number, when, reply),
    }
}

// What an operation comes to, done again.
fn redo_step(
    tree: &mut Tree,
    step: &Step,
    number: OpNo,
    when: u64,
    reply: &Reply,
) -> Result<(), NoMemory>
    requires { IsPathStep (step_by step.now) }
    ensures ok { OnOk result (tree.new ≡ after_step_redo tree.old (step_by step.now) number.0 when reply.now) }
{
    match step {
        Step::Goes(op) => redo_op(tree, op, number, when, reply),
        Step::Stops(_) => Ok(()),
    }
}

/// The tree after an entry. One that doesn't fit leaves it.
pub fn tree_after(tree: &mut Tree, entry: &Entry) -> Result<(), NoMemory>
    requires { IsTrue (is_within entry.now.op) }
    ensures ok { OnOk result (tree.new ≡ tree_after tree.old entry.now) }
{
    if leaves_tree(&entry.op, &entry.reply) || !is_path_op(&entry.op) {
        return Ok(());
    }
    let resolved = tree.resolved(&entry.op)?;
    redo_step(tree, &resolved.step, entry.number, entry.when, &entry.reply)
}

fn is_target_byte(byte: u8) -> bool
    ensures { result ≡ is_target_byte byte }
{
    byte > 32 && byte != 127
}

fn all_target_bytes(bytes: &[u8]) -> bool
    ensures { result ≡ list_all is_target_byte bytes.now }
{
    bytes.iter().all(|byte| is_target_byte(*byte))
}

fn is_target(bytes: &[u8]) -> bool
    ensures { result ≡ is_target bytes.now }
{
    !bytes.is_empty() && bytes.len() <= TARGET_BYTES_MAX && all_target_bytes(bytes)
}

fn is_within(op: &Op) -> bool
    ensures { result ≡ is_within op.now }
{
    match op {
        Op::Symlink { target, .. } => is_target(target.as_slice()),
        _ => true,
    }
}

fn item_within(item: &Item) -> bool
    ensures { result ≡ item_within item.now }
{
    match item {
        Item::Did(entry) => is_within(&entry.op),
        Item::Recovered { .. } => true,
    }
}

/// Whether a history's tree can be computed: the targets of its symbolic links are in the grammar of scripts.
pub fn has_proper_targets(history: &History) -> bool
    ensures { result ≡ all_within history.now }
{
    history.as_slice().iter().all(|item| item_within(item))
}
