// Operations done again on the tree that they stand at, and whether they are answered as before.
ghost use Rattle.std.specs.Prelude.{◌≡◌, ℕ, true, Some, None, if◌then◌else◌, IfOk, IsTrue};
ghost use Rattle.tree_definitions.specs.Place.{place};
ghost use Rattle.tree_definitions.specs.Apply.{apply, at_file, is_path_op, shown};
ghost use Rattle.tree_definitions.specs.Perform.{perform_step};
ghost use Rattle.tree_definitions.specs.History.{agrees, applied, is_answer, shows, told_blocks};
ghost use Rattle.file_tree.specs.CanApply.{CanApply};
ghost use Rattle.file_tree.specs.Walks.{step_by};
ghost use Rattle.tree_model.specs.Replayed.{done_by, is_within, IsPathStep};

use crate::Tree;
use crate::agree::same_reply;
use file_tree::{Step, cells_show};
use frang_base::{Name, NoMemory, Op, OpNo, Reply};
use tree_definitions::{Cell, Entry};

/// The number of small blocks that are or were a directory's: the one said, else those of the tree.
pub fn told_blocks(tree: &Tree, reply: &Reply) -> u32
    ensures { result ≡ told_blocks tree.now reply.now }
{
    match reply {
        Reply::NoBlock { m } => *m,
        _ => tree.dir_blocks(),
    }
}

fn shows(cells: &[Cell], reply: &Reply) -> bool
    ensures { result ≡ shows cells.now reply.now }
{
    match reply {
        Reply::Shown(bytes) => cells_show(cells, bytes.as_slice()),
        _ => false,
    }
}

/// Whether a read of a path is answered so.
pub fn reads(tree: &Tree, path: &[Name], off: u32, len: u32, reply: &Reply) -> bool
    ensures { result ≡ agrees (at_file tree.now (place tree.now path.now) (λ b cells links at. shown tree.now cells off len)).answer reply.now }
{
    match tree.read_at(path, off, len) {
        Ok(cells) => shows(cells, reply),
        Err(refusal) => same_reply(&refusal, reply),
    }
}

// The tree after a read, where its reply is its answer.
fn read_answered(
    tree: &Tree,
    path: &[Name],
    off: u32,
    len: u32,
    reply: &Reply,
) -> Result<Option<Tree>, NoMemory>
    ensures { (number when m : ℕ) → IfOk result (λ next. next ≡ done_by (apply tree.now (Op.Read path.now off len) number when m) reply.now) }
{
    if !reads(tree, path, off, len, reply) {
        return Ok(None);
    }
    Ok(Some(tree.try_copy()?))
}

/// The tree after an operation over paths without links that is no read, where its reply is its answer.
pub fn done_again(
    tree: &Tree,
    op: &Op,
    number: OpNo,
    when: u64,
    reply: &Reply,
) -> Result<Option<Tree>, NoMemory>
    requires { CanApply tree.now op.now }
    ensures { IfOk result (λ next. next ≡ done_by (apply tree.now op.now number.0 when (told_blocks tree.now reply.now)) reply.now) }
{
    let m = told_blocks(tree, reply);
    let mut next = tree.try_copy()?;
    let answer = next.apply(op, number, when, m)?;
    if !same_reply(&answer, reply) {
        return Ok(None);
    }
    Ok(Some(next))
}

// The tree after an operation over paths without links, where its reply is its answer.
fn op_answered(
    tree: &Tree,
    op: &Op,
    number: OpNo,
    when: u64,
    reply: &Reply,
) -> Result<Option<Tree>, NoMemory>
    requires has_path { is_path_op op.now ≡ true }
    requires within { is_within op.now ≡ true }
    ensures { IfOk result (λ next. next ≡ done_by (apply tree.now op.now number.0 when (told_blocks tree.now reply.now)) reply.now) }
{
    match op {
        Op::Read { path, off, len } => read_answered(tree, path.as_slice(), *off, *len, reply),
        _ => done_again(tree, op, number, when, reply),
    }
}

// The tree after what an operation comes to, where its reply is its answer.
fn step_answered(
    tree: &Tree,
    step: &Step,
    number: OpNo,
    when: u64,
    reply: &Reply,
) -> Result<Option<Tree>, NoMemory>
    requires { IsPathStep (step_by step.now) }
    ensures { IfOk result (λ next. next ≡ done_by (perform_step tree.now (step_by step.now) number.0 when (told_blocks tree.now reply.now)) reply.now) }
{
    match step {
        Step::Goes(op) => op_answered(tree, op, number, when, reply),
        Step::Stops(refusal) => {
            if !same_reply(&refusal.reply(), reply) {
                return Ok(None);
            }
            Ok(Some(tree.try_copy()?))
        }
    }
}

/// Whether an operation has a path.
pub fn is_path_op(op: &Op) -> bool
    ensures { result ≡ is_path_op op.now }
{
    !matches!(
        op,
        Op::Sync
            | Op::Mount
            | Op::Unmount
            | Op::Crash
            | Op::CrashAt { .. }
            | Op::CutAt { .. }
            | Op::Stall
    )
}

/// The tree after an entry's operation, where the entry's reply is its answer.
pub fn answered(tree: &Tree, entry: &Entry) -> Result<Option<Tree>, NoMemory>
    requires { IsTrue (is_within entry.now.op) }
    ensures { IfOk result (λ next. next ≡ (if is_answer tree.now entry.now then Some (applied tree.now entry.now).tree else None)) }
{
    if !is_path_op(&entry.op) {
        return Ok(None);
    }
    let resolved = tree.resolved(&entry.op)?;
    step_answered(tree, &resolved.step, entry.number, entry.when, &entry.reply)
}
