// Which sectors of files come into doubt when a server's log is recovered.
ghost use Rattle.std.specs.Prelude.{◌≡◌, ◌+◌, ◌*◌, ◌<◌, IfOk, IsTrue, false, nat_lt};
ghost use Rattle.tree_definitions.specs.Place.{place};
ghost use Rattle.tree_definitions.specs.Perform.{resolved};
ghost use Rattle.tree_definitions.specs.History.{file_at};
ghost use Rattle.tree_definitions.specs.Touched.{is_ok, is_sync};
ghost use Rattle.tree_definitions.specs.Removal.{meets, meets_in, size_of, writes, step_writes, doubtful_after, is_doubtful};
ghost use Rattle.file_tree.specs.Walks.{step_by};
ghost use Rattle.tree_model.specs.Replayed.{is_within};
ghost use Rattle.tree_model.specs.Steps.{entry_of, doubtful_by};

use crate::Tree;
use crate::steps::{Step as Settled, any_mounts};
use crate::touch::{is_ok, touches};
use file_tree::Step;
use frang_base::limits::SECTOR_BYTES;
use frang_base::{Name, NoMemory, Op, Reply, ServerId};
use tree_definitions::Entry;

/// A sector of a file, counted from its start, and the server that may have left it in doubt.
#[derive(Clone, Copy)]
pub struct Sought {
    pub server: ServerId,
    pub birth: u64,
    pub sector: usize,
}

// Whether an offset lies before a sector's end.
fn is_before_end(sector: usize, from: usize) -> bool
    ensures { result ≡ nat_lt from (SECTOR_BYTES * (sector + 1)) }
{
    from / SECTOR_BYTES <= sector
}

// Whether bytes that end at an offset go beyond a sector's start.
fn is_past_start(sector: usize, to: usize) -> bool
    requires { 0 < to }
    ensures { result ≡ nat_lt (SECTOR_BYTES * sector) to }
{
    sector <= (to - 1) / SECTOR_BYTES
}

// Whether bytes from one offset to another meet a sector.
fn meets(sector: usize, from: usize, to: usize) -> bool
    ensures { result ≡ meets sector from to }
{
    from < to && is_before_end(sector, from) && is_past_start(sector, to)
}

// Whether bytes of the file at a path, from one offset to another, meet a sector.
fn meets_at(tree: &Tree, path: &[Name], from: usize, to: usize, sought: &Sought) -> bool
    ensures { result ≡ meets_in sought.now.birth sought.now.sector (file_at tree.now (place tree.now path.now)) from to }
{
    match tree.file_at(path) {
        Some(file) => file.birth == sought.birth && meets(sought.sector, from, to),
        None => false,
    }
}

// The size of the file at a path, or 0.
fn size_at(tree: &Tree, path: &[Name]) -> usize
    ensures { result ≡ size_of (file_at tree.now (place tree.now path.now)) }
{
    match tree.file_at(path) {
        Some(file) => file.cells.len(),
        None => 0,
    }
}

fn is_sync(op: &Op) -> bool
    ensures { result ≡ is_sync op.now }
{
    matches!(op, Op::Sync)
}

// Whether a write, fill or truncate that was answered `ok` meets a sector.
fn writes(tree: &Tree, op: &Op, reply: &Reply, sought: &Sought) -> bool
    ensures { result ≡ writes tree.now op.now reply.now sought.now.birth sought.now.sector }
{
    match (op, reply) {
        (Op::Write { path, off, bytes }, Reply::Ok) => {
            let off = *off as usize;
            let end = off + bytes.as_slice().len();
            meets_at(tree, path.as_slice(), off, end, sought)
        }
        (Op::Fill { path, off, len, .. }, Reply::Ok) => {
            let off = *off as usize;
            meets_at(tree, path.as_slice(), off, off + *len as usize, sought)
        }
        (Op::Truncate { path, len }, Reply::Ok) => {
            let size = size_at(tree, path.as_slice());
            meets_at(tree, path.as_slice(), *len as usize, size, sought)
        }
        _ => false,
    }
}

// Whether what an operation comes to, answered so, meets a sector.
fn step_writes(tree: &Tree, step: &Step, reply: &Reply, sought: &Sought) -> bool
    ensures { result ≡ step_writes tree.now (step_by step.now) reply.now sought.now.birth sought.now.sector }
{
    match step {
        Step::Goes(op) => writes(tree, op, reply, sought),
        Step::Stops(_) => false,
    }
}

// Whether an entry meets a sector.
fn entry_writes(tree: &Tree, entry: &Entry, sought: &Sought) -> Result<bool, NoMemory>
    requires { IsTrue (is_within entry.now.op) }
    ensures { IfOk result (λ it. it ≡ step_writes tree.now (resolved tree.now entry.now.op).step entry.now.reply sought.now.birth sought.now.sector) }
{
    let resolved = tree.resolved(&entry.op)?;
    Ok(step_writes(tree, &resolved.step, &entry.reply, sought))
}

// Whether a sector is in doubt after an entry more, before some further steps.
fn doubtful_after(
    sought: &Sought,
    before: bool,
    tree: &Tree,
    entry: &Entry,
    rest: &[Settled],
) -> Result<bool, NoMemory>
    requires { IsTrue (is_within entry.now.op) }
    ensures { IfOk result (λ it. it ≡ doubtful_after sought.now.server.0 sought.now.birth sought.now.sector before tree.now entry.now rest.now) }
{
    let own = entry.server.0 == sought.server.0;
    if entry_writes(tree, entry, sought)? {
        return Ok(own && !any_mounts(sought.server, rest));
    }
    if own {
        return Ok(before && !(is_sync(&entry.op) && is_ok(&entry.reply)));
    }
    Ok(before && !touches(tree, entry, sought.birth)?)
}

// Whether a sector is in doubt after a step more, before some further steps.
fn doubtful_by(
    sought: &Sought,
    before: bool,
    tree: &Tree,
    step: &Settled,
    rest: &[Settled],
) -> Result<bool, NoMemory>
    ensures { IfOk result (λ it. it ≡ doubtful_by sought.now.server.0 sought.now.birth sought.now.sector before tree.now (entry_of step.now) rest.now) }
{
    match step.entry() {
        Some(entry) => doubtful_after(sought, before, tree, entry, rest),
        None => Ok(before),
    }
}

/// Whether a sector is in doubt at the end of a list of steps.
pub fn is_doubtful(sought: &Sought, opening: &Tree, list: &[Settled]) -> Result<bool, NoMemory>
    ensures { IfOk result (λ it. it ≡ is_doubtful sought.now.server.0 sought.now.birth sought.now.sector false opening.now list.now) }
{
    let mut tree = opening.try_copy()?;
    let mut doubtful = false;
    let mut rest = list;
    while let [step, later @ ..] = rest {
        doubtful = doubtful_by(sought, doubtful, &tree, step, later)?;
        step.take(&mut tree)?;
        rest = later;
    }
    Ok(doubtful)
}
