// A history once its recoveries have acted, and the tree that it leaves.
ghost use Rattle.std.specs.Prelude.{◌≡◌, ◌++◌, ◌∷◌, ◌+◌, ◌-◌, ◌/◌, ◌≤◌, ℕ, not, true, false, List, [], map, filter, IfOk, OnOk, IsTrue};
ghost use Rattle.std.specs.List.{list_any, list_all, flat_map};
ghost use Rattle.tree_definitions.specs.Numbers.{below};
ghost use Rattle.tree_definitions.specs.declared.history.Item.{Item as TheItem};
ghost use Rattle.tree_definitions.specs.History.{after_all};
ghost use Rattle.tree_definitions.specs.Removal.{mounts, is_of, begins_removal, left, sector_cells, file_sectors, is_doubtful, doubtful, recovered, settled_from, settled, tree_from};
ghost use Rattle.tree_model.specs.Replayed.{is_within, item_within, all_within};

use crate::doubt::{Sought, is_doubtful};
use crate::steps::{CellRun, Step, any_mounts};
use crate::{History, Tree};
use frang_base::limits::{FILE_BYTES_MAX, SECTOR_BYTES};
use frang_base::{NoMemory, OpNo, ServerId};
use tree_definitions::{Item, Node};

/// Whether a server's removal begins at a step: what it lost, after its last mount.
pub fn begins_removal(
    server: ServerId,
    keeps: OpNo,
    tree: &Tree,
    step: &Step,
    rest: &[Step],
) -> Result<bool, NoMemory>
    ensures { IfOk result (λ it. it ≡ begins_removal server.0 keeps.0 tree.now step.now rest.now) }
{
    Ok(step.is_lost(server, keeps, tree)? && !any_mounts(server, rest))
}

// Adds a step.
fn push_copy<'h>(step: &Step<'h>, kept: &mut Vec<Step<'h>>) -> Result<(), NoMemory>
    ensures { OnOk result (kept.new.items ≡ kept.old.items ++ step.now ∷ []) }
{
    let copy = step.try_copy()?;
    kept.push(copy)?;
    Ok(())
}

// Adds the steps that are no entries of a server.
fn push_others<'h>(
    server: ServerId,
    steps: &[Step<'h>],
    kept: &mut Vec<Step<'h>>,
) -> Result<(), NoMemory>
    ensures { OnOk result (kept.new.items ≡ kept.old.items ++ filter (λ t. not (is_of server.0 t)) steps.now) }
{
    for step in steps {
        if !step.is_of(server) {
            push_copy(step, kept)?;
        }
    }
    Ok(())
}

// Adds the steps that are left, from a tree on, where a server's removal has acted.
fn push_left<'h>(
    server: ServerId,
    keeps: OpNo,
    tree: &mut Tree,
    list: &[Step<'h>],
    kept: &mut Vec<Step<'h>>,
) -> Result<(), NoMemory>
    ensures { OnOk result (kept.new.items ≡ kept.old.items ++ left server.0 keeps.0 tree.old list.now) }
{
    let mut rest = list;
    while let [step, later @ ..] = rest {
        if begins_removal(server, keeps, tree, step, later)? {
            push_others(server, later, kept)?;
            return Ok(());
        }
        push_copy(step, kept)?;
        step.take(tree)?;
        rest = later;
    }
    Ok(())
}

// The steps that are left where a server's removal has acted.
fn left<'h>(
    server: ServerId,
    keeps: OpNo,
    opening: &Tree,
    list: &[Step<'h>],
) -> Result<Vec<Step<'h>>, NoMemory>
    ensures { IfOk result (λ kept. kept.items ≡ left server.0 keeps.0 opening.now list.now) }
{
    let mut tree = opening.try_copy()?;
    let mut kept = Vec::new(opening.alloc());
    push_left(server, keeps, &mut tree, list, &mut kept)?;
    Ok(kept)
}

/// The tree at the end of a list of steps.
pub fn tree_at_end(opening: &Tree, list: &[Step]) -> Result<Tree, NoMemory>
    ensures { IfOk result (λ tree. tree ≡ after_all opening.now list.now) }
{
    let mut tree = opening.try_copy()?;
    for step in list {
        step.take(&mut tree)?;
    }
    Ok(tree)
}

// The sectors of a file of this size.
fn sectors_of(size: usize) -> usize
    requires { size ≤ FILE_BYTES_MAX }
    ensures { result ≡ (size + (SECTOR_BYTES - 1)) / SECTOR_BYTES }
{
    (size + (SECTOR_BYTES - 1)) / SECTOR_BYTES
}

// Adds the cells of a file's sectors that are in doubt at the end of a list.
fn push_sectors(
    server: ServerId,
    birth: u64,
    size: usize,
    opening: &Tree,
    list: &[Step],
    runs: &mut Vec<CellRun>,
) -> Result<(), NoMemory>
    requires { size ≤ FILE_BYTES_MAX }
    ensures { OnOk result (runs.new.items ≡ runs.old.items ++ map (sector_cells birth size) (filter (λ sector. is_doubtful server.0 birth sector false opening.now list.now) (below ((size + (SECTOR_BYTES - 1)) / SECTOR_BYTES)))) }
{
    for sector in 0..sectors_of(size) {
        let sought = Sought {
            server,
            birth,
            sector,
        };
        if is_doubtful(&sought, opening, list)? {
            runs.push(CellRun::of_sector(birth, size, sector))?;
        }
    }
    Ok(())
}

// Adds the cells of a node that are in doubt at the end of a list.
fn push_node(
    server: ServerId,
    birth: u64,
    node: &Node,
    opening: &Tree,
    list: &[Step],
    runs: &mut Vec<CellRun>,
) -> Result<(), NoMemory>
    ensures { OnOk result (runs.new.items ≡ runs.old.items ++ file_sectors (λ b sector. is_doubtful server.0 b sector false opening.now list.now) birth node.now) }
{
    match node {
        Node::File { cells, .. } => push_sectors(server, birth, cells.len(), opening, list, runs),
        Node::Dir { .. } | Node::Link { .. } => Ok(()),
    }
}

// The cells that come into doubt at the end of a list.
fn doubtful(server: ServerId, opening: &Tree, list: &[Step]) -> Result<Vec<CellRun>, NoMemory>
    ensures { IfOk result (λ runs. runs.items ≡ doubtful server.0 opening.now list.now) }
{
    let tree = tree_at_end(opening, list)?;
    let mut runs = Vec::new(opening.alloc());
    for (birth, node) in tree.nodes() {
        push_node(server, *birth, node, opening, list, &mut runs)?;
    }
    Ok(runs)
}

/// The list after a recovery: entries are gone, and then cells are in doubt.
pub fn recovered<'h>(
    opening: &Tree,
    server: ServerId,
    keeps: OpNo,
    list: &[Step<'h>],
) -> Result<Vec<Step<'h>>, NoMemory>
    ensures { IfOk result (λ steps. steps.items ≡ recovered opening.now server.0 keeps.0 list.now) }
{
    let mut rest = left(server, keeps, opening, list)?;
    let runs = doubtful(server, opening, &rest)?;
    rest.push(Step::in_doubt(runs))?;
    Ok(rest)
}

// The settled history with one item more.
fn settle<'h>(opening: &Tree, item: &'h Item, list: &mut Vec<Step<'h>>) -> Result<(), NoMemory>
    requires { item_within item.now ≡ true }
    ensures { OnOk result ((items : List TheItem) → settled_from opening.now list.new.items items ≡ settled_from opening.now list.old.items (item.now ∷ items)) }
{
    match item {
        Item::Did(entry) => list.push(Step::stays(entry))?,
        Item::Recovered { server, keeps } => {
            *list = recovered(opening, *server, *keeps, list)?;
        }
    }
    Ok(())
}

// The settled history with so many items more.
fn settle_all<'h>(
    opening: &Tree,
    history: &'h [Item],
    list: &mut Vec<Step<'h>>,
) -> Result<(), NoMemory>
    requires { IsTrue (all_within history.now) }
    ensures { OnOk result (list.new.items ≡ settled_from opening.now list.old.items history.now) }
{
    for item in history {
        settle(opening, item, list)?;
    }
    Ok(())
}

/// The settled history.
pub fn settled<'h>(opening: &Tree, history: &'h [Item]) -> Result<Vec<Step<'h>>, NoMemory>
    requires { IsTrue (all_within history.now) }
    ensures { IfOk result (λ steps. steps.items ≡ settled opening.now history.now) }
{
    let mut list = Vec::new(opening.alloc());
    settle_all(opening, history, &mut list)?;
    Ok(list)
}

/// The tree that a history leaves of its opening's tree, once its recoveries have acted: each removes what its server's log lost,
/// and leaves bytes in doubt. An entry that doesn't fit where it stands leaves the tree.
pub fn tree_left(opening: &Tree, history: &History) -> Result<Tree, NoMemory>
    requires { IsTrue (all_within history.now) }
    ensures { IfOk result (λ tree. tree ≡ tree_from opening.now history.now) }
{
    let steps = settled(opening, history.as_slice())?;
    tree_at_end(opening, &steps)
}
