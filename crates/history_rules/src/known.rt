// What a recovery must keep: what another server has seen, and what was synced.
ghost use Rattle.std.specs.Prelude.{◌≡◌, ◌++◌, ◌&&◌, ◌||◌, ◌==◌, false, Some, filter, map, IfOk, OnOk, IsTrue};
ghost use Rattle.std.specs.List.{list_any};
ghost use Rattle.tree_definitions.specs.Tree.{node_at, small_blocks, large_blocks};
ghost use Rattle.tree_definitions.specs.History.{Stays, after};
ghost use Rattle.tree_definitions.specs.Removal.{keeps_known, none_known};
ghost use Rattle.tree_definitions.specs.Touched.{births, differs, is_nospace, is_seen, is_stall, is_sync, is_synced, is_unmount, is_mounted, other_room, refused_later, stalled_after, touches, touched_later};
ghost use Rattle.tree_model.specs.Replayed.{is_within};
ghost use Rattle.tree_model.specs.Steps.{entry_of};
ghost use Rattle.history_rules.specs.Known.{makes_sure, may_go, refused_at, stalled_by, touched_at};

use frang_base::{NoMemory, Op, OpNo, Reply, ServerId};
use std::collections::BTreeMap;
use tree_definitions::{Entry, Node};
use tree_edits::{large_blocks_of, small_blocks_of};
use tree_model::{Step, Tree, answered, begins_removal, differs, is_ok, touches};

fn is_mounted(reply: &Reply) -> bool
    ensures { result ≡ is_mounted reply.now }
{
    matches!(reply, Reply::Mounted)
}

fn is_sync(op: &Op) -> bool
    ensures { result ≡ is_sync op.now }
{
    matches!(op, Op::Sync)
}

fn is_unmount(op: &Op) -> bool
    ensures { result ≡ is_unmount op.now }
{
    matches!(op, Op::Unmount)
}

fn is_stall(op: &Op) -> bool
    ensures { result ≡ is_stall op.now }
{
    matches!(op, Op::Stall)
}

// Whether a reply is for want of inodes or blocks.
fn is_nospace(reply: &Reply) -> bool
    ensures { result ≡ is_nospace reply.now }
{
    matches!(
        reply,
        Reply::NoInode | Reply::NoDirBlock | Reply::NoBlock { .. } | Reply::NoLarge
    )
}

// Whether an entry touches one of these nodes.
fn touches_any(tree: &Tree, entry: &Entry, nodes: &[u64]) -> Result<bool, NoMemory>
    requires { IsTrue (is_within entry.now.op) }
    ensures { IfOk result (λ it. it ≡ list_any (touches tree.now entry.now) nodes.now) }
{
    for birth in nodes {
        if touches(tree, entry, *birth)? {
            return Ok(true);
        }
    }
    Ok(false)
}

// Whether a step is an entry of another server that touches one of these nodes.
fn touched_at(server: ServerId, nodes: &[u64], tree: &Tree, step: &Step) -> Result<bool, NoMemory>
    ensures { IfOk result (λ it. it ≡ touched_at server.0 nodes.now tree.now (entry_of step.now)) }
{
    match step.entry() {
        Some(entry) => Ok(entry.server.0 != server.0 && touches_any(tree, entry, nodes)?),
        None => Ok(false),
    }
}

// Whether a later entry of another server touches one of these nodes.
#[tactic(auto, using(crate::proofs::Seeing::touched_turn))]
fn touched_later(
    server: ServerId,
    nodes: &[u64],
    tree: &mut Tree,
    list: &[Step],
) -> Result<bool, NoMemory>
    ensures { IfOk result (λ it. it ≡ touched_later server.0 nodes.now tree.old list.now) }
{
    for step in list {
        if touched_at(server, nodes, tree, step)? {
            return Ok(true);
        }
        step.take(tree)?;
    }
    Ok(false)
}

// Whether a step is an entry of another server that is answered for want of room.
fn refused_at(server: ServerId, step: &Step) -> bool
    ensures { result ≡ refused_at server.0 (entry_of step.now) }
{
    match step.entry() {
        Some(entry) => entry.server.0 != server.0 && is_nospace(&entry.reply),
        None => false,
    }
}

// Whether a later entry of another server is answered for want of room.
#[tactic(auto, using(crate::proofs::Seeing::refused_turn))]
fn refused_later(server: ServerId, list: &[Step]) -> bool
    ensures { result ≡ refused_later server.0 list.now }
{
    for step in list {
        if refused_at(server, step) {
            return true;
        }
    }
    false
}

// Adds the births of some nodes at which two trees differ.
fn push_differing(
    nodes: &BTreeMap<u64, Node>,
    tree: &Tree,
    next: &Tree,
    changed: &mut Vec<u64>,
) -> Result<(), NoMemory>
    ensures { OnOk result (changed.new.items ≡ changed.old.items ++ filter (differs tree.now next.now) (map (λ n. n.0) nodes.now.entries)) }
{
    for (birth, _) in nodes {
        if differs(tree, next, *birth) {
            changed.push(*birth)?;
        }
    }
    Ok(())
}

// The births of either tree at which they differ.
fn differing(tree: &Tree, next: &Tree) -> Result<Vec<u64>, NoMemory>
    ensures { IfOk result (λ changed. changed.items ≡ filter (differs tree.now next.now) (births tree.now next.now)) }
{
    let mut changed = Vec::new(tree.alloc());
    push_differing(tree.nodes(), tree, next, &mut changed)?;
    push_differing(next.nodes(), tree, next, &mut changed)?;
    Ok(changed)
}

fn small_blocks(node: &Node) -> u64
    ensures { result ≡ small_blocks node.now }
{
    match node {
        Node::Dir { blocks, .. } => u64::from(*blocks),
        Node::File { cells, .. } => small_blocks_of(cells.len()),
        Node::Link { .. } => 0,
    }
}

fn large_blocks(node: &Node) -> u64
    ensures { result ≡ large_blocks node.now }
{
    match node {
        Node::File { cells, .. } => large_blocks_of(cells.len()),
        Node::Dir { .. } | Node::Link { .. } => 0,
    }
}

// Whether nodes take the same blocks.
fn same_blocks(a: &Node, b: &Node) -> bool
    ensures { result ≡ (small_blocks a.now == small_blocks b.now && large_blocks a.now == large_blocks b.now) }
{
    small_blocks(a) == small_blocks(b) && large_blocks(a) == large_blocks(b)
}

// Whether a node was made or freed between two trees, or its number of blocks changed.
fn other_room(tree: &Tree, next: &Tree, birth: u64) -> bool
    ensures { result ≡ other_room (node_at tree.now birth) (node_at next.now birth) }
{
    match (tree.node(birth), next.node(birth)) {
        (Some(a), Some(b)) => !same_blocks(a, b),
        (None, None) => false,
        (Some(_), None) | (None, Some(_)) => true,
    }
}

// Whether one of these nodes was made or freed, or changed its number of blocks.
fn changes_room(tree: &Tree, next: &Tree, changed: &[u64]) -> bool
    ensures { result ≡ list_any (λ b. other_room (node_at tree.now b) (node_at next.now b)) changed.now }
{
    changed.iter().any(|birth| other_room(tree, next, *birth))
}

// Whether what an entry changed is seen in the rest of a list.
fn is_seen_by(
    server: ServerId,
    tree: &Tree,
    next: &Tree,
    after: &mut Tree,
    rest: &[Step],
) -> Result<bool, NoMemory>
    ensures { IfOk result (λ it. it ≡ (touched_later server.0 (filter (differs tree.now next.now) (births tree.now next.now)) after.old rest.now || (list_any (λ b. other_room (node_at tree.now b) (node_at next.now b)) (filter (differs tree.now next.now) (births tree.now next.now)) && refused_later server.0 rest.now))) }
{
    let changed = differing(tree, next)?;
    if touched_later(server, &changed, after, rest)? {
        return Ok(true);
    }
    Ok(changes_room(tree, next, &changed) && refused_later(server, rest))
}

// Whether an entry that stands at this tree is seen by another server in the rest of the list.
fn is_seen(tree: &Tree, entry: &Entry, rest: &[Step]) -> Result<bool, NoMemory>
    requires { IsTrue (is_within entry.now.op) }
    ensures { IfOk result (λ it. it ≡ is_seen tree.now entry.now rest.now) }
{
    match answered(tree, entry)? {
        Some(next) => {
            let mut after = tree.try_copy()?;
            Step::stays(entry).take(&mut after)?;
            is_seen_by(entry.server, tree, &next, &mut after, rest)
        }
        None => Ok(false),
    }
}

// Whether a stall of the server was answered `ok` since its last mount, after an entry more.
fn stalled_after(server: ServerId, stalled: bool, entry: &Entry) -> bool
    ensures { result ≡ stalled_after server.0 stalled (Stays entry.now) }
{
    if entry.server.0 != server.0 {
        return stalled;
    }
    if is_mounted(&entry.reply) {
        return false;
    }
    stalled || (is_stall(&entry.op) && is_ok(&entry.reply))
}

// The same after a step more.
fn stalled_by(server: ServerId, stalled: bool, step: &Step) -> bool
    ensures { result ≡ stalled_by server.0 stalled (entry_of step.now) }
{
    match step.entry() {
        Some(entry) => stalled_after(server, stalled, entry),
        None => stalled,
    }
}

// Whether a step makes sure what the server did before.
fn makes_sure(server: ServerId, stalled: bool, step: &Step) -> bool
    ensures { result ≡ makes_sure server.0 stalled (entry_of step.now) }
{
    match step.entry() {
        Some(entry) => {
            entry.server.0 == server.0
                && ((is_sync(&entry.op) && is_ok(&entry.reply))
                    || (is_unmount(&entry.op) && is_ok(&entry.reply) && !stalled))
        }
        None => false,
    }
}

// Whether a sync or an unmount makes sure what the server did before, ahead of its next mount.
#[tactic(auto, using(crate::proofs::Seeing::synced_turn))]
fn is_synced(server: ServerId, stalled: bool, list: &[Step]) -> bool
    ensures { result ≡ is_synced server.0 stalled list.now }
{
    let mut stalled = stalled;
    for step in list {
        if step.mounts(server) {
            return false;
        }
        if makes_sure(server, stalled, step) {
            return true;
        }
        stalled = stalled_by(server, stalled, step);
    }
    false
}

// Whether an entry may go: it is another server's, or neither seen nor synced.
fn entry_may_go(
    server: ServerId,
    stalled: bool,
    tree: &Tree,
    entry: &Entry,
    rest: &[Step],
) -> Result<bool, NoMemory>
    requires { IsTrue (is_within entry.now.op) }
    ensures { IfOk result (λ it. it ≡ may_go server.0 stalled tree.now (Some entry.now) rest.now) }
{
    if entry.server.0 != server.0 {
        return Ok(true);
    }
    if is_seen(tree, entry, rest)? {
        return Ok(false);
    }
    let now = stalled_after(server, stalled, entry);
    Ok(!is_synced(server, now, rest))
}

// Whether a step may go: it is no entry of the server, or one that is neither seen nor synced.
fn may_go(
    server: ServerId,
    stalled: bool,
    tree: &Tree,
    step: &Step,
    rest: &[Step],
) -> Result<bool, NoMemory>
    ensures { IfOk result (λ it. it ≡ may_go server.0 stalled tree.now (entry_of step.now) rest.now) }
{
    match step.entry() {
        Some(entry) => entry_may_go(server, stalled, tree, entry, rest),
        None => Ok(true),
    }
}

// Whether no entry of the server in a list is seen or synced.
#[tactic(auto, using(crate::proofs::Seeing::none_turn))]
fn none_known(
    server: ServerId,
    stalled: bool,
    tree: &mut Tree,
    list: &[Step],
) -> Result<bool, NoMemory>
    ensures { IfOk result (λ it. it ≡ none_known server.0 stalled tree.old list.now) }
{
    let mut stalled = stalled;
    let mut rest = list;
    while let [step, later @ ..] = rest {
        if !may_go(server, stalled, tree, step, later)? {
            return Ok(false);
        }
        stalled = stalled_by(server, stalled, step);
        step.take(tree)?;
        rest = later;
    }
    Ok(true)
}

/// Whether no entry that a recovery of a server's log removes of a list is seen or synced, where the log kept so much.
#[tactic(auto, using(crate::proofs::Seeing::stalled_is))]
pub fn keeps_known(
    server: ServerId,
    keeps: OpNo,
    opening: &Tree,
    list: &[Step],
) -> Result<bool, NoMemory>
    ensures { IfOk result (λ it. it ≡ keeps_known server.0 keeps.0 false opening.now list.now) }
{
    let mut tree = opening.try_copy()?;
    let mut stalled = false;
    let mut rest = list;
    while let [step, later @ ..] = rest {
        if begins_removal(server, keeps, &tree, step, later)? {
            return none_known(server, stalled, &mut tree, rest);
        }
        stalled = stalled_by(server, stalled, step);
        step.take(&mut tree)?;
        rest = later;
    }
    Ok(true)
}
