// Which nodes an entry changes and touches.
ghost use Rattle.std.specs.Prelude.{◌≡◌, ◌==◌, ◌++◌, ◌||◌, ℕ, List, IfOk, IsTrue};
ghost use Rattle.std.specs.List.{list_any};
ghost use Rattle.tree_definitions.specs.Place.{place, walked};
ghost use Rattle.tree_definitions.specs.Touched.{is_ok, reached, looked_in, then_walked, further, visited, differs, touches, changes_shape};
ghost use Rattle.tree_definitions.specs.Removal.{writes_file, is_recorded};
ghost use Rattle.tree_definitions.specs.Perform.{resolved};
ghost use Rattle.file_tree.specs.Walks.{step_by, resolved_by};
ghost use Rattle.frang_base.specs.declared.reply.Reply.{Reply as TheReply};
ghost use Rattle.tree_model.specs.Replayed.{is_within};
ghost use Rattle.tree_model.specs.Kinds.{is_kind};

use crate::Tree;
use crate::again::answered;
use crate::compare::{differ_in_shape, differs};
use file_tree::{Resolved, Step};
use frang_base::{Name, NoMemory, Op, Reply};
use tree_definitions::{Entry, Node};

// Whether an entry changes more than the bytes of files.
fn changes_shape(tree: &Tree, entry: &Entry) -> Result<bool, NoMemory>
    requires { IsTrue (is_within entry.now.op) }
    ensures { IfOk result (λ it. it ≡ changes_shape tree.now entry.now) }
{
    match answered(tree, entry)? {
        Some(next) => Ok(differ_in_shape(tree, &next)),
        None => Ok(false),
    }
}

/// Whether a reply is `ok`.
pub fn is_ok(reply: &Reply) -> bool
    ensures { result ≡ is_ok reply.now }
{
    matches!(reply, Reply::Ok)
}

// Whether an operation is a write, fill or truncate.
fn writes_file(op: &Op) -> bool
    ensures { result ≡ writes_file op.now }
{
    matches!(op, Op::Write { .. } | Op::Fill { .. } | Op::Truncate { .. })
}

/// Whether an entry has a record in its server's log: it changes more than the bytes of files, or is a write, fill or truncate that was
/// answered `ok`.
pub fn is_recorded(tree: &Tree, entry: &Entry) -> Result<bool, NoMemory>
    requires { IsTrue (is_within entry.now.op) }
    ensures { IfOk result (λ it. it ≡ is_recorded tree.now entry.now) }
{
    Ok(changes_shape(tree, entry)? || (writes_file(&entry.op) && is_ok(&entry.reply)))
}

/// A kind of node that an operation reaches.
#[derive(Clone, Copy)]
pub enum Kind {
    Any,
    NoDir,
    Dir,
    File,
    Link,
}

fn is_kind(kind: Kind, node: &Node) -> bool
    ensures { result ≡ is_kind kind node.now }
{
    match kind {
        Kind::Any => true,
        Kind::NoDir => !matches!(node, Node::Dir { .. }),
        Kind::Dir => matches!(node, Node::Dir { .. }),
        Kind::File => matches!(node, Node::File { .. }),
        Kind::Link => matches!(node, Node::Link { .. }),
    }
}

// Whether a path reaches the node of a birth, of this kind.
fn reaches(tree: &Tree, kind: Kind, path: &[Name], birth: u64) -> bool
    ensures { result ≡ list_any (λ b. b == birth) (reached tree.now (is_kind kind) (place tree.now path.now)) }
{
    let Some(last) = tree.birth_at(path) else {
        return false;
    };
    match tree.node(last) {
        Some(node) => last == birth && is_kind(kind, node),
        None => false,
    }
}

// Whether the walk of a second path, which is made where the first one reaches a node of this kind, looks a name up in a directory.
fn then_passes(tree: &Tree, kind: Kind, path: &[Name], to: &[Name], dir: u64) -> bool
    ensures { result ≡ list_any (λ b. b == dir) (then_walked tree.now (reached tree.now (is_kind kind) (place tree.now path.now)) to.now) }
{
    let Some(last) = tree.birth_at(path) else {
        return false;
    };
    match tree.node(last) {
        Some(node) => is_kind(kind, node) && tree.passes(to, dir),
        None => false,
    }
}

// Whether the walks of two paths look a name up in a directory.
fn either_passes(tree: &Tree, kind: Kind, path: &[Name], to: &[Name], dir: u64) -> bool
    ensures { result ≡ list_any (λ b. b == dir) (walked tree.now path.now ++ then_walked tree.now (reached tree.now (is_kind kind) (place tree.now path.now)) to.now) }
{
    tree.passes(path, dir) || then_passes(tree, kind, path, to, dir)
}

// Whether a rename looks a name up in a directory: one of the root is refused before.
fn renames_in(tree: &Tree, path: &[Name], to: &[Name], dir: u64) -> bool
    ensures { result ≡ list_any (λ b. b == dir) (looked_in tree.now (Op.Rename path.now to.now)) }
{
    match (path, to) {
        ([_, ..], [_, ..]) => either_passes(tree, Kind::Any, path, to, dir),
        _ => false,
    }
}

// Whether the walks of an operation look a name up in a directory.
fn looks_in(tree: &Tree, op: &Op, dir: u64) -> bool
    ensures { result ≡ list_any (λ b. b == dir) (looked_in tree.now op.now) }
{
    match op {
        Op::Link { path, to } => {
            either_passes(tree, Kind::NoDir, path.as_slice(), to.as_slice(), dir)
        }
        Op::Rename { path, to } => renames_in(tree, path.as_slice(), to.as_slice(), dir),
        Op::Create { path }
        | Op::Mkdir { path }
        | Op::Symlink { path, .. }
        | Op::Unlink { path }
        | Op::Rmdir { path }
        | Op::Write { path, .. }
        | Op::Fill { path, .. }
        | Op::Truncate { path, .. }
        | Op::Read { path, .. }
        | Op::Stat { path }
        | Op::List { path }
        | Op::Readlink { path }
        | Op::Time { path } => tree.passes(path.as_slice(), dir),
        Op::Sync
        | Op::Mount
        | Op::Unmount
        | Op::Crash
        | Op::CrashAt { .. }
        | Op::CutAt { .. }
        | Op::Stall => false,
    }
}

// Whether a link, by its reply, touches the node of a birth.
fn links_further(tree: &Tree, path: &[Name], reply: &Reply, birth: u64) -> bool
    ensures { (to : List (List ℕ)) → result ≡ list_any (λ b. b == birth) (further tree.now (Op.Link path.now to) reply.now) }
{
    match reply {
        Reply::MLink | Reply::DirFull | Reply::NoDirBlock => {
            reaches(tree, Kind::Any, path, birth)
        }
        _ => false,
    }
}

// Whether a rename, by its reply, touches the node of a birth.
fn renames_further(tree: &Tree, to: &[Name], reply: &Reply, birth: u64) -> bool
    ensures { (path : List (List ℕ)) → result ≡ list_any (λ b. b == birth) (further tree.now (Op.Rename path to.now) reply.now) }
{
    match reply {
        Reply::NotEmpty => reaches(tree, Kind::Dir, to, birth),
        _ => false,
    }
}

fn rmdir_further(tree: &Tree, path: &[Name], birth: u64) -> bool
    ensures { (reply : TheReply) → result ≡ list_any (λ b. b == birth) (further tree.now (Op.Rmdir path.now) reply) }
{
    match path {
        [] => false,
        [_, ..] => reaches(tree, Kind::Dir, path, birth),
    }
}

// Whether the one further node that an operation touches, by its reply, is that of a birth.
fn reaches_further(tree: &Tree, op: &Op, reply: &Reply, birth: u64) -> bool
    ensures { result ≡ list_any (λ b. b == birth) (further tree.now op.now reply.now) }
{
    match op {
        Op::Stat { path } | Op::Time { path } => reaches(tree, Kind::Any, path.as_slice(), birth),
        Op::Link { path, .. } => links_further(tree, path.as_slice(), reply, birth),
        Op::Rename { to, .. } => renames_further(tree, to.as_slice(), reply, birth),
        Op::Rmdir { path } => rmdir_further(tree, path.as_slice(), birth),
        Op::List { path } => reaches(tree, Kind::Dir, path.as_slice(), birth),
        Op::Read { path, .. }
        | Op::Write { path, .. }
        | Op::Fill { path, .. }
        | Op::Truncate { path, .. } => reaches(tree, Kind::File, path.as_slice(), birth),
        Op::Readlink { path } => reaches(tree, Kind::Link, path.as_slice(), birth),
        _ => false,
    }
}

// Whether an operation over paths without links looks a name up in the node of a birth, or reaches it last.
fn step_visits(tree: &Tree, step: &Step, reply: &Reply, birth: u64) -> bool
    ensures { result ≡ list_any (λ b. b == birth) (visited tree.now (step_by step.now) reply.now) }
{
    match step {
        Step::Goes(op) => looks_in(tree, op, birth) || reaches_further(tree, op, reply, birth),
        Step::Stops(_) => false,
    }
}

// Whether births have this one.
fn has(births: &[u64], birth: u64) -> bool
    ensures { result ≡ list_any (λ b. b == birth) births.now }
{
    births.iter().any(|b| *b == birth)
}

// Whether the walks of what an operation comes to go through the node of a birth, or that operation visits it.
fn goes_through(tree: &Tree, resolved: &Resolved, reply: &Reply, birth: u64) -> bool
    ensures { result ≡ list_any (λ b. b == birth) ((resolved_by resolved.now).trail ++ visited tree.now (resolved_by resolved.now).step reply.now) }
{
    has(&resolved.trail, birth) || step_visits(tree, &resolved.step, reply, birth)
}

// Whether an entry's walks go through the node of a birth, or it looks a name up in it, or reaches it last.
fn visits(tree: &Tree, entry: &Entry, birth: u64) -> Result<bool, NoMemory>
    ensures { IfOk result (λ it. it ≡ list_any (λ b. b == birth) ((resolved tree.now entry.now.op).trail ++ visited tree.now (resolved tree.now entry.now.op).step entry.now.reply)) }
{
    let resolved = tree.resolved(&entry.op)?;
    Ok(goes_through(tree, &resolved, &entry.reply, birth))
}

// Whether an entry, done with this tree after it, changes the node of a birth or visits it.
fn touches_by(tree: &Tree, next: &Tree, entry: &Entry, birth: u64) -> Result<bool, NoMemory>
    ensures { IfOk result (λ it. it ≡ (differs tree.now next.now birth || list_any (λ b. b == birth) ((resolved tree.now entry.now.op).trail ++ visited tree.now (resolved tree.now entry.now.op).step entry.now.reply))) }
{
    Ok(differs(tree, next, birth) || visits(tree, entry, birth)?)
}

/// Whether an entry touches the node of a birth: changes it, goes through it on a walk, or reaches it last.
pub fn touches(tree: &Tree, entry: &Entry, birth: u64) -> Result<bool, NoMemory>
    requires { IsTrue (is_within entry.now.op) }
    ensures { IfOk result (λ it. it ≡ touches tree.now entry.now birth) }
{
    match answered(tree, entry)? {
        Some(next) => touches_by(tree, &next, entry, birth),
        None => Ok(false),
    }
}
