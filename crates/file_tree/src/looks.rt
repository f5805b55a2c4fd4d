// Operations that look at a node: stat, list, readlink, time.
ghost use Rattle.std.specs.Prelude.{◌≡◌, IfOk, IfSome, IsTrue, map};
ghost use Rattle.std.specs.List.{list_all};
ghost use Rattle.std.specs.Option.{option_copied};
ghost use Rattle.frang_base.specs.Name.{is_name};
ghost use Rattle.script_definitions.specs.SaidReading.{IsProperReply};
ghost use Rattle.tree_definitions.specs.Tree.{FileTree};
ghost use Rattle.tree_definitions.specs.Place.{place};
ghost use Rattle.tree_definitions.specs.Apply.{says, at_node, at_file, time_of, described, listed, target_of};
ghost use Rattle.file_tree.specs.Proper.{HasTarget};
ghost use Rattle.file_tree.specs.Replies.{gives};

use crate::Tree;
use crate::place::{file_at, reached};
use frang_base::limits::RUN_TICKS_END;
use frang_base::{Name, NameList, NoMemory, Reply, Text};
use std::alloc::Global;
use tree_definitions::{Entries, Node};

// What a node is.
fn described(node: Option<&Node>) -> Reply
    ensures is { (tree : FileTree) → described tree (option_copied node.entry) ≡ gives tree result }
    ensures proper { IsProperReply result }
{
    match node {
        Some(Node::File { cells, links, .. }) => Reply::File {
            size: cells.len() as u32,
            links: *links,
        },
        Some(Node::Dir { entries, .. }) => Reply::Dir {
            entries: entries.len() as u32,
        },
        Some(Node::Link { target, .. }) => Reply::Symlink {
            len: target.len() as u32,
        },
        None => Reply::NoEnt,
    }
}

/// Answers `stat`.
pub fn stat(tree: &Tree, path: &[Name]) -> Reply
    ensures is { at_node tree.now (place tree.now path.now) (λ b node. described tree.now node) ≡ gives tree.now result }
    ensures proper { IsProperReply result }
{
    match reached(tree, path) {
        Ok(birth) => described(tree.node(birth)),
        Err(refusal) => refusal.reply(),
    }
}

// The names of a directory, in order.
fn names_of(alloc: Global, entries: &Entries) -> Result<NameList, NoMemory>
    ensures is { IfOk result (λ names. names ≡ map (λ e. e.0) entries.now) }
    ensures names { IfOk result (λ names. IsTrue (list_all is_name names)) }
{
    let mut names = NameList::new(alloc);
    for (name, _) in entries.as_map() {
        // Its length tells that a name's bytes are those of a name.
        let _ = name.len();
        names.push(name.copy())?;
    }
    Ok(names)
}

// The names of a node that has to be a directory.
fn listed(alloc: Global, node: Option<&Node>) -> Result<Reply, NoMemory>
    ensures is { IfOk result (λ reply. (tree : FileTree) → listed tree (option_copied node.entry) ≡ gives tree reply) }
    ensures proper { IfOk result IsProperReply }
{
    match node {
        Some(Node::Dir { entries, .. }) => Ok(Reply::Names(names_of(alloc, entries)?)),
        Some(Node::File { .. } | Node::Link { .. }) => Ok(Reply::NotDir),
        None => Ok(Reply::NoEnt),
    }
}

/// Answers `list`.
pub fn list(tree: &Tree, path: &[Name]) -> Result<Reply, NoMemory>
    ensures is { IfOk result (λ reply. at_node tree.now (place tree.now path.now) (λ b node. listed tree.now node) ≡ gives tree.now reply) }
    ensures proper { IfOk result IsProperReply }
{
    match reached(tree, path) {
        Ok(birth) => listed(tree.alloc(), tree.node(birth)),
        Err(refusal) => Ok(refusal.reply()),
    }
}

// The target of a node that has to be a symbolic link.
fn target_of(alloc: Global, node: Option<&Node>) -> Result<Reply, NoMemory>
    requires { IfSome (option_copied node) HasTarget }
    ensures is { IfOk result (λ reply. (tree : FileTree) → target_of tree (option_copied node.entry) ≡ gives tree reply) }
    ensures proper { IfOk result IsProperReply }
{
    match node {
        Some(Node::Link { target, .. }) => Ok(Reply::Target(Text::of(alloc, target.as_slice())?)),
        Some(Node::Dir { .. } | Node::File { .. }) => Ok(Reply::Inval),
        None => Ok(Reply::NoEnt),
    }
}

/// Answers `readlink`.
pub fn readlink(tree: &Tree, path: &[Name]) -> Result<Reply, NoMemory>
    ensures is { IfOk result (λ reply. at_node tree.now (place tree.now path.now) (λ b node. target_of tree.now node) ≡ gives tree.now reply) }
    ensures proper { IfOk result IsProperReply }
{
    match reached(tree, path) {
        Ok(birth) => target_of(tree.alloc(), tree.node(birth)),
        Err(refusal) => Ok(refusal.reply()),
    }
}

/// Answers `time`: the run and the tick of the last time at which the file was written or cut, both 0 where it never was.
pub fn time(tree: &Tree, path: &[Name]) -> Reply
    ensures is { at_file tree.now (place tree.now path.now) (λ b cells links at. says tree.now (time_of at)) ≡ gives tree.now result }
    ensures proper { IsProperReply result }
{
    match file_at(tree, path) {
        Ok(file) => Reply::Time {
            run: (file.when / RUN_TICKS_END) as u32,
            tick: (file.when % RUN_TICKS_END) as u32,
        },
        Err(refusal) => refusal.reply(),
    }
}
