// Operations on the names of directories: create, mkdir, symlink, link, unlink, rmdir, rename.
ghost use Rattle.std.specs.Prelude.{◌≡◌, ◌<◌, false, IfOk, OnErr, length};
ghost use Rattle.std.specs.Option.{option_copied};
ghost use Rattle.script_definitions.specs.SaidReading.{IsProperReply};
ghost use Rattle.tree_definitions.specs.Entries.{with_entry};
ghost use Rattle.tree_definitions.specs.Tree.{node_at, grown};
ghost use Rattle.tree_definitions.specs.Place.{place};
ghost use Rattle.tree_definitions.specs.Apply.{is_dir, links_of, has_entries, made, one_link_fewer, name_gone, unlinked, dir_removed, linked_to, linked};
ghost use Rattle.tree_edits.specs.Counts.{blocks_of};
ghost use Rattle.file_tree.specs.Named.{HasEntry};
ghost use Rattle.file_tree.specs.Proper.{HasTarget};
ghost use Rattle.file_tree.specs.Replies.{gives};

use crate::Tree;
use crate::place::{Place, ROOT, place_from};
use frang_base::limits::{DIRECTORY_ENTRIES_MAX, LINKS_MAX};
use frang_base::{Name, NoMemory, Reply};
use tree_definitions::{Entries, Node};
use tree_edits::{Blocks, must_grow};

/// Whether a node is a directory.
pub fn is_dir(node: Option<&Node>) -> bool
    ensures { result ≡ is_dir (option_copied node.entry) }
{
    matches!(node, Some(Node::Dir { .. }))
}

/// Whether a node is a directory with entries.
pub fn has_entries(node: Option<&Node>) -> bool
    ensures { result ≡ has_entries (option_copied node.entry) }
{
    match node {
        Some(Node::Dir { entries, .. }) => 0 < entries.len(),
        Some(Node::File { .. } | Node::Link { .. }) | None => false,
    }
}

// The number of names of a node.
fn links_of(node: Option<&Node>) -> u32
    ensures { result ≡ links_of (option_copied node.entry) }
{
    match node {
        Some(Node::Dir { .. }) => 1,
        Some(Node::File { links, .. } | Node::Link { links, .. }) => *links,
        None => 0,
    }
}

/// The blocks of a directory that gets one entry more.
pub fn grown(entries: &Entries, blocks: u32) -> u32
    ensures { result ≡ grown entries.now blocks }
{
    if must_grow(entries, blocks) {
        blocks + 1
    } else {
        blocks
    }
}

/// A copy of entries with one name more.
pub fn with_name(entries: &Entries, name: &Name, birth: u64) -> Result<Entries, NoMemory>
    requires { length entries.now < DIRECTORY_ENTRIES_MAX }
    ensures { IfOk result (λ more. more ≡ with_entry entries.now name.now birth) }
{
    let mut more = entries.clone()?;
    more.insert(name.copy(), birth)?;
    Ok(more)
}

/// Answers `create`, `mkdir` and `symlink`: a name that isn't there gets a new node. After `NoMemory` the tree is as before.
pub fn make(tree: &mut Tree, path: &[Name], birth: u64, node: Node) -> Result<Reply, NoMemory>
    requires bare { blocks_of node ≡ Blocks.NONE }
    requires target { HasTarget node }
    ensures ok { IfOk result (λ reply. made tree.old birth node (place tree.old path.now) ≡ gives tree.new reply) }
    ensures err { OnErr result (tree.new ≡ tree.old) }
    ensures proper { IfOk result IsProperReply }
{
    match place_from(tree, ROOT, path) {
        Place::Root | Place::Taken { .. } => Ok(Reply::Exist),
        Place::Nowhere(refusal) => Ok(refusal.reply()),
        Place::Free {
            dir,
            entries,
            blocks,
            name,
        } => {
            if entries.len() >= DIRECTORY_ENTRIES_MAX as usize {
                return Ok(Reply::DirFull);
            }
            if tree.inodes_full() {
                return Ok(Reply::NoInode);
            }
            if tree.lacks_block(entries, blocks) {
                return Ok(Reply::NoDirBlock);
            }
            // The changed directory is made first, since that may want memory.
            let blocks = grown(entries, blocks);
            let entries = with_name(entries, name, birth)?;
            tree.put(birth, node)?;
            tree.replace(dir, Node::Dir { entries, blocks });
            Ok(Reply::Ok)
        }
    }
}

/// A node loses a name; at none it is freed.
pub fn drop_link(tree: &mut Tree, birth: u64)
    ensures { tree.new ≡ one_link_fewer tree.old birth (node_at tree.old birth) }
{
    match tree.node(birth) {
        Some(node) => {
            let links = links_of(Some(node));
            if links > 1 {
                tree.set_links(birth, links - 1);
            } else {
                tree.remove(birth);
            }
        }
        None => {}
    }
}

// A directory loses the name of a node that is no directory.
fn forget(tree: &mut Tree, dir: u64, name: &Name, birth: u64)
    requires there { HasEntry name.now birth (node_at tree.old dir) }
    requires no_dir { is_dir (node_at tree.old birth) ≡ false }
    ensures { tree.new ≡ one_link_fewer (name_gone tree.old dir name.now (node_at tree.old dir)) birth (node_at tree.old birth) }
{
    tree.drop_name(dir, name);
    drop_link(tree, birth);
}

/// Answers `unlink`.
pub fn unlink(tree: &mut Tree, path: &[Name]) -> Reply
    ensures is { unlinked tree.old (place tree.old path.now) ≡ gives tree.new result }
    ensures proper { IsProperReply result }
{
    match place_from(tree, ROOT, path) {
        Place::Root => Reply::IsDir,
        Place::Nowhere(refusal) => refusal.reply(),
        Place::Free { .. } => Reply::NoEnt,
        Place::Taken {
            dir,
            name,
            birth,
            ..
        } => {
            if is_dir(tree.node(birth)) {
                return Reply::IsDir;
            }
            forget(tree, dir, name, birth);
            Reply::Ok
        }
    }
}

/// Answers `rmdir`.
pub fn rmdir(tree: &mut Tree, path: &[Name]) -> Reply
    ensures is { dir_removed tree.old (place tree.old path.now) ≡ gives tree.new result }
    ensures proper { IsProperReply result }
{
    match place_from(tree, ROOT, path) {
        Place::Root => Reply::Inval,
        Place::Nowhere(refusal) => refusal.reply(),
        Place::Free { .. } => Reply::NoEnt,
        Place::Taken {
            dir,
            name,
            birth,
            ..
        } => {
            if !is_dir(tree.node(birth)) {
                return Reply::NotDir;
            }
            if has_entries(tree.node(birth)) {
                return Reply::NotEmpty;
            }
            tree.drop_name(dir, name);
            tree.remove(birth);
            Reply::Ok
        }
    }
}

// A node that is no directory gets a name that isn't there. After `NoMemory` the tree is as before.
fn linked_to(tree: &mut Tree, birth: u64, to: &[Name]) -> Result<Reply, NoMemory>
    requires { is_dir (node_at tree.old birth) ≡ false }
    ensures ok { IfOk result (λ reply. linked_to tree.old birth (place tree.old to.now) ≡ gives tree.new reply) }
    ensures err { OnErr result (tree.new ≡ tree.old) }
    ensures proper { IfOk result IsProperReply }
{
    match place_from(tree, ROOT, to) {
        Place::Root | Place::Taken { .. } => Ok(Reply::Exist),
        Place::Nowhere(refusal) => Ok(refusal.reply()),
        Place::Free {
            dir,
            entries,
            blocks,
            name,
        } => {
            let links = links_of(tree.node(birth));
            if links >= u32::from(LINKS_MAX) {
                return Ok(Reply::MLink);
            }
            if entries.len() >= DIRECTORY_ENTRIES_MAX as usize {
                return Ok(Reply::DirFull);
            }
            if tree.lacks_block(entries, blocks) {
                return Ok(Reply::NoDirBlock);
            }
            // The changed directory is made first, since that may want memory.
            let blocks = grown(entries, blocks);
            let entries = with_name(entries, name, birth)?;
            tree.set_links(birth, links + 1);
            tree.replace(dir, Node::Dir { entries, blocks });
            Ok(Reply::Ok)
        }
    }
}

/// Answers `link`. After `NoMemory` the tree is as before.
pub fn link(tree: &mut Tree, path: &[Name], to: &[Name]) -> Result<Reply, NoMemory>
    ensures ok { IfOk result (λ reply. linked tree.old (place tree.old path.now) (place tree.old to.now) ≡ gives tree.new reply) }
    ensures err { OnErr result (tree.new ≡ tree.old) }
    ensures proper { IfOk result IsProperReply }
{
    match place_from(tree, ROOT, path) {
        Place::Root => Ok(Reply::IsDir),
        Place::Nowhere(refusal) => Ok(refusal.reply()),
        Place::Free { .. } => Ok(Reply::NoEnt),
        Place::Taken { birth, .. } => {
            if is_dir(tree.node(birth)) {
                return Ok(Reply::IsDir);
            }
            linked_to(tree, birth, to)
        }
    }
}
