// The operation rename.
ghost use Rattle.std.specs.Prelude.{◌≡◌, ℕ, true, false, IfOk, IsSome, OnErr};
ghost use Rattle.script_definitions.specs.SaidReading.{IsProperReply};
ghost use Rattle.tree_definitions.specs.declared.node.Node.TheVariants.{Dir};
ghost use Rattle.tree_definitions.specs.Entries.{Entries as TheEntries, entry_at, with_entry, without_entry};
ghost use Rattle.tree_definitions.specs.Tree.{node_at};
ghost use Rattle.tree_definitions.specs.Place.{place};
ghost use Rattle.tree_definitions.specs.Apply.{is_dir, has_entries, one_link_fewer, moved_onto, moved_to, goes_through, renamed_to, renamed_from, renamed, moved};
ghost use Rattle.file_tree.specs.Replies.{gives};
ghost use Rattle.file_tree.specs.Named.{IsNamed};
ghost use Rattle.tree_edits.specs.Counts.{IsWithin};

use crate::Tree;
use crate::names::{drop_link, grown, has_entries, is_dir, with_name};
use crate::place::{Place, ROOT, passes, place_from};
use frang_base::limits::DIRECTORY_ENTRIES_MAX;
use frang_base::{Name, NoMemory, Reply};
use tree_definitions::{Entries, Node};

/// A name in a directory, with its node.
#[derive(Drop)]
pub struct Named<'p> {
    pub dir: u64,
    pub name: &'p Name,
    pub birth: u64,
}

/// A directory of the tree.
#[derive(Drop)]
pub struct DirAt<'t> {
    pub entries: &'t Entries,
    pub blocks: u32,
}

// The directory of this birth, which is there.
fn dir_at(tree: &Tree, dir: u64) -> DirAt<'_>
    requires { is_dir (node_at tree.now dir) ≡ true }
    ensures is { node_at tree.now dir ≡ Some (Dir result.entries.now result.blocks) }
    ensures within { IsWithin tree.now }
{
    match tree.node(dir) {
        Some(Node::Dir { entries, blocks }) => DirAt {
            entries,
            blocks: *blocks,
        },
        Some(Node::File { .. } | Node::Link { .. }) | None => unreachable!(),
    }
}

// A name goes into the place of another one, whose node loses it.
fn put_onto(tree: &mut Tree, what: &Named, onto: &Named)
    requires what { IsNamed tree.old what.now }
    requires onto { IsNamed tree.old onto.now }
    requires others { onto.now.birth ≡ what.now.birth → ⊥ }
    requires empty { has_entries (node_at tree.old onto.now.birth) ≡ false }
    ensures { tree.new ≡ one_link_fewer (moved tree.old what.now.dir what.now.name.now onto.now.dir onto.now.name.now what.now.birth) onto.now.birth (node_at tree.old onto.now.birth) }
{
    tree.drop_name(what.dir, what.name);
    tree.set_name(onto.dir, onto.name, what.birth);
    drop_link(tree, onto.birth);
}

// A name takes the place of another one, whose node loses it.
fn moved_onto(tree: &mut Tree, what: &Named, onto: &Named) -> Reply
    requires what { IsNamed tree.old what.now }
    requires onto { IsNamed tree.old onto.now }
    ensures is { moved_onto tree.old what.now.dir what.now.name.now what.now.birth onto.now.dir onto.now.name.now onto.now.birth ≡ gives tree.new result }
    ensures proper { IsProperReply result }
{
    if onto.birth == what.birth {
        return Reply::Ok;
    }
    let moves_dir = is_dir(tree.node(what.birth));
    let onto_dir = is_dir(tree.node(onto.birth));
    if moves_dir && !onto_dir {
        return Reply::NotDir;
    }
    if onto_dir && !moves_dir {
        return Reply::IsDir;
    }
    if has_entries(tree.node(onto.birth)) {
        return Reply::NotEmpty;
    }
    put_onto(tree, what, onto);
    Reply::Ok
}

// A copy of entries in which a name became another one.
fn with_other_name(
    entries: &Entries,
    name: &Name,
    new: &Name,
    birth: u64,
) -> Result<Entries, NoMemory>
    requires { IsSome (entry_at entries.now name.now) }
    ensures { IfOk result (λ other. other ≡ with_entry (without_entry entries.now name.now) new.now birth) }
{
    let mut other = entries.clone()?;
    other.remove(name);
    other.insert(new.copy(), birth)?;
    Ok(other)
}

// A name becomes another one, which isn't there, in its own directory. After `NoMemory` the tree is as before.
fn moved_within(tree: &mut Tree, what: &Named, new: &Name) -> Result<(), NoMemory>
    requires { IsNamed tree.old what.now }
    ensures ok { IfOk result (λ _. tree.new ≡ moved tree.old what.now.dir what.now.name.now what.now.dir new.now what.now.birth) }
    ensures err { OnErr result (tree.new ≡ tree.old) }
{
    let held = dir_at(tree, what.dir);
    let blocks = held.blocks;
    let entries = with_other_name(held.entries, what.name, new, what.birth)?;
    tree.replace(what.dir, Node::Dir { entries, blocks });
    Ok(())
}

// A name becomes another one, which isn't there. After `NoMemory` the tree is as before.
fn moved_to(tree: &mut Tree, what: &Named, to: u64, new: &Name) -> Result<Reply, NoMemory>
    requires what { IsNamed tree.old what.now }
    requires to { is_dir (node_at tree.old to) ≡ true }
    ensures ok { IfOk result (λ reply. (entries : TheEntries) (blocks : ℕ) → node_at tree.old to ≡ Some (Dir entries blocks) → moved_to tree.old what.now.dir what.now.name.now what.now.birth to entries blocks new.now ≡ gives tree.new reply) }
    ensures err { OnErr result (tree.new ≡ tree.old) }
    ensures proper { IfOk result IsProperReply }
{
    if what.dir == to {
        moved_within(tree, what, new)?;
        return Ok(Reply::Ok);
    }
    let held = dir_at(tree, to);
    if held.entries.len() >= DIRECTORY_ENTRIES_MAX as usize {
        return Ok(Reply::DirFull);
    }
    if tree.lacks_block(held.entries, held.blocks) {
        return Ok(Reply::NoDirBlock);
    }
    // The changed directory is made first, since that may want memory.
    let blocks = grown(held.entries, held.blocks);
    let entries = with_name(held.entries, new, what.birth)?;
    tree.set_blocks(to, blocks);
    tree.drop_name(what.dir, what.name);
    tree.replace(to, Node::Dir { entries, blocks });
    Ok(Reply::Ok)
}

// Whether the walk to a new name passed or reached a directory.
fn goes_through(tree: &Tree, to: &[Name], birth: u64) -> bool
    ensures { result ≡ goes_through tree.now to.now birth }
{
    is_dir(tree.node(birth)) && passes(tree, ROOT, to, birth)
}

// A node that is there gets another name. After `NoMemory` the tree is as before.
fn renamed_to(tree: &mut Tree, what: &Named, to: &[Name]) -> Result<Reply, NoMemory>
    requires { IsNamed tree.old what.now }
    ensures ok { IfOk result (λ reply. renamed_to tree.old what.now.dir what.now.name.now what.now.birth to.now (place tree.old to.now) ≡ gives tree.new reply) }
    ensures err { OnErr result (tree.new ≡ tree.old) }
    ensures proper { IfOk result IsProperReply }
{
    match place_from(tree, ROOT, to) {
        Place::Root => Ok(Reply::Inval),
        Place::Nowhere(refusal) => Ok(refusal.reply()),
        Place::Taken {
            dir,
            name,
            birth,
            ..
        } => {
            if goes_through(tree, to, what.birth) {
                return Ok(Reply::Inval);
            }
            let onto = Named { dir, name, birth };
            Ok(moved_onto(tree, what, &onto))
        }
        Place::Free { dir, name, .. } => {
            if goes_through(tree, to, what.birth) {
                return Ok(Reply::Inval);
            }
            moved_to(tree, what, dir, name)
        }
    }
}

// What is at a place gets another name. After `NoMemory` the tree is as before.
fn renamed_from(tree: &mut Tree, path: &[Name], to: &[Name]) -> Result<Reply, NoMemory>
    ensures ok { IfOk result (λ reply. renamed_from tree.old (place tree.old path.now) to.now ≡ gives tree.new reply) }
    ensures err { OnErr result (tree.new ≡ tree.old) }
    ensures proper { IfOk result IsProperReply }
{
    match place_from(tree, ROOT, path) {
        Place::Root => Ok(Reply::Inval),
        Place::Nowhere(refusal) => Ok(refusal.reply()),
        Place::Free { .. } => Ok(Reply::NoEnt),
        Place::Taken {
            dir,
            name,
            birth,
            ..
        } => {
            let what = Named { dir, name, birth };
            renamed_to(tree, &what, to)
        }
    }
}

/// Answers `rename`. After `NoMemory` the tree is as before.
pub fn rename(tree: &mut Tree, path: &[Name], to: &[Name]) -> Result<Reply, NoMemory>
    ensures ok { IfOk result (λ reply. renamed tree.old path.now to.now ≡ gives tree.new reply) }
    ensures err { OnErr result (tree.new ≡ tree.old) }
    ensures proper { IfOk result IsProperReply }
{
    match (path, to) {
        ([], _) | ([_, ..], []) => Ok(Reply::Inval),
        ([_, ..], [_, ..]) => renamed_from(tree, path, to),
    }
}
