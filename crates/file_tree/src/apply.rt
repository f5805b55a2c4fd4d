// Operations applied to a tree.
ghost use Rattle.std.specs.Prelude.{◌≡◌, ℕ, [], false, IfOk, IsTrue, OnErr, length, map, replicate};
ghost use Rattle.script_definitions.specs.SaidReading.{IsProperReply};
ghost use Rattle.frang_base.specs.Name.{is_target};
ghost use Rattle.tree_definitions.specs.declared.cells.Cell.TheVariants.{Byte};
ghost use Rattle.tree_definitions.specs.declared.node.Node.TheVariants.{Dir, File, Link};
ghost use Rattle.tree_definitions.specs.Apply.{apply, made, at_file, written, overwritten};
ghost use Rattle.tree_definitions.specs.Place.{place};
ghost use Rattle.file_tree.specs.CanApply.{CanApply, names};
ghost use Rattle.file_tree.specs.Replies.{gives};

use crate::Tree;
use crate::bytes::{put_at, read, truncate};
use crate::looks::{list, readlink, stat, time};
use crate::names::{link, make, rmdir, unlink};
use crate::rename::rename;
use frang_base::{Name, NoMemory, Op, OpNo, Reply, Text};
use tree_definitions::{Cells, Entries, Node, Target};
use tree_edits::Bytes;

// Answers `create`: an empty file with one name.
fn create(tree: &mut Tree, path: &[Name], birth: u64) -> Result<Reply, NoMemory>
    ensures ok { IfOk result (λ reply. made tree.old birth (File [] 1 0) (place tree.old path.now) ≡ gives tree.new reply) }
    ensures err { OnErr result (tree.new ≡ tree.old) }
    ensures proper { IfOk result IsProperReply }
{
    let cells = Cells::new(tree.alloc());
    make(
        tree,
        path,
        birth,
        Node::File {
            cells,
            links: 1,
            when: 0,
        },
    )
}

// Answers `mkdir`: a directory without entries.
fn mkdir(tree: &mut Tree, path: &[Name], birth: u64) -> Result<Reply, NoMemory>
    ensures ok { IfOk result (λ reply. made tree.old birth (Dir [] 0) (place tree.old path.now) ≡ gives tree.new reply) }
    ensures err { OnErr result (tree.new ≡ tree.old) }
    ensures proper { IfOk result IsProperReply }
{
    let entries = Entries::new(tree.alloc());
    make(tree, path, birth, Node::Dir { entries, blocks: 0 })
}

// Answers `symlink`: a symbolic link with one name.
fn symlink(tree: &mut Tree, path: &[Name], birth: u64, target: &Text) -> Result<Reply, NoMemory>
    requires { IsTrue (is_target target.now) }
    ensures ok { IfOk result (λ reply. made tree.old birth (Link target.now 1) (place tree.old path.now) ≡ gives tree.new reply) }
    ensures err { OnErr result (tree.new ≡ tree.old) }
    ensures proper { IfOk result IsProperReply }
{
    let target = Target::of(target.try_copy()?);
    make(tree, path, birth, Node::Link { target, links: 1 })
}

// Answers `write`, at a time.
fn write(
    tree: &mut Tree,
    when: u64,
    m: u32,
    path: &[Name],
    off: u32,
    bytes: &Text,
) -> Result<Reply, NoMemory>
    ensures ok { IfOk result (λ reply. at_file tree.old (place tree.old path.now) (λ b cells links old. written tree.old m b cells links when off (length bytes.now) (λ all. overwritten all off (map Byte bytes.now))) ≡ gives tree.new reply) }
    ensures err { OnErr result (tree.new ≡ tree.old) }
    ensures proper { IfOk result IsProperReply }
{
    let bytes = Bytes::Text(bytes.as_slice());
    put_at(tree, when, m, path, off, &bytes)
}

// Answers `fill`, at a time.
fn fill(
    tree: &mut Tree,
    when: u64,
    m: u32,
    path: &[Name],
    off: u32,
    len: u32,
    byte: u8,
) -> Result<Reply, NoMemory>
    ensures ok { IfOk result (λ reply. at_file tree.old (place tree.old path.now) (λ b cells links old. written tree.old m b cells links when off len (λ all. overwritten all off (replicate len (Byte byte)))) ≡ gives tree.new reply) }
    ensures err { OnErr result (tree.new ≡ tree.old) }
    ensures proper { IfOk result IsProperReply }
{
    put_at(tree, when, m, path, off, &Bytes::Same { len, byte })
}

impl Tree {
    /// Does an operation, and answers it: a read by the bytes that it shows, of which none may be in doubt. A node that it makes gets
    /// this birth, and a file that it writes or cuts this time; `m` is the number of small blocks that are or were a directory's. After
    /// `NoMemory` the tree is as before.
    pub fn apply(&mut self, op: &Op, birth: OpNo, when: u64, m: u32) -> Result<Reply, NoMemory>
        requires { CanApply self.old op.now }
        ensures ok { IfOk result (λ reply. apply self.old op.now birth.0 when m ≡ gives self.new reply) }
        ensures err { OnErr result (self.new ≡ self.old) }
        ensures proper { IfOk result IsProperReply }
    {
        match op {
            Op::Create { path } => create(self, path.as_slice(), birth.0),
            Op::Mkdir { path } => mkdir(self, path.as_slice(), birth.0),
            Op::Symlink { path, target } => symlink(self, path.as_slice(), birth.0, target),
            Op::Link { path, to } => link(self, path.as_slice(), to.as_slice()),
            Op::Unlink { path } => Ok(unlink(self, path.as_slice())),
            Op::Rmdir { path } => Ok(rmdir(self, path.as_slice())),
            Op::Rename { path, to } => rename(self, path.as_slice(), to.as_slice()),
            _ => self.apply_to_bytes(op, when, m),
        }
    }

    // Does an operation that writes, reads or looks.
    fn apply_to_bytes(&mut self, op: &Op, when: u64, m: u32) -> Result<Reply, NoMemory>
        requires can { CanApply self.old op.now }
        requires bytes { names op.now ≡ false }
        ensures ok { (birth : ℕ) → IfOk result (λ reply. apply self.old op.now birth when m ≡ gives self.new reply) }
        ensures err { OnErr result (self.new ≡ self.old) }
        ensures proper { IfOk result IsProperReply }
    {
        match op {
            Op::Write { path, off, bytes } => write(self, when, m, path.as_slice(), *off, bytes),
            Op::Fill {
                path,
                off,
                len,
                byte,
            } => fill(self, when, m, path.as_slice(), *off, *len, *byte),
            Op::Truncate { path, len } => Ok(truncate(self, when, path.as_slice(), *len)),
            Op::Read { path, off, len } => read(self, path.as_slice(), *off, *len),
            Op::Stat { path } => Ok(stat(self, path.as_slice())),
            Op::List { path } => list(self, path.as_slice()),
            Op::Readlink { path } => readlink(self, path.as_slice()),
            Op::Time { path } => Ok(time(self, path.as_slice())),
            _ => unreachable!(),
        }
    }
}
