// Operations on the bytes of a file: write, fill, truncate, read.
ghost use Rattle.std.specs.Prelude.{◌≡◌, ◌+◌, ◌<◌, ◌^◌, ℕ, List, IfOk, IfSome, IfNone, IsTrue, OnErr, length, map, nat_lt, true};
ghost use Rattle.std.specs.List.{list_all};
ghost use Rattle.script_definitions.specs.SaidReading.{IsProperReply};
ghost use Rattle.tree_definitions.specs.declared.cells.Cell.{Cell as TheCell};
ghost use Rattle.tree_definitions.specs.declared.cells.Cell.TheVariants.{Byte};
ghost use Rattle.tree_definitions.specs.declared.node.Node.TheVariants.{File};
ghost use Rattle.tree_definitions.specs.Tree.{with_node};
ghost use Rattle.tree_definitions.specs.Place.{place};
ghost use Rattle.tree_definitions.specs.Apply.{at_file, overwritten, written, truncated, shown};
ghost use Rattle.file_tree.specs.Replies.{gives};
ghost use Rattle.file_tree.specs.Sure.{is_sure, shows_sure};
ghost use Rattle.file_tree.specs.Puts.{by_refusal, CanGrow};
ghost use Rattle.tree_edits.specs.Written.{cells_of, size_of};

use crate::Tree;
use crate::place::file_at;
use frang_base::limits::FILE_BYTES_MAX;
use frang_base::{Name, NoMemory, Reply, Text};
use std::alloc::Global;
use tree_definitions::{Cell, Cells};
use tree_edits::{Bytes, count_of, large_blocks_of, small_blocks_of};

// Why bytes can't be put into a file, if they can't.
fn refused(tree: &Tree, m: u32, cells: &Cells, off: usize, len: usize) -> Option<Reply>
    requires { off + len < 2 ^ 64 }
    ensures is { (birth links when : ℕ) (put : List TheCell → List TheCell) → written tree.now m birth cells.now links when off len put ≡ by_refusal tree.now result (with_node tree.now birth (File (put cells.now) links when)) }
    ensures proper { IfSome result IsProperReply }
    ensures room { IfNone result (CanGrow tree.now (length cells.now) off len) }
{
    let before = cells.len();
    let end = off + len;
    let after = before.max(end);
    if before < off {
        return Some(Reply::BadOffset);
    }
    if FILE_BYTES_MAX < end as u64 {
        return Some(Reply::TooBig);
    }
    if large_blocks_of(before) < large_blocks_of(after) && tree.larges_full() {
        return Some(Reply::NoLarge);
    }
    let more = small_blocks_of(after) - small_blocks_of(before);
    if tree.lacks_file_blocks(m, more) {
        return Some(Reply::NoBlock { m });
    }
    None
}

/// Answers `write` and `fill`, at a time. After `NoMemory` the tree is as before.
pub fn put_at(
    tree: &mut Tree,
    when: u64,
    m: u32,
    path: &[Name],
    off: u32,
    bytes: &Bytes,
) -> Result<Reply, NoMemory>
    ensures ok { IfOk result (λ reply. at_file tree.old (place tree.old path.now) (λ b cells links old. written tree.old m b cells links when off (size_of bytes.now) (λ all. overwritten all off (cells_of bytes.now))) ≡ gives tree.new reply) }
    ensures err { OnErr result (tree.new ≡ tree.old) }
    ensures proper { IfOk result IsProperReply }
{
    let file = match file_at(tree, path) {
        Ok(file) => file,
        Err(refusal) => return Ok(refusal.reply()),
    };
    let birth = file.birth;
    match refused(tree, m, file.cells, off as usize, count_of(bytes)) {
        Some(reply) => return Ok(reply),
        None => {}
    }
    tree.put_bytes(birth, when, off as usize, bytes)?;
    Ok(Reply::Ok)
}

/// Answers `truncate`, at a time.
pub fn truncate(tree: &mut Tree, when: u64, path: &[Name], len: u32) -> Reply
    ensures is { at_file tree.old (place tree.old path.now) (λ b cells links old. truncated tree.old b cells links when len) ≡ gives tree.new result }
    ensures proper { IsProperReply result }
{
    let file = match file_at(tree, path) {
        Ok(file) => file,
        Err(refusal) => return refusal.reply(),
    };
    let birth = file.birth;
    if file.cells.len() < len as usize {
        return Reply::BadOffset;
    }
    tree.cut(birth, when, len as usize);
    Reply::Ok
}

// The bytes of cells of which none is in doubt.
fn bytes_of(alloc: Global, cells: &[Cell]) -> Result<Text, NoMemory>
    requires { list_all is_sure cells.now ≡ true }
    ensures is { IfOk result (λ text. map Byte text ≡ cells.now) }
    ensures bytes { IfOk result (λ text. IsTrue (list_all (λ b. nat_lt b 256) text)) }
{
    let mut text = Text::new(alloc);
    for cell in cells {
        match cell {
            Cell::Byte(byte) => text.push(*byte)?,
            Cell::Doubtful => unreachable!(),
        }
    }
    Ok(text)
}

// The bytes of a file from an offset on, at most so many.
fn shown(tree: &Tree, cells: &Cells, off: u32, len: u32) -> Result<Reply, NoMemory>
    requires { shows_sure (shown tree.now cells.now off len).answer ≡ true }
    ensures is { IfOk result (λ reply. shown tree.now cells.now off len ≡ gives tree.now reply) }
    ensures proper { IfOk result IsProperReply }
{
    if cells.len() < off as usize {
        return Ok(Reply::BadOffset);
    }
    let text = bytes_of(tree.alloc(), cells.shown(off as usize, len as usize))?;
    Ok(Reply::Shown(text))
}

/// Answers `read`, where it shows no cell in doubt.
pub fn read(tree: &Tree, path: &[Name], off: u32, len: u32) -> Result<Reply, NoMemory>
    requires { shows_sure (at_file tree.now (place tree.now path.now) (λ b cells links at. shown tree.now cells off len)).answer ≡ true }
    ensures is { IfOk result (λ reply. at_file tree.now (place tree.now path.now) (λ b cells links at. shown tree.now cells off len) ≡ gives tree.now reply) }
    ensures proper { IfOk result IsProperReply }
{
    match file_at(tree, path) {
        Ok(file) => shown(tree, file.cells, off, len),
        Err(refusal) => Ok(refusal.reply()),
    }
}
