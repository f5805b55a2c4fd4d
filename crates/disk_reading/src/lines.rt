// The lines of the tree that a disk stands for, read off its inodes and directories: no byte of a file is read.
ghost use Rattle.std.specs.Prelude.{◌≡◌, ◌≤◌, ◌*◌, ◌∷◌, [], ◌==◌, true, Some, length, if◌then◌else◌, IfOk, IfSome, OnErr};
ghost use Rattle.std.specs.Option.{option_map};
ghost use Rattle.tree_definitions.specs.Tree.{FileTree};
ghost use Rattle.tree_definitions.specs.TreeLines.{tree_lines};
ghost use Rattle.tree_lines.specs.Waiting.{lines_left};
ghost use Rattle.disk_definitions.specs.Inodes.{inode_fits};
ghost use Rattle.sector_bytes.specs.Sectors.{sectors_of};
ghost use Rattle.disk_definitions.specs.Store.{stored};
ghost use Rattle.disk_definitions.specs.Standing.{StandsFor};
ghost use Rattle.standing_laws.specs.ReadTree.{nodes_to, tree_in};
ghost use Rattle.standing_laws.specs.Soundness.{node_agrees};
ghost use Rattle.disk_reading.specs.Lined.{AreLinesOf, Gives, IsNext, NodesAgree, listed, shown_in};
ghost use Rattle.disk_reading.specs.Seen.{store_in};

use crate::decoded_disk::DecodedDisk;
use crate::nodes::read_entries;
use crate::sectors::used_inode;
use disk_definitions::{Disk, Inode};
use frang_base::limits::{KIND_DIRECTORY, KIND_FILE, ROOT_INODE, SEGMENT_INODES, SEGMENTS_MAX};
use frang_base::{NoMemory, Said, Sector};
use std::alloc::Global;
use std::marker::Model;
use tree_definitions::Entries;
use tree_lines::LinesLeft;

/// The lines of the tree of a disk, seen as those that are left. What is kept of them are the names down to the present node and the entries that
/// are left of its directories.
#[derive(Drop)]
pub struct DiskLines<'a> {
    alloc: Global,
    disk: DecodedDisk<'a>,
    segments: u32,
    left: LinesLeft,
}

impl<'a> Model for DiskLines<'a> {
    ghost use Rattle.std.specs.Prelude.{List, ◌≤◌};
    ghost use Rattle.frang_base.specs.declared.limits.TheConstants.{SEGMENTS_MAX};
    ghost use Rattle.frang_base.specs.declared.said.Said.{Said};
    ghost use Rattle.tree_lines.specs.Waiting.{lines_left};
    ghost use Rattle.disk_reading.specs.Lined.{NodesAgree, shown_in};
    ghost use Rattle.disk_reading.specs.Seen.{store_in};

    ghost Value = { List Said };

    ghost view = { λ d. lines_left (shown_in (store_in d.segments d.disk)) d.left };

    ghost invariant = { λ d. (d.segments ≤ SEGMENTS_MAX) × NodesAgree (store_in d.segments d.disk) };
}

// The links that the line of an inode shows: those of a file.
fn links_shown(inode: &Inode) -> u32
    ensures { result ≡ (if inode.now.kind == KIND_FILE then inode.now.links else 0) }
{
    if inode.kind == KIND_FILE {
        u32::from(inode.links)
    } else {
        0
    }
}

// The entries of an inode in use, where that is a directory.
#[tactic(auto, using(crate::proofs::PlaceByPlace::dir_few))]
fn listed(
    alloc: Global,
    disk: &DecodedDisk<'_>,
    segments: u32,
    inode: &Inode,
) -> Result<Entries, NoMemory>
    requires few { segments ≤ SEGMENTS_MAX }
    requires fits { inode_fits inode.now ≡ true }
    requires agrees { node_agrees (store_in segments disk.now) (Some (stored inode.now)) ≡ true }
    ensures { IfOk result (λ entries. entries ≡ listed (store_in segments disk.now) (stored inode.now)) }
{
    if inode.kind != KIND_DIRECTORY {
        return Ok(Entries::new(alloc));
    }
    let found = read_entries(alloc, disk, segments, inode)?;
    let Some(entries) = found else { unreachable!() };
    Ok(entries)
}

// The inode in use whose number a birth is.
fn inode_of(disk: &DecodedDisk<'_>, segments: u32, birth: u64) -> Option<Inode>
    requires { segments ≤ SEGMENTS_MAX }
    ensures is { option_map stored result ≡ (store_in segments disk.now).inode birth }
    ensures fits { IfSome result (λ x. inode_fits x ≡ true) }
{
    let end = u64::from(SEGMENT_INODES * segments);
    if birth >= end {
        return None;
    }
    used_inode(disk, segments, birth as u32)
}

// The inode of the next node. Nodes that aren't there have no lines.
fn next_inode(left: &mut LinesLeft, disk: &DecodedDisk<'_>, segments: u32) -> Option<Inode>
    requires { segments ≤ SEGMENTS_MAX }
    ensures same { lines_left (shown_in (store_in segments disk.now)) left.new ≡ lines_left (shown_in (store_in segments disk.now)) left.old }
    ensures next { IsNext (store_in segments disk.now) left.new (option_map stored result) }
    ensures fits { IfSome result (λ x. inode_fits x ≡ true) }
{
    while let Some(birth) = left.wanted() {
        match inode_of(disk, segments, birth) {
            Some(inode) => return Some(inode),
            None => left.pass(),
        }
    }
    None
}

// The line of the next node, whose inode this is.
#[tactic(auto, using(crate::proofs::NodeLines::small_size))]
fn inode_line(
    left: &mut LinesLeft,
    alloc: Global,
    disk: &DecodedDisk<'_>,
    segments: u32,
    inode: &Inode,
) -> Result<Said, NoMemory>
    requires few { segments ≤ SEGMENTS_MAX }
    requires fits { inode_fits inode.now ≡ true }
    requires agrees { node_agrees (store_in segments disk.now) (Some (stored inode.now)) ≡ true }
    requires next { IsNext (store_in segments disk.now) left.old (Some (stored inode.now)) }
    ensures ok { IfOk result (λ line. lines_left (shown_in (store_in segments disk.now)) left.old ≡ line ∷ lines_left (shown_in (store_in segments disk.now)) left.new) }
    ensures err { OnErr result (lines_left (shown_in (store_in segments disk.now)) left.new ≡ lines_left (shown_in (store_in segments disk.now)) left.old) }
{
    let entries = listed(alloc, disk, segments, inode)?;
    left.show(inode.kind, inode.size as u32, links_shown(inode), &entries)
}

// The number of nodes.
#[tactic(auto, using(crate::proofs::NodeLines::one_node_more))]
fn count_nodes(disk: &DecodedDisk<'_>, segments: u32) -> u32
    requires { segments ≤ SEGMENTS_MAX }
    ensures { result ≡ length (nodes_to (store_in segments disk.now) (SEGMENT_INODES * segments)) }
{
    let mut count = 0;
    for i in 0..SEGMENT_INODES * segments {
        if used_inode(disk, segments, i).is_some() {
            count += 1;
        }
    }
    count
}

// The lines of the tree that is read off a disk.
fn lines_of(alloc: Global, disk: DecodedDisk<'_>, segments: u32) -> DiskLines<'_>
    requires few { segments ≤ SEGMENTS_MAX }
    requires agree { NodesAgree (store_in segments disk) }
    ensures { result ≡ tree_lines (tree_in segments (store_in segments disk.entry)) }
{
    let depth = count_nodes(&disk, segments);
    let left = LinesLeft::of(alloc, u64::from(ROOT_INODE), depth as usize);
    DiskLines {
        alloc,
        disk,
        segments,
        left,
    }
}

impl<'a> DiskLines<'a> {
    /// The lines of the tree for which a disk stands, read off its inodes and directories: no byte of a file is read.
    pub fn of(alloc: Global, disk: &'a Disk) -> Result<DiskLines<'a>, NoMemory>
        requires { (tree : FileTree) × StandsFor (sectors_of disk.now) tree }
        ensures { IfOk result (λ lines. AreLinesOf (sectors_of disk.now) lines) }
    {
        let Some(param) = param_block::decode(&disk.get(Sector(0))) else {
            unreachable!()
        };
        let decoded = DecodedDisk::of(alloc, disk, param.segments)?;
        Ok(lines_of(alloc, decoded, param.segments))
    }

    /// The next line. `None` exactly where none is left. After `NoMemory` the same lines are left.
    pub fn next(&mut self) -> Result<Option<Said>, NoMemory>
        ensures ok { IfOk result (Gives self.old self.new) }
        ensures err { OnErr result (self.new ≡ self.old) }
    {
        let Some(inode) = next_inode(&mut self.left, &self.disk, self.segments) else {
            return Ok(None);
        };
        let line = inode_line(
            &mut self.left,
            self.alloc,
            &self.disk,
            self.segments,
            &inode,
        )?;
        Ok(Some(line))
    }
}
