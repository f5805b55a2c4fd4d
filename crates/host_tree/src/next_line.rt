// The next line of what is left.
ghost use Rattle.std.specs.Prelude.{◌≡◌, ◌==◌, ◌∷◌, Some, if◌then◌else◌, IfOk, IfSome, OnErr};
ghost use Rattle.std.specs.Option.{option_map};
ghost use Rattle.frang_base.specs.declared.limits.TheConstants.{KIND_FILE};
ghost use Rattle.tree_lines.specs.Waiting.{lines_left};
ghost use Rattle.disk_definitions.specs.Store.{stored};
ghost use Rattle.dir_lookup.specs.Stored.{IsUsed};
ghost use Rattle.host_tree.specs.Reading.{store_read};
ghost use Rattle.host_tree.specs.Saying.{IsNext, Gives, shown_in};

use crate::directory::listed;
use crate::tree_sectors::TreeSectors;
use disk_definitions::Inode;
use frang_base::limits::KIND_FILE;
use frang_base::{NoMemory, Said};
use std::alloc::Global;
use tree_lines::LinesLeft;

// The links that the line of an inode shows: those of a file.
fn links_shown(inode: &Inode) -> u32
    ensures { result ≡ (if inode.now.kind == KIND_FILE then inode.now.links else 0) }
{
    if inode.kind == KIND_FILE {
        u32::from(inode.links)
    } else {
        0
    }
}

// The inode of the next node. Nodes that aren't there have no lines.
fn next_inode(left: &mut LinesLeft, sectors: &TreeSectors) -> Option<Inode>
    ensures same { lines_left (shown_in (store_read sectors.now.segments sectors.now.read)) left.new ≡ lines_left (shown_in (store_read sectors.now.segments sectors.now.read)) left.old }
    ensures next { IsNext (store_read sectors.now.segments sectors.now.read) left.new (option_map stored result) }
    ensures used { IfSome result IsUsed }
{
    while let Some(number) = left.wanted() {
        match sectors.inode(number) {
            Some(inode) => return Some(inode),
            None => left.pass(),
        }
    }
    None
}

// The line of the next node, whose inode this is.
fn inode_line(
    left: &mut LinesLeft,
    alloc: Global,
    sectors: &TreeSectors,
    inode: &Inode,
) -> Result<Said, NoMemory>
    requires used { IsUsed inode.now }
    requires next { IsNext (store_read sectors.now.segments sectors.now.read) left.old (Some (stored inode.now)) }
    ensures ok { IfOk result (λ line. lines_left (shown_in (store_read sectors.now.segments sectors.now.read)) left.old ≡ line ∷ lines_left (shown_in (store_read sectors.now.segments sectors.now.read)) left.new) }
    ensures err { OnErr result (lines_left (shown_in (store_read sectors.now.segments sectors.now.read)) left.new ≡ lines_left (shown_in (store_read sectors.now.segments sectors.now.read)) left.old) }
{
    let entries = listed(alloc, sectors, inode)?;
    left.show(inode.kind, inode.size as u32, links_shown(inode), &entries)
}

/// The next line of those that are left. `None` exactly where none is. After `NoMemory` the same lines are left.
pub(crate) fn next_line(
    left: &mut LinesLeft,
    alloc: Global,
    sectors: &TreeSectors,
) -> Result<Option<Said>, NoMemory>
    ensures ok { IfOk result (Gives (lines_left (shown_in (store_read sectors.now.segments sectors.now.read)) left.old) (lines_left (shown_in (store_read sectors.now.segments sectors.now.read)) left.new)) }
    ensures err { OnErr result (lines_left (shown_in (store_read sectors.now.segments sectors.now.read)) left.new ≡ lines_left (shown_in (store_read sectors.now.segments sectors.now.read)) left.old) }
{
    let Some(inode) = next_inode(left, sectors) else {
        return Ok(None);
    };
    let line = inode_line(left, alloc, sectors, &inode)?;
    Ok(Some(line))
}
