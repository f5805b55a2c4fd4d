// Entries of directories that come, go, or are replaced.
ghost use Rattle.std.specs.Prelude.{◌≡◌, ◌<◌, ◌+◌, ◌*◌, ◌/◌, ◌%◌, ◌++◌, ◌∷◌, [], OnOk, slice_index};
ghost use Rattle.std.specs.Option.{option_map};
ghost use Rattle.frang_base.specs.declared.limits.TheConstants.{BLOCK_ENTRIES, INODE_BLOCKS_MAX};
ghost use Rattle.disk_definitions.specs.Store.{stored, entered};
ghost use Rattle.disk_definitions.specs.Edits.{SetPlace};
ghost use Rattle.disk_definitions.specs.Changes as changes;
ghost use Rattle.disk_definitions.specs.Plans as plans;
ghost use Rattle.plan_steps.specs.Edits.{edits_of};
ghost use Rattle.plan_steps.specs.Nodes.{IsDirectory};
ghost use Rattle.plan_steps.specs.Rooms.{IsRoomOf, room_in};

use crate::edit::{Edit, push};
use crate::room::Room;
use bitmap_block::BlockState;
use dir_lookup::NumberedInode;
use disk_definitions::{DirEntry, Inode};
use frang_base::limits::{BLOCK_ENTRIES, NAME_BYTES_MAX};
use frang_base::{Name, NoMemory};

/// The entry of a name: the inode and the kind of its node.
pub fn entry_for(name: &Name, inode: u32, kind: u8) -> DirEntry
    ensures { entered result ≡ record { name = name.now; inode = inode; kind = kind } }
{
    let len = name.len();
    let mut bytes = [0; NAME_BYTES_MAX];
    bytes[..len].copy_from_slice(name.as_slice());
    DirEntry {
        inode,
        len: len as u8,
        kind,
        name: bytes,
    }
}

/// The entry comes into the room of a directory.
pub fn enter(
    edits: &mut Vec<Edit>,
    directory: &NumberedInode,
    entry: &DirEntry,
    room: &Room,
) -> Result<(), NoMemory>
    requires directory { IsDirectory directory.now.inode }
    requires room { IsRoomOf directory.now.inode room.now }
    ensures ok { OnOk result (edits_of edits.new.items ≡ edits_of edits.old.items ++ plans.enter directory.now.number (stored directory.now.inode) (entered entry.now) (room_in room.now)) }
{
    match room {
        Room::Inside { place } => put_entry(edits, directory, *place, entry),
        Room::InBlock { block } => {
            grow(edits, directory, *block)?;
            let first = BLOCK_ENTRIES * u32::from(directory.inode.blocks);
            let grown = NumberedInode {
                number: directory.number,
                inode: with_block(&directory.inode, *block),
            };
            put_entry(edits, &grown, first, entry)
        }
    }
}

// The directory with a block more.
fn with_block(directory: &Inode, block: u32) -> Inode
    requires directory { IsDirectory directory.now }
    requires room { directory.now.blocks < INODE_BLOCKS_MAX }
    ensures stored { stored result ≡ plans.with_block (stored directory.now) block }
    ensures directory { IsDirectory result }
    ensures blocks { result.blocks ≡ directory.now.blocks + 1 }
{
    let mut grown = *directory;
    grown.small[usize::from(directory.blocks)] = block;
    grown.blocks = directory.blocks + 1;
    grown
}

// The directory gets a block.
fn grow(edits: &mut Vec<Edit>, directory: &NumberedInode, block: u32) -> Result<(), NoMemory>
    requires directory { IsDirectory directory.now.inode }
    requires room { directory.now.inode.blocks < INODE_BLOCKS_MAX }
    ensures ok { OnOk result (edits_of edits.new.items ≡ edits_of edits.old.items ++ changes.grow directory.now.number (stored directory.now.inode) block) }
{
    let inode = with_block(&directory.inode, block);
    push(
        edits,
        Edit::Use {
            block,
            state: BlockState::Directory,
        },
    )?;
    push(
        edits,
        Edit::Inode {
            number: directory.number,
            inode: Some(inode),
            dated: false,
        },
    )
}

// A place of the directory gets an entry.
fn put_entry(
    edits: &mut Vec<Edit>,
    directory: &NumberedInode,
    place: u32,
    entry: &DirEntry,
) -> Result<(), NoMemory>
    requires directory { IsDirectory directory.now.inode }
    requires place { place < BLOCK_ENTRIES * directory.now.inode.blocks }
    ensures ok { OnOk result (edits_of edits.new.items ≡ edits_of edits.old.items ++ changes.put_entry directory.now.number (stored directory.now.inode) place (entered entry.now)) }
{
    let mut inode = directory.inode;
    inode.size = directory.inode.size + 1;
    push(
        edits,
        Edit::Inode {
            number: directory.number,
            inode: Some(inode),
            dated: false,
        },
    )?;
    set_place(edits, &directory.inode, place, Some(*entry))
}

/// A place of a directory loses its entry.
pub fn take_entry(
    edits: &mut Vec<Edit>,
    directory: &NumberedInode,
    place: u32,
) -> Result<(), NoMemory>
    requires directory { IsDirectory directory.now.inode }
    requires place { place < BLOCK_ENTRIES * directory.now.inode.blocks }
    ensures ok { OnOk result (edits_of edits.new.items ≡ edits_of edits.old.items ++ changes.take_entry directory.now.number (stored directory.now.inode) place) }
{
    let mut inode = directory.inode;
    inode.size = directory.inode.size.saturating_sub(1);
    push(
        edits,
        Edit::Inode {
            number: directory.number,
            inode: Some(inode),
            dated: false,
        },
    )?;
    set_place(edits, &directory.inode, place, None)
}

/// A place of a directory gets another entry.
pub fn replace_entry(
    edits: &mut Vec<Edit>,
    directory: &Inode,
    place: u32,
    entry: &DirEntry,
) -> Result<(), NoMemory>
    requires directory { IsDirectory directory.now }
    requires place { place < BLOCK_ENTRIES * directory.now.blocks }
    ensures ok { OnOk result (edits_of edits.new.items ≡ edits_of edits.old.items ++ changes.replace_entry (stored directory.now) place (entered entry.now)) }
{
    set_place(edits, directory, place, Some(*entry))
}

// What stands at a place of a directory.
fn set_place(
    edits: &mut Vec<Edit>,
    directory: &Inode,
    place: u32,
    entry: Option<DirEntry>,
) -> Result<(), NoMemory>
    requires directory { IsDirectory directory.now }
    requires place { place < BLOCK_ENTRIES * directory.now.blocks }
    ensures ok { OnOk result (edits_of edits.new.items ≡ edits_of edits.old.items ++ SetPlace (slice_index directory.now.small (place / BLOCK_ENTRIES)) (place % BLOCK_ENTRIES) (option_map entered entry) ∷ []) }
{
    push(
        edits,
        Edit::Place {
            block: directory.small[(place / BLOCK_ENTRIES) as usize],
            place: place % BLOCK_ENTRIES,
            entry,
        },
    )
}
