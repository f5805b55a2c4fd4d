// What edits put into a sector, field by field.
ghost use Rattle.std.specs.Prelude.{◌≡◌, ◌≤◌, Some, None, length};
ghost use Rattle.std.specs.Option.{option_map};
ghost use Rattle.frang_base.specs.declared.limits.TheConstants.{INODE_BLOCKS_MAX, NAME_BYTES_MAX, TARGET_BYTES_MAX};
ghost use Rattle.sector_bytes.specs.Bytes.{zeros};
ghost use Rattle.disk_definitions.specs.Store.{stored, entered};
ghost use Rattle.disk_definitions.specs.Written.{inode_with, padded, place_with};

use disk_definitions::{DirEntry, Inode};
use frang_base::limits::{
    INODE_BLOCKS_MAX, KIND_FREE, KIND_LINK, NAME_BYTES_MAX, TARGET_BYTES_MAX,
};

/// The inode with this version, in use or free. Behind a link's target, and in place of one where it is no link, stand zeros.
pub(crate) fn inode_with(version: u64, inode: &Option<Inode>) -> Inode
    ensures { result ≡ inode_with version (option_map stored inode.now) }
{
    match inode {
        Some(inode) => used_inode(version, inode),
        None => free_inode(version),
    }
}

fn used_inode(version: u64, inode: &Inode) -> Inode
    ensures { result ≡ inode_with version (Some (stored inode.now)) }
{
    Inode {
        version,
        target: target_of(inode),
        ..*inode
    }
}

// An inode of which all but the version is 0.
fn free_inode(version: u64) -> Inode
    ensures { result ≡ inode_with version None }
{
    Inode {
        version,
        kind: KIND_FREE,
        links: 0,
        blocks: 0,
        size: 0,
        birth: 0,
        small: no_blocks(),
        large: 0,
        when: 0,
        target: no_target(),
    }
}

#[tactic(auto, unfolding(sector_bytes::specs::Bytes::zeros))]
fn no_blocks() -> [u32; 16]
    ensures { result ≡ zeros INODE_BLOCKS_MAX }
{
    [0; INODE_BLOCKS_MAX as usize]
}

#[tactic(auto, unfolding(sector_bytes::specs::Bytes::zeros))]
fn no_target() -> [u8; 384]
    ensures { result ≡ zeros TARGET_BYTES_MAX }
{
    [0; TARGET_BYTES_MAX]
}

#[tactic(auto, unfolding(sector_bytes::specs::Bytes::zeros))]
fn no_name() -> [u8; 64]
    ensures { result ≡ zeros NAME_BYTES_MAX }
{
    [0; NAME_BYTES_MAX]
}

// The target of a link, and zeros.
fn target_of(inode: &Inode) -> [u8; 384]
    ensures { result ≡ padded TARGET_BYTES_MAX ((stored inode.now).target) }
{
    let mut target = no_target();
    pad(target_bytes(inode), &mut target);
    target
}

// The target of a link; nothing of any other inode.
fn target_bytes(inode: &Inode) -> &[u8]
    ensures is { result.now ≡ (stored inode.now).target }
    ensures within { length result.now ≤ TARGET_BYTES_MAX }
{
    if inode.kind == KIND_LINK {
        &inode.target[..inode.size.min(TARGET_BYTES_MAX as u64) as usize]
    } else {
        &[]
    }
}

/// A place of a directory with this entry, and zeros behind its name, or a free one.
pub(crate) fn place_with(entry: &Option<DirEntry>) -> DirEntry
    ensures { result ≡ place_with (option_map entered entry.now) }
{
    match entry {
        Some(entry) => used_place(entry),
        None => DirEntry {
            inode: 0,
            len: 0,
            kind: KIND_FREE,
            name: no_name(),
        },
    }
}

fn used_place(entry: &DirEntry) -> DirEntry
    ensures { result ≡ place_with (Some (entered entry.now)) }
{
    let len = entry.len.min(NAME_BYTES_MAX as u8);
    let mut name = no_name();
    pad(&entry.name[..usize::from(len)], &mut name);
    DirEntry {
        len,
        name,
        ..*entry
    }
}

// Writes the bytes, and zeros behind them.
fn pad(bytes: &[u8], to: &mut [u8])
    requires { length bytes.now ≤ length to.old }
    ensures { to.new ≡ padded (length to.old) bytes.now }
{
    let (head, rest) = to.split_at_mut(bytes.len());
    head.copy_from_slice(bytes);
    clear(rest);
}

#[tactic(auto, unfolding(sector_bytes::specs::Bytes::zeros))]
fn clear(to: &mut [u8])
    ensures { to.new ≡ zeros (length to.old) }
{
    to.fill(0);
}
