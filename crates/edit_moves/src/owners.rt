// The nodes at hand that have a block.
ghost use Rattle.std.specs.Prelude.{◌≡◌};
ghost use Rattle.disk_definitions.specs.Written.{inode_at_hand};
ghost use Rattle.disk_definitions.specs.CoversAtHand as covers;

use crate::{has_large, has_small};
use dir_lookup::{Looked, inode_at};
use usable_sectors::Usable;

/// The first of these nodes whose inode is cached and has this small block.
pub(crate) fn small_owner_among(sectors: &Usable, nodes: &[u32], block: u32) -> Option<u32>
    ensures { result ≡ covers.small_owner_among sectors.now.entries nodes.now block }
{
    for node in nodes {
        let owner = owns_small(sectors, *node, block);
        if owner {
            return Some(*node);
        }
    }
    None
}

/// Whether this inode is cached, in use, and has the small block.
pub fn owns_small(sectors: &Usable, number: u32, block: u32) -> bool
    ensures { result ≡ covers.has_small block (inode_at_hand sectors.now.entries number) }
{
    let mut looked = Looked::unasked();
    match inode_at(sectors, number, &mut looked) {
        Ok(Some(inode)) => has_small(&inode, block),
        Ok(None) => false,
        Err(_) => false,
    }
}

/// The first of these nodes whose inode is cached and has this large block.
pub(crate) fn large_owner_among(sectors: &Usable, nodes: &[u32], block: u32) -> Option<u32>
    ensures { result ≡ covers.large_owner_among sectors.now.entries nodes.now block }
{
    for node in nodes {
        let owner = owns_large(sectors, *node, block);
        if owner {
            return Some(*node);
        }
    }
    None
}

fn owns_large(sectors: &Usable, number: u32, block: u32) -> bool
    ensures { result ≡ covers.has_large block (inode_at_hand sectors.now.entries number) }
{
    let mut looked = Looked::unasked();
    match inode_at(sectors, number, &mut looked) {
        Ok(Some(inode)) => has_large(&inode, block),
        Ok(None) => false,
        Err(_) => false,
    }
}
