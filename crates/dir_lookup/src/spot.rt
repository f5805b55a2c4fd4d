// Where a walk leads.
ghost use Rattle.std.specs.Prelude.{◌≡◌};
ghost use Rattle.dir_lookup.specs.Spots.{reply_of};

use crate::Found;
use disk_definitions::Inode;
use frang_base::{Name, Reply};

/// Why a walk was refused.
#[derive(Clone, Copy, PartialEq, Eq)]
pub enum Refusal {
    /// A name on the way isn't there.
    NoEnt,
    /// A node on the way is no directory.
    NotDir,
}

/// An inode with its number.
#[derive(Clone, Copy)]
pub struct NumberedInode {
    /// The number of the inode, counted from 0 over all segments.
    pub number: u32,
    /// What stands in it.
    pub inode: Inode,
}

/// Where a walk leads.
#[derive(Drop)]
pub enum Spot {
    /// At the root.
    AtRoot,
    /// The last name is there.
    AtName {
        directory: NumberedInode,
        name: Name,
        found: Found,
    },
    /// The last name isn't there.
    AtGap {
        directory: NumberedInode,
        name: Name,
    },
    /// The walk was refused on the way.
    Lost(Refusal),
}

impl Refusal {
    /// The reply that says it.
    pub fn reply(self) -> Reply
        ensures { result ≡ reply_of self }
    {
        match self {
            Refusal::NoEnt => Reply::NoEnt,
            Refusal::NotDir => Reply::NotDir,
        }
    }
}
