// Records of a log, and what they change: sectors, each by patches of its bytes.
ghost use Rattle.std.specs.Prelude.{◌≡◌, ◌↔◌, [], ◌∷◌, ◌++◌, length, IfOk, IsTrue, OnOk, OnErr};
ghost use Rattle.std.specs.List.{slice_get};
ghost use Rattle.std.specs.Option.{option_copied};

use crate::{Items, NoMemory, OpNo, Sector, Text};
use std::alloc::{AllocError, Global};
use std::marker::Model;

/// Bytes to be put into a sector from a place on, counted in bytes from the sector's first.
#[derive(Clone, Drop)]
pub struct Patch {
    pub at: u16,
    pub bytes: Text,
}

/// The patches of one sector, seen as the list of them.
#[derive(Drop)]
pub struct Patches {
    patches: Vec<Patch>,
}

impl Model for Patches {
    ghost use Rattle.std.specs.Prelude.{List};
    ghost use Rattle.frang_base.specs.declared.change.Patch.{Patch};

    ghost Value = { List Patch };

    ghost view = { λ p. p.patches.items };
}

impl Patches {
    /// No patches. It takes no memory.
    pub fn new(alloc: Global) -> Self
        ensures { result ≡ [] }
    {
        Patches {
            patches: Vec::new(alloc),
        }
    }

    /// Adds a patch at the end. After `NoMemory` the list is as before.
    pub fn push(&mut self, patch: Patch) -> Result<(), NoMemory>
        ensures ok { OnOk result (self.new ≡ self.old ++ patch ∷ []) }
        ensures err { OnErr result (self.new ≡ self.old) }
    {
        self.patches.push(patch)?;
        Ok(())
    }

    /// The number of patches.
    pub fn len(&self) -> usize
        ensures { result ≡ length self.now }
    {
        self.patches.len()
    }

    pub fn is_empty(&self) -> bool
        ensures { IsTrue result ↔ (self.now ≡ []) }
    {
        self.patches.is_empty()
    }

    /// The patch at a place, counted from 0. `None` exactly where the place isn't below the length.
    pub fn get(&self, i: usize) -> Option<&Patch>
        ensures { option_copied result ≡ slice_get self.now i }
    {
        self.patches.get(i)
    }

    /// All patches, in order.
    pub fn as_slice(&self) -> &[Patch]
        ensures { result.now ≡ self.now }
    {
        &self.patches
    }

    /// Another list of the same patches.
    pub fn try_copy(&self) -> Result<Self, NoMemory>
        ensures { IfOk result (λ p. p ≡ self.now) }
    {
        Ok(self.clone()?)
    }
}

impl Clone for Patches {
    ghost is_clone = { λ a b. a ≡ b };

    fn clone(&self) -> Result<Patches, AllocError> {
        Ok(Patches {
            patches: self.patches.clone()?,
        })
    }
}

/// A sector with its new version, and what makes the new bytes of the old ones.
#[derive(Clone, Drop)]
pub struct Change {
    pub sector: Sector,
    pub version: u64,
    pub patches: Patches,
}

/// Changes of sectors.
pub type Changes = Items<Change>;

/// A record of a log: the operation that it is of, and the changes of sectors that it makes.
#[derive(Drop)]
pub struct Redo {
    pub op: OpNo,
    pub changes: Changes,
}
