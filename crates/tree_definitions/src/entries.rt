// The entries of a directory.
ghost use Rattle.std.specs.Prelude.{◌≡◌, ◌≤◌, ◌<◌, [], length, IsSome, OnOk, OnErr};
ghost use Rattle.frang_base.specs.declared.limits.TheConstants.{DIRECTORY_ENTRIES_MAX};
ghost use Rattle.tree_definitions.specs.Entries.{entry_at, with_entry, without_entry};

use frang_base::{Name, NoMemory};
use std::alloc::{AllocError, Global};
use std::collections::BTreeMap;
use std::marker::Model;

/// The entries of a directory, seen as the list of its names with the births of their nodes, in order of the names' bytes: at most
/// 896, each name once.
#[derive(Drop)]
pub struct Entries {
    map: BTreeMap<Name, u64>,
}

impl Model for Entries {
    ghost use Rattle.std.specs.Prelude.{List, ℕ, ◌≤◌, length};
    ghost use Rattle.frang_base.specs.declared.limits.TheConstants.{DIRECTORY_ENTRIES_MAX};

    ghost Value = { List (List ℕ × ℕ) };

    ghost view = { λ e. e.map.entries };

    ghost invariant = { λ e. length e.map.entries ≤ DIRECTORY_ENTRIES_MAX };
}

impl Entries {
    /// No entries. It takes no memory.
    pub fn new(alloc: Global) -> Self
        ensures { result ≡ [] }
    {
        Entries {
            map: BTreeMap::new(alloc),
        }
    }

    /// The number of entries, at most 896.
    pub fn len(&self) -> usize
        ensures len { result ≡ length self.now }
        ensures small { result ≤ DIRECTORY_ENTRIES_MAX }
    {
        self.map.len()
    }

    /// The birth of the node of a name. `None` exactly where the name isn't there.
    pub fn get(&self, name: &Name) -> Option<u64>
        ensures { result ≡ entry_at self.now name.now }
    {
        self.map.get(name).copied()
    }

    /// Gives a name a node. After `NoMemory` the entries are as before.
    pub fn insert(&mut self, name: Name, birth: u64) -> Result<(), NoMemory>
        requires { length self.old < DIRECTORY_ENTRIES_MAX }
        ensures ok { OnOk result (self.new ≡ with_entry self.old name birth) }
        ensures err { OnErr result (self.new ≡ self.old) }
    {
        self.map.insert(name, birth)?;
        Ok(())
    }

    /// Gives a name that is there another node. It takes no memory.
    pub fn replace(&mut self, name: Name, birth: u64)
        requires { IsSome (entry_at self.old name) }
        ensures { self.new ≡ with_entry self.old name birth }
    {
        match self.map.insert(name, birth) {
            Ok(_) => {}
            Err(_) => unreachable!(),
        }
    }

    /// Removes a name, if it is there.
    pub fn remove(&mut self, name: &Name)
        ensures is { self.new ≡ without_entry self.old name.now }
        ensures shorter { IsSome (entry_at self.old name.now) → length self.new < DIRECTORY_ENTRIES_MAX }
    {
        self.map.remove(name);
    }

    /// The entries as a map from names to births.
    pub fn as_map(&self) -> &BTreeMap<Name, u64>
        ensures { result.now.entries ≡ self.now }
    {
        &self.map
    }
}

impl Clone for Entries {
    ghost is_clone = { λ a b. a ≡ b };

    fn clone(&self) -> Result<Entries, AllocError> {
        Ok(Entries {
            map: self.map.clone()?,
        })
    }
}
