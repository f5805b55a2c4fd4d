// The steps of a settled history.
ghost use Rattle.std.specs.Prelude.{◌≡◌, ◌<◌, ◌*◌, IfOk, OnOk, IfSome, IsTrue};
ghost use Rattle.std.specs.List.{list_any};
ghost use Rattle.std.specs.Option.{option_copied};
ghost use Rattle.tree_definitions.specs.History.{Stays, InDoubt, after, doubted};
ghost use Rattle.tree_definitions.specs.Touched.{is_mounted};
ghost use Rattle.tree_definitions.specs.Removal.{mounts, is_of, is_lost, sector_cells};
ghost use Rattle.tree_model.specs.Replayed.{is_within};
ghost use Rattle.tree_model.specs.Steps.{entry_of};

use crate::Tree;
use crate::replay::tree_after;
use crate::touch::is_recorded;
use frang_base::limits::SECTOR_BYTES;
use frang_base::{NoMemory, OpNo, Reply, ServerId};
use std::alloc::AllocError;
use std::marker::Model;
use tree_definitions::Entry;

/// Some cells of a file, from an offset on.
#[derive(Drop)]
pub struct CellRun {
    birth: u64,
    from: usize,
    count: usize,
}

impl Model for CellRun {
    ghost use Rattle.tree_definitions.specs.History.{CellRun};

    ghost Value = { CellRun };

    ghost view = { λ r. record { birth = r.birth; from = r.from; count = r.count } };
}

impl Clone for CellRun {
    ghost is_clone = { λ a b. a ≡ b };

    fn clone(&self) -> Result<CellRun, AllocError> {
        Ok(CellRun {
            birth: self.birth,
            from: self.from,
            count: self.count,
        })
    }
}

impl CellRun {
    /// The cells of one sector of a file of this size.
    pub fn of_sector(birth: u64, size: usize, sector: usize) -> CellRun
        requires { SECTOR_BYTES * sector < size }
        ensures { result ≡ sector_cells birth size sector }
    {
        let from = SECTOR_BYTES * sector;
        CellRun {
            birth,
            from,
            count: SECTOR_BYTES.min(size - from),
        }
    }
}

// An entry that stays, or cells that come into doubt.
#[derive(Drop)]
enum What<'h> {
    Stays(&'h Entry),
    InDoubt(Vec<CellRun>),
}

/// A step of a settled history, seen as its definition: an entry that stays, or cells that come into doubt.
#[derive(Drop)]
pub struct Step<'h> {
    what: What<'h>,
}

impl<'h> Model for Step<'h> {
    ghost use Rattle.tree_definitions.specs.History.{Settled};
    ghost use Rattle.tree_model.specs.Steps.{settled_of, IsWithin};

    ghost Value = { Settled };

    ghost view = { λ s. settled_of s.what };

    ghost invariant = { λ s. IsWithin s.what };
}

fn is_mounted(reply: &Reply) -> bool
    ensures { result ≡ is_mounted reply.now }
{
    matches!(reply, Reply::Mounted)
}

// Brings the cells of some runs into doubt.
fn doubt(tree: &mut Tree, runs: &[CellRun])
    ensures { tree.new ≡ doubted tree.old runs.now }
{
    for run in runs {
        tree.doubt(run.birth, run.from, run.count);
    }
}

impl<'h> Step<'h> {
    /// An entry that stays.
    pub fn stays(entry: &'h Entry) -> Step<'h>
        requires { IsTrue (is_within entry.now.op) }
        ensures { result ≡ Stays entry.now }
    {
        Step {
            what: What::Stays(entry),
        }
    }

    /// Cells that come into doubt.
    pub fn in_doubt(runs: Vec<CellRun>) -> Step<'h>
        ensures { result ≡ InDoubt runs.items }
    {
        Step {
            what: What::InDoubt(runs),
        }
    }

    /// Another step, the same.
    pub fn try_copy(&self) -> Result<Step<'h>, NoMemory>
        ensures { IfOk result (λ copy. copy ≡ self.now) }
    {
        match &self.what {
            What::Stays(entry) => Ok(Step::stays(*entry)),
            What::InDoubt(runs) => Ok(Step::in_doubt(runs.clone()?)),
        }
    }

    /// The entry that stays. `None` where cells come into doubt.
    pub fn entry(&self) -> Option<&Entry>
        ensures is { option_copied result ≡ entry_of self.now }
        ensures within { IfSome result (λ entry. IsTrue (is_within entry.now.op)) }
    {
        match &self.what {
            What::Stays(entry) => Some(*entry),
            What::InDoubt(_) => None,
        }
    }

    /// Whether it mounts a server.
    pub fn mounts(&self, server: ServerId) -> bool
        ensures { result ≡ mounts server.0 self.now }
    {
        match &self.what {
            What::Stays(entry) => entry.server.0 == server.0 && is_mounted(&entry.reply),
            What::InDoubt(_) => false,
        }
    }

    /// Whether it is an entry of a server.
    pub fn is_of(&self, server: ServerId) -> bool
        ensures { result ≡ is_of server.0 self.now }
    {
        match &self.what {
            What::Stays(entry) => entry.server.0 == server.0,
            What::InDoubt(_) => false,
        }
    }

    /// Whether it is an entry of a server that has a record, from the tree that it stands at, with a number above the greatest of the
    /// server's log.
    pub fn is_lost(&self, server: ServerId, keeps: OpNo, tree: &Tree) -> Result<bool, NoMemory>
        ensures { IfOk result (λ lost. lost ≡ is_lost server.0 keeps.0 tree.now self.now) }
    {
        match &self.what {
            What::Stays(entry) => Ok(
                entry.server.0 == server.0
                    && keeps.0 < entry.number.0
                    && is_recorded(tree, *entry)?,
            ),
            What::InDoubt(_) => Ok(false),
        }
    }

    /// Takes the step in the tree that it stands at.
    pub fn take(&self, tree: &mut Tree) -> Result<(), NoMemory>
        ensures { OnOk result (tree.new ≡ after tree.old self.now) }
    {
        match &self.what {
            What::Stays(entry) => tree_after(tree, *entry),
            What::InDoubt(runs) => {
                doubt(tree, runs);
                Ok(())
            }
        }
    }
}

/// Whether one of some steps mounts a server.
pub fn any_mounts(server: ServerId, steps: &[Step]) -> bool
    ensures { result ≡ list_any (mounts server.0) steps.now }
{
    steps.iter().any(|step| step.mounts(server))
}
