// The table rebuilt from lists.
ghost use Rattle.std.specs.Prelude.{◌≡◌, IfOk, Err};
ghost use Rattle.frang_base.specs.declared.lock.LockId.{LockId};
ghost use Rattle.frang_base.specs.declared.sector.ServerId.{ServerId};
ghost use Rattle.lock_rebuild.specs.declared.restart.RebuildFault.TheVariants.{Clash};
ghost use Rattle.lock_rebuild.specs.Lists.{HasNoClash, IsLeastClash};
ghost use Rattle.lock_rebuild.specs.Rebuilt.{AreServers, IsRebuilt};

use crate::clashes::clash_at;
use crate::rebuilding::{Rebuilding, put_all_wishes};
use frang_base::{LockId, NoMemory, ServerId};
use lock_definitions::ClerkLocks;
use lock_table::LockTable;
use std::alloc::Global;

/// Why no table is rebuilt.
#[derive(Clone, Copy, Debug, PartialEq, Eq)]
pub enum RebuildFault {
    /// The lists of two servers clash at a lock: both hold it and one of the modes is sole, or both have the same log, whose lock it is.
    Clash {
        lock: LockId,
        first: ServerId,
        second: ServerId,
    },
    NoMemory,
}

impl From<NoMemory> for RebuildFault {
    ghost use Rattle.std.specs.Prelude.{◌≡◌};
    ghost use Rattle.lock_rebuild.specs.declared.restart.RebuildFault.TheVariants.{NoMemory as Want};

    ghost from_gives = { λ _ e. e ≡ Want };

    fn from(_: NoMemory) -> RebuildFault {
        RebuildFault::NoMemory
    }
}

/// The table of which the clerks tell in their lists: each server holds the locks that its list says, in those modes; of the wishes listed
/// those are noted that conflict with a holder; and each party has the logs that its list says. The list of who isn't a server, 0 to 15,
/// has no locks and no wishes. `Clash` comes exactly where the lists of two servers have one lock and one of the modes is sole, or the same
/// log; it shows the least such lock, and of the pairs of servers whose lists clash there the one with the least first and then the least second.
pub fn rebuild(alloc: Global, clerks: &[ClerkLocks]) -> Result<LockTable, RebuildFault>
    requires { AreServers clerks.now }
    ensures table { IfOk result (λ table. IsRebuilt clerks.now table.locks) }
    ensures none { IfOk result (λ table. HasNoClash clerks.now) }
    ensures clash { (lock : LockId) (first second : ServerId) → result ≡ Err (Clash lock first second) → IsLeastClash clerks.now lock first.0 second.0 }
{
    let mut at = Rebuilding::new(alloc);
    at.put_all_holds(clerks)?;
    at.put_all_logs(clerks);
    let (mut table, clash) = at.finish();
    if let Some(lock) = clash {
        return match clash_at(clerks, lock) {
            Some((first, second)) => Err(RebuildFault::Clash {
                lock,
                first,
                second,
            }),
            None => unreachable!(),
        };
    }
    put_all_wishes(&mut table, clerks)?;
    Ok(table)
}
