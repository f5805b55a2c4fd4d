// What a restart of the lock service needs: what each party knows of its own locks, and another table in the place of the present one.
ghost use Rattle.std.specs.Prelude.{◌≡◌, IfOk};
ghost use Rattle.known_locks.specs.Listed.{clerks_of};
ghost use Rattle.lock_definitions.specs.Same.{AllWishesWait, SameLocks};
ghost use Rattle.world_state.specs.States.{core_at};

use crate::world::World;
use frang_base::NoMemory;
use lock_definitions::ClerkLocks;
use lock_table::LockTable;

impl World {
    /// For each server, 0 to 15, and then for the host, the locks that it knows itself to hold, its wishes and the logs that it has taken. The table isn't read. Its one refusal is want of
    /// memory.
    pub fn clerks(&self) -> Result<Vec<ClerkLocks>, NoMemory>
        ensures { IfOk result (λ clerks. clerks.items ≡ clerks_of (core_at self.now).locks) }
    {
        self.locks.clerks()
    }

    /// Relock: a table stands in the place of the present one. It has the same locks, and notes no wish that conflicts with no holder: such a wish is then no longer noted, nor listed by
    /// `clerks`, and may be asked again.
    pub fn set_locks(&mut self, table: LockTable)
        requires same { SameLocks table.locks (core_at self.old).locks }
        requires wait { AllWishesWait table.locks }
        ensures { core_at self.new ≡ record (core_at self.old) { locks = table.locks } }
    {
        self.locks.set_locks(table);
    }
}
