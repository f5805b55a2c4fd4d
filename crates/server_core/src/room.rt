// Room for what events make of a server.
ghost use Rattle.std.specs.Prelude.{◌≡◌, ◌≤◌, ◌<◌, true, IsOk, OnOk, is_some};
ghost use Rattle.frang_base.specs.declared.limits.TheConstants.{SMALL_BLOCK_SECTORS};
ghost use Rattle.server_core.specs.States.{KeepsRoom};

use crate::server::Server;
use frang_base::NoMemory;
use frang_base::limits::SMALL_BLOCK_SECTORS;

impl Server {
    /// Makes room in its cache for so many more sectors. Nothing else changes, whatever the answer. It takes no memory where there is that room.
    pub fn reserve_sectors(&mut self, count: usize) -> Result<(), NoMemory>
        ensures server { self.new.server ≡ self.old.server }
        ensures ok { OnOk result (count ≤ self.new.spare) }
        ensures sure { count ≤ self.old.spare → IsOk result }
        ensures flying { self.new.flying ≡ self.old.flying }
        ensures room { KeepsRoom self.old self.new }
    {
        self.cache.reserve(count)
    }

    // Makes room for the sectors of one more block that is cleared, among those that are pending.
    fn reserve_zeros(&mut self) -> Result<(), NoMemory>
        ensures server { self.new.server ≡ self.old.server }
        ensures ok { OnOk result (SMALL_BLOCK_SECTORS ≤ self.new.zeros) }
        ensures flying { self.new.flying ≡ self.old.flying }
        ensures room { KeepsRoom self.old self.new }
    {
        self.pending.reserve(SMALL_BLOCK_SECTORS as usize)?;
        Ok(())
    }

    /// Makes room for one more block that is cleared. Nothing else changes, whatever the answer.
    pub fn reserve_block(&mut self) -> Result<(), NoMemory>
        ensures server { self.new.server ≡ self.old.server }
        ensures cached { OnOk result (SMALL_BLOCK_SECTORS ≤ self.new.spare) }
        ensures pending { OnOk result (SMALL_BLOCK_SECTORS ≤ self.new.zeros) }
        ensures flying { self.new.flying ≡ self.old.flying }
        ensures room { KeepsRoom self.old self.new }
    {
        self.reserve_sectors(SMALL_BLOCK_SECTORS as usize)?;
        self.reserve_zeros()
    }

    /// Makes room for one more slot of its log that a mount under way reads. Nothing else changes, whatever the answer.
    pub fn reserve_slot(&mut self) -> Result<(), NoMemory>
        requires { is_some self.old.server.under ≡ true }
        ensures server { self.new.server ≡ self.old.server }
        ensures ok { OnOk result (0 < self.new.slots) }
        ensures flying { self.new.flying ≡ self.old.flying }
        ensures room { KeepsRoom self.old self.new }
    {
        let alloc = self.alloc;
        match &mut self.under {
            Some(under) => under.reserve_slot(alloc),
            None => unreachable!(),
        }
    }
}
