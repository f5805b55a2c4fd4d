// Whether a log may give up its oldest records.
ghost use Rattle.std.specs.Prelude.{◌≡◌, not};
ghost use Rattle.std.specs.List.{list_all};
ghost use Rattle.cache_definitions.specs.Caches.{is_dirty_at};
ghost use Rattle.core_definitions.specs.Cores.{Core, stage};
ghost use Rattle.core_definitions.specs.LineGuards.{may_reclaim};
ghost use Rattle.server_issues.specs.Issuing.{IsIssuing};

use crate::issuer::Issuer;
use frang_base::Sector;
use server_core::Server;

// Whether none of these sectors is dirty.
fn are_clean(server: &Server, sectors: &[Sector]) -> bool
    ensures { result ≡ list_all (λ sector. not (is_dirty_at server.now.server.cache sector.0)) sectors.now }
{
    sectors.iter().all(|sector| !server.is_dirty(*sector))
}

impl<'a> Issuer<'a> {
    /// Whether its log may give up its oldest records: its line waits for room, and nothing that they name is dirty.
    pub fn may_reclaim(&self) -> bool
        ensures { (c : Core) → IsIssuing c self.now → result ≡ may_reclaim c.setting.logs (c.servers self.now.server.id) (stage c self.now.server.id) }
    {
        self.waits && are_clean(self.server, self.room)
    }
}
