// The writes of a recovery.
ghost use Rattle.std.specs.Prelude.{◌≡◌, false, is_some, IsTrue, Some};
ghost use Rattle.std.specs.Option.{option_map};
ghost use Rattle.core_definitions.specs.Writes.{rescue_writes};
ghost use Rattle.log_slots.specs.Reading.{log_rules};
ghost use Rattle.sector_bytes.specs.SectorMaps.{value_at};
ghost use Rattle.server_issues.specs.Doubled.{last_at};
ghost use Rattle.server_issues.specs.Issuing.{write_of};

use crate::writes::WantedWrite;
use frang_base::Sector;
use petal_disk::Purpose;
use recovery_demon::Demon;

/// The write of a sector that a recovery wants, where none of it is issued.
pub(crate) fn rescue_write(demon: &Demon, sector: Sector) -> Option<WantedWrite>
    requires { IsTrue demon.now.is_fresh }
    ensures { is_some (value_at demon.now.issued sector.0) ≡ false → option_map write_of result ≡ last_at (rescue_writes log_rules demon.now.segments (Some demon.now.recovery)) sector.0 }
{
    // Each sector was looked at once.
    let _looked = demon.has_looked(sector);
    let Some(bytes) = demon.bytes(sector) else {
        return None;
    };
    let block = *bytes;
    Some(WantedWrite {
        behalf: demon.dead(),
        block,
        purpose: Purpose::OfRecovery,
        mark: None,
    })
}
