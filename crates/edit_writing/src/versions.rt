// Which versions have a next one.
ghost use Rattle.std.specs.Prelude.{◌≡◌};
ghost use Rattle.disk_definitions.specs.Held.{AreSegments};
ghost use Rattle.plan_steps.specs.Edits.{edits_of};
ghost use Rattle.edit_writing.specs.Sectors as meaning;
ghost use Rattle.edit_writing.specs.Sectors.{at_hand};

use crate::at_hand::block_at_hand;
use crate::edited::{is_metadata, sector_of_edit};
use byteorder::{ByteOrder, LittleEndian};
use dir_lookup::Hand;
use frang_base::Sector;
use plan_steps::Edit;

/// Whether the version at hand of each sector that the edits change has a next one, as `changes_of` asks. Each held segment is one of
/// the 64 that a disk may have.
pub fn have_next_versions(hand: &Hand, edits: &[Edit]) -> bool
    requires { AreSegments hand.now.held.now }
    ensures { result ≡ meaning.have_next_versions (at_hand hand.now) (edits_of edits.now) }
{
    for edit in edits {
        if is_metadata(edit) && !has_next_version(hand, sector_of_edit(edit)) {
            return false;
        }
    }
    true
}

fn has_next_version(hand: &Hand, sector: Sector) -> bool
    requires { AreSegments hand.now.held.now }
    ensures { result ≡ meaning.has_next_version (at_hand hand.now) sector.0 }
{
    let block = block_at_hand(hand, sector);
    LittleEndian::read_u64(&block) < u64::MAX
}
