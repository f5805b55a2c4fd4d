// How many nodes are reached.
ghost use Rattle.std.specs.Prelude.{◌≡◌, ◌≤◌};
ghost use Rattle.disk_reading.specs.Marks.{flag_at};
ghost use Rattle.disk_reading.specs.Seen.{store_in};
ghost use Rattle.report_definitions.specs.Report.{reached_of_kind};
ghost use Rattle.report_rules.specs.Seen.{stored};

use disk_reading::DecodedDisk;
use disk_reading::sectors::has_kind;
use frang_base::limits::{SEGMENT_INODES, SEGMENTS_MAX};
use report_rules::Flags;

/// The inodes of a kind that are reached.
#[tactic(auto, using(report_rules::proofs::Counted::count_more))]
pub fn count_of_kind(disk: &DecodedDisk<'_>, segments: u32, reached: &Flags, kind: u8) -> u32
    requires { segments ≤ SEGMENTS_MAX }
    ensures { result ≡ reached_of_kind (stored segments (store_in segments disk.now)) (flag_at reached.now) kind }
{
    let mut count = 0;
    for i in 0..SEGMENT_INODES * segments {
        if reached.has(i as usize) && has_kind(disk, segments, i, kind) {
            count += 1;
        }
    }
    count
}
