// Which parameters a disk may have.
ghost use Rattle.std.specs.Prelude.{◌≡◌};
ghost use Rattle.disk_definitions.specs.Params.{param_fits};

use disk_definitions::{FORMAT_NEWEST, Param};
use frang_base::limits::SEGMENTS_MAX;

/// Whether the parameters are in the grammar: of a format that is read, with 1 to the most segments, and in a run from the first on.
pub(crate) fn fits(value: &Param) -> bool
    ensures { result ≡ param_fits value.now }
{
    1 <= value.format
        && value.format <= FORMAT_NEWEST
        && 1 <= value.segments
        && value.segments <= SEGMENTS_MAX
        && 1 <= value.run
}
