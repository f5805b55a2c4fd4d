// Parameters from the bytes of their sector.
ghost use Rattle.std.specs.Prelude.{◌≡◌};
ghost use Rattle.disk_definitions.specs.Params.{param_fields, param_in};

use crate::grammar::fits;
use crate::writing::block_of;
use byteorder::{ByteOrder, LittleEndian};
use disk_definitions::Param;
use frang_base::Block;

/// The parameters whose sector the block is. `None` exactly where the block isn't the sector of parameters that fit.
pub fn decode(from: &Block) -> Option<Param>
    ensures { result ≡ param_in from.now }
{
    let value = fields(from);
    if !fits(&value) {
        return None;
    }
    (block_of(&value) == *from).then_some(value)
}

// What stands at the places of the fields.
fn fields(from: &Block) -> Param
    ensures { result ≡ param_fields from.now }
{
    Param {
        format: LittleEndian::read_u32(&from[8..]),
        segments: LittleEndian::read_u32(&from[12..]),
        run: LittleEndian::read_u32(&from[16..]),
    }
}
