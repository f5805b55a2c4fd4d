// Parameters as the bytes of their sector.
ghost use Rattle.std.specs.Prelude.{◌≡◌, IsTrue};
ghost use Rattle.disk_definitions.specs.Params.{param_bytes, param_fits};

use byteorder::{ByteOrder, LittleEndian};
use disk_definitions::Param;
use frang_base::Block;
use frang_base::limits::SECTOR_BYTES;

/// The first bytes of the sector.
const MARK: [u8; 8] = *b"FRANGPAR";

/// Makes the block the sector of parameters that fit. What it held counts for nothing.
pub fn encode(value: &Param, to: &mut Block)
    requires { IsTrue (param_fits value.now) }
    ensures { to.new ≡ param_bytes value.now }
{
    to[..8].copy_from_slice(&MARK);
    LittleEndian::write_u32(&mut to[8..], value.format);
    LittleEndian::write_u32(&mut to[12..], value.segments);
    LittleEndian::write_u32(&mut to[16..], value.run);
    to[20..].copy_from_slice(&[0; 492]);
}

/// The sector of parameters that fit.
pub(crate) fn block_of(value: &Param) -> Block
    requires { IsTrue (param_fits value.now) }
    ensures { result ≡ param_bytes value.now }
{
    let mut block = [0; SECTOR_BYTES];
    encode(value, &mut block);
    block
}
