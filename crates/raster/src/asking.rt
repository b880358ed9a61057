// Whether a bit sheet can be made.
ghost use Rattle.std.specs.Prelude.{◌≡◌, length};
ghost use Rattle.raster.specs.Asking.{asked};

use crate::page::page_bytes;
use geometry::Side;
use sheet::Unfit;

// Refuses a side that no sheet has, and memory of another length than the bits of such a sheet.
pub fn ask(side: u16, memory: &[u8]) -> Result<(), Unfit>
    ensures { result ≡ asked side (length memory.now) }
{
    Side::new(side).ok_or(Unfit::Side)?;
    if memory.len() != page_bytes(side) {
        return Err(Unfit::Memory);
    }
    Ok(())
}
