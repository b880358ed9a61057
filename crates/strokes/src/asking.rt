// Whether a stroke table can be made.
ghost use Rattle.std.specs.Prelude.{◌≡◌, length};
ghost use Rattle.strokes.specs.Tables.{asked};

use crate::records::Stroke;
use geometry::Side;
use sheet::Unfit;

// Refuses a side that no sheet has, and more than 65,536 records.
pub fn ask(side: u16, records: &[Stroke]) -> Result<(), Unfit>
    ensures { result ≡ asked side (length records.now) }
{
    Side::new(side).ok_or(Unfit::Side)?;
    if records.len() > 65536 {
        return Err(Unfit::Memory);
    }
    Ok(())
}
