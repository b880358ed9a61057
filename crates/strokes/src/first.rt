// The first mark on a new table.
ghost use Rattle.std.specs.Prelude.{◌≡◌, length};
ghost use Rattle.strokes.specs.Tables.{asked, first_answer, first_records};

use crate::asking::ask;
use crate::records::Stroke;
use crate::table::make;
use mark::Mark;
use sheet::{Refusal, Sheet, Unfit};

// Puts one mark on a new table over lent records, if they are fit for one.
pub fn first_mark(
    side: u16,
    records: &mut [Stroke],
    mark: Mark,
) -> Result<Result<(), Refusal>, Unfit>
    ensures answer { result ≡ first_answer (asked side (length records.old)) (length records.old) }
    ensures records { records.new ≡ first_records (asked side (length records.old)) records.old mark }
{
    ask(side, records)?;
    let mut table = make(side, records);
    Ok(table.mark(mark))
}
