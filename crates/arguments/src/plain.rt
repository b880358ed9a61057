// Statements of a value.
ghost use Rattle.std.specs.Prelude.{◌≡◌, ℕ, List};
ghost use Rattle.statement.specs.Reading.{setting};
ghost use Rattle.statement.specs.Views.{shape_of, ReadingLies};
ghost use Rattle.statement.specs.Places.{ReadingStands};

use statement::layout::Setting;
use statement::types::{Statement, Stop};

// The statement of a value; `rest` is what follows the code.
pub fn read_value(which: Setting, rest: &[u8]) -> Result<Statement<'_>, Stop>
    ensures value { shape_of result ≡ setting which rest.now }
    ensures parts { (bs : List ℕ) → ReadingLies result bs }
    ensures stands { ReadingStands result }
{
    let value = rest.first().ok_or(Stop::Wanting)?;
    Ok(Statement::assign(which, *value))
}
