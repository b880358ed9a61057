// Pairs of coordinates.
ghost use Rattle.std.specs.Prelude.{◌≡◌, ℕ, List};
ghost use Rattle.statement.specs.Reading.{travelled, pair};
ghost use Rattle.statement.specs.Views.{shape_of, ReadingLies};
ghost use Rattle.statement.specs.Places.{ReadingStands};

use statement::coordinate::{are_lawful, coordinate_of};
use statement::layout::{Aim, Trace};
use statement::types::{Fault, Statement, Stop};

// The statement that goes to a point, if its coordinates are lawful.
fn lawful_travel<'a>(trace: Trace, aim: Aim, x: i16, y: i16) -> Result<Statement<'a>, Stop>
    ensures value { shape_of result ≡ travelled trace aim x y }
    ensures parts { (bs : List ℕ) → ReadingLies result bs }
    ensures stands { ReadingStands result }
{
    if are_lawful(aim, x, y) {
        Ok(Statement::travel(trace, aim, x, y))
    } else {
        Err(Fault::WrongCoordinate.into())
    }
}

// The statement of two coordinates.
pub fn read_pair(trace: Trace, aim: Aim, rest: &[u8]) -> Result<Statement<'_>, Stop>
    ensures value { shape_of result ≡ pair trace aim rest.now }
    ensures parts { (bs : List ℕ) → ReadingLies result bs }
    ensures stands { ReadingStands result }
{
    match rest {
        [a, b, c, d, ..] => lawful_travel(trace, aim, coordinate_of(*a, *b), coordinate_of(*c, *d)),
        _ => Err(Stop::Wanting),
    }
}
