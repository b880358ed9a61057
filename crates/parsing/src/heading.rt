// Headings of definitions.
ghost use Rattle.std.specs.Prelude.{◌≡◌, ℕ, List, ◌∷◌};
ghost use Rattle.statement.specs.Reading.{onto, string, header_of, titled, heading};
ghost use Rattle.statement.specs.Views.{bytes_of, shape_of, LiesIn, ReadingLies};
ghost use Rattle.statement.specs.Places.{StringStands, ReadingStands};

use arguments::count::read_name;
use statement::letters::is_name;
use statement::types::{Fault, Header, Part, Statement, Stop};

// The heading of a name and a header byte.
fn heading_of(name: Part<'_>, byte: u8) -> Result<Statement<'_>, Stop>
    ensures value { shape_of result ≡ titled (bytes_of name.entry) (header_of byte) }
    ensures parts { (bs : List ℕ) → LiesIn name.entry bs → ReadingLies result bs }
    ensures stands { StringStands 1 name.entry → ReadingStands result }
{
    let header = Header::try_from(byte)?;
    if is_name(name.bytes) {
        Ok(Statement::Subhed(name, header))
    } else {
        Err(Fault::WrongCharacter.into())
    }
}

// The heading with a name; `rest` is what follows the name.
fn heading_with<'a>(name: Part<'a>, rest: &'a [u8]) -> Result<Statement<'a>, Stop>
    ensures value { shape_of result ≡ heading (bytes_of name.entry) rest.now }
    ensures parts { (bs : List ℕ) → LiesIn name.entry bs → ReadingLies result bs }
    ensures stands { StringStands 1 name.entry → ReadingStands result }
{
    match rest {
        [] | [1] => Err(Stop::Wanting),
        [1, header, ..] => heading_of(name, *header),
        _ => Err(Fault::WrongLayout.into()),
    }
}

// The statement of a name, the byte 1 and a header; `rest` is what follows the code.
pub(crate) fn read_heading(rest: &[u8]) -> Result<Statement<'_>, Stop>
    ensures value { shape_of result ≡ onto (string 8 rest.now) heading }
    ensures parts { (code : ℕ) → ReadingLies result (code ∷ rest.now) }
    ensures stands { ReadingStands result }
{
    let (name, after) = read_name(rest)?;
    heading_with(name, after)
}
