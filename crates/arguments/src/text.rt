// Texts and escapes.
ghost use Rattle.std.specs.Prelude.{◌≡◌, ℕ, List, ◌∷◌};
ghost use Rattle.statement.specs.Statements.{act, plain, escape};
ghost use Rattle.statement.specs.Reading.{onto, string, texted, escaped, escaping};
ghost use Rattle.statement.specs.Views.{bytes_of, said_by, shape_of, LiesIn, PartsLie, ReadingLies};
ghost use Rattle.statement.specs.Places.{StringStands, PartsStand, ReadingStands};

use crate::count::read_string;
use statement::layout::Manner;
use statement::letters::is_text;
use statement::limits::LONGEST_STRING;
use statement::types::{Fault, Part, Statement, Stop};

// The statement of a string of text codes; `rest` is what follows the code.
pub fn read_text(manner: Manner, rest: &[u8]) -> Result<Statement<'_>, Stop>
    ensures value { shape_of result ≡ onto (string 512 rest.now) (texted manner) }
    ensures parts { (code : ℕ) → ReadingLies result (code ∷ rest.now) }
    ensures stands { ReadingStands result }
{
    let (text, _) = read_string(LONGEST_STRING, 1, rest)?;
    if is_text(text.bytes) {
        Ok(Statement::letters(manner, text))
    } else {
        Err(Fault::WrongCharacter.into())
    }
}

// The escape of a value and a text.
fn escape_of(value: u8, text: Part<'_>) -> Statement<'_>
    ensures said { said_by result ≡ act (plain (escape value (bytes_of text.entry))) }
    ensures parts { (bs : List ℕ) → LiesIn text.entry bs → PartsLie result bs }
    ensures stands { StringStands 2 text.entry → PartsStand result }
{
    Statement::Escdev(value, text)
}

// The escape with a value; `rest` is what follows the value.
fn escape_with(value: u8, rest: &[u8]) -> Result<Statement<'_>, Stop>
    ensures value { shape_of result ≡ onto (string 512 rest.now) (escaped value) }
    ensures parts { (code : ℕ) → ReadingLies result (code ∷ value ∷ rest.now) }
    ensures stands { ReadingStands result }
{
    let (text, _) = read_string(LONGEST_STRING, 2, rest)?;
    Ok(escape_of(value, text))
}

// The statement of a value and a string; `rest` is what follows the code.
pub fn read_escape(rest: &[u8]) -> Result<Statement<'_>, Stop>
    ensures value { shape_of result ≡ escaping rest.now }
    ensures parts { (code : ℕ) → ReadingLies result (code ∷ rest.now) }
    ensures stands { ReadingStands result }
{
    match rest {
        [] => Err(Stop::Wanting),
        [value, rest @ ..] => escape_with(*value, rest),
    }
}
