// Calls.
ghost use Rattle.std.specs.Prelude.{◌≡◌, ℕ, ◌+◌, ◌≤◌, List, ◌∷◌, length, take, drop, Some};
ghost use Rattle.statement.specs.Reading.{onto, string, tail_of, tailed, calling};
ghost use Rattle.statement.specs.Views.{bytes_of, tail_said, shape_of, LiesIn, TailLies, ReadingLies};
ghost use Rattle.statement.specs.Places.{StringStands, TailStands, ReadingStands};

use crate::tail::read_tail;
use arguments::count::read_name;
use statement::letters::is_name;
use statement::limits::LONGEST_TAIL;
use statement::types::{Fault, Part, Statement, Stop, Tail};

// The call of a name with a tail.
fn call_of<'a>(name: Part<'a>, tail: Tail<'a>) -> Result<Statement<'a>, Stop>
    ensures value { shape_of result ≡ tailed (bytes_of name.entry) (Some (tail_said tail.entry)) }
    ensures parts { (bs : List ℕ) → LiesIn name.entry bs → TailLies tail.entry bs → ReadingLies result bs }
    ensures stands { StringStands 1 name.entry → TailStands (name.entry.at + length (bytes_of name.entry) + 2) tail.entry → ReadingStands result }
{
    if !tail.has_lawful_point() {
        Err(Fault::WrongCoordinate.into())
    } else if is_name(name.bytes) && tail.has_lawful_name() {
        Ok(Statement::Insts(name, tail))
    } else {
        Err(Fault::WrongCharacter.into())
    }
}

// The call of a name with the bytes of a tail, which follow the name and their own length.
fn call_to<'a>(name: Part<'a>, bytes: &'a [u8]) -> Result<Statement<'a>, Stop>
    requires place { name.at ≤ 3 }
    requires size { length (bytes_of name) ≤ 8 }
    ensures value { shape_of result ≡ tailed (bytes_of name.entry) (tail_of bytes.now) }
    ensures parts { (bs : List ℕ) → LiesIn name.entry bs → take (length bytes.now) (drop (name.entry.at + length (bytes_of name.entry) + 1) bs) ≡ bytes.now → ReadingLies result bs }
    ensures stands { StringStands 1 name.entry → ReadingStands result }
{
    let at = name.at + name.bytes.len() + 1;
    let tail = read_tail(at, bytes).ok_or(Fault::WrongLayout)?;
    call_of(name, tail)
}

// The call of a name; `rest` is what follows the name.
fn call_with<'a>(name: Part<'a>, rest: &'a [u8]) -> Result<Statement<'a>, Stop>
    requires place { name.at ≤ 3 }
    requires size { length (bytes_of name) ≤ 8 }
    ensures value { shape_of result ≡ calling (bytes_of name.entry) rest.now }
    ensures parts { (bs : List ℕ) → LiesIn name.entry bs → drop (name.entry.at + length (bytes_of name.entry)) bs ≡ rest.now → ReadingLies result bs }
    ensures stands { StringStands 1 name.entry → ReadingStands result }
{
    match rest {
        [] => Err(Stop::Wanting),
        [t, ..] if *t as usize > LONGEST_TAIL => Err(Fault::WrongLayout.into()),
        [t, bytes @ ..] if bytes.len() < *t as usize => Err(Stop::Wanting),
        [t, bytes @ ..] => call_to(name, &bytes[0..*t as usize]),
    }
}

// The statement of a name and a tail; `rest` is what follows the code.
pub(crate) fn read_call(rest: &[u8]) -> Result<Statement<'_>, Stop>
    ensures value { shape_of result ≡ onto (string 8 rest.now) calling }
    ensures parts { (code : ℕ) → ReadingLies result (code ∷ rest.now) }
    ensures stands { ReadingStands result }
{
    let (name, after) = read_name(rest)?;
    call_with(name, after)
}
