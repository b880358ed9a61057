// Statements read from their bytes.
ghost use Rattle.std.specs.Prelude.{◌≡◌, ℕ, ◌∷◌};
ghost use Rattle.statement.specs.Statements.{layout_of, allowed};
ghost use Rattle.statement.specs.Reading.{arguments, admitted, reading};
ghost use Rattle.statement.specs.Views.{shape_of, ReadingLies};
ghost use Rattle.statement.specs.Places.{ReadingStands};

use crate::calling::read_call;
use crate::heading::read_heading;
use arguments::pair::read_pair;
use arguments::plain::read_value;
use arguments::text::{read_escape, read_text};
use statement::layout::Layout;
use statement::types::{Fault, Standing, Statement, Stop};

// The statement of a layout; `rest` is what follows the code.
fn read_arguments(layout: Layout, rest: &[u8]) -> Result<Statement<'_>, Stop>
    ensures value { shape_of result ≡ arguments layout rest.now }
    ensures parts { (code : ℕ) → ReadingLies result (code ∷ rest.now) }
    ensures stands { ReadingStands result }
{
    match layout {
        Layout::Bare(bare) => Ok(bare.into()),
        Layout::Pair(trace, aim) => read_pair(trace, aim, rest),
        Layout::Text(manner) => read_text(manner, rest),
        Layout::Escape => read_escape(rest),
        Layout::Value(which) => read_value(which, rest),
        Layout::Heading => read_heading(rest),
        Layout::Calling => read_call(rest),
    }
}

// The statement that a code begins, where it may come; `rest` is what follows the code.
fn read_code(standing: Standing, code: u8, rest: &[u8]) -> Result<Statement<'_>, Stop>
    ensures value { shape_of result ≡ admitted (allowed standing code) (layout_of code) rest.now }
    ensures parts { ReadingLies result (code ∷ rest.now) }
    ensures stands { ReadingStands result }
{
    let layout = Layout::try_from(code)?;
    if standing.admits(code) {
        read_arguments(layout, rest)
    } else {
        Err(Fault::Misplaced.into())
    }
}

// The statement that the bytes so far are, where it begins where one stands so; bytes after it are not looked at.
pub fn read(standing: Standing, bytes: &[u8]) -> Result<Statement<'_>, Stop>
    ensures value { shape_of result ≡ reading standing bytes.now }
    ensures parts { ReadingLies result bytes.now }
    ensures stands { ReadingStands result }
{
    match bytes {
        [] => Err(Stop::Wanting),
        [code, rest @ ..] => read_code(standing, *code, rest),
    }
}
