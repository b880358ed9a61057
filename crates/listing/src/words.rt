// The words of a line.
ghost use Rattle.std.specs.Prelude.{◌≡◌};
ghost use Rattle.statement.specs.Views.{said_by};
ghost use Rattle.listing.specs.Lines.{name_of, header_text, indent};

use spelling::code::code_of;
use statement::types::{Header, Standing, Statement};

// The names of the codes, in their order.
static NAMES: [&str; 21] = [
    "NULL", "ERASE", "MOVEA", "MOVER", "DRAWA", "DRAWR", "DOTA", "DOTR", "TEXT", "TEXTR", "ENDPIC",
    "ESCDEV", "LINMOD", "SETINT", "TEXTO", "SUBHED", "SUBEND", "INSTS", "MARK", "MOVEMK", "DRAWMK",
];

// The name of a statement's code.
pub(crate) fn name_of(statement: &Statement<'_>) -> &'static str
    ensures { result.now ≡ name_of (said_by statement.now) }
{
    NAMES[usize::from(code_of(statement))]
}

// The header of a definition, in base 16.
pub(crate) fn header_text(header: Header) -> &'static str
    ensures { result.now ≡ header_text header }
{
    match header {
        Header::Simple => "80",
        Header::Full => "40",
        Header::Both => "C0",
    }
}

// What sets a statement in.
pub(crate) fn indent_of(standing: Standing, statement: &Statement<'_>) -> &'static str
    ensures { result.now ≡ indent standing (said_by statement.now) }
{
    match (standing, statement) {
        (Standing::Definition(_), Statement::Subend) => "",
        (Standing::Definition(_), _) => "  ",
        _ => "",
    }
}
