// The codes of statements.
ghost use Rattle.std.specs.Prelude.{◌≡◌};
ghost use Rattle.statement.specs.Views.{said_by};
ghost use Rattle.spelling.specs.Spelling.{code_of};

use statement::types::Statement;

// The code of a statement: a table of the format; by layouts it would be no shorter.
pub fn code_of(statement: &Statement<'_>) -> u8
    ensures { result ≡ code_of (said_by statement.now) }
{
    match statement {
        Statement::Null => 0,
        Statement::Erase => 1,
        Statement::Movea(_, _) => 2,
        Statement::Mover(_, _) => 3,
        Statement::Drawa(_, _) => 4,
        Statement::Drawr(_, _) => 5,
        Statement::Dota(_, _) => 6,
        Statement::Dotr(_, _) => 7,
        Statement::Text(_) => 8,
        Statement::Textr(_) => 9,
        Statement::Endpic => 10,
        Statement::Escdev(_, _) => 11,
        Statement::Linmod(_) => 12,
        Statement::Setint(_) => 13,
        Statement::Texto(_) => 14,
        Statement::Subhed(_, _) => 15,
        Statement::Subend => 16,
        Statement::Insts(_, _) => 17,
        Statement::Mark => 18,
        Statement::Movemk => 19,
        Statement::Drawmk => 20,
    }
}
