// Statements taken apart by their layout.
ghost use Rattle.std.specs.Prelude.{◌≡◌};
ghost use Rattle.statement.specs.Views.{said_by};
ghost use Rattle.spelling.specs.Parts.{said_with};

use statement::layout::{Aim, Bare, Manner, Setting, Trace};
use statement::types::{Header, Part, Statement, Tail};

// A statement by its layout; a pair's numbers stand beside each other as in the statement's own variants.
#[derive(Clone, Copy, Debug, PartialEq, Eq)]
pub enum Parts<'a> {
    Bare(Bare),
    Pair(Trace, Aim, i16, i16),
    Text(Manner, Part<'a>),
    Escape(u8, Part<'a>),
    Value(Setting, u8),
    Heading(Part<'a>, Header),
    Calling(Part<'a>, Tail<'a>),
}

impl<'a> From<Statement<'a>> for Parts<'a> {
    ghost from_gives = { λ statement parts. said_with parts ≡ said_by statement };

    fn from(statement: Statement<'a>) -> Parts<'a> {
        match statement {
            Statement::Null => Parts::Bare(Bare::Null),
            Statement::Erase => Parts::Bare(Bare::Erase),
            Statement::Movea(x, y) => Parts::Pair(Trace::Blank, Aim::Absolute, x, y),
            Statement::Mover(x, y) => Parts::Pair(Trace::Blank, Aim::Relative, x, y),
            Statement::Drawa(x, y) => Parts::Pair(Trace::Line, Aim::Absolute, x, y),
            Statement::Drawr(x, y) => Parts::Pair(Trace::Line, Aim::Relative, x, y),
            Statement::Dota(x, y) => Parts::Pair(Trace::Dot, Aim::Absolute, x, y),
            Statement::Dotr(x, y) => Parts::Pair(Trace::Dot, Aim::Relative, x, y),
            Statement::Text(text) => Parts::Text(Manner::Onward, text),
            Statement::Textr(text) => Parts::Text(Manner::Restoring, text),
            Statement::Endpic => Parts::Bare(Bare::Endpic),
            Statement::Escdev(value, text) => Parts::Escape(value, text),
            Statement::Linmod(value) => Parts::Value(Setting::LineMode, value),
            Statement::Setint(value) => Parts::Value(Setting::Intensity, value),
            Statement::Texto(text) => Parts::Text(Manner::Wrapping, text),
            Statement::Subhed(name, header) => Parts::Heading(name, header),
            Statement::Subend => Parts::Bare(Bare::Subend),
            Statement::Insts(name, tail) => Parts::Calling(name, tail),
            Statement::Mark => Parts::Bare(Bare::Mark),
            Statement::Movemk => Parts::Bare(Bare::Movemk),
            Statement::Drawmk => Parts::Bare(Bare::Drawmk),
        }
    }
}
