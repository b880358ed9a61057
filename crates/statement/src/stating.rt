// Statements made from the words of their layout.
ghost use Rattle.std.specs.Prelude.{◌≡◌, ℕ, List};
ghost use Rattle.statement.specs.Statements.{act, plain, travel, letters, assign};
ghost use Rattle.statement.specs.Views.{bytes_of, said_by, LiesIn, PartsLie};
ghost use Rattle.statement.specs.Places.{StringStands, PartsStand, StatesAlone};

use crate::layout::{Aim, Bare, Manner, Setting, Trace};
use crate::types::{Part, Statement};

impl From<Bare> for Statement<'_> {
    ghost from_gives = { StatesAlone };

    // The statement of a code alone.
    fn from(bare: Bare) -> Self {
        match bare {
            Bare::Null => Statement::Null,
            Bare::Erase => Statement::Erase,
            Bare::Endpic => Statement::Endpic,
            Bare::Subend => Statement::Subend,
            Bare::Mark => Statement::Mark,
            Bare::Movemk => Statement::Movemk,
            Bare::Drawmk => Statement::Drawmk,
        }
    }
}

impl<'a> Statement<'a> {
    // The statement that goes to a point.
    // (Four values and no struct: a struct would be taken apart at once, into a variant of two numbers.)
    pub fn travel(trace: Trace, aim: Aim, x: i16, y: i16) -> Statement<'a>
        ensures said { said_by result ≡ act (plain (travel trace aim x y)) }
        ensures parts { (bs : List ℕ) → PartsLie result bs }
        ensures stands { PartsStand result }
    {
        match (trace, aim) {
            (Trace::Blank, Aim::Absolute) => Statement::Movea(x, y),
            (Trace::Blank, Aim::Relative) => Statement::Mover(x, y),
            (Trace::Line, Aim::Absolute) => Statement::Drawa(x, y),
            (Trace::Line, Aim::Relative) => Statement::Drawr(x, y),
            (Trace::Dot, Aim::Absolute) => Statement::Dota(x, y),
            (Trace::Dot, Aim::Relative) => Statement::Dotr(x, y),
        }
    }

    // The statement that sets a text.
    pub fn letters(manner: Manner, text: Part<'a>) -> Statement<'a>
        ensures said { said_by result ≡ act (plain (letters manner (bytes_of text.entry))) }
        ensures parts { (bs : List ℕ) → LiesIn text.entry bs → PartsLie result bs }
        ensures stands { StringStands 1 text.entry → PartsStand result }
    {
        match manner {
            Manner::Onward => Statement::Text(text),
            Manner::Restoring => Statement::Textr(text),
            Manner::Wrapping => Statement::Texto(text),
        }
    }

    // The statement that sets a value.
    pub fn assign(setting: Setting, value: u8) -> Statement<'a>
        ensures said { said_by result ≡ act (plain (assign setting value)) }
        ensures parts { (bs : List ℕ) → PartsLie result bs }
        ensures stands { PartsStand result }
    {
        match setting {
            Setting::LineMode => Statement::Linmod(value),
            Setting::Intensity => Statement::Setint(value),
        }
    }
}
