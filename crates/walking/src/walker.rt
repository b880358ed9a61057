// A stream that is read statement by statement, and what it tells.
ghost use Rattle.std.specs.Prelude.{◌≤◌, length};

use statement::types::{Fault, Standing, Statement};

// A statement, with the place of its code in the stream.
#[derive(Clone, Copy, Debug, PartialEq, Eq)]
pub struct Placed<'a> {
    pub place: usize,
    pub statement: Statement<'a>,
}

// How a stream ends.
#[derive(Clone, Copy, Debug, PartialEq, Eq)]
pub enum End {
    // after a statement, outside pictures and definitions
    Whole,
    // in a picture, a definition or a statement; the place is the number of its bytes
    Unfinished { place: usize },
    // by a refusal; the place is that of the refused statement's code, or of the byte too many
    Refused { fault: Fault, place: usize },
}

// A place between two statements of a stream, and where one stands there.
#[derive(Clone, Copy)]
pub struct Walker<'a> {
    pub bytes: &'a [u8],
    pub standing: Standing,
    pub place: usize,
    ghost within: { place ≤ length bytes.now },
    ghost few: { place ≤ 16777216 },
}
