// Streams read statement by statement, from outside, with nothing performed.
ghost use Rattle.std.specs.Prelude.{◌≡◌, None};
ghost use Rattle.statement.specs.Reading.{reading};
ghost use Rattle.statement.specs.Views.{shape_of};
ghost use Rattle.walking.specs.Stories.{end_at, from_place, BeginsWith, Moved, Stepped};

use crate::walker::{End, Placed, Walker};
use parsing::read::read;
use spelling::extent::extent;
pub use statement::limits::LONGEST_STREAM;
use statement::types::{Fault, Standing, Statement, Stop};

// The statement at the front of the bytes, spelt as it was read; apart, since here the proof knows that they are bytes.
fn read_spelling(standing: Standing, bytes: &[u8]) -> Result<Statement<'_>, Stop>
    ensures value { shape_of result ≡ reading standing bytes.now }
    ensures spelt { BeginsWith standing result bytes.now }
{
    read(standing, bytes)
}

// How a stream ends that is not refused, by where one stands then and the bytes of an unfinished statement.
fn end_at(standing: Standing, rest: &[u8], place: usize) -> End
    ensures { result ≡ end_at None standing rest.now place }
{
    match standing {
        Standing::Outside if rest.is_empty() => End::Whole,
        _ => End::Unfinished { place },
    }
}

impl<'a> Walker<'a> {
    // A walker at the beginning of a stream.
    pub fn new(bytes: &'a [u8]) -> Walker<'a>
        ensures bytes { result.bytes.now ≡ bytes.now }
        ensures standing { result.standing ≡ Standing.Outside }
        ensures place { result.place ≡ 0 }
    {
        Walker {
            bytes,
            standing: Standing::Outside,
            place: 0,
        }
    }

    // The statement that comes next in the stream, or how the stream ends; after its end, the end again.
    pub fn next(&mut self) -> Result<Placed<'a>, End>
        ensures bytes { self.new.bytes.now ≡ self.old.bytes.now }
        ensures moved { Moved result self.old.standing self.old.place self.new.standing self.new.place }
        ensures step { Stepped result (from_place self.old.standing self.old.place self.old.bytes.now) (from_place self.new.standing self.new.place self.old.bytes.now) }
    {
        let place = self.place;
        let limit = self.bytes.len().min(LONGEST_STREAM);
        let rest = &self.bytes[place..limit];
        match read_spelling(self.standing, rest) {
            Ok(statement) => {
                *self = Walker {
                    bytes: self.bytes,
                    standing: self.standing.after(&statement),
                    place: place + extent(&statement),
                };
                Ok(Placed { place, statement })
            }
            Err(Stop::Wrong(fault)) => Err(End::Refused { fault, place }),
            Err(Stop::Wanting) if limit < self.bytes.len() => {
                let fault = Fault::StreamTooLong;
                Err(End::Refused { fault, place })
            }
            Err(Stop::Wanting) => Err(end_at(self.standing, rest, limit)),
        }
    }
}
