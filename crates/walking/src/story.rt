// Whole streams read back: their statements with their places, and how they end.
ghost use Rattle.std.specs.Prelude.{[], IfOk};
ghost use Rattle.walking.specs.Stories.{from_place, Tells};
ghost use Rattle.spelling.specs.Walking.{read_back};

use crate::walker::{End, Placed, Walker};
use std::alloc::{AllocError, Global};

// The statements of a stream with their places, and how the stream ends.
#[derive(Drop)]
pub struct Story<'a> {
    pub told: Vec<Placed<'a>>,
    pub end: End,
}

// Reads what is left of a stream, in a loop, since the end comes out of the same step as the statements.
fn tell<'a>(heap: Global, mut walker: Walker<'a>) -> Result<Story<'a>, AllocError>
    ensures { IfOk result (λ s. Tells s.told.items s.end (from_place walker.entry.standing walker.entry.place walker.entry.bytes.now [])) }
{
    let mut told = Vec::new(heap);
    loop {
        match walker.next() {
            Ok(placed) => told.push(placed)?,
            Err(end) => return Ok(Story { told, end }),
        }
    }
}

// Reads a stream from outside, and performs nothing.
pub fn read_back(heap: Global, bytes: &[u8]) -> Result<Story<'_>, AllocError>
    ensures { IfOk result (λ s. Tells s.told.items s.end (read_back bytes.now)) }
{
    tell(heap, Walker::new(bytes))
}
