// Names, definitions and the table that keeps them.
ghost use Rattle.std.specs.Prelude.{◌≡◌, ◌≤◌, vec_len, vec_capacity};
ghost use Rattle.calls.specs.Outcomes.{outside};

use pen::types::Pen;
use run::types::{Fault, Spot};
use statement::limits::{LONGEST_BODY, LONGEST_NAME};
use statement::types::Header;

// A name: its first bytes. No `ArrayVec`, here and in a definition: that is not Copy, and names and definitions are.
#[derive(Clone, Copy)]
pub struct Name {
    pub bytes: [u8; LONGEST_NAME],
    pub len: usize,
    ghost fits: { len ≤ 8 },
}

// A definition: its name, its header, and its body, which is the first bytes.
#[derive(Clone, Copy)]
pub struct Definition {
    pub name: Name,
    pub header: Header,
    pub body: [u8; LONGEST_BODY],
    pub len: usize,
    ghost fits: { len ≤ 1024 },
}

// The definitions that have ended, at most 32.
// Kept a Vec with its capacity: the memory is all there from the making, so that no feed wants any.
#[derive(Drop)]
pub struct Table {
    pub entries: Vec<Definition>,
    ghost room: { 32 ≤ vec_capacity entries },
    ghost few: { vec_len entries ≤ 32 },
}

// What performing changes beside the sheet: the pen, and how many statements of the picture were counted.
#[derive(Clone, Copy)]
pub struct Work {
    pub pen: Pen,
    pub count: usize,
}

// Why performing stopped, and at which statement of the called bodies.
#[derive(Clone, Copy, Debug, PartialEq, Eq)]
pub struct Failure {
    pub fault: Fault,
    pub spot: Spot,
}

impl From<Fault> for Failure {
    ghost from_gives = { λ f e. e ≡ outside f };

    // The failure of a statement of the stream itself.
    fn from(fault: Fault) -> Failure {
        Failure {
            fault,
            spot: Spot::OUTSIDE,
        }
    }
}
