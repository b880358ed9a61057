// What a writer keeps, and why it refuses.
use arrayvec::ArrayVec;
use statement::limits::LONGEST_NAME;
use statement::types::Fault;

// Why something is not written.
#[derive(Clone, Copy, Debug, PartialEq, Eq)]
pub enum Refusal {
    // the statement itself
    Statement(Fault),
    // a body over 1,024 bytes, or a 33rd name
    NoRoom,
    // a buffer over 16,777,216 bytes
    Memory,
    // too few bytes are left in the buffer
    Buffer,
}

// What is open.
#[derive(Clone, Copy, Debug, PartialEq, Eq)]
pub enum Opened {
    Picture,
    // a definition, and the place where its body begins
    Definition(usize),
}

// The most names.
const MOST_NAMES: usize = 32;

// A name: its characters.
pub(crate) type Name = ArrayVec<u8, LONGEST_NAME>;

// The names defined so far, each once.
#[derive(Default, Drop)]
pub(crate) struct Names {
    pub(crate) each: ArrayVec<Name, MOST_NAMES>,
}
