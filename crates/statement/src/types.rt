// Statements, where they may stand, and why bytes are refused.

// Where a definition was begun, and so where its end leads back to.
#[derive(Clone, Copy, Debug, PartialEq, Eq)]
pub enum Home {
    Outside,
    Picture,
}

// Where a statement stands.
#[derive(Clone, Copy, Debug, PartialEq, Eq)]
pub enum Standing {
    Outside,
    Picture,
    Definition(Home),
}

// Why the bytes of a statement are refused, each reason by its number.
#[derive(Clone, Copy, Debug, PartialEq, Eq)]
pub enum Fault {
    // a code above 20
    UnknownCode = 1,
    // a code that may not come here
    Misplaced = 2,
    // a count of two bytes that one byte could hold
    ShortCount = 3,
    // a string over 512 bytes, or a name over 8
    TooLong = 4,
    // a text code above 127, or a wrong or missing character of a name
    WrongCharacter = 5,
    // a coordinate that is not lawful
    WrongCoordinate = 6,
    // a wrong header, second byte of SUBHED, or tail
    WrongLayout = 7,
    // a byte past the longest stream
    StreamTooLong = 15,
}

// Which calls a definition is for, each kind by its byte.
#[derive(Clone, Copy, Debug, PartialEq, Eq)]
pub enum Header {
    // simple calls
    Simple = 0x80,
    // turned and enlarged calls
    Full = 0x40,
    Both = 0xC0,
}

// A part of a statement's own bytes, with the place where it begins in them; no byte is copied, a rule of the project.
#[derive(Clone, Copy, Debug, PartialEq, Eq)]
pub struct Part<'a> {
    pub at: usize,
    pub bytes: &'a [u8],
}

// The tail of a call.
#[derive(Clone, Copy, Debug, PartialEq, Eq)]
pub enum Tail<'a> {
    // no byte
    Empty,
    // a code byte, then what it says is there
    Coded {
        as_name: Option<Part<'a>>,
        at: Option<(i16, i16)>,
    },
}

// A statement, its names and texts as parts of its own bytes.
#[derive(Clone, Copy, Debug, PartialEq, Eq)]
pub enum Statement<'a> {
    Null,
    Erase,
    Movea(i16, i16),
    Mover(i16, i16),
    Drawa(i16, i16),
    Drawr(i16, i16),
    Dota(i16, i16),
    Dotr(i16, i16),
    Text(Part<'a>),
    Textr(Part<'a>),
    Endpic,
    Escdev(u8, Part<'a>),
    Linmod(u8),
    Setint(u8),
    Texto(Part<'a>),
    Subhed(Part<'a>, Header),
    Subend,
    Insts(Part<'a>, Tail<'a>),
    Mark,
    Movemk,
    Drawmk,
}

// Why no whole statement, or part of one, stands at the front of the bytes.
#[derive(Clone, Copy, Debug, PartialEq, Eq)]
pub enum Stop {
    // its bytes are not all there yet
    Wanting,
    Wrong(Fault),
}
