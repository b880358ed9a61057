// What a stream is refused for, and what a run reports.
use geometry::Point;

// Why a stream is refused.
#[derive(Clone, Copy, Debug, PartialEq, Eq)]
pub enum Fault {
    // the bytes or the statement itself
    Read(statement::types::Fault),
    // a body over 1,024 bytes, or a 33rd name
    NoRoom,
    // the beam would leave the field
    OffField,
    // a 65th mark on the stack
    MarksFull,
    // a call of an entry whose header is not for simple calls
    NotCallable,
    // a call of a name that is being called
    AlreadyOpen,
    // a ninth open call
    TooDeep,
    // statement 65,537 of a picture
    TooMany,
    // a finish elsewhere than outside between statements
    Unfinished,
    // no mark is left in the sheet's stock
    SheetFull,
}

// The layer that refuses.
#[derive(Clone, Copy, Debug, PartialEq, Eq)]
pub enum Layer {
    Bytes,
    Statement,
    Performance,
    Sheet,
}

// Where in the called bodies a statement stands: how many calls are open, and its offset in the innermost body.
#[derive(Clone, Copy, Debug, PartialEq, Eq)]
pub struct Spot {
    pub calls: usize,
    pub offset: usize,
}

// A refusal: the fault, the place of the code of the stream's statement, and the spot in its calls.
#[derive(Clone, Copy, Debug, PartialEq, Eq)]
pub struct Refusal {
    pub fault: Fault,
    pub place: usize,
    pub spot: Spot,
}

// Whether a run goes on.
#[derive(Clone, Copy, Debug, PartialEq, Eq)]
pub enum Life {
    Live,
    Closed,
    Refused(Refusal),
}

// What is told of a run.
#[derive(Clone, Copy, Debug, PartialEq, Eq)]
pub struct Report {
    pub read: usize,
    pub pictures: usize,
    pub statements: usize,
    pub beam: Point,
    pub life: Life,
}
