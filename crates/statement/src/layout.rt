// The codes of the statements, and what follows each code.

// What the beam leaves on its way to a point.
#[derive(Clone, Copy, Debug, PartialEq, Eq)]
pub enum Trace {
    // nothing: MOVEA, MOVER
    Blank,
    // a line: DRAWA, DRAWR
    Line,
    // a dot at its end: DOTA, DOTR
    Dot,
}

// How a pair of coordinates is meant.
#[derive(Clone, Copy, Debug, PartialEq, Eq)]
pub enum Aim {
    Absolute,
    Relative,
}

// How a text is set.
#[derive(Clone, Copy, Debug, PartialEq, Eq)]
pub enum Manner {
    // TEXT: the beam stays behind the last letter
    Onward,
    // TEXTR: the beam comes back
    Restoring,
    // TEXTO: lines are broken at the right margin
    Wrapping,
}

// What a value sets.
#[derive(Clone, Copy, Debug, PartialEq, Eq)]
pub enum Setting {
    // LINMOD
    LineMode,
    // SETINT
    Intensity,
}

// The statements that are a code alone.
#[derive(Clone, Copy, Debug, PartialEq, Eq)]
pub enum Bare {
    Null,
    Erase,
    Endpic,
    Subend,
    Mark,
    Movemk,
    Drawmk,
}

// What follows a code.
#[derive(Clone, Copy, Debug, PartialEq, Eq)]
pub enum Layout {
    // nothing
    Bare(Bare),
    // two coordinates
    Pair(Trace, Aim),
    // a string of text codes
    Text(Manner),
    // a value and a string: ESCDEV
    Escape,
    // a value
    Value(Setting),
    // a name, the byte 1 and a header: SUBHED
    Heading,
    // a name and a tail: INSTS
    Calling,
}
