// How long the parts of a stream may be, in bytes.

pub const LONGEST_NAME: usize = 8;

pub const LONGEST_TAIL: usize = 14;

pub const LONGEST_STRING: usize = 512;

// an escape with the longest string: its code, its value, a count of two bytes
pub const LONGEST_SPELLING: usize = 516;

pub const LONGEST_BODY: usize = 1024;

pub const LONGEST_STREAM: usize = 16_777_216;
