// How many entries, open calls and statements of a picture there may be.

pub(crate) const MOST_ENTRIES: usize = 32;

pub(crate) const MOST_OPEN_CALLS: usize = 8;

pub(crate) const MOST_STATEMENTS: usize = 65_536;
