// How composing has ended.
use crate::types::Failure;
use writer::state::Writer;

// A writer with nothing open, and whether all that it was given is composed; no pair, since it may hold no lent buffer with a ghost field.
#[derive(Drop)]
pub(crate) struct Outcome<'a> {
    pub(crate) writer: Writer<'a>,
    pub(crate) result: Result<(), Failure>,
}
