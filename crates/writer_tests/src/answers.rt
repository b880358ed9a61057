// Answers by their numbers, and the parts of statements.
use statement::types::Part;
use writer::types::Refusal;

// The number under which something is refused, if it is.
pub(crate) fn numbered(answer: Result<(), Refusal>) -> Result<(), u8> {
    answer.map_err(Refusal::number)
}

// A part that stands by itself.
pub(crate) fn part(bytes: &[u8]) -> Part<'_> {
    Part { at: 0, bytes }
}
