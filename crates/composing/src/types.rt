// Why a description is not composed.
use writer::types::Refusal;

// Why a description is not composed. Lines count from 1.
#[derive(Clone, Copy, Debug, PartialEq, Eq)]
pub enum Failure {
    // a line that is no statement's words
    Unreadable { line: usize },
    // a statement that the writer refuses; line 0 where it refuses the buffer
    Refused { refusal: Refusal, line: usize },
    // the last line, where something is still open
    Unfinished { line: usize },
}
