// What lines read as.
use encoding::spell::spelling_of;
use wording::read_words;

// Whether a line reads as the statement that is spelt so, or that is refused under a number.
pub(crate) fn reads(line: &[u8], answer: Result<&[u8], u8>) -> bool {
    let mut scratch = [0; 64];
    if line.len() > scratch.len() {
        return false;
    }
    match read_words(line, &mut scratch).map(spelling_of) {
        Some(Ok(spelling)) => answer == Ok(spelling.as_slice()),
        Some(Err(fault)) => answer == Err(fault.number()),
        None => false,
    }
}

// Whether a line is that of no statement.
pub(crate) fn is_unread(line: &[u8]) -> bool {
    let mut scratch = [0; 64];
    line.len() <= scratch.len() && read_words(line, &mut scratch).is_none()
}
