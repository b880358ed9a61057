// The fronts of a statement, which are no statement yet.
use parsing::read::read;
use statement::types::{Standing, Stop};

// Whether more bytes are wanted at each front of these bytes but the whole.
pub(crate) fn is_wanting_to_its_end(standing: Standing, bytes: &[u8]) -> bool {
    (0..bytes.len()).all(|end| read(standing, &bytes[..end]) == Err(Stop::Wanting))
}
