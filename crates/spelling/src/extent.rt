// How many bytes a statement takes.
ghost use Rattle.std.specs.Prelude.{◌≡◌, ◌+◌, ◌-◌, ◌^◌, min, length};
ghost use Rattle.statement.specs.Views.{said_by, tail_said};
ghost use Rattle.spelling.specs.Spelling.{spell, spell_string, spell_tail};

use crate::parts::Parts;
use statement::types::{Statement, Tail};

// The length of a string's spelling, or the greatest number where it is greater.
fn string_extent(bytes: &[u8]) -> usize
    ensures { result ≡ min (length (spell_string bytes.now)) (2 ^ 64 - 1) }
{
    let count = if bytes.len() < 128 { 1 } else { 2 };
    bytes.len().saturating_add(count)
}

// The length of a tail's spelling after its own length byte, or the greatest number where it is greater.
pub fn tail_extent(tail: Tail<'_>) -> usize
    ensures { result ≡ min (length (spell_tail (tail_said tail.entry))) (2 ^ 64 - 1) }
{
    let Tail::Coded { as_name, at } = tail else {
        return 0;
    };
    let point = if at.is_some() { 5 } else { 1 };
    as_name.map_or(point, |name| name.bytes.len().saturating_add(1 + point))
}

// The length of a statement's spelling, or the greatest number where it is greater.
pub fn extent(statement: &Statement<'_>) -> usize
    ensures { result ≡ min (length (spell (said_by statement.now))) (2 ^ 64 - 1) }
{
    match Parts::from(*statement) {
        Parts::Bare(_) => 1,
        Parts::Pair(..) => 5,
        Parts::Value(..) => 2,
        Parts::Text(_, text) => string_extent(text.bytes).saturating_add(1),
        Parts::Escape(_, text) => string_extent(text.bytes).saturating_add(2),
        Parts::Heading(name, _) => string_extent(name.bytes).saturating_add(3),
        Parts::Calling(name, tail) => string_extent(name.bytes)
            .saturating_add(2)
            .saturating_add(tail_extent(tail)),
    }
}
