// Pairs of coordinates and tails of calls.
ghost use Rattle.std.specs.Prelude.{◌≡◌, codes};
ghost use Rattle.std.specs.Option.{option_map};
ghost use Rattle.statement.specs.Views.{tail_said};
ghost use Rattle.wording.specs.Words.{pair_in, point_in, at_in, as_tail, bare_tail, tail_in};
ghost use Rattle.wording.specs.Texts.{behind};

use crate::argument::part;
use crate::line::Line;
use crate::number::coordinate_in;
use crate::quote::Quoted;
use crate::split::{after, split_word};
use statement::types::Tail;

// Two coordinates, each after a space.
pub(crate) fn pair_in(text: &[u8]) -> Option<(i16, i16)>
    ensures { result ≡ pair_in text.now }
{
    let (first, more) = split_word(after(b" ", text)?);
    let x = coordinate_in(first)?;
    let y = coordinate_in(after(b" ", more)?)?;
    Some((x, y))
}

// The AT point of a tail.
fn point_in(text: &[u8]) -> Option<(i16, i16)>
    ensures { result ≡ point_in text.now }
{
    pair_in(after(b" AT", text)?)
}

// The AT point, if there is one.
fn at_in(text: &[u8]) -> Option<Option<(i16, i16)>>
    ensures { result ≡ at_in text.now }
{
    match text {
        [] => Some(None),
        _ => point_in(text).map(Some),
    }
}

// The tail that has an AS name.
fn as_tail(quoted: Quoted<'_>) -> Option<Tail<'_>>
    ensures { option_map tail_said result ≡ as_tail (quoted.entry.bytes.now, quoted.entry.after.now) }
{
    let at = at_in(quoted.after)?;
    let as_name = Some(part(quoted.bytes));
    Some(Tail::Coded { as_name, at })
}

// The tail that is a code byte alone, or begins with its AT point.
fn bare_tail<'a>(text: &[u8]) -> Option<Tail<'a>>
    ensures { option_map tail_said result ≡ bare_tail text.now (behind (codes " CODE") text.now) }
{
    let at = match after(b" CODE", text) {
        Some([]) => None,
        Some(_) => return None,
        None => Some(point_in(text)?),
    };
    Some(Tail::Coded { as_name: None, at })
}

// The tail of a call.
pub(crate) fn tail_in(line: Line<'_>) -> Option<Tail<'_>>
    ensures { option_map tail_said result ≡ tail_in line.entry.text.now }
{
    let text = line.text;
    if text.is_empty() {
        return Some(Tail::Empty);
    }
    match line.after(b" AS \"") {
        Some(quoted) => as_tail(quoted.unquote()?),
        None => bare_tail(text),
    }
}
