// Tails of calls.
ghost use Rattle.std.specs.Prelude.{◌≡◌, ℕ, ◌+◌, ◌≤◌, List, length, take, drop, Option};
ghost use Rattle.std.specs.Option.{option_map};
ghost use Rattle.statement.specs.Statements.{CallTail};
ghost use Rattle.statement.specs.Reading.{tail_at, tail_end, tail_as, coded_tail, tail_of};
ghost use Rattle.parsing.specs.Tails.{TailPartsBy, TailStandsBy, as_front, AsLies, AsStands};
ghost use Rattle.statement.specs.Views.{bytes_of, tail_said, PartLies};
ghost use Rattle.statement.specs.Places.{NameStands};

use statement::coordinate::coordinate_of;
use statement::types::{Part, Tail};

// Two rules of the format, not one rule twice: a tail ends here, or with four bytes more.
// The tail that ends here.
fn tail_end<'a>(as_name: Option<Part<'a>>, rest: &[u8]) -> Option<Tail<'a>>
    ensures value { option_map tail_said result ≡ tail_end (option_map bytes_of as_name.entry) rest.now }
    ensures parts { (bs : List ℕ) → PartLies as_name.entry bs → TailPartsBy result bs }
    ensures stands { (at : ℕ) → NameStands at as_name.entry → TailStandsBy at result }
{
    match rest {
        [] => Some(Tail::Coded { as_name, at: None }),
        _ => None,
    }
}

// The tail that ends with an AT point.
fn tail_at<'a>(as_name: Option<Part<'a>>, rest: &[u8]) -> Option<Tail<'a>>
    ensures value { option_map tail_said result ≡ tail_at (option_map bytes_of as_name.entry) rest.now }
    ensures parts { (bs : List ℕ) → PartLies as_name.entry bs → TailPartsBy result bs }
    ensures stands { (at : ℕ) → NameStands at as_name.entry → TailStandsBy at result }
{
    match rest {
        [a, b, c, d] => {
            let at = (coordinate_of(*a, *b), coordinate_of(*c, *d));
            Some(Tail::Coded {
                as_name,
                at: Some(at),
            })
        }
        _ => None,
    }
}

// A place goes beside bytes, as where strings are read: a struct of both was tried, and made reading slower.
// The AS name at the front of the bytes, and the bytes after it; `at` is their place in the statement.
fn read_as_name(at: usize, bytes: &[u8]) -> Option<(Part<'_>, &[u8])>
    requires { at ≤ 32 }
    ensures value { (k : Option (List ℕ) → List ℕ → Option CallTail) → as_front result k ≡ tail_as k bytes.now }
    ensures place { (bs : List ℕ) → take (length bytes.now) (drop at bs) ≡ bytes.now → AsLies result bs }
    ensures stands { AsStands at result }
{
    match bytes {
        [n, rest @ ..] if *n <= 8 && *n as usize <= rest.len() => {
            let (name, after) = rest.split_at(*n as usize);
            Some((
                Part {
                    at: at + 1,
                    bytes: name,
                },
                after,
            ))
        }
        _ => None,
    }
}

// The tail that follows its code byte, if it fits exactly; `at` is the place of `rest` in the statement.
fn coded_tail(at: usize, code: u8, rest: &[u8]) -> Option<Tail<'_>>
    requires { at ≤ 32 }
    ensures value { option_map tail_said result ≡ coded_tail code rest.now }
    ensures parts { (bs : List ℕ) → take (length rest.now) (drop at bs) ≡ rest.now → TailPartsBy result bs }
    ensures stands { TailStandsBy at result }
{
    match code {
        0x00 => tail_end(None, rest),
        0x40 => tail_at(None, rest),
        0x80 => {
            let (name, after) = read_as_name(at, rest)?;
            tail_end(Some(name), after)
        }
        0xC0 => {
            let (name, after) = read_as_name(at, rest)?;
            tail_at(Some(name), after)
        }
        _ => None,
    }
}

// The tail that the bytes are, if they fit exactly; `at` is their place in the statement.
pub(crate) fn read_tail(at: usize, bytes: &[u8]) -> Option<Tail<'_>>
    requires { at ≤ 16 }
    ensures value { option_map tail_said result ≡ tail_of bytes.now }
    ensures parts { (bs : List ℕ) → take (length bytes.now) (drop at bs) ≡ bytes.now → TailPartsBy result bs }
    ensures stands { TailStandsBy (at + 1) result }
{
    match bytes {
        [] => Some(Tail::Empty),
        [code, rest @ ..] => coded_tail(at + 1, *code, rest),
    }
}
