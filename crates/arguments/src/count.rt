// Counts and strings.
ghost use Rattle.std.specs.Prelude.{◌≡◌, ◌+◌, ◌-◌, ◌*◌, ◌≤◌};
ghost use Rattle.statement.specs.Reading.{count, string};
ghost use Rattle.arguments.specs.Stops.{long_count_by, count_front, string_front, StringLies, StringStandsBy};

pub use statement::limits::{LONGEST_NAME, LONGEST_STRING};
use statement::types::{Fault, Part, Stop};

// The count of two bytes.
fn long_count(high: u8, low: u8) -> Result<usize, Stop>
    requires { 128 ≤ high }
    ensures { result ≡ long_count_by ((high - 128) * 256 + low) }
{
    let n = usize::from(u16::from_be_bytes([high - 128, low]));
    if n < 128 {
        Err(Fault::ShortCount.into())
    } else {
        Ok(n)
    }
}

// The count at the front of the bytes, and the bytes after it.
pub(crate) fn read_count(bytes: &[u8]) -> Result<(usize, &[u8]), Stop>
    ensures { count_front result ≡ count bytes.now }
{
    match bytes {
        [n, rest @ ..] if *n < 128 => Ok((*n as usize, rest)),
        [high, low, rest @ ..] => Ok((long_count(*high, *low)?, rest)),
        _ => Err(Stop::Wanting),
    }
}

// A place goes beside bytes: with a struct of both, tried, a job of calls took four tenths longer to draw.
// The string at the front of the bytes, if no longer than the limit, and the bytes after it; `at` is their place in the statement.
pub(crate) fn read_string(limit: usize, at: usize, bytes: &[u8]) -> Result<(Part<'_>, &[u8]), Stop>
    requires { at ≤ 2 }
    ensures value { string_front result ≡ string limit bytes.now }
    ensures place { StringLies result at bytes.now }
    ensures stands { StringStandsBy at result }
{
    let (n, rest) = read_count(bytes)?;
    if n > limit {
        return Err(Fault::TooLong.into());
    }
    if rest.len() < n {
        return Err(Stop::Wanting);
    }
    let (text, after) = rest.split_at(n);
    let part = Part {
        at: at + (bytes.len() - rest.len()),
        bytes: text,
    };
    Ok((part, after))
}

// The name at the front of what follows a code, if it is no longer than a name may be, and the bytes after it.
pub fn read_name(rest: &[u8]) -> Result<(Part<'_>, &[u8]), Stop>
    ensures value { string_front result ≡ string 8 rest.now }
    ensures place { StringLies result 1 rest.now }
    ensures stands { StringStandsBy 1 result }
{
    read_string(LONGEST_NAME, 1, rest)
}
