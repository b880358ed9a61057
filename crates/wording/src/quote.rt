// Bytes between quotes.
ghost use Rattle.std.specs.Prelude.{◌≡◌, ◌≤◌, length, take, IfSome};
ghost use Rattle.std.specs.Option.{option_map};
ghost use Rattle.wording.specs.Quotes.{hex_in, escaped, unquoted};

use listing::quote::is_plain;

// The value of a digit of base 16 in small letters; `to_digit` would take capitals too.
fn hex_in(c: u8) -> Option<u8>
    ensures { result ≡ hex_in c }
{
    match c {
        b'0'..=b'9' => Some(c - b'0'),
        b'a'..=b'f' => Some(c - b'a' + 10),
        _ => None,
    }
}

// The byte that two digits write; one that would stand as itself may not be escaped.
fn escaped(high: u8, low: u8) -> Option<u8>
    ensures { result ≡ escaped high low }
{
    let byte = hex_in(high)? * 16 + hex_in(low)?;
    (!is_plain(byte)).then_some(byte)
}

// Puts the bytes up to the closing quote into the scratch; their number, and what follows the quote.
// The scratch is lent memory, so the number stands beside it.
pub(crate) fn unquote<'a>(mut text: &'a [u8], scratch: &mut [u8]) -> Option<(usize, &'a [u8])>
    requires { length text.now ≤ length scratch.old }
    ensures value { option_map (λ p. (take p.0 scratch.new, p.1.now)) result ≡ unquoted text.now }
    ensures within { IfSome result (λ p. p.0 ≤ length scratch.new) }
{
    let mut len = 0;
    loop {
        let (byte, rest) = match text {
            [b'"', after @ ..] => return Some((len, after)),
            [b'\\', b'x', high, low, rest @ ..] => (escaped(*high, *low)?, rest),
            [c, rest @ ..] if is_plain(*c) => (*c, rest),
            _ => return None,
        };
        scratch[len] = byte;
        len += 1;
        text = rest;
    }
}

// A string that was between quotes, and what follows it.
#[derive(Clone, Copy)]
pub(crate) struct Quoted<'a> {
    pub bytes: &'a [u8],
    pub after: &'a [u8],
}
