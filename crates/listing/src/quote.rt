// Strings between quotes.
ghost use Rattle.std.specs.Prelude.{◌≡◌, ◌<◌, ◌∷◌, ◌++◌, OnOk};
ghost use Rattle.listing.specs.Lines.{hex_digit, is_plain, quoted_byte, quoted};

use std::alloc::AllocError;

// Whether a byte stands between quotes as itself.
pub fn is_plain(b: u8) -> bool
    ensures { result ≡ is_plain b }
{
    matches!(b, b' '..=b'~') && b != b'"' && b != b'\\'
}

// A digit of base 16, in small letters.
fn hex_digit(d: u8) -> u8
    requires { d < 16 }
    ensures { result ≡ hex_digit d }
{
    if d < 10 { b'0' + d } else { b'a' - 10 + d }
}

// Puts a byte behind a text as it stands between quotes; by digits, since a `format!` made a String for each byte.
fn put_quoted_byte(out: &mut Vec<u8>, b: u8) -> Result<(), AllocError>
    ensures { OnOk result (out.new.items ≡ out.old.items ++ quoted_byte b) }
{
    if is_plain(b) {
        out.extend_from_slice(&[b])
    } else {
        out.extend_from_slice(&[b'\\', b'x', hex_digit(b / 16), hex_digit(b % 16)])
    }
}

// Puts a string behind a text, between quotes and after a space.
pub(crate) fn put_string(out: &mut Vec<u8>, bytes: &[u8]) -> Result<(), AllocError>
    ensures { OnOk result (out.new.items ≡ out.old.items ++ (32 ∷ quoted bytes.now)) }
{
    out.extend_from_slice(b" \"")?;
    for b in bytes {
        put_quoted_byte(out, *b)?;
    }
    out.extend_from_slice(b"\"")
}
