// The characters of texts and names.
ghost use Rattle.std.specs.Prelude.{◌≡◌};
ghost use Rattle.statement.specs.Reading.{is_text, is_name_code, are_name_codes, is_name};

// Whether all bytes are text codes; 127 is the format's own bound, not that of a set of characters.
pub fn is_text(bytes: &[u8]) -> bool
    ensures { result ≡ is_text bytes.now }
{
    bytes.iter().all(|code| *code <= 127)
}

// Whether a byte is a capital letter or a digit.
fn is_name_code(code: u8) -> bool
    ensures { result ≡ is_name_code code }
{
    matches!(code, b'A'..=b'Z' | b'0'..=b'9')
}

// Whether all bytes may stand in a name.
pub fn are_name_codes(bytes: &[u8]) -> bool
    ensures { result ≡ are_name_codes bytes.now }
{
    bytes.iter().all(|code| is_name_code(*code))
}

// Whether the bytes are a name.
pub fn is_name(bytes: &[u8]) -> bool
    ensures { result ≡ is_name bytes.now }
{
    !bytes.is_empty() && are_name_codes(bytes)
}
