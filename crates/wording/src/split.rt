// Texts taken apart.
ghost use Rattle.std.specs.Prelude.{◌≡◌, ◌≤◌, ◌==◌, length, position, IfSome};
ghost use Rattle.std.specs.Option.{option_map};
ghost use Rattle.wording.specs.Texts.{word, rest, behind};

// Where the first space is, if there is one.
fn space_in(text: &[u8]) -> Option<usize>
    ensures { result ≡ position (λ b. b == 32) text.now }
{
    text.iter().position(|b| *b == b' ')
}

// What stands before the first space, and what stands from it on.
pub(crate) fn split_word(text: &[u8]) -> (&[u8], &[u8])
    ensures first { result.0.now ≡ word text.now }
    ensures others { result.1.now ≡ rest text.now }
    ensures within { length result.1.now ≤ length text.now }
{
    text.split_at(space_in(text).unwrap_or(text.len()))
}

// What follows a front, if the text has that front.
pub(crate) fn after<'a>(front: &[u8], text: &'a [u8]) -> Option<&'a [u8]>
    ensures is { option_map (λ s. s.now) result ≡ behind front.now text.now }
    ensures within { IfSome result (λ s. length s.now ≤ length text.now) }
{
    text.strip_prefix(front)
}
