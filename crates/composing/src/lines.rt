// Where a line ends, what its words are, and whether they say nothing.
ghost use Rattle.std.specs.Prelude.{◌≡◌, ◌≤◌, ◌==◌, not, length, position, codes};
ghost use Rattle.std.specs.Str.{bytes_eq};
ghost use Rattle.composing.specs.Lines.{is_fill, bare, is_silent};

// The byte that ends a line.
const END: u8 = b'\n';

// Where the first line of a text ends, if it is ended.
pub(crate) fn line_end(text: &[u8]) -> Option<usize>
    ensures { result ≡ position (λ b. b == 10) text.now }
{
    text.iter().position(|b| *b == END)
}

// Whether a byte before the words of a line is of no account.
fn is_fill(b: u8) -> bool
    ensures { result ≡ is_fill b }
{
    matches!(b, b' ' | b'0'..=b'9')
}

// Where the words of a line begin, if there are any.
fn words_start(line: &[u8]) -> Option<usize>
    ensures { result ≡ position (λ b. not (is_fill b)) line.now }
{
    line.iter().position(|b| !is_fill(*b))
}

// A line without the fill before its words.
pub(crate) fn bare(line: &[u8]) -> &[u8]
    ensures value { result.now ≡ bare line.now }
    ensures shorter { length result.now ≤ length line.now }
{
    &line[words_start(line).unwrap_or(line.len())..]
}

// Whether words are the one by which a listing ends.
fn is_last(words: &[u8]) -> bool
    ensures { result ≡ bytes_eq words.now (codes "whole") }
{
    words == b"whole".as_slice()
}

// Whether words say nothing.
pub(crate) fn is_silent(words: &[u8]) -> bool
    ensures { result ≡ is_silent words.now }
{
    words.is_empty() || is_last(words)
}
