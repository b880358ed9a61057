// Lines that are being read.
ghost use Rattle.std.specs.Prelude.{◌≡◌, ◌≤◌, length};

use crate::quote::{Quoted, unquote};
use crate::split::{after, split_word};

// What is left of a line, and room for what stands between quotes in it.
#[derive(Drop)]
pub(crate) struct Line<'a> {
    pub text: &'a [u8],
    scratch: &'a mut [u8],
    ghost roomy: { length text.now ≤ length scratch.now },
}

impl<'a> Line<'a> {
    ghost use Rattle.std.specs.Option.{option_map};
    ghost use Rattle.wording.specs.Texts.{word, rest, behind};
    ghost use Rattle.wording.specs.Quotes.{unquoted};

    // A line, and a scratch with room for it.
    pub(crate) fn new(text: &'a [u8], scratch: &'a mut [u8]) -> Line<'a>
        requires { length text.now ≤ length scratch.old }
        ensures { result.text.now ≡ text.now }
    {
        Line { text, scratch }
    }

    // What stands before the first space, and what stands from it on.
    pub(crate) fn split_word(self) -> (&'a [u8], Line<'a>)
        ensures first { result.0.now ≡ word self.entry.text.now }
        ensures others { result.1.text.now ≡ rest self.entry.text.now }
    {
        let (word, text) = split_word(self.text);
        let scratch = self.scratch;
        (word, Line { text, scratch })
    }

    // What follows a front, if the line has that front.
    pub(crate) fn after(self, front: &[u8]) -> Option<Line<'a>>
        ensures { option_map (λ line. line.text.now) result ≡ behind front.now self.entry.text.now }
    {
        let text = after(front, self.text)?;
        let scratch = self.scratch;
        Some(Line { text, scratch })
    }

    // The string up to the closing quote, put into the scratch, and what follows the quote.
    pub(crate) fn unquote(self) -> Option<Quoted<'a>>
        ensures { option_map (λ q. (q.bytes.now, q.after.now)) result ≡ unquoted self.entry.text.now }
    {
        let scratch = self.scratch;
        let (len, after) = unquote(self.text, scratch)?;
        Some(Quoted {
            bytes: &scratch[..len],
            after,
        })
    }
}
