// The writer and the slip, over lent memory: the buffer stays the caller's, so what is written has its number beside it.
ghost use Rattle.std.specs.Prelude.{◌≡◌, ◌+◌, ◌<◌, ◌≤◌, length};
ghost use Rattle.std.proofs.lemmas.List.Edits.{sets};
ghost use Rattle.spelling.specs.Spelling.{spell};
ghost use Rattle.writer.specs.Answers.{closing};
ghost use Rattle.writer.specs.Bodies.{body_start};

use crate::types::{Names, Opened};
use spelling::code::code_of;
use statement::types::Statement;

// A writer: nothing is open.
#[derive(Drop)]
pub struct Writer<'a> {
    pub(crate) buffer: &'a mut [u8],
    pub(crate) used: usize,
    pub(crate) names: Names,
    ghost within: { used ≤ length buffer.now },
    ghost few: { length buffer.now ≤ 16777216 },
}

// A slip: a picture or a definition is open, and one byte is free for its closing; it has the fields of a writer, by which the clauses speak of both.
pub struct Slip<'a> {
    pub(crate) buffer: &'a mut [u8],
    pub(crate) used: usize,
    pub(crate) names: Names,
    pub(crate) opened: Opened,
    ghost free: { used < length buffer.now },
    ghost few: { length buffer.now ≤ 16777216 },
    ghost begun: { body_start opened ≤ used },
}

impl Writer<'_> {
    // How many bytes are written.
    pub fn used(&self) -> usize
        ensures { result ≡ self.now.used }
    {
        self.used
    }
}

// A slip is closed, never let go: only one with a definition open and nothing written might be, and its heading is written first.
impl Drop for Slip<'_> {
    fn drop(self)
        requires { (self.used ≡ 0) × (self.opened ≡ Opened.Definition 0) }
    {
        let Slip {
            buffer: _,
            used: _,
            names: _,
            opened: _,
        } = self;
    }
}

impl Slip<'_> {
    // What is open.
    pub fn opened(&self) -> Opened
        ensures { result ≡ self.now.opened }
    {
        self.opened
    }
}

impl<'a> Slip<'a> {
    // Closes what is open, and gives the writer back.
    pub fn close(self) -> Writer<'a>
        ensures names { result.names ≡ self.entry.names }
        ensures used { result.used ≡ self.entry.used + 1 }
        ensures bytes { result.buffer.now ≡ sets self.entry.buffer.now self.entry.used (spell (closing self.entry.opened)) }
        ensures tied { result.buffer.ghost_name ≡ self.entry.buffer.ghost_name }
    {
        let Slip {
            buffer,
            used,
            names,
            opened,
        } = self;
        buffer[used] = code_of(match opened {
            Opened::Picture => &Statement::Endpic,
            Opened::Definition(_) => &Statement::Subend,
        });
        Writer {
            buffer,
            used: used + 1,
            names,
        }
    }
}
