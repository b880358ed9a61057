// Asking for and making a writer, and opening pictures and definitions.
ghost use Rattle.std.specs.Prelude.{◌≡◌, ◌+◌, [], length, Ok};
ghost use Rattle.std.proofs.lemmas.List.Edits.{sets};
ghost use Rattle.statement.specs.Statements.{erase};
ghost use Rattle.spelling.specs.Spelling.{spell};
ghost use Rattle.writer.specs.Names.{known, with_name};
ghost use Rattle.writer.specs.Answers.{make_answer, picture_answer, definition_answer, heading};

use crate::faults::heading_size;
use crate::state::{Slip, Writer};
use crate::types::{Names, Opened, Refusal};
use spelling::code::code_of;
use statement::limits::LONGEST_STREAM;
use statement::types::Statement;

// Whether a writer may be made over a buffer.
pub fn ask(buffer: &[u8]) -> Result<(), Refusal>
    ensures { result ≡ make_answer (length buffer.now) }
{
    if buffer.len() <= LONGEST_STREAM {
        Ok(())
    } else {
        Err(Refusal::Memory)
    }
}

// Makes a writer over a buffer that was asked for.
pub fn make<'a>(buffer: &'a mut [u8]) -> Writer<'a>
    requires { make_answer (length buffer.old) ≡ Ok tt }
    ensures names { known result.names ≡ [] }
    ensures used { result.used ≡ 0 }
    ensures bytes { result.buffer.now ≡ buffer.old }
    ensures tied { result.buffer.ghost_name ≡ buffer.entry.ghost_name }
{
    Writer {
        buffer,
        used: 0,
        names: Names::default(),
    }
}

impl<'a> Writer<'a> {
    // Whether a picture may be opened.
    pub fn ask_picture(&self) -> Result<(), Refusal>
        ensures { result ≡ picture_answer self.now.used (length self.now.buffer.now) }
    {
        if self.buffer.len() - self.used > 1 {
            Ok(())
        } else {
            Err(Refusal::Buffer)
        }
    }

    // Opens a picture that was asked for.
    pub fn open_picture(self) -> Slip<'a>
        requires { picture_answer self.used (length self.buffer.now) ≡ Ok tt }
        ensures opened { result.opened ≡ Opened.Picture }
        ensures names { result.names ≡ self.entry.names }
        ensures used { result.used ≡ self.entry.used + 1 }
        ensures bytes { result.buffer.now ≡ sets self.entry.buffer.now self.entry.used (spell erase) }
        ensures tied { result.buffer.ghost_name ≡ self.entry.buffer.ghost_name }
    {
        let Writer {
            buffer,
            used,
            names,
        } = self;
        buffer[used] = code_of(&Statement::Erase);
        Slip {
            buffer,
            used: used + 1,
            names,
            opened: Opened::Picture,
        }
    }

    // Whether a definition of this name and header may be opened; the header is any byte, since a wrong one is refused too.
    pub fn ask_definition(&self, name: &[u8], header: u8) -> Result<(), Refusal>
        ensures { result ≡ definition_answer (known self.now.names) self.now.used (length self.now.buffer.now) name.now header }
    {
        let size = heading_size(name, header)?;
        if self.names.is_one_too_many(name) {
            return Err(Refusal::NoRoom);
        }
        if size >= self.buffer.len() - self.used {
            return Err(Refusal::Buffer);
        }
        Ok(())
    }

    // Opens a definition that was asked for.
    pub fn open_definition(self, name: &[u8], header: u8) -> Slip<'a>
        requires { definition_answer (known self.names) self.used (length self.buffer.now) name.now header ≡ Ok tt }
        ensures opened { result.opened ≡ Opened.Definition result.used }
        ensures names { known result.names ≡ with_name (known self.entry.names) name.now }
        ensures used { result.used ≡ self.entry.used + length (spell (heading name.now header)) }
        ensures bytes { result.buffer.now ≡ sets self.entry.buffer.now self.entry.used (spell (heading name.now header)) }
        ensures tied { result.buffer.ghost_name ≡ self.entry.buffer.ghost_name }
    {
        let Writer {
            buffer,
            used,
            names,
        } = self;
        let mut slip = Slip {
            buffer,
            used,
            names,
            opened: Opened::Picture,
        };
        slip.head(name, header);
        slip
    }
}
