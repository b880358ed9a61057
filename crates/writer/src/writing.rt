// Writing on a slip.
ghost use Rattle.std.specs.Prelude.{◌≡◌, ◌+◌, ◌<◌, ◌≤◌, length, Ok};
ghost use Rattle.std.proofs.lemmas.List.Edits.{sets};
ghost use Rattle.statement.specs.Views.{said_by};
ghost use Rattle.spelling.specs.Spelling.{spell, Lawful};
ghost use Rattle.writer.specs.Answers.{write_answer, definition_answer, heading, passed};
ghost use Rattle.writer.specs.Bodies.{stays_short};
ghost use Rattle.writer.specs.Names.{known, with_name};

use crate::faults::{heading_of, writing_size};
use crate::state::Slip;
use crate::types::{Opened, Refusal};
use encoding::spell::spell;
use statement::limits::LONGEST_BODY;
use statement::types::Statement;

impl Slip<'_> {
    // Spells a lawful statement that leaves one byte free.
    fn lay(&mut self, statement: Statement<'_>)
        requires lawful { Lawful (said_by statement) }
        requires free { self.old.used + length (spell (said_by statement)) < length self.old.buffer.now }
        ensures opened { self.new.opened ≡ self.old.opened }
        ensures names { self.new.names ≡ self.old.names }
        ensures used { self.new.used ≡ self.old.used + length (spell (said_by statement.entry)) }
        ensures bytes { self.new.buffer.now ≡ sets self.old.buffer.now self.old.used (spell (said_by statement.entry)) }
        ensures tied { self.new.buffer.ghost_name ≡ self.old.buffer.ghost_name }
    {
        self.used += spell(statement, &mut self.buffer[self.used..]).unwrap();
    }

    // Whether the body, if one is open, has room for so many bytes.
    fn stays_short(&self, size: usize) -> bool
        requires { size ≤ 516 }
        ensures { result ≡ stays_short self.now.opened self.now.used size }
    {
        match self.opened {
            Opened::Picture => true,
            Opened::Definition(start) => self.used - start + size <= LONGEST_BODY,
        }
    }

    // Writes a statement, or refuses it and alters nothing.
    pub fn write(&mut self, statement: Statement<'_>) -> Result<(), Refusal>
        ensures answer { result ≡ write_answer self.old.opened self.old.used (length self.old.buffer.now) (said_by statement.entry) }
        ensures opened { self.new.opened ≡ self.old.opened }
        ensures names { self.new.names ≡ self.old.names }
        ensures used { self.new.used ≡ self.old.used + length (passed result (spell (said_by statement.entry))) }
        ensures bytes { self.new.buffer.now ≡ sets self.old.buffer.now self.old.used (passed result (spell (said_by statement.entry))) }
        ensures tied { self.new.buffer.ghost_name ≡ self.old.buffer.ghost_name }
    {
        let size = writing_size(&statement)?;
        if !self.stays_short(size) {
            return Err(Refusal::NoRoom);
        }
        if size >= self.buffer.len() - self.used {
            return Err(Refusal::Buffer);
        }
        self.lay(statement);
        Ok(())
    }

    // Begins the body of a definition that was asked for.
    pub(crate) fn head(&mut self, name: &[u8], header: u8)
        requires { definition_answer (known self.old.names) self.old.used (length self.old.buffer.now) name.now header ≡ Ok tt }
        ensures opened { self.new.opened ≡ Opened.Definition self.new.used }
        ensures names { known self.new.names ≡ with_name (known self.old.names) name.now }
        ensures used { self.new.used ≡ self.old.used + length (spell (heading name.now header)) }
        ensures bytes { self.new.buffer.now ≡ sets self.old.buffer.now self.old.used (spell (heading name.now header)) }
        ensures tied { self.new.buffer.ghost_name ≡ self.old.buffer.ghost_name }
    {
        self.lay(heading_of(name, header));
        self.names.add(name);
        self.opened = Opened::Definition(self.used);
    }
}
