// One definition.
ghost use Rattle.std.specs.Prelude.{◌≡◌, ◌+◌, ◌≤◌, true, not, [], ◌++◌, length, take, if◌then◌else◌, Some, None};
ghost use Rattle.std.specs.Result.{result_err};
ghost use Rattle.statement.specs.declared.types.Header.TheVariants.{Simple};
ghost use Rattle.run.specs.Performing.{same_bytes};
ghost use Rattle.calls.specs.Tables.{letters_of, entry_of, longer, overflows};

use crate::types::{Definition, Name};
use run::types::Fault;
use statement::limits::LONGEST_BODY;
use statement::types::Header;

impl Default for Definition {
    ghost is_default = { λ d. entry_of d ≡ record { name = []; header = Simple; body = [] } };

    // A definition of no name, with no bytes recorded.
    fn default() -> Definition {
        Definition::new(Name::empty(), Header::Simple)
    }
}

impl Definition {
    // A definition with no bytes recorded.
    pub fn new(name: Name, header: Header) -> Definition
        ensures { entry_of result ≡ record { name = letters_of name; header = header; body = [] } }
    {
        Definition {
            name,
            header,
            body: [0; LONGEST_BODY],
            len: 0,
        }
    }

    // Begins anew under a name and a header: no bytes are recorded.
    pub fn restart(&mut self, name: Name, header: Header)
        ensures { entry_of self.new ≡ record { name = letters_of name; header = header; body = [] } }
    {
        self.name = name;
        self.header = header;
        self.len = 0;
    }

    // Whether the definition has this name.
    pub(crate) fn is_named(&self, label: &[u8]) -> bool
        ensures { result ≡ same_bytes (letters_of self.now.name) label.now }
    {
        self.name.is(label)
    }

    // The bytes recorded so far.
    pub(crate) fn recorded(&self) -> &[u8]
        ensures { result.now ≡ (entry_of self.now).body }
    {
        &self.body[..self.len]
    }

    // Records more bytes; where they have no room nothing changes.
    pub fn record(&mut self, bytes: &[u8]) -> Result<(), Fault>
        ensures value { result_err result ≡ (if overflows (entry_of self.old) bytes.now then Some Fault.NoRoom else None) }
        ensures after { entry_of self.new ≡ (if overflows (entry_of self.old) bytes.now then entry_of self.old else longer (entry_of self.old) bytes.now) }
    {
        if !self.has_room(bytes) {
            return Err(Fault::NoRoom);
        }
        self.lengthen(bytes);
        Ok(())
    }

    // Whether there is room for more bytes.
    fn has_room(&self, bytes: &[u8]) -> bool
        ensures value { overflows (entry_of self.now) bytes.now ≡ not result }
        ensures room { result ≡ true → self.now.len + length bytes.now ≤ 1024 }
    {
        bytes.len() <= LONGEST_BODY - self.len
    }

    // Records more bytes, for which there is room.
    fn lengthen(&mut self, bytes: &[u8])
        requires { self.old.len + length bytes.now ≤ 1024 }
        ensures { entry_of self.new ≡ longer (entry_of self.old) bytes.now }
    {
        append(&mut self.body, self.len, bytes);
        self.len += bytes.len();
    }
}

// Puts bytes after the first ones of a body.
fn append(body: &mut [u8; LONGEST_BODY], len: usize, bytes: &[u8])
    requires { len + length bytes.now ≤ 1024 }
    ensures { take (len + length bytes.now) body.new ≡ take len body.old ++ bytes.now }
{
    body[len..len + bytes.len()].copy_from_slice(bytes);
}
