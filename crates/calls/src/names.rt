// Names.
ghost use Rattle.std.specs.Prelude.{◌≡◌, ◌<◌, [], length, MatchOption};
ghost use Rattle.run.specs.Performing.{same_bytes};
ghost use Rattle.calls.specs.Tables.{letters_of};

use crate::types::Name;
use statement::limits::LONGEST_NAME;

impl Name {
    // A name of no letter.
    pub fn empty() -> Name
        ensures { letters_of result ≡ [] }
    {
        Name {
            bytes: [0; LONGEST_NAME],
            len: 0,
        }
    }

    // The name of these letters, if they are at most 8.
    pub fn new(letters: &[u8]) -> Option<Name>
        ensures { MatchOption result (8 < length letters.now) (λ n. letters_of n ≡ letters.now) }
    {
        let len = letters.len();
        if len > LONGEST_NAME {
            return None;
        }
        let mut bytes = [0; LONGEST_NAME];
        bytes[..len].copy_from_slice(letters);
        Some(Name { bytes, len })
    }

    // The letters of the name.
    pub(crate) fn letters(&self) -> &[u8]
        ensures { result.now ≡ letters_of self.now }
    {
        &self.bytes[..self.len]
    }

    // Whether the name is these bytes.
    pub(crate) fn is(&self, bytes: &[u8]) -> bool
        ensures { result ≡ same_bytes (letters_of self.now) bytes.now }
    {
        let own = self.letters();
        own == bytes
    }
}
