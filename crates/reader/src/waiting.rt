// The bytes of a statement that has begun.
ghost use Rattle.std.specs.Prelude.{◌≡◌, ◌<◌, ◌≤◌, [], ◌∷◌, ◌++◌, ◌+◌, ◌==◌, length};

use statement::limits::LONGEST_SPELLING;

// The bytes of a statement that has begun: the first of these.
// No `ArrayVec`: its `clear` blanks every byte, and with it a stream of short statements took a third longer and more.
#[derive(Drop)]
pub(crate) struct Held {
    bytes: [u8; LONGEST_SPELLING],
    len: usize,
    ghost fits: { len ≤ 516 },
}

impl Held {
    ghost use Rattle.reader.specs.Held.{bytes_held};

    // No byte.
    pub(crate) fn none() -> Held
        ensures { bytes_held result ≡ [] }
    {
        Held {
            bytes: [0; LONGEST_SPELLING],
            len: 0,
        }
    }

    // How many bytes are held.
    pub(crate) fn len(&self) -> usize
        ensures { result ≡ length (bytes_held self.now) }
    {
        self.len
    }

    // Whether no byte is held.
    pub(crate) fn is_empty(&self) -> bool
        ensures { result ≡ (length (bytes_held self.now) == 0) }
    {
        self.len == 0
    }

    // The bytes.
    pub(crate) fn as_slice(&self) -> &[u8]
        ensures { result.now ≡ bytes_held self.now }
    {
        &self.bytes[..self.len]
    }

    // One byte more.
    pub(crate) fn push(&mut self, byte: u8)
        requires { length (bytes_held self.old) < 516 }
        ensures items { bytes_held self.new ≡ bytes_held self.old ++ (byte ∷ []) }
        ensures len { length (bytes_held self.new) ≡ length (bytes_held self.old) + 1 }
    {
        self.bytes[self.len] = byte;
        self.len += 1;
    }

    // Lets all bytes go.
    pub(crate) fn clear(&mut self)
        ensures { bytes_held self.new ≡ [] }
    {
        self.len = 0;
    }
}
