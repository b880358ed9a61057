// Bytes written into a buffer from a place on.
ghost use Rattle.std.specs.Prelude.{◌≡◌, ◌+◌, ◌≤◌, length};
ghost use Rattle.std.proofs.lemmas.List.Edits.{sets};
ghost use Rattle.spelling.specs.Spelling.{spell_string, spell_pair};

// Writes bytes from a place on, and gives the place after them.
pub fn put(buffer: &mut [u8], place: usize, bytes: &[u8]) -> usize
    requires { place + length bytes.now ≤ length buffer.old }
    ensures after { result ≡ place + length bytes.now }
    ensures bytes { buffer.new ≡ sets buffer.old place bytes.now }
{
    let end = place + bytes.len();
    buffer[place..end].copy_from_slice(bytes);
    end
}

// Writes a count and its bytes from a place on, and gives the place after them.
pub fn put_string(buffer: &mut [u8], place: usize, bytes: &[u8]) -> usize
    requires few { length bytes.now ≤ 512 }
    requires room { place + length (spell_string bytes.now) ≤ length buffer.old }
    ensures after { result ≡ place + length (spell_string bytes.now) }
    ensures bytes { buffer.new ≡ sets buffer.old place (spell_string bytes.now) }
{
    let n = bytes.len();
    let next = if n < 128 {
        put(buffer, place, &[n as u8])
    } else {
        put(buffer, place, &[(128 + n / 256) as u8, (n % 256) as u8])
    };
    put(buffer, next, bytes)
}

// Writes two coordinates from a place on, and gives the place after them.
pub fn put_pair(buffer: &mut [u8], place: usize, x: i16, y: i16) -> usize
    requires { place + 4 ≤ length buffer.old }
    ensures after { result ≡ place + 4 }
    ensures bytes { buffer.new ≡ sets buffer.old place (spell_pair x y) }
{
    let [a, b] = x.to_be_bytes();
    let [c, d] = y.to_be_bytes();
    put(buffer, place, &[a, b, c, d])
}
