// Whole streams as text.
ghost use Rattle.std.specs.Prelude.{◌≡◌, IfOk};
ghost use Rattle.spelling.specs.Walking.{read_back};
ghost use Rattle.listing.specs.Lines.{listed};

use crate::line::{put_end, put_line};
use std::alloc::{AllocError, Global};
use walking::walker::Walker;

// The lines of a stream, put in a loop, since the end comes out of the same step as the statements.
pub fn list(heap: Global, bytes: &[u8]) -> Result<Vec<u8>, AllocError>
    ensures { IfOk result (λ text. text.items ≡ listed (read_back bytes.now)) }
{
    let mut out = Vec::new(heap);
    let mut walker = Walker::new(bytes);
    loop {
        let standing = walker.standing;
        match walker.next() {
            Ok(placed) => put_line(&mut out, standing, placed)?,
            Err(end) => {
                put_end(&mut out, end)?;
                return Ok(out);
            }
        }
    }
}
