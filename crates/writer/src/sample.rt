// A small stream, written by the calls one by one.
ghost use Rattle.std.specs.Prelude.{◌≡◌, ◌+◌, length, IfOk};
ghost use Rattle.spelling.specs.Spelling.{spell};
ghost use Rattle.writer.specs.Answers.{heading};

use crate::opening::{ask, make};
use crate::types::Refusal;

// Writes an empty definition and an empty picture, and gives how many bytes are written.
pub fn write_empty(buffer: &mut [u8], name: &[u8], header: u8) -> Result<usize, Refusal>
    ensures { IfOk result (λ n. n ≡ length (spell (heading name.now header)) + 3) }
{
    ask(buffer)?;
    let writer = make(buffer);
    writer.ask_definition(name, header)?;
    let definition = writer.open_definition(name, header);
    let writer = definition.close();
    writer.ask_picture()?;
    let picture = writer.open_picture();
    Ok(picture.close().used())
}
