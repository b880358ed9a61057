// Composing with nothing open.
ghost use Rattle.std.specs.Prelude.{◌≡◌, ◌≤◌, length, Some, None, Ok, Err, MatchResult};
ghost use Rattle.std.proofs.lemmas.List.Edits.{sets};
ghost use Rattle.statement.specs.Views.{said_by};
ghost use Rattle.spelling.specs.Spelling.{spell};
ghost use Rattle.wording.specs.Words.{worded};
ghost use Rattle.writer.specs.Names.{known};
ghost use Rattle.history.specs.Tales.{idle, busy, after};
ghost use Rattle.composing.specs.Composed.{answer_to, failure_at};

use crate::script::read;
use crate::types::Failure;
use statement::types::{Fault, Statement};
use writer::state::{Slip, Writer};
use writer::types::Refusal;

// Whether a statement opens something.
fn ask(writer: &Writer<'_>, statement: &Statement<'_>) -> Result<(), Refusal>
    ensures { result ≡ answer_to (length writer.now.buffer.now) (idle (known writer.now.names) writer.now.used) None (said_by statement.now) }
{
    match *statement {
        Statement::Erase => writer.ask_picture(),
        Statement::Subhed(name, header) => writer.ask_definition(name.bytes, header.into()),
        _ => Err(Refusal::Statement(Fault::Misplaced)),
    }
}

// Opens what a statement opens that was asked for.
pub(crate) fn open<'a>(writer: Writer<'a>, statement: Statement<'_>) -> Slip<'a>
    requires { answer_to (length writer.buffer.now) (idle (known writer.names) writer.used) None (said_by statement) ≡ Ok tt }
    ensures bytes { result.buffer.now ≡ sets writer.entry.buffer.now writer.entry.used (spell (said_by statement.entry)) }
    ensures state { busy result.opened (known result.names) result.used ≡ after (idle (known writer.entry.names) writer.entry.used) (said_by statement.entry) }
    ensures tied { result.buffer.ghost_name ≡ writer.entry.buffer.ghost_name }
{
    match statement {
        Statement::Subhed(name, header) => writer.open_definition(name.bytes, header.into()),
        // only ERASE opens besides
        _ => writer.open_picture(),
    }
}

// The statement that the words of the line of this number say, if it opens something.
pub(crate) fn read_opening<'a>(
    writer: &Writer<'_>,
    words: &'a [u8],
    line: usize,
    scratch: &'a mut [u8],
) -> Result<Statement<'a>, Failure>
    requires { length words.now ≤ length scratch.old }
    ensures { MatchResult result
        (λ s. (worded words.now ≡ Some (said_by s)) × (answer_to (length writer.now.buffer.now) (idle (known writer.now.names) writer.now.used) None (said_by s) ≡ Ok tt))
        (λ f. failure_at (length writer.now.buffer.now) (idle (known writer.now.names) writer.now.used) (worded words.now) line ≡ Some f) }
{
    let statement = read(words, line, scratch)?;
    ask(writer, &statement).map_err(|refusal| Failure::Refused { refusal, line })?;
    Ok(statement)
}
