// Whole lists of operations.
ghost use Rattle.std.specs.Prelude.{◌≡◌, ◌+◌, ◌≤◌, [], length, Ok};
ghost use Rattle.std.specs.Slice.Iter.{iter_rest};
ghost use Rattle.spelling.specs.Laws.{spell_all};
ghost use Rattle.writer.specs.Answers.{make_answer};
ghost use Rattle.writer.specs.Names.{known};
ghost use Rattle.history.specs.Tales.{idle, busy, book, accepted, play_answer};
ghost use Rattle.history.specs.Laws.{over_front, ReadsBack};

use crate::operation::Operation;
use std::slice;
use writer::opening::{ask, make};
use writer::state::{Slip, Writer};
use writer::types::Refusal;

// Plays operations up to the one that closes the slip, or to the end and then closes it.
fn play_slip<'a>(mut slip: Slip<'a>, operations: &mut slice::Iter<'_, Operation<'_>>) -> Writer<'a>
    ensures shorter { length (iter_rest operations.new) ≤ length (iter_rest operations.old) }
    ensures book { book result.buffer.now (idle (known result.names) result.used) (iter_rest operations.new) ≡ book slip.entry.buffer.now (busy slip.entry.opened (known slip.entry.names) slip.entry.used) (iter_rest operations.old) }
    ensures tied { result.buffer.ghost_name ≡ slip.entry.buffer.ghost_name }
{
    // by next: after a `for` over by_ref (tried) a proof does not know where the lent iterator stands
    while let Some(operation) = operations.next() {
        match *operation {
            Operation::Write(statement) => {
                let _ = slip.write(statement);
            }
            Operation::Close => return slip.close(),
            Operation::Picture | Operation::Definition { .. } => {}
        }
    }
    slip.close()
}

// Plays any list of operations, and closes what is open at its end.
fn play_all<'a>(mut writer: Writer<'a>, operations: &[Operation<'_>]) -> Writer<'a>
    ensures book { book result.buffer.now (idle (known result.names) result.used) [] ≡ book writer.entry.buffer.now (idle (known writer.entry.names) writer.entry.used) operations.now }
    ensures tied { result.buffer.ghost_name ≡ writer.entry.buffer.ghost_name }
{
    let mut rest = operations.iter();
    while let Some(operation) = rest.next() {
        match *operation {
            Operation::Picture => {
                if writer.ask_picture().is_ok() {
                    writer = play_slip(writer.open_picture(), &mut rest);
                }
            }
            Operation::Definition { name, header } => {
                if writer.ask_definition(name, header).is_ok() {
                    let slip = writer.open_definition(name, header);
                    writer = play_slip(slip, &mut rest);
                }
            }
            Operation::Write(_) | Operation::Close => {}
        }
    }
    writer
}

// Plays operations on a new writer over a buffer that was asked for: one call from the memory to the writer at the end.
fn play_new<'a>(buffer: &'a mut [u8], operations: &[Operation<'_>]) -> Writer<'a>
    requires { make_answer (length buffer.old) ≡ Ok tt }
    ensures count { result.used ≡ length (spell_all (accepted (length buffer.old) operations.now)) }
    ensures bytes { result.buffer.now ≡ over_front (Ok result.used) (spell_all (accepted (length buffer.old) operations.now)) buffer.old }
    ensures back { ReadsBack (Ok result.used) result.buffer.now (accepted (length buffer.old) operations.now) }
    ensures tied { result.buffer.ghost_name ≡ buffer.entry.ghost_name }
{
    play_all(make(buffer), operations)
}

// Plays operations into a buffer that was asked for, and gives how many bytes are written.
fn play_asked(buffer: &mut [u8], operations: &[Operation<'_>]) -> usize
    requires { make_answer (length buffer.old) ≡ Ok tt }
    ensures count { result ≡ length (spell_all (accepted (length buffer.old) operations.now)) }
    ensures bytes { buffer.new ≡ over_front (Ok result) (spell_all (accepted (length buffer.old) operations.now)) buffer.old }
    ensures back { ReadsBack (Ok result) buffer.new (accepted (length buffer.old) operations.now) }
{
    let writer = play_new(buffer, operations);
    writer.used()
}

// Plays any list of operations on a new writer, closing what is open at its end, and gives how many bytes are written.
pub fn play(buffer: &mut [u8], operations: &[Operation<'_>]) -> Result<usize, Refusal>
    ensures answer { result ≡ play_answer (length buffer.old) operations.now }
    ensures bytes { buffer.new ≡ over_front result (spell_all (accepted (length buffer.old) operations.now)) buffer.old }
    ensures back { ReadsBack result buffer.new (accepted (length buffer.old) operations.now) }
{
    ask(buffer)?;
    Ok(play_asked(buffer, operations))
}
