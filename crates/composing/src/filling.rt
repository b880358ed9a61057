// Composing with a picture or a definition open.
ghost use Rattle.std.specs.Prelude.{◌≡◌, ◌≤◌, length, None};
ghost use Rattle.std.specs.Result.{result_err};
ghost use Rattle.statement.specs.Views.{said_by};
ghost use Rattle.writer.specs.Names.{known};
ghost use Rattle.history.specs.Tales.{idle, busy};
ghost use Rattle.composing.specs.Lines.{lines_of};
ghost use Rattle.composing.specs.Composed.{closes, on_ledger, closing_ledger};

use crate::outcome::Outcome;
use crate::script::{Script, read};
use crate::types::Failure;
use statement::types::Statement;
use writer::state::Slip;
use writer::types::Opened;

// Whether a statement closes what is open.
fn closes(opened: Opened, statement: &Statement<'_>) -> bool
    ensures { result ≡ closes opened (said_by statement.now) }
{
    match *statement {
        Statement::Endpic => matches!(opened, Opened::Picture),
        Statement::Subend => matches!(opened, Opened::Definition(_)),
        _ => false,
    }
}

// Writes statements on a slip, up to the one that is to close it.
fn write_all(slip: &mut Slip<'_>, script: &mut Script<'_>) -> Result<(), Failure>
    ensures shorter { length script.new.rest.now ≤ length script.old.rest.now }
    ensures ledger { closing_ledger (result_err result) slip.new.buffer.now slip.new.opened (known slip.new.names) slip.new.used script.new.line (lines_of script.new.rest.now) ≡ on_ledger None slip.old.buffer.now (busy slip.old.opened (known slip.old.names) slip.old.used) script.old.line (lines_of script.old.rest.now) }
    ensures tied { slip.new.buffer.ghost_name ≡ slip.old.buffer.ghost_name }
{
    while let Some(words) = script.next_words() {
        let line = script.line;
        let statement = read(words, line, script.scratch)?;
        if closes(slip.opened(), &statement) {
            return Ok(());
        }
        slip.write(statement)
            .map_err(|refusal| Failure::Refused { refusal, line })?;
    }
    Err(Failure::Unfinished { line: script.line })
}

// Writes statements on a slip and closes it, by the one that closes it, or where one fails or all are read.
pub(crate) fn fill<'a>(mut slip: Slip<'a>, script: &mut Script<'_>) -> Outcome<'a>
    ensures shorter { length script.new.rest.now ≤ length script.old.rest.now }
    ensures ledger { on_ledger (result_err result.result) result.writer.buffer.now (idle (known result.writer.names) result.writer.used) script.new.line (lines_of script.new.rest.now) ≡ on_ledger None slip.entry.buffer.now (busy slip.entry.opened (known slip.entry.names) slip.entry.used) script.old.line (lines_of script.old.rest.now) }
    ensures tied { result.writer.buffer.ghost_name ≡ slip.entry.buffer.ghost_name }
{
    let result = write_all(&mut slip, script);
    Outcome {
        writer: slip.close(),
        result,
    }
}
