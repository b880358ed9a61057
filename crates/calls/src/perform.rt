// Performing statements, calls and their bodies included.
ghost use Rattle.std.specs.Prelude.{◌≡◌, [], length};
ghost use Rattle.statement.specs.Views.{said_by};
ghost use Rattle.run.specs.Performing.{perform as performed, play};
ghost use Rattle.pen.specs.Views.{ink_of};
ghost use Rattle.calls.specs.Outcomes.{leaves, perform_said};
ghost use Rattle.calls.specs.Tables.{open_of, calls_left, entries_of};

use crate::nesting::OpenNames;
use crate::steps::{admit, arrive, enter};
use crate::types::{Failure, Table, Work};
use parsing::read::read;
use sheet::Sheet;
use statement::types::{Home, Standing, Statement, Stop};

// Performs a statement at an offset of the innermost body, where these calls are open.
// The table, the calls, the work and the sheet stay parameters: what a struct borrows mutably, each clause would name by ghost names.
#[cycle(perform_perform_body)]
fn perform<'t, S: Sheet>(
    table: &'t Table,
    calls: &OpenNames<'t>,
    offset: usize,
    work: &mut Work,
    sheet: &mut S,
    statement: &Statement<'_>,
) -> Result<(), Failure>
    ensures after { leaves result work.new (S.meaning sheet.new) ≡ perform_said (calls_left calls.now) (entries_of table.now) (open_of calls.now) offset (said_by statement.now) (ink_of work.old.pen (S.meaning sheet.old)) work.old.count }
    ensures tied { S.tied sheet.new ≡ S.tied sheet.old }
{
    let spot = calls.spot(offset);
    let failed = |fault| Failure { fault, spot };
    admit(statement, work.count).map_err(failed)?;
    work.count += 1;
    let Statement::Insts(name, tail) = statement else {
        return work.pen.perform_plain(sheet, statement).map_err(failed);
    };
    arrive(&mut work.pen, tail);
    // A form that the project fixes: a name with no entry leaves the beam at the AT point.
    let Some(at) = table.find(name.bytes) else {
        return Ok(());
    };
    let entry = table.entry(at);
    enter(entry, calls, name.bytes).map_err(failed)?;
    perform_body(
        table,
        &calls.with(entry.name.letters()),
        work,
        sheet,
        entry.recorded(),
    )
}

// Performs a body, where its own call is the last of these that are open.
#[cycle(perform_perform_body)]
fn perform_body<'t, S: Sheet>(
    table: &'t Table,
    calls: &OpenNames<'t>,
    work: &mut Work,
    sheet: &mut S,
    body: &[u8],
) -> Result<(), Failure>
    ensures after { leaves result work.new (S.meaning sheet.new) ≡ play (performed (calls_left calls.now) (entries_of table.now) (open_of calls.now)) (length (open_of calls.now)) body.now 0 [] (ink_of work.old.pen (S.meaning sheet.old)) work.old.count }
    ensures tied { S.tied sheet.new ≡ S.tied sheet.old }
{
    let mut start = 0;
    // Kept an index: bytes are read one by one, and a refusal tells the offset where its statement began.
    for end in 1..=body.len() {
        match read(Standing::Definition(Home::Outside), &body[start..end]) {
            Err(Stop::Wanting) => {}
            Err(Stop::Wrong(unread)) => {
                let fault = unread.into();
                let spot = calls.spot(start);
                return Err(Failure { fault, spot });
            }
            Ok(statement) => {
                perform(table, calls, start, work, sheet, &statement)?;
                start = end;
            }
        }
    }
    Ok(())
}

// Performs a statement of the stream itself.
pub fn perform_top<S: Sheet>(
    table: &Table,
    work: &mut Work,
    sheet: &mut S,
    statement: &Statement<'_>,
) -> Result<(), Failure>
    ensures after { leaves result work.new (S.meaning sheet.new) ≡ perform_said 8 (entries_of table.now) [] 0 (said_by statement.now) (ink_of work.old.pen (S.meaning sheet.old)) work.old.count }
    ensures tied { S.tied sheet.new ≡ S.tied sheet.old }
{
    perform(table, &OpenNames::none(), 0, work, sheet, statement)
}
