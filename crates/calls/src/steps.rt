// The steps of performing a statement.
ghost use Rattle.std.specs.Prelude.{◌≡◌};
ghost use Rattle.std.specs.Result.{result_err};
ghost use Rattle.sheet.specs.Meanings.{Meaning};
ghost use Rattle.statement.specs.Views.{said_by, tail_said};
ghost use Rattle.run.specs.Performing.{arrive as arrived, is_simple};
ghost use Rattle.pen.specs.Views.{ink_of};
ghost use Rattle.calls.specs.Outcomes.{is_act, bar, hindrance};
ghost use Rattle.calls.specs.Tables.{entry_of, open_of};

use crate::limits::MOST_STATEMENTS;
use crate::nesting::OpenNames;
use crate::types::Definition;
use geometry::Point;
use pen::types::Pen;
use run::types::Fault;
use statement::types::{Fault as Unread, Header, Statement, Tail};

// Whether a statement is performed in a picture and recorded in a definition.
fn is_act(statement: &Statement<'_>) -> bool
    ensures { result ≡ is_act (said_by statement.now) }
{
    !matches!(
        statement,
        Statement::Erase | Statement::Endpic | Statement::Subhed(..) | Statement::Subend
    )
}

// Looks whether a statement may be performed, where so many of the picture were.
pub(crate) fn admit(statement: &Statement<'_>, count: usize) -> Result<(), Fault>
    ensures { result_err result ≡ bar (said_by statement.now) count }
{
    if !is_act(statement) {
        return Err(Fault::Read(Unread::Misplaced));
    }
    if count >= MOST_STATEMENTS {
        return Err(Fault::TooMany);
    }
    Ok(())
}

// Moves the beam to the AT point of a call, if it has one.
pub(crate) fn arrive(pen: &mut Pen, tail: &Tail<'_>)
    ensures { (m : Meaning) → ink_of pen.new m ≡ arrived (tail_said tail.now) (ink_of pen.old m) }
{
    if let Tail::Coded {
        at: Some((x, y)),
        ..
    } = *tail
    {
        pen.beam = Point { x, y };
    }
}

// Whether a definition is for simple calls.
fn is_simple(header: Header) -> bool
    ensures { result ≡ is_simple header }
{
    matches!(header, Header::Simple | Header::Both)
}

// Looks whether an entry may be called by its name now.
pub(crate) fn enter(entry: &Definition, calls: &OpenNames<'_>, name: &[u8]) -> Result<(), Fault>
    ensures { result_err result ≡ hindrance (entry_of entry.now) name.now (open_of calls.now) }
{
    if !is_simple(entry.header) {
        return Err(Fault::NotCallable);
    }
    if calls.has(name) {
        return Err(Fault::AlreadyOpen);
    }
    if calls.is_deepest() {
        return Err(Fault::TooDeep);
    }
    Ok(())
}
