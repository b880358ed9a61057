// Whole statements: each is performed, recorded or refused by where the reader stands.
ghost use Rattle.std.specs.Prelude.{◌≡◌, ℕ, ◌^◌, ◌<◌, List, []};
ghost use Rattle.statement.specs.Views.{said_by};
ghost use Rattle.run.specs.declared.types.Life.TheVariants.{Live};
ghost use Rattle.run.specs.Runs.{refusal_at, performed, taken};
ghost use Rattle.run.specs.declared.types.Fault.TheVariants as Fault;
ghost use Rattle.statement.specs.declared.types.Fault.TheVariants.{Misplaced};
ghost use Rattle.pen.specs.Views.{ink_of};
ghost use Rattle.calls.specs.Tables.{entries_of};
ghost use Rattle.calls.specs.Outcomes.{perform_said};
ghost use Rattle.reader.specs.Held.{NameFits};
ghost use Rattle.reader.specs.Views.{stance_in, drawing_of, turn_of};

use crate::state::State;
use calls::perform_top;
use run::types::Refusal;
use sheet::Sheet;
use statement::types::{Fault as Unread, Home, Standing, Statement};

// The refusal of a statement that may not come here.
fn misplaced(at: usize) -> Refusal
    ensures { result ≡ refusal_at (Fault.Read Misplaced) at }
{
    Refusal::at(Unread::Misplaced.into(), at)
}

impl State {
    // Performs a statement of the stream, with its calls.
    // A match and no `map_err`, tried: it moves a failure's bytes where there is none, for each statement.
    fn perform<S: Sheet>(
        &mut self,
        sheet: &mut S,
        statement: &Statement<'_>,
        at: usize,
    ) -> Result<(), Refusal>
        ensures after { (h : List ℕ) → turn_of result self.new (S.meaning sheet.new) ≡ performed at (drawing_of Live h self.old (S.meaning sheet.old)) (perform_said 8 (entries_of self.old.table) [] 0 (said_by statement.now) (ink_of self.old.work.pen (S.meaning sheet.old)) self.old.work.count) }
        ensures tied { S.tied sheet.new ≡ S.tied sheet.old }
    {
        match perform_top(&self.table, &mut self.work, sheet, statement) {
            Ok(()) => Ok(()),
            Err(failure) => Err(Refusal {
                fault: failure.fault,
                place: at,
                spot: failure.spot,
            }),
        }
    }

    // Obeys a whole statement of these bytes, whose code stands at that place.
    pub(crate) fn obey<S: Sheet>(
        &mut self,
        sheet: &mut S,
        statement: Statement<'_>,
        bytes: &[u8],
        at: usize,
    ) -> Result<(), Refusal>
        requires named { NameFits (said_by statement) }
        // That the pictures can be counted stays a clause: they stand in State, and the bytes read that bound them in Reader.
        requires counted { self.old.pictures < 2 ^ 32 }
        ensures after { (h : List ℕ) → turn_of result self.new (S.meaning sheet.new) ≡ taken (stance_in self.old) (said_by statement.entry) bytes.now at (drawing_of Live h self.old (S.meaning sheet.old)) self.old.work.count }
        ensures tied { S.tied sheet.new ≡ S.tied sheet.old }
    {
        // A form that the project fixes: a match on the standing with the statement, state changed in place.
        match (self.standing, statement) {
            (Standing::Outside, Statement::Erase) => {
                self.work.pen.erase(sheet);
                self.work.count = 0;
                self.standing = Standing::Picture;
                Ok(())
            }
            (Standing::Outside, Statement::Subhed(name, header)) => {
                self.begin_definition(Home::Outside, name.bytes, header, at)
            }
            (Standing::Outside, _) => Err(misplaced(at)),
            (Standing::Picture, Statement::Endpic) => {
                self.pictures += 1;
                self.standing = Standing::Outside;
                Ok(())
            }
            (Standing::Picture, Statement::Subhed(name, header)) => {
                self.begin_definition(Home::Picture, name.bytes, header, at)
            }
            (Standing::Picture, Statement::Erase | Statement::Subend) => Err(misplaced(at)),
            (Standing::Picture, _) => self.perform(sheet, &statement, at),
            (Standing::Definition(_), Statement::Subend) => {
                self.end_definition();
                Ok(())
            }
            (
                Standing::Definition(_),
                Statement::Erase | Statement::Endpic | Statement::Subhed(..),
            ) => Err(misplaced(at)),
            (Standing::Definition(_), _) => self.record_statement(bytes, at),
        }
    }
}
