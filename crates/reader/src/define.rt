// Definitions: begun, recorded and ended.
ghost use Rattle.std.specs.Prelude.{◌≡◌, ℕ, ◌≤◌, List, ◌++◌, length, Ok};
ghost use Rattle.sheet.specs.Meanings.{Meaning};
ghost use Rattle.statement.specs.declared.types.Standing.TheVariants.{Definition as InDefinition};
ghost use Rattle.run.specs.declared.types.Life.TheVariants.{Live};
ghost use Rattle.statement.specs.declared.types.Home.{Home};
ghost use Rattle.run.specs.Runs.{opening, recording, closing, keeps};
ghost use Rattle.calls.specs.Tables.{entry_of};
ghost use Rattle.reader.specs.Views.{drawing_of, turn_of};

use crate::state::State;
use calls::types::Name;
use run::types::{Fault, Refusal};
use statement::types::{Header, Home, Standing, Statement};

impl State {
    // Begins a definition, if the table has room for its name.
    pub(crate) fn begin_definition(
        &mut self,
        home: Home,
        name: &[u8],
        header: Header,
        at: usize,
    ) -> Result<(), Refusal>
        requires { length name.now ≤ 8 }
        ensures { (m : Meaning) (h : List ℕ) → turn_of result self.new m ≡ keeps (opening home name.now header at (drawing_of Live h self.old m)) self.old.work.count }
    {
        if self.table.is_full(name) {
            return Err(Refusal::at(Fault::NoRoom, at));
        }
        self.draft.restart(Name::new(name).unwrap(), header);
        self.standing = Standing::Definition(home);
        Ok(())
    }

    // Records a statement, if the body has room for its bytes.
    pub(crate) fn record_statement(&mut self, bytes: &[u8], at: usize) -> Result<(), Refusal>
        ensures { (m : Meaning) (h : List ℕ) (home : Home) → self.old.standing ≡ InDefinition home → turn_of result self.new m ≡ keeps (recording home (entry_of self.old.draft).name self.old.draft.header ((entry_of self.old.draft).body ++ bytes.now) at (drawing_of Live h self.old m)) self.old.work.count }
    {
        match self.draft.record(bytes) {
            Ok(()) => Ok(()),
            Err(fault) => Err(Refusal::at(fault, at)),
        }
    }

    // Ends a definition: its name has the new header and body.
    pub(crate) fn end_definition(&mut self)
        ensures { (m : Meaning) (h : List ℕ) (home : Home) → self.old.standing ≡ InDefinition home → turn_of (Ok tt) self.new m ≡ keeps (closing home (entry_of self.old.draft).name self.old.draft.header (entry_of self.old.draft).body (drawing_of Live h self.old m)) self.old.work.count }
    {
        self.table.store(&self.draft);
        self.standing = self.standing.after(&Statement::Subend);
    }
}
