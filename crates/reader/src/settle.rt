// What the bytes of a statement so far come to.
ghost use Rattle.std.specs.Prelude.{◌≡◌, ℕ, ◌^◌, ◌<◌, List};
ghost use Rattle.statement.specs.Reading.{reading};
ghost use Rattle.run.specs.declared.types.Life.TheVariants.{Live};
ghost use Rattle.run.specs.Runs.{heeding};
ghost use Rattle.reader.specs.Held.{is_more};
ghost use Rattle.reader.specs.Views.{drawing_of, settled_as, Waiting};

use crate::state::State;
use parsing::read::read;
use run::types::Refusal;
use sheet::Sheet;
use statement::types::Stop;

// What the bytes so far came to, where they are not refused.
#[derive(Clone, Copy, Debug, PartialEq, Eq)]
pub(crate) enum Settled {
    // more bytes are wanted
    More,
    // the statement was obeyed
    Done,
}

impl State {
    // Takes the bytes of a statement so far: it waits for more, or obeys the statement.
    pub(crate) fn settle<S: Sheet>(
        &mut self,
        sheet: &mut S,
        bytes: &[u8],
        at: usize,
    ) -> Result<Settled, Refusal>
        // A clause here too, as in obey.
        requires { self.old.pictures < 2 ^ 32 }
        ensures after { (h : List ℕ) → settled_as result bytes.now self.new (S.meaning sheet.new) ≡ heeding bytes.now (reading self.old.standing bytes.now) at (drawing_of Live h self.old (S.meaning sheet.old)) self.old.work.count }
        ensures waits { Waiting result (is_more (reading self.new.standing bytes.now)) }
        ensures tied { S.tied sheet.new ≡ S.tied sheet.old }
    {
        match read(self.standing, bytes) {
            Ok(statement) => match self.obey(sheet, statement, bytes, at) {
                Ok(()) => Ok(Settled::Done),
                Err(refusal) => Err(refusal),
            },
            Err(Stop::Wanting) => Ok(Settled::More),
            Err(Stop::Wrong(fault)) => Err(Refusal::at(fault.into(), at)),
        }
    }
}
