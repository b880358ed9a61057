// What may come where one stands, and where one stands after it.
ghost use Rattle.std.specs.Prelude.{◌≡◌};
ghost use Rattle.statement.specs.Statements.{allowed, onwards};
ghost use Rattle.statement.specs.Views.{said_by};

use crate::types::{Home, Standing, Statement};

impl Standing {
    // Whether a code may come here: 1 ERASE, 10 ENDPIC, 15 SUBHED, 16 SUBEND.
    // (A match on the standing with the code byte is a rule of the project.)
    pub fn admits(self, code: u8) -> bool
        ensures { result ≡ allowed self code }
    {
        match (self, code) {
            (Standing::Outside, 1 | 15) => true,
            (Standing::Outside, _) => false,
            (Standing::Picture, 1 | 16) => false,
            (Standing::Definition(_), 1 | 10 | 15) => false,
            (Standing::Picture | Standing::Definition(_), _) => true,
        }
    }

    // Where one stands after a statement that came here.
    pub fn after(self, statement: &Statement<'_>) -> Standing
        ensures { result ≡ onwards self (said_by statement.now) }
    {
        match (statement, self) {
            (Statement::Erase, _) => Standing::Picture,
            (Statement::Endpic, _) => Standing::Outside,
            (Statement::Subhed(..), Standing::Outside) => Standing::Definition(Home::Outside),
            (Statement::Subhed(..), Standing::Picture) => Standing::Definition(Home::Picture),
            (Statement::Subend, Standing::Definition(Home::Outside)) => Standing::Outside,
            (Statement::Subend, Standing::Definition(Home::Picture)) => Standing::Picture,
            (_, standing) => standing,
        }
    }
}
