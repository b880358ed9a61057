// A new reader.
ghost use Rattle.std.specs.Prelude.{◌≡◌, [], IfOk};
ghost use Rattle.sheet.specs.Meanings.{Meaning};
ghost use Rattle.run.specs.Runs.{begun};
ghost use Rattle.calls.specs.Tables.{entries_of};
ghost use Rattle.reader.specs.Views.{config_of};

use crate::reader::Reader;
use crate::state::State;
use crate::waiting::Held;
use calls::types::{Definition, Table, Work};
use pen::types::Pen;
use run::types::Life;
use statement::types::Standing;
use std::alloc::{AllocError, Global};

// A new reader over an empty table.
fn over(table: Table) -> Reader
    requires { entries_of table ≡ [] }
    ensures { (m : Meaning) → config_of result m ≡ begun m }
{
    Reader {
        held: Held::none(),
        read: 0,
        life: Life::Live,
        state: State {
            standing: Standing::Outside,
            pictures: 0,
            work: Work {
                pen: Pen::new(),
                count: 0,
            },
            table,
            draft: Definition::default(),
        },
    }
}

impl Reader {
    // A new reader, with all the memory that it will ever want.
    pub fn new(heap: Global) -> Result<Reader, AllocError>
        ensures { IfOk result (λ reader. (m : Meaning) → config_of reader m ≡ begun m) }
    {
        let table = Table::new(heap)?;
        Ok(over(table))
    }
}
