// What whole statements change.
ghost use Rattle.std.specs.Prelude.{◌≡◌, true};
ghost use Rattle.calls.specs.Tables.{letters_of, entries_of};
ghost use Rattle.reader.specs.Stances.{has_room};

use calls::types::{Definition, Table, Work};
use statement::types::Standing;

// Where the reader stands, the finished pictures, what performing changes, the entries, and the definition that is being recorded.
#[derive(Drop)]
pub(crate) struct State {
    pub(crate) standing: Standing,
    pub(crate) pictures: usize,
    pub(crate) work: Work,
    pub(crate) table: Table,
    pub(crate) draft: Definition,
    ghost roomy: { has_room standing (letters_of draft.name) (entries_of table) ≡ true },
}
