// The reader: what it keeps between two bytes.
ghost use Rattle.std.specs.Prelude.{◌≡◌, ◌≤◌, true, length};
ghost use Rattle.statement.specs.Reading.{reading};
ghost use Rattle.reader.specs.Held.{bytes_held, is_more};

use crate::state::State;
use crate::waiting::Held;
use run::types::Life;

mod ask;
mod feed;
mod finish;
mod make;
mod take;

// A reader: the bytes of the statement that has begun, how many bytes were read, whether it goes on, and what statements change.
#[derive(Drop)]
pub struct Reader {
    held: Held,
    read: usize,
    life: Life,
    state: State,
    ghost begun: { is_more (reading state.standing (bytes_held held)) ≡ true },
    ghost placed: { length (bytes_held held) ≤ read },
    ghost limited: { read ≤ 16777216 },
    ghost ended: { state.pictures ≤ read },
}
