// Statements read from their bytes.
#![tactic(auto)]

mod calling;
mod heading;
pub mod read;
mod tail;
