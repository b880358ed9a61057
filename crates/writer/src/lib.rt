// Streams written into lent memory: what the writer accepts, the reader reads as the same statements.
#![tactic(auto)]

mod faults;
mod names;
pub mod opening;
pub mod refusal;
pub mod sample;
pub mod state;
pub mod types;
pub mod writing;
