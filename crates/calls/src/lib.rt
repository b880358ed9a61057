// Calls: the table of definitions, and performing statements with their calls.
#![tactic(auto)]

mod definition;
mod limits;
mod names;
mod nesting;
mod perform;
mod steps;
mod table;
pub mod types;

pub use perform::perform_top;
