// Streams made from their descriptions in words.
#![tactic(auto)]

pub mod compose;
mod filling;
mod lines;
mod opening;
mod outcome;
pub mod report;
mod script;
pub mod types;
