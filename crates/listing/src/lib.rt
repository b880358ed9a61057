// Streams as lines of text.
#![tactic(auto)]

mod line;
pub mod listing;
pub mod quote;
mod words;
