// Lines of text as statements.
#![tactic(auto)]

mod argument;
pub mod laws;
mod line;
mod name;
mod number;
mod quote;
mod split;
mod tail;
mod words;

pub use words::read_words;
