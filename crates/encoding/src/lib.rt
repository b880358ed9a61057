// Statements spelt, by themselves or into a buffer.
#![tactic(auto)]

mod put;
pub mod spell;
mod tail;
