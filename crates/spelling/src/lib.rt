// The one spelling of each statement: its code, its length, and why a statement has none.
#![tactic(auto)]

pub mod code;
pub mod extent;
pub mod faults;
pub mod laws;
pub mod parts;
pub mod refusal;
