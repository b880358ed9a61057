// Whole histories of a writer: what they write reads back as what was accepted.
#![tactic(auto)]

pub mod laws;
pub mod operation;
pub mod play;
