// What a stream means: its run on a sheet, and the laws over whole runs.
#![tactic(auto)]

pub mod laws;
pub mod numbers;
mod refusing;
pub mod types;
pub mod written;
