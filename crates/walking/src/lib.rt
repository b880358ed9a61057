// A stream read back statement by statement, and its statements told with their places.
#![tactic(auto)]

pub mod laws;
pub mod story;
pub mod walk;
pub mod walker;
