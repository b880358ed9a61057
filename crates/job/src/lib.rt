// Jobs for the queue: a side and a stream, drawn on a bit sheet and printed.
#![tactic(auto)]

mod admit;
mod draw;
mod job;
mod refusal;

pub use draw::{draw_job, draw_job_cut};
pub use refusal::Refusal;
