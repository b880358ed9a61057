// The reader for callers of plain Rust or C: jobs and pages drawn in one call, however the stream is cut.
#![tactic(auto)]

mod answers;
mod job_call;
mod page_call;

pub use answers::Drawn;
pub use job_call::wiefturn_draw_job;
pub use page_call::wiefturn_draw_page;
