// The text of a drawn page and of the report on it, written into a lent buffer.
#![tactic(auto)]

mod line;
mod page;
mod printer;
mod refusals;
mod worked;

pub use printer::{print, room};
pub use refusals::TooShort;
pub use worked::print_sample;
