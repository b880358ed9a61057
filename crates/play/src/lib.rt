// Whole lists of calls played on a new reader and a sheet, or on two.
#![tactic(auto)]

mod answer;
mod both;
mod cutting;
mod list;
mod single;

pub use answer::play_with;
pub use both::{play_both, play_both_with};
pub use cutting::{play_cut, play_even};
pub use list::Call;
pub use single::play;
