// A specimen of what a sheet takes: all letters, frames in each line mode and dots; and a page's rows as text.
#![tactic(auto)]

mod drawing;
mod rows;

pub use drawing::draw_specimen;
pub use rows::{first_row, inked_pixels, past_rows, row_text};
