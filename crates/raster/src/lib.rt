// A sheet that keeps its pixels in lent memory, a bit to a pixel.
#![tactic(auto)]

mod asking;
mod drawing;
mod page;

pub use asking::ask;
pub use drawing::draw_page;
pub use page::{BitSheet, make, page_bytes};
