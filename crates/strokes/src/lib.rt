// A sheet that keeps its marks as strokes in lent memory.
#![tactic(auto)]

mod asking;
mod first;
mod records;
mod table;

pub use asking::ask;
pub use first::first_mark;
pub use records::{Kind, Stroke};
pub use table::{StrokeTable, make};

#[cfg(test)]
mod tests;
