// Where the points of the field lie on a sheet, and which points a line has there.
#![tactic(auto)]

mod field;
mod laws;
mod lines;
mod places;

pub use field::{Point, Side};
pub use laws::geometry_stands;
pub use lines::Line;
pub use places::{pixel, pixel_of};
