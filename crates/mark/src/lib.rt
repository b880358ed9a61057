// The marks that a sheet takes, and the pixels that each covers.
#![tactic(auto)]

ghost use Rattle.std.specs.Prelude.{◌≡◌};
ghost use Rattle.mark.specs.Covers.{inks_point};

use geometry::Point;

mod coverage;
mod laws;
mod letter;

pub use coverage::{line_inks, on_sheet};
pub use laws::coverage_stands;
pub use letter::Letter;

// Which of its points a line inks.
#[derive(Clone, Copy, Debug, PartialEq, Eq)]
pub enum LineMode {
    Solid,
    Dashed,
    Dotted,
}

// A mark, by its places on the field.
#[derive(Clone, Copy, Debug, PartialEq, Eq)]
pub enum Mark {
    Dot {
        at: Point,
    },
    Line {
        from: Point,
        to: Point,
        mode: LineMode,
    },
    Letter {
        at: Point,
        code: u8,
    },
}

impl LineMode {
    // Whether a line of this mode inks its point k.
    pub fn inks(self, k: u32) -> bool
        ensures { result ≡ inks_point self k }
    {
        match self {
            LineMode::Solid => true,
            LineMode::Dashed => k % 12 < 8,
            LineMode::Dotted => k % 4 == 0,
        }
    }
}
