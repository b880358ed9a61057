// The records of a stroke table.
ghost use Rattle.std.specs.Prelude.{◌≡◌};
ghost use Rattle.strokes.specs.Strokes.{stroke_of, mark_of};

use geometry::Point;
use mark::{LineMode, Mark};

// Which mark a stroke keeps.
#[derive(Clone, Copy, Debug, PartialEq, Eq)]
pub enum Kind {
    Dot,
    Line,
    Letter,
}

// A mark as a plotter takes it: of a dot only `from` counts, of a letter `from` and `code`.
// A flat record, as a plotter wants each stroke at one length; no enum with the fields of each kind.
#[derive(Clone, Copy, Debug, PartialEq, Eq)]
pub struct Stroke {
    pub kind: Kind,
    pub from: Point,
    pub to: Point,
    pub mode: LineMode,
    pub code: u8,
}

// The stroke that keeps a mark, with every field set.
impl From<Mark> for Stroke {
    ghost from_gives = { λ mark stroke. stroke ≡ stroke_of mark };

    fn from(mark: Mark) -> Stroke {
        match mark {
            Mark::Dot { at } => Stroke {
                kind: Kind::Dot,
                from: at,
                to: at,
                mode: LineMode::Solid,
                code: 0,
            },
            Mark::Line { from, to, mode } => Stroke {
                kind: Kind::Line,
                from,
                to,
                mode,
                code: 0,
            },
            Mark::Letter { at, code } => Stroke {
                kind: Kind::Letter,
                from: at,
                to: at,
                mode: LineMode::Solid,
                code,
            },
        }
    }
}

// The mark that a stroke keeps.
impl From<Stroke> for Mark {
    ghost from_gives = { λ stroke mark. mark ≡ mark_of stroke };

    fn from(stroke: Stroke) -> Mark {
        match stroke.kind {
            Kind::Dot => Mark::Dot { at: stroke.from },
            Kind::Line => Mark::Line {
                from: stroke.from,
                to: stroke.to,
                mode: stroke.mode,
            },
            Kind::Letter => Mark::Letter {
                at: stroke.from,
                code: stroke.code,
            },
        }
    }
}
