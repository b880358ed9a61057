// A sheet's side, and the points of the field.
ghost use Rattle.std.specs.Prelude.{◌≡◌, ◌<◌, ◌≤◌, ◌⊎◌, MatchOption};

// How many pixels a sheet has across, and down: 8 to 2,048.
#[derive(Clone, Copy, Debug, PartialEq, Eq)]
pub struct Side {
    pixels: u16,
    ghost least: { 8 ≤ pixels },
    ghost most: { pixels ≤ 2048 },
}

impl Side {
    // The side of so many pixels, if there is one.
    pub fn new(pixels: u16) -> Option<Side>
        ensures { MatchOption result ((pixels < 8) ⊎ (2048 < pixels)) (λ s. s.pixels ≡ pixels) }
    {
        if (8..=2048).contains(&pixels) {
            Some(Side { pixels })
        } else {
            None
        }
    }

    // How many pixels the side has.
    pub fn pixels(self) -> u16
        ensures { result ≡ self.pixels }
    {
        self.pixels
    }
}

// A point of the field; y goes up.
#[derive(Clone, Copy, Debug, Default, PartialEq, Eq)]
pub struct Point {
    pub x: i16,
    pub y: i16,
}
