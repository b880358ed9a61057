// A sheet: what it means, and what its calls do to that.
#![tactic(auto)]

ghost use Rattle.std.specs.Prelude.{◌≡◌, false};
ghost use Rattle.std.specs.Borrow.{GName};
ghost use Rattle.mark.specs.Covers.{on_sheet};
ghost use Rattle.sheet.specs.Meanings.{Meaning, answer, marked, cleared};

use geometry::Side;
use mark::Mark;

mod alike;
mod refusals;

pub use alike::{draw, draw_both, is_full, mark_both};
pub use refusals::{Refusal, Unfit};

// A page of pixels that takes marks.
pub trait Sheet {
    // What the sheet means.
    ghost meaning: { Self → Meaning };

    // The ghost name of the memory that the sheet was lent: no call changes it, so the lender knows in the end what its memory holds.
    ghost tied: { Self → GName };

    // The side, which never changes.
    fn side(&self) -> Side
        ensures { result.pixels ≡ (meaning self.now).side };

    // How many marks the sheet still takes, or None where there is no end.
    fn stock(&self) -> Option<u32>
        ensures { result ≡ (meaning self.now).stock };

    // Whether a pixel is inked; one off the sheet never is.
    fn inked(&self, pixel: (i32, i32)) -> bool
        ensures value { result ≡ (meaning self.now).inked pixel }
        ensures off { on_sheet (meaning self.now).side pixel ≡ false → result ≡ false };

    // Takes every mark off, and makes the stock full.
    fn clear(&mut self)
        ensures after { meaning self.new ≡ cleared (meaning self.old) }
        ensures tied { tied self.new ≡ tied self.old };

    // Puts a mark, or refuses it and stays as it is.
    fn mark(&mut self, mark: Mark) -> Result<(), Refusal>
        ensures answer { result ≡ answer (meaning self.old) }
        ensures after { meaning self.new ≡ marked (meaning self.old) mark }
        ensures tied { tied self.new ≡ tied self.old };
}
