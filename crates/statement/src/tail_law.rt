// What the tail of a call must keep.
ghost use Rattle.std.specs.Prelude.{◌≡◌};
ghost use Rattle.statement.specs.Reading.{lawful_tail, named_tail};
ghost use Rattle.statement.specs.Views.{tail_said};

use crate::coordinate::are_lawful;
use crate::layout::Aim;
use crate::letters::are_name_codes;
use crate::types::Tail;

impl Tail<'_> {
    // Whether the AT point of a tail, if any, is lawful.
    pub fn has_lawful_point(self) -> bool
        ensures { result ≡ lawful_tail (tail_said self.entry) }
    {
        match self {
            Tail::Coded {
                at: Some((x, y)),
                ..
            } => are_lawful(Aim::Absolute, x, y),
            _ => true,
        }
    }

    // Whether the AS name of a tail, if any, has only letters and digits.
    pub fn has_lawful_name(self) -> bool
        ensures { result ≡ named_tail (tail_said self.entry) }
    {
        match self {
            Tail::Coded {
                as_name: Some(name),
                ..
            } => are_name_codes(name.bytes),
            _ => true,
        }
    }
}
