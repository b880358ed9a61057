// How faults and refusals are made, and which refusal a life tells.
ghost use Rattle.std.specs.Prelude.{◌≡◌};
ghost use Rattle.run.specs.Runs.{refusal_at, refusal_of};
ghost use Rattle.run.specs.declared.types.Fault.{Fault};
ghost use Rattle.run.specs.declared.types.Fault.TheVariants.{SheetFull};

use crate::types::{Fault, Life, Refusal, Spot};

impl From<statement::types::Fault> for Fault {
    ghost from_gives = { λ f e. e ≡ Fault.Read f };

    // The fault of bytes that are refused.
    fn from(fault: statement::types::Fault) -> Fault {
        Fault::Read(fault)
    }
}

impl From<sheet::Refusal> for Fault {
    ghost from_gives = { λ _ e. e ≡ SheetFull };

    // The fault of a mark that a sheet refuses.
    fn from(_: sheet::Refusal) -> Fault {
        Fault::SheetFull
    }
}

impl Spot {
    // The spot of the stream's own statements, which stand outside calls.
    pub const OUTSIDE: Spot = Spot {
        calls: 0,
        offset: 0,
    };
}

impl Refusal {
    // A refusal outside calls, at a place of the stream.
    pub fn at(fault: Fault, place: usize) -> Refusal
        ensures { result ≡ refusal_at fault place }
    {
        Refusal {
            fault,
            place,
            spot: Spot::OUTSIDE,
        }
    }
}

impl Life {
    // The refusal of a run that was refused.
    pub fn refusal(self) -> Option<Refusal>
        ensures { result ≡ refusal_of self }
    {
        match self {
            Life::Live | Life::Closed => None,
            Life::Refused(refusal) => Some(refusal),
        }
    }
}
