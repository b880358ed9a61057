// What a reader answers.
ghost use Rattle.std.specs.Prelude.{◌≡◌};
ghost use Rattle.reader.specs.Answers.{refused_number};

use run::types::Refusal;

// Why a call of a reader is refused.
#[derive(Clone, Copy, Debug, PartialEq, Eq)]
pub enum Refused {
    // the stream was refused, by this call or an earlier one
    Stream(Refusal),
    // the reader is closed
    Closed,
}

impl Refused {
    // The number of the stream's fault, or 20 for a closed reader.
    pub fn number(self) -> u8
        ensures { result ≡ refused_number self }
    {
        match self {
            Refused::Stream(refusal) => refusal.fault.number(),
            Refused::Closed => 20,
        }
    }
}
