// Why a statement is not spelt.
ghost use Rattle.std.specs.Prelude.{◌≡◌};
ghost use Rattle.spelling.specs.declared.refusal.Unspelt.TheVariants as unspelt;
ghost use Rattle.spelling.specs.Answers.{unspelt_number};

use statement::types::Fault;

// Why a statement is not spelt into a buffer.
#[derive(Clone, Copy, Debug, PartialEq, Eq)]
pub enum Unspelt {
    // the statement is not lawful
    Fault(Fault),
    // the buffer is too short
    Room,
}

impl From<Fault> for Unspelt {
    ghost from_gives = { λ fault refusal. refusal ≡ unspelt.Fault fault };

    fn from(fault: Fault) -> Self {
        Self::Fault(fault)
    }
}

impl Unspelt {
    // The number under which the statement is refused.
    pub fn number(self) -> u8
        ensures { result ≡ unspelt_number self }
    {
        match self {
            Unspelt::Fault(fault) => fault.number(),
            Unspelt::Room => 21,
        }
    }
}
