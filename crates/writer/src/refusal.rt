// The number of each refusal, and the refusal of a faulty statement.
ghost use Rattle.std.specs.Prelude.{◌≡◌};
ghost use Rattle.writer.specs.Answers.{refusal_number};
ghost use Rattle.writer.specs.declared.types.Refusal.TheVariants.{Statement};

use crate::types::Refusal;
use statement::types::Fault;

impl Refusal {
    // The number under which something is refused.
    pub fn number(self) -> u8
        ensures { result ≡ refusal_number self }
    {
        match self {
            Refusal::Statement(fault) => fault.number(),
            Refusal::NoRoom => 8,
            Refusal::Memory => 19,
            Refusal::Buffer => 21,
        }
    }
}

impl From<Fault> for Refusal {
    ghost from_gives = { λ fault refusal. refusal ≡ Statement fault };

    fn from(fault: Fault) -> Refusal {
        Refusal::Statement(fault)
    }
}
