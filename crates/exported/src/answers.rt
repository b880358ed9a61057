// What the exported calls answer.
ghost use Rattle.std.specs.Prelude.{◌≡◌};
ghost use Rattle.exported.specs.Answers.{drawn_as, life_number};

use job::Refusal;
use run::types::Life;

// What a call answers for which there is no memory: no number of a refusal; a number, since the C interface knows no Option.
pub(crate) const NO_MEMORY: u8 = 255;

// What a job comes to: the number of its refusal, or 0, and how many bytes were printed; the C interface knows no Result.
#[repr(C)]
#[derive(Clone, Copy, Debug, PartialEq, Eq)]
pub struct Drawn {
    pub printed: usize,
    pub refusal: u8,
}

impl From<Result<usize, Refusal>> for Drawn {
    ghost from_gives = { λ answer drawn. drawn ≡ drawn_as answer };

    // The answer of a job in numbers.
    fn from(answer: Result<usize, Refusal>) -> Drawn {
        match answer {
            Ok(printed) => Drawn {
                printed,
                refusal: 0,
            },
            Err(refusal) => Drawn {
                printed: 0,
                refusal: refusal.number(),
            },
        }
    }
}

// The number of the fault that a life tells, or 0; a number, since the C interface knows no Option.
pub(crate) fn life_number(life: Life) -> u8
    ensures { result ≡ life_number life }
{
    life.refusal().map_or(0, |refusal| refusal.fault.number())
}
