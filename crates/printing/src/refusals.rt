// What the printer refuses.
ghost use Rattle.std.specs.Prelude.{◌≡◌};

const NUMBER: u8 = 21;

// A buffer has too little room for what is printed.
#[derive(Clone, Copy, Debug, PartialEq, Eq)]
pub struct TooShort;

impl TooShort {
    // The refusal's number.
    pub fn number(self) -> u8
        ensures { result ≡ 21 }
    {
        NUMBER
    }
}
