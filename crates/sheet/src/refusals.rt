// What a sheet refuses.
ghost use Rattle.std.specs.Prelude.{◌≡◌};
ghost use Rattle.sheet.specs.Refusals.{refusal_number, unfit_number};

// Why a sheet refuses a mark.
#[derive(Clone, Copy, Debug, PartialEq, Eq)]
pub enum Refusal {
    // The stock is used up.
    Full = 17,
}

// Why a sheet cannot be made.
#[derive(Clone, Copy, Debug, PartialEq, Eq)]
pub enum Unfit {
    // The side is not 8 to 2,048.
    Side = 18,
    // The memory is not as long as a sheet of that side asks.
    Memory = 19,
}

impl Refusal {
    // The refusal's number.
    pub fn number(self) -> u8
        ensures { result ≡ refusal_number self }
    {
        self as u8
    }
}

impl Unfit {
    // The number of what is unfit.
    pub fn number(self) -> u8
        ensures { result ≡ unfit_number self }
    {
        // Each variant's number is its discriminant.
        self as u8
    }
}
