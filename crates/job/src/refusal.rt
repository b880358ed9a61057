// Why a job is not printed.
ghost use Rattle.std.specs.Prelude.{◌≡◌};
ghost use Rattle.job.specs.Jobs.{job_number};
ghost use Rattle.job.specs.declared.refusal.Refusal.TheVariants as refusal;

// Why a job is not printed, by its number.
#[derive(Clone, Copy, Debug, PartialEq, Eq)]
pub enum Refusal {
    // it has under 2 or over 65,538 bytes
    Length = 22,
    // its side is not 8 to 512
    Side = 18,
    // the buffer has no room for what is printed
    TooShort = 21,
}

impl Refusal {
    // The number of the refusal.
    pub fn number(self) -> u8
        ensures { result ≡ job_number self }
    {
        self as u8
    }
}

impl From<printing::TooShort> for Refusal {
    ghost from_gives = { λ _ e. e ≡ refusal.TooShort };

    // The refusal of a job by the printer.
    fn from(_: printing::TooShort) -> Refusal {
        Refusal::TooShort
    }
}
