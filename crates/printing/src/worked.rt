// Worked cases.
ghost use Rattle.printing.specs.Worked.{Worked};

// Carries what is printed of a line and a dot, and of a refusal.
pub fn print_sample()
    ensures { Worked }
{}
