// The laws over whole runs: each function's contract is a law, and it does nothing.
ghost use Rattle.run.specs.Cuttings.{Cuts, CutsAlike};
ghost use Rattle.run.specs.Restated.{RestatesAlike};
ghost use Rattle.run.specs.Worked.{Worked};

// However a stream is cut into calls, it comes to the same.
pub fn cuttings_agree()
    ensures cuts { Cuts }
    ensures alike { CutsAlike }
{}

// A relative statement may be restated as the absolute one of the same point.
pub fn restating_changes_nothing()
    ensures { RestatesAlike }
{}

// What some streams come to, worked out.
pub fn worked_cases()
    ensures { Worked }
{}
