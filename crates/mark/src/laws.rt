// What coverage keeps to.
ghost use Rattle.mark.specs.Rules.{Rules};

// Carries the rules of coverage.
pub fn coverage_stands()
    ensures { Rules }
{}
