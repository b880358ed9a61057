// The laws of writing, as contracts.
ghost use Rattle.history.specs.Laws.{AcceptsLawful, AcceptsWithinLimits};

// What a writer accepts is lawful where it stands.
pub fn accepted_are_lawful()
    ensures { AcceptsLawful }
{}

// What a writer accepts keeps the limits on bodies and names, so no reader refuses it under 8.
pub fn accepted_keep_limits()
    ensures { AcceptsWithinLimits }
{}
