// The laws of spelling and reading, as contracts.
ghost use Rattle.spelling.specs.Laws.{Spelt, SpeltOnce};

// The spelling of a lawful statement reads as that statement, and no front of it as whole or refused.
pub fn spellings_read()
    ensures { Spelt }
{}

// Whatever bytes read as a statement are its one spelling.
pub fn spelling_is_one()
    ensures { SpeltOnce }
{}
