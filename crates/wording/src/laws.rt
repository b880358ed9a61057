// The laws of words and statements, as contracts.
ghost use Rattle.wording.specs.Laws.{WordsOnly, WordsRead, LawfulRead, LawfulApart};

// A line reads as a statement only if it is the words of that statement.
#[tactic(auto, using(crate::proofs::Sound::words_only))]
pub fn lines_are_words()
    ensures { WordsOnly }
{}

// The words of a statement read as that statement, lawful or not, if it can be said in bytes and its name has no space.
#[tactic(auto, using(crate::proofs::Whole::words_read))]
pub fn words_are_read()
    ensures { WordsRead }
{}

// The words of a lawful statement read as that statement.
#[tactic(auto, using(crate::proofs::Whole::lawful_read))]
pub fn lawful_words_are_read()
    ensures { LawfulRead }
{}

// No two lawful statements have the same words.
pub fn lawful_words_differ()
    ensures { LawfulApart }
{}
