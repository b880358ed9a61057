// The law of streams read back, as a contract.
ghost use Rattle.spelling.specs.Laws.{StreamsReadBack};

// The spelling of statements that are lawful where they stand reads back as those statements.
#[tactic(auto, using(crate::proofs::Walks::reads_back))]
pub fn streams_read_back()
    ensures { StreamsReadBack }
{}
