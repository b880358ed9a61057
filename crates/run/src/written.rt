// The laws of recorded bodies and of calls written out: each function's contract is a law, and it does nothing.
ghost use Rattle.run.specs.Bodies.{BodiesWhole};
ghost use Rattle.run.specs.Samples.{Sample};
ghost use Rattle.run.specs.Written.{WritesAlike};

// Every body that a run has recorded is whole lawful statements.
pub fn bodies_are_whole()
    ensures { BodiesWhole }
{}

// A call may be written out, with its body as it is or with calls in it written out in turn.
pub fn calls_may_be_written_out()
    ensures { WritesAlike }
{}

// Two streams, the second of which is the first with its calls written out.
pub fn written_out_sample()
    ensures { Sample }
{}
