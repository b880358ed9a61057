// A fault stops the reading of a statement.
ghost use Rattle.std.specs.Prelude.{◌≡◌};
ghost use Rattle.statement.specs.declared.types.Stop.TheVariants.{Wrong};

use crate::types::{Fault, Stop};

impl From<Fault> for Stop {
    ghost from_gives = { λ fault stop. stop ≡ Wrong fault };

    fn from(fault: Fault) -> Stop {
        Stop::Wrong(fault)
    }
}
