// The numbers of the faults.
ghost use Rattle.std.specs.Prelude.{◌≡◌};
ghost use Rattle.statement.specs.Views.{fault_number};

use crate::types::Fault;

impl Fault {
    // The number under which the fault is refused.
    pub fn number(self) -> u8
        ensures { result ≡ fault_number self }
    {
        self as u8
    }
}
