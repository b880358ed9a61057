// Asking a reader how far it is.
ghost use Rattle.std.specs.Prelude.{◌≡◌};
ghost use Rattle.sheet.specs.Meanings.{Meaning};
ghost use Rattle.run.specs.Runs.{report_of};
ghost use Rattle.reader.specs.Views.{config_of};

use crate::reader::Reader;
use run::types::Report;

impl Reader {
    // The bytes read, the finished pictures, the statement count, the beam, and whether the reader goes on.
    pub fn report(&self) -> Report
        ensures { (m : Meaning) → result ≡ report_of (config_of self.now m) }
    {
        Report {
            read: self.read,
            pictures: self.state.pictures,
            statements: self.state.work.count,
            beam: self.state.work.pen.beam,
            life: self.life,
        }
    }
}
