// Finishing a reader.
ghost use Rattle.std.specs.Prelude.{◌≡◌, ◌&&◌};
ghost use Rattle.sheet.specs.Meanings.{Meaning};
ghost use Rattle.run.specs.Runs.{is_outside, is_empty, finish};
ghost use Rattle.reader.specs.Answers.{finish_answer};
ghost use Rattle.reader.specs.Held.{bytes_held};
ghost use Rattle.reader.specs.Views.{stance_in, config_of};

use crate::answers::Refused;
use crate::reader::Reader;
use run::types::{Fault, Life, Refusal};
use statement::types::Standing;

impl Reader {
    // Whether the reader stands outside between statements.
    fn is_between(&self) -> bool
        ensures { result ≡ (is_outside (stance_in self.now.state) && is_empty (bytes_held self.now.held)) }
    {
        self.state.standing == Standing::Outside && self.held.is_empty()
    }

    // Closes a live reader that stands outside between statements, and refuses it elsewhere.
    fn close(&mut self)
        ensures { (m : Meaning) → config_of self.new m ≡ finish (config_of self.old m) }
    {
        if let Life::Live = self.life {
            if self.is_between() {
                self.life = Life::Closed;
            } else {
                self.life = Life::Refused(Refusal::at(Fault::Unfinished, self.read));
            }
        }
    }

    // What a finish answers.
    fn finish_answer(&self) -> Result<(), Refused>
        ensures { result ≡ finish_answer self.now.life }
    {
        match self.life {
            Life::Refused(refusal) => Err(Refused::Stream(refusal)),
            _ => Ok(()),
        }
    }

    // Ends the stream; a closed or refused reader stays as it is.
    pub fn finish(&mut self) -> Result<(), Refused>
        ensures after { (m : Meaning) → config_of self.new m ≡ finish (config_of self.old m) }
        ensures answer { (m : Meaning) → result ≡ finish_answer (config_of self.new m).drawing.life }
    {
        self.close();
        self.finish_answer()
    }
}
