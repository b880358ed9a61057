// Feeding a reader.
ghost use Rattle.std.specs.Prelude.{◌≡◌};
ghost use Rattle.run.specs.Runs.{run};
ghost use Rattle.reader.specs.Answers.{feed_answer};
ghost use Rattle.reader.specs.Views.{config_of};

use crate::answers::Refused;
use crate::reader::Reader;
use run::types::Life;
use sheet::Sheet;

impl Reader {
    // Takes the bytes of a piece in turn.
    fn take_all<S: Sheet>(&mut self, sheet: &mut S, piece: &[u8])
        ensures after { config_of self.new (S.meaning sheet.new) ≡ run (config_of self.old (S.meaning sheet.old)) piece.now }
        ensures tied { S.tied sheet.new ≡ S.tied sheet.old }
    {
        for byte in piece {
            self.take(sheet, *byte);
        }
    }

    // What a feed answers.
    fn feed_answer(&self) -> Result<(), Refused>
        ensures { result ≡ feed_answer self.now.life }
    {
        match self.life {
            Life::Live => Ok(()),
            Life::Closed => Err(Refused::Closed),
            Life::Refused(refusal) => Err(Refused::Stream(refusal)),
        }
    }

    // Feeds a piece of the stream; a closed or refused reader and its sheet stay as they are.
    pub fn feed<S: Sheet>(&mut self, sheet: &mut S, piece: &[u8]) -> Result<(), Refused>
        ensures after { config_of self.new (S.meaning sheet.new) ≡ run (config_of self.old (S.meaning sheet.old)) piece.now }
        ensures answer { result ≡ feed_answer (config_of self.new (S.meaning sheet.new)).drawing.life }
        ensures tied { S.tied sheet.new ≡ S.tied sheet.old }
    {
        self.take_all(sheet, piece);
        self.feed_answer()
    }
}
