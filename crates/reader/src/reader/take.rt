// Taking bytes, one at a time.
ghost use Rattle.std.specs.Prelude.{◌≡◌};
ghost use Rattle.run.specs.Runs.{step};
ghost use Rattle.reader.specs.Views.{config_of};

use crate::reader::Reader;
use crate::settle::Settled;
use run::types::{Life, Refusal};
use sheet::Sheet;
use statement::limits::LONGEST_STREAM;
use statement::types::Fault as Unread;

impl Reader {
    // Takes one byte.
    pub(super) fn take<S: Sheet>(&mut self, sheet: &mut S, byte: u8)
        ensures after { config_of self.new (S.meaning sheet.new) ≡ step (config_of self.old (S.meaning sheet.old)) byte }
        ensures tied { S.tied sheet.new ≡ S.tied sheet.old }
    {
        let Life::Live = self.life else {
            return;
        };
        let at = self.read - self.held.len();
        if self.read >= LONGEST_STREAM {
            self.held.clear();
            self.life = Life::Refused(Refusal::at(Unread::StreamTooLong.into(), at));
            return;
        }
        self.read += 1;
        self.held.push(byte);
        match self.state.settle(sheet, self.held.as_slice(), at) {
            Ok(Settled::More) => {}
            Ok(Settled::Done) => self.held.clear(),
            Err(refusal) => {
                self.held.clear();
                self.life = Life::Refused(refusal);
            }
        }
    }
}
