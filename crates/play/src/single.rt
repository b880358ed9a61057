// A list of calls played on one sheet.
ghost use Rattle.std.specs.Prelude.{◌≡◌, MatchResult};
ghost use Rattle.play.specs.Plays.{Ends, comes_to};

use crate::answer::play_with;
use crate::list::Call;
use reader::reader::Reader;
use run::types::Report;
use sheet::Sheet;
use std::alloc::{AllocError, Global};

// Plays calls on a new reader, one after the other, and reports how far it came; without memory for a reader the sheet stays as it is.
pub fn play<S: Sheet>(heap: Global, sheet: &mut S, calls: &[Call<'_>]) -> Result<Report, AllocError>
    ensures played { MatchResult result (λ told. Ends (comes_to (S.meaning sheet.old) calls.now) (S.meaning sheet.new) told) (λ _. S.meaning sheet.new ≡ S.meaning sheet.old) }
    ensures tied { S.tied sheet.new ≡ S.tied sheet.old }
{
    let mut reader = Reader::new(heap)?;
    Ok(play_with(&mut reader, sheet, calls))
}
