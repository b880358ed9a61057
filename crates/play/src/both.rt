// Two lists of calls played on two sheets.
ghost use Rattle.std.specs.Prelude.{◌≡◌, MatchResult};
ghost use Rattle.play.specs.Laws.{PlayedBoth};
ghost use Rattle.play.specs.Plays.{New};

use crate::answer::play_with;
use crate::list::Call;
use reader::reader::Reader;
use run::types::Report;
use sheet::Sheet;
use std::alloc::{AllocError, Global};

// Plays a list of calls on each of two readers, each with its sheet.
pub fn play_both_with<A: Sheet, B: Sheet>(
    first: &mut Reader,
    a: &mut A,
    its_calls: &[Call<'_>],
    second: &mut Reader,
    b: &mut B,
    other_calls: &[Call<'_>],
) -> (Report, Report)
    ensures played { New first.old → New second.old → PlayedBoth (A.meaning a.old) (B.meaning b.old) its_calls.now other_calls.now (A.meaning a.new) (B.meaning b.new) result.0 result.1 }
    ensures first_tied { A.tied a.new ≡ A.tied a.old }
    ensures second_tied { B.tied b.new ≡ B.tied b.old }
{
    let its_report = play_with(first, a, its_calls);
    let other_report = play_with(second, b, other_calls);
    (its_report, other_report)
}

// Plays a list of calls on each of two sheets, each with a new reader; without memory for both readers the sheets stay as they are.
pub fn play_both<A: Sheet, B: Sheet>(
    heap: Global,
    a: &mut A,
    its_calls: &[Call<'_>],
    b: &mut B,
    other_calls: &[Call<'_>],
) -> Result<(Report, Report), AllocError>
    ensures played { MatchResult result (λ told. PlayedBoth (A.meaning a.old) (B.meaning b.old) its_calls.now other_calls.now (A.meaning a.new) (B.meaning b.new) told.0 told.1) (λ _. (A.meaning a.new ≡ A.meaning a.old) × (B.meaning b.new ≡ B.meaning b.old)) }
    ensures first_tied { A.tied a.new ≡ A.tied a.old }
    ensures second_tied { B.tied b.new ≡ B.tied b.old }
{
    let mut first = Reader::new(heap)?;
    let mut second = Reader::new(heap)?;
    Ok(play_both_with(&mut first, a, its_calls, &mut second, b, other_calls))
}
