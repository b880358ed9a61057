// What holds of sheets of every kind.
ghost use Rattle.std.specs.Prelude.{◌≡◌, true, not, ◌&&◌, is_ok};
ghost use Rattle.sheet.specs.Alike.{Alike, same_answer, same_answers};
ghost use Rattle.sheet.specs.Meanings.{answer, marked, marked_all, takes_all};

use crate::Sheet;
use mark::Mark;

// Whether a sheet refuses the next mark.
pub fn is_full<S: Sheet>(sheet: &S) -> bool
    ensures { result ≡ not (is_ok (answer (S.meaning sheet.now))) }
{
    sheet.stock() == Some(0)
}

// Puts one mark after another on a sheet, and says whether it took them all.
#[tactic(auto, using(crate::proofs::Twins::side_kept))]
pub fn draw<S: Sheet>(sheet: &mut S, marks: &[Mark]) -> bool
    ensures answer { result ≡ takes_all (S.meaning sheet.old) marks.now }
    ensures after { S.meaning sheet.new ≡ marked_all (S.meaning sheet.old) marks.now }
    ensures side { (S.meaning sheet.new).side ≡ (S.meaning sheet.old).side }
    ensures tied { S.tied sheet.new ≡ S.tied sheet.old }
{
    // A loop and no fold: its closure would change the sheet, and the proof of that did not close.
    let mut taken = true;
    for mark in marks {
        taken &= sheet.mark(*mark).is_ok();
    }
    taken
}

// Puts a mark on two sheets, and says whether they gave the same answer.
pub fn mark_both<A: Sheet, B: Sheet>(a: &mut A, b: &mut B, mark: Mark) -> bool
    ensures first { A.meaning a.new ≡ marked (A.meaning a.old) mark }
    ensures second { B.meaning b.new ≡ marked (B.meaning b.old) mark }
    ensures answers { result ≡ same_answer (answer (A.meaning a.old)) (answer (B.meaning b.old)) }
    ensures first_tied { A.tied a.new ≡ A.tied a.old }
    ensures second_tied { B.tied b.new ≡ B.tied b.old }
{
    a.mark(mark) == b.mark(mark)
}

// Puts one mark after another on two sheets, and says whether they gave the same answers; sheets that were alike stay so.
pub fn draw_both<A: Sheet, B: Sheet>(a: &mut A, b: &mut B, marks: &[Mark]) -> bool
    ensures first { A.meaning a.new ≡ marked_all (A.meaning a.old) marks.now }
    ensures second { B.meaning b.new ≡ marked_all (B.meaning b.old) marks.now }
    ensures answers { result ≡ same_answers (A.meaning a.old) (B.meaning b.old) marks.now }
    ensures alike { Alike (A.meaning a.old) (B.meaning b.old) → Alike (A.meaning a.new) (B.meaning b.new) × (result ≡ true) }
    ensures first_tied { A.tied a.new ≡ A.tied a.old }
    ensures second_tied { B.tied b.new ≡ B.tied b.old }
{
    // A loop and no fold, for the same reason as in `draw`.
    let mut same = true;
    for mark in marks {
        same &= mark_both(a, b, *mark);
    }
    same
}
