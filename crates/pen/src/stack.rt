// The stack of marked points.
ghost use Rattle.std.specs.Prelude.{◌≡◌, ◌↔◌, ◌<◌, [], ◌∷◌, ◌++◌, length, IsOk, OnOk, IfErr, IsSome, IfNone};
ghost use Rattle.std.specs.Option.{option_to_list};
ghost use Rattle.sheet.specs.Meanings.{Meaning};
ghost use Rattle.run.specs.Performing.{push_mark, recall};
ghost use Rattle.std.specs.Cmp.{on_equiv, and_equiv, int_eq_equiv, partial_equiv_from_equiv};
ghost use Rattle.std.proofs.lemmas.Cmp.{lists_equiv};
ghost use lib.Pointwise.{pointwise};
ghost use Rattle.pen.specs.Views.{points_of, same_point, stacked, ink_of, drawn_of};

use crate::types::{MOST_MARKS, MarkStack, Pen};
use geometry::Point;
use run::types::Fault;
use sheet::Sheet;
use statement::layout::Trace;

impl MarkStack {
    // A stack with no point.
    pub(crate) fn new() -> MarkStack
        ensures { points_of result ≡ [] }
    {
        MarkStack {
            points: [Point::default(); MOST_MARKS],
            used: 0,
        }
    }

    // Puts a point on the top, if there is room for it.
    pub(crate) fn push(&mut self, p: Point) -> Result<(), Fault>
        ensures variant { IsOk result ↔ (length (points_of self.old) < 64) }
        ensures ok { OnOk result (points_of self.new ≡ points_of self.old ++ (p ∷ [])) }
        ensures err { IfErr result (λ e. (e ≡ Fault.MarksFull) × (self.new ≡ self.old)) }
    {
        if self.used >= MOST_MARKS {
            return Err(Fault::MarksFull);
        }
        self.points[self.used] = p;
        self.used += 1;
        Ok(())
    }

    // Takes the top point off, if there is one.
    pub(crate) fn pop(&mut self) -> Option<Point>
        ensures items { points_of self.old ≡ points_of self.new ++ option_to_list result }
        ensures variant { IsSome result ↔ (0 < length (points_of self.old)) }
        ensures empty { IfNone result (self.new ≡ self.old) }
    {
        if self.used == 0 {
            return None;
        }
        self.used -= 1;
        Some(self.points[self.used])
    }
}

// Stacks are equal by the points that they hold, whatever lies above these.
impl PartialEq for MarkStack {
    ghost eq = { λ s t. pointwise same_point (points_of s) (points_of t) };

    ghost laws = { partial_equiv_from_equiv (on_equiv points_of (lists_equiv (and_equiv (on_equiv (λ p. p.x) int_eq_equiv) (on_equiv (λ p. p.y) int_eq_equiv)))) };

    fn eq(&self, other: &MarkStack) -> bool {
        self.points[..self.used] == other.points[..other.used]
    }
}

impl Eq for MarkStack {
    ghost laws = { on_equiv points_of (lists_equiv (and_equiv (on_equiv (λ p. p.x) int_eq_equiv) (on_equiv (λ p. p.y) int_eq_equiv))) };
}

impl Pen {
    // Marks the beam's point.
    pub(crate) fn push_beam(&mut self) -> Result<(), Fault>
        ensures { (m : Meaning) → drawn_of result self.new m ≡ push_mark (ink_of self.old m) }
    {
        self.marks.push(self.beam)
    }

    // Takes the beam to the point that was marked last, or to the origin if there is none.
    pub(crate) fn travel_back<S: Sheet>(&mut self, sheet: &mut S, trace: Trace) -> Result<(), Fault>
        ensures after { drawn_of result self.new (S.meaning sheet.new) ≡ recall trace (stacked self.old.marks) (ink_of self.old (S.meaning sheet.old)) }
        ensures tied { S.tied sheet.new ≡ S.tied sheet.old }
    {
        let end = self.marks.pop().unwrap_or_default();
        self.travel_to(sheet, trace, end)
    }
}
