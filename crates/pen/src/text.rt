// Setting a text, code by code.
ghost use Rattle.std.specs.Prelude.{◌≡◌};
ghost use Rattle.run.specs.Inks.{Ink};
ghost use Rattle.run.specs.Texts.{set_codes, restored};
ghost use Rattle.statement.specs.declared.layout.Manner.TheVariants.{Restoring};
ghost use Rattle.pen.specs.Views.{ink_of, drawn, drawn_of, lit};

use crate::codes::set_code;
use crate::types::Pen;
use geometry::Point;
use run::types::Fault;
use sheet::Sheet;
use statement::layout::Manner;

// Sets one code after the other.
fn set_codes<S: Sheet>(
    beam: &mut Point,
    intensity: u8,
    sheet: &mut S,
    manner: Manner,
    codes: &[u8],
) -> Result<(), Fault>
    ensures after { (i : Ink) → drawn result (lit i beam.new intensity (S.meaning sheet.new)) ≡ set_codes manner codes.now (lit i beam.old intensity (S.meaning sheet.old)) }
    ensures tied { S.tied sheet.new ≡ S.tied sheet.old }
{
    for code in codes {
        set_code(beam, intensity, sheet, manner, *code)?;
    }
    Ok(())
}

// A guard: at its end the beam is back where it was. That TEXTR borrows the beam by a guard is a rule of the project.
struct Restore<'a> {
    beam: &'a mut Point,
    saved: Point,
}

impl Drop for Restore<'_> {
    // Takes the beam back.
    fn drop(self)
        ensures { self.exit.0.now ≡ self.entry.saved }
    {
        let Restore { beam, saved } = self;
        *beam = saved;
    }
}

impl Pen {
    // Sets a text.
    pub(crate) fn set_text<S: Sheet>(
        &mut self,
        sheet: &mut S,
        manner: Manner,
        codes: &[u8],
    ) -> Result<(), Fault>
        ensures after { drawn_of result self.new (S.meaning sheet.new) ≡ set_codes manner codes.now (ink_of self.old (S.meaning sheet.old)) }
        ensures tied { S.tied sheet.new ≡ S.tied sheet.old }
    {
        set_codes(&mut self.beam, self.intensity, sheet, manner, codes)
    }

    // Sets a text and takes the beam back, whether the text was finished or refused.
    pub(crate) fn set_and_return<S: Sheet>(
        &mut self,
        sheet: &mut S,
        codes: &[u8],
    ) -> Result<(), Fault>
        ensures after { drawn_of result self.new (S.meaning sheet.new) ≡ restored self.old.beam (set_codes Restoring codes.now (ink_of self.old (S.meaning sheet.old))) }
        ensures tied { S.tied sheet.new ≡ S.tied sheet.old }
    {
        let saved = self.beam;
        let guard = Restore {
            beam: &mut self.beam,
            saved,
        };
        set_codes(guard.beam, self.intensity, sheet, Manner::Restoring, codes)
    }
}
