// Putting marks.
ghost use Rattle.std.specs.Prelude.{◌≡◌};
ghost use Rattle.geometry.specs.declared.field.Point.{Point};
ghost use Rattle.run.specs.Inks.{Ink, put};
ghost use Rattle.pen.specs.Views.{drawn, lit};

use mark::Mark;
use run::types::Fault;
use sheet::Sheet;

// Puts a mark; at intensity 0 none is put.
pub(crate) fn put_mark<S: Sheet>(intensity: u8, sheet: &mut S, mark: Mark) -> Result<(), Fault>
    ensures after { (i : Ink) (p : Point) → drawn result (lit i p intensity (S.meaning sheet.new)) ≡ put mark (lit i p intensity (S.meaning sheet.old)) }
    ensures tied { S.tied sheet.new ≡ S.tied sheet.old }
{
    if intensity != 0 {
        sheet.mark(mark)?;
    }
    Ok(())
}
