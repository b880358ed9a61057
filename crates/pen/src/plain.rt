// Performing a statement that is no call.
ghost use Rattle.std.specs.Prelude.{◌≡◌};
ghost use Rattle.statement.specs.Views.{said_by};
ghost use Rattle.pen.specs.Views.{ink_of, drawn_of, plain_effect};

use crate::types::Pen;
use run::types::Fault;
use sheet::Sheet;
use statement::layout::{Aim, Manner, Setting, Trace};
use statement::types::Statement;

impl Pen {
    // Does what a statement does by itself; ERASE, ENDPIC, SUBHED, SUBEND and INSTS do nothing here.
    pub fn perform_plain<S: Sheet>(
        &mut self,
        sheet: &mut S,
        statement: &Statement<'_>,
    ) -> Result<(), Fault>
        ensures after { drawn_of result self.new (S.meaning sheet.new) ≡ plain_effect (said_by statement.now) (ink_of self.old (S.meaning sheet.old)) }
        ensures tied { S.tied sheet.new ≡ S.tied sheet.old }
    {
        match *statement {
            Statement::Movea(x, y) => self.travel(sheet, Trace::Blank, Aim::Absolute, x, y),
            Statement::Mover(x, y) => self.travel(sheet, Trace::Blank, Aim::Relative, x, y),
            Statement::Drawa(x, y) => self.travel(sheet, Trace::Line, Aim::Absolute, x, y),
            Statement::Drawr(x, y) => self.travel(sheet, Trace::Line, Aim::Relative, x, y),
            Statement::Dota(x, y) => self.travel(sheet, Trace::Dot, Aim::Absolute, x, y),
            Statement::Dotr(x, y) => self.travel(sheet, Trace::Dot, Aim::Relative, x, y),
            Statement::Text(text) => self.set_text(sheet, Manner::Onward, text.bytes),
            Statement::Textr(text) => self.set_and_return(sheet, text.bytes),
            Statement::Texto(text) => self.set_text(sheet, Manner::Wrapping, text.bytes),
            Statement::Linmod(value) => {
                self.assign(Setting::LineMode, value);
                Ok(())
            }
            Statement::Setint(value) => {
                self.assign(Setting::Intensity, value);
                Ok(())
            }
            Statement::Mark => self.push_beam(),
            Statement::Movemk => self.travel_back(sheet, Trace::Blank),
            Statement::Drawmk => self.travel_back(sheet, Trace::Line),
            _ => Ok(()),
        }
    }
}
