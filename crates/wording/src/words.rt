// Lines as statements.
ghost use Rattle.std.specs.Prelude.{◌≡◌, ◌≤◌, length};
ghost use Rattle.std.specs.Option.{option_map};
ghost use Rattle.statement.specs.Views.{said_by};
ghost use Rattle.wording.specs.Words.{worded};

use crate::argument::arguments_in;
use crate::line::Line;
use crate::name::layout_named;
use statement::types::Statement;

// The statement whose words a line is, if it is that of one; the scratch takes what stands between quotes.
// The scratch is lent, since a heap could run out.
#[tactic(auto, unfolding(crate::specs::Words::worded))]
pub fn read_words<'a>(line: &'a [u8], scratch: &'a mut [u8]) -> Option<Statement<'a>>
    requires { length line.now ≤ length scratch.old }
    ensures { option_map said_by result ≡ worded line.now }
{
    let (name, rest) = Line::new(line, scratch).split_word();
    arguments_in(layout_named(name)?, rest)
}
