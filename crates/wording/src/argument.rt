// Statements from the texts of their arguments.
ghost use Rattle.std.specs.Prelude.{◌≡◌};
ghost use Rattle.std.specs.Option.{option_map};
ghost use Rattle.statement.specs.Views.{said_by, bytes_of};
ghost use Rattle.statement.specs.Statements.{alone};
ghost use Rattle.wording.specs.Words.{ended, string_in, escape_in, heading_in, call_in, arguments_in};

use crate::line::Line;
use crate::name::header_in;
use crate::number::value_in;
use crate::split::{after, split_word};
use crate::tail::{pair_in, tail_in};
use statement::layout::{Bare, Layout};
use statement::types::{Part, Statement};

// A part of what was read.
pub(crate) fn part(bytes: &[u8]) -> Part<'_>
    ensures { bytes_of result ≡ bytes.now }
{
    Part { at: 0, bytes }
}

// A string between quotes, after a space.
fn string_in(line: Line<'_>) -> Option<Part<'_>>
    ensures { option_map bytes_of result ≡ string_in line.entry.text.now }
{
    let quoted = line.after(b" \"")?.unquote()?;
    quoted.after.is_empty().then_some(part(quoted.bytes))
}

// The statement of a code alone.
fn bare_in<'a>(bare: Bare, text: &[u8]) -> Option<Statement<'a>>
    ensures { option_map said_by result ≡ ended (alone bare) text.now }
{
    text.is_empty().then_some(Statement::from(bare))
}

// The statement of a value and a string.
fn escape_in(line: Line<'_>) -> Option<Statement<'_>>
    ensures { option_map said_by result ≡ escape_in line.entry.text.now }
{
    let (first, rest) = line.split_word();
    let value = value_in(first)?;
    Some(Statement::Escdev(value, string_in(rest)?))
}

// The statement of a name and a header.
fn heading_in(text: &[u8]) -> Option<Statement<'_>>
    ensures { option_map said_by result ≡ heading_in text.now }
{
    let (name, rest) = split_word(text);
    let header = header_in(after(b" ", rest)?)?;
    Some(Statement::Subhed(part(name), header))
}

// The statement of a name and a tail.
fn call_in(line: Line<'_>) -> Option<Statement<'_>>
    ensures { option_map said_by result ≡ call_in line.entry.text.now }
{
    let (name, rest) = line.split_word();
    Some(Statement::Insts(part(name), tail_in(rest)?))
}

// The statement with these arguments.
pub(crate) fn arguments_in(layout: Layout, line: Line<'_>) -> Option<Statement<'_>>
    ensures { option_map said_by result ≡ arguments_in layout line.entry.text.now }
{
    match layout {
        Layout::Bare(bare) => bare_in(bare, line.text),
        Layout::Pair(trace, aim) => {
            let (x, y) = pair_in(line.text)?;
            Some(Statement::travel(trace, aim, x, y))
        }
        Layout::Text(manner) => Some(Statement::letters(manner, string_in(line)?)),
        Layout::Escape => escape_in(line.after(b" ")?),
        Layout::Value(setting) => {
            let value = value_in(after(b" ", line.text)?)?;
            Some(Statement::assign(setting, value))
        }
        Layout::Heading => heading_in(after(b" ", line.text)?),
        Layout::Calling => call_in(line.after(b" ")?),
    }
}
