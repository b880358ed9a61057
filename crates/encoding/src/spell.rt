// Statements spelt, by themselves or into a buffer.
ghost use Rattle.std.specs.Prelude.{◌≡◌, ◌+◌, ◌≤◌, length, Some, Ok, MatchResult};
ghost use Rattle.std.proofs.lemmas.List.Edits.{sets};
ghost use Rattle.statement.specs.Views.{said_by};
ghost use Rattle.spelling.specs.Answers.{over_front, spell_answer, spelled, ReadsAs};
ghost use Rattle.spelling.specs.Parts.{said_with};
ghost use Rattle.spelling.specs.Spelling.{fault_of, spell, spell_arguments, Lawful};

use crate::put::{put, put_pair, put_string};
use crate::tail::put_tail;
use arrayvec::ArrayVec;
use spelling::code::code_of;
use spelling::extent::extent;
use spelling::faults::check;
use spelling::parts::Parts;
use spelling::refusal::Unspelt;
use statement::limits::LONGEST_SPELLING;
use statement::types::{Fault, Statement};

// The spelling of a statement.
pub type Spelling = ArrayVec<u8, LONGEST_SPELLING>;

// Writes the arguments of a lawful statement from a place on, and gives the place after them.
fn put_arguments(buffer: &mut [u8], place: usize, parts: Parts<'_>) -> usize
    requires fits { Lawful (said_with parts) }
    requires room { place + length (spell_arguments (said_with parts)) ≤ length buffer.old }
    ensures after { result ≡ place + length (spell_arguments (said_with parts.entry)) }
    ensures bytes { buffer.new ≡ sets buffer.old place (spell_arguments (said_with parts.entry)) }
{
    match parts {
        Parts::Bare(_) => place,
        Parts::Pair(_, _, x, y) => put_pair(buffer, place, x, y),
        Parts::Text(_, text) => put_string(buffer, place, text.bytes),
        Parts::Escape(value, text) => {
            let next = put(buffer, place, &[value]);
            put_string(buffer, next, text.bytes)
        }
        Parts::Value(_, value) => put(buffer, place, &[value]),
        Parts::Heading(name, header) => {
            let next = put_string(buffer, place, name.bytes);
            put(buffer, next, &[1, header.into()])
        }
        Parts::Calling(name, tail) => {
            let next = put_string(buffer, place, name.bytes);
            put_tail(buffer, next, tail)
        }
    }
}

// Spells a lawful statement that the buffer has room for into its front, and gives the spelling's length.
fn put_statement(statement: Statement<'_>, buffer: &mut [u8]) -> usize
    requires fits { Lawful (said_by statement) }
    requires room { length (spell (said_by statement)) ≤ length buffer.old }
    ensures size { result ≡ length (spell (said_by statement.entry)) }
    ensures bytes { buffer.new ≡ over_front (spell (said_by statement.entry)) buffer.old }
    ensures reads { ReadsAs (Ok result) buffer.new (said_by statement.entry) }
{
    let next = put(buffer, 0, &[code_of(&statement)]);
    put_arguments(buffer, next, statement.into())
}

// The spelling of a statement, or why it is not lawful.
pub fn spelling_of(statement: Statement<'_>) -> Result<Spelling, Fault>
    ensures { MatchResult result
        (λ v. (v.items ≡ spell (said_by statement.entry)) × Lawful (said_by statement.entry))
        (λ f. fault_of (said_by statement.entry) ≡ Some f) }
{
    check(&statement)?;
    let mut staged = [0; LONGEST_SPELLING];
    let size = put_statement(statement, &mut staged);
    Ok(Spelling::try_from(&staged[..size]).unwrap())
}

// Spells a statement into the front of a buffer, or refuses and alters no byte.
pub fn spell(statement: Statement<'_>, buffer: &mut [u8]) -> Result<usize, Unspelt>
    ensures answer { result ≡ spell_answer (said_by statement.entry) (length buffer.old) }
    ensures bytes { buffer.new ≡ spelled result (spell (said_by statement.entry)) buffer.old }
    ensures reads { ReadsAs result buffer.new (said_by statement.entry) }
{
    check(&statement)?;
    if buffer.len() < extent(&statement) {
        return Err(Unspelt::Room);
    }
    Ok(put_statement(statement, buffer))
}
