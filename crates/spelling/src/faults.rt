// Why a statement cannot be written.
ghost use Rattle.std.specs.Prelude.{◌≡◌, ◌&&◌, length, nat_le};
ghost use Rattle.std.specs.Result.{result_err};
ghost use Rattle.statement.specs.Reading.{lawful, is_text, is_name};
ghost use Rattle.statement.specs.Statements.{call};
ghost use Rattle.statement.specs.Views.{bytes_of, said_by, tail_said};
ghost use Rattle.spelling.specs.Spelling.{first_of, unless, tail_fits, act_fault, fault_of};

use crate::parts::Parts;
use statement::coordinate::are_lawful;
use statement::layout::Aim;
use statement::letters::{is_name, is_text};
use statement::limits::{LONGEST_NAME, LONGEST_STRING};
use statement::types::{Fault, Part, Statement, Tail};

// The fault, unless what is to hold holds.
fn hold(holds: bool, fault: Fault) -> Result<(), Fault>
    ensures { result_err result ≡ unless holds fault }
{
    if holds { Ok(()) } else { Err(fault) }
}

// What two coordinates must keep.
fn check_pair(aim: Aim, x: i16, y: i16) -> Result<(), Fault>
    ensures { result_err result ≡ unless (lawful aim x && lawful aim y) Fault.WrongCoordinate }
{
    hold(are_lawful(aim, x, y), Fault::WrongCoordinate)
}

// What a text must keep: its length, then its characters.
fn check_text(text: &[u8]) -> Result<(), Fault>
    ensures { result_err result ≡ first_of (unless (nat_le (length text.now) 512) Fault.TooLong) (unless (is_text text.now) Fault.WrongCharacter) }
{
    hold(text.len() <= LONGEST_STRING, Fault::TooLong)?;
    hold(is_text(text), Fault::WrongCharacter)
}

// What the name of a definition must keep: its length, then its characters.
fn check_name(name: &[u8]) -> Result<(), Fault>
    ensures { result_err result ≡ first_of (unless (nat_le (length name.now) 8) Fault.TooLong) (unless (is_name name.now) Fault.WrongCharacter) }
{
    hold(name.len() <= LONGEST_NAME, Fault::TooLong)?;
    hold(is_name(name), Fault::WrongCharacter)
}

// Whether the AS name of a tail, if any, is short enough.
fn has_short_name(tail: Tail<'_>) -> bool
    ensures { result ≡ tail_fits (tail_said tail.entry) }
{
    match tail {
        Tail::Coded {
            as_name: Some(name),
            ..
        } => name.bytes.len() <= LONGEST_NAME,
        _ => true,
    }
}

// What a call must keep.
fn check_call(name: Part<'_>, tail: Tail<'_>) -> Result<(), Fault>
    ensures { result_err result ≡ act_fault (call (bytes_of name.entry) (tail_said tail.entry)) }
{
    hold(name.bytes.len() <= LONGEST_NAME, Fault::TooLong)?;
    hold(has_short_name(tail), Fault::WrongLayout)?;
    hold(tail.has_lawful_point(), Fault::WrongCoordinate)?;
    hold(
        is_name(name.bytes) && tail.has_lawful_name(),
        Fault::WrongCharacter,
    )
}

// What a statement must keep to be written.
// (An arm for each aim: with one for both, which asked for the aim once more, a pair took 33 instructions in place of 20.)
pub fn check(statement: &Statement<'_>) -> Result<(), Fault>
    ensures { result_err result ≡ fault_of (said_by statement.now) }
{
    match Parts::from(*statement) {
        Parts::Pair(_, Aim::Absolute, x, y) => check_pair(Aim::Absolute, x, y),
        Parts::Pair(_, Aim::Relative, x, y) => check_pair(Aim::Relative, x, y),
        Parts::Text(_, text) => check_text(text.bytes),
        Parts::Escape(_, text) => hold(text.bytes.len() <= LONGEST_STRING, Fault::TooLong),
        Parts::Heading(name, _) => check_name(name.bytes),
        Parts::Calling(name, tail) => check_call(name, tail),
        Parts::Bare(_) | Parts::Value(..) => Ok(()),
    }
}

// Why a statement cannot be written, if it cannot: the question for the reason alone, which `check` leaves by `?`.
pub fn fault_of(statement: &Statement<'_>) -> Option<Fault>
    ensures { result ≡ fault_of (said_by statement.now) }
{
    check(statement).err()
}
