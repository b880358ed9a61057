// Lines for statements and for the end of a stream.
// Numbers in the lines of statements are put by `itoa`: a `format!` made a String for each, and the listing of a stream took up to twice as long.
ghost use Rattle.std.specs.Prelude.{◌≡◌, [], ◌∷◌, ◌++◌, decimal, OnOk};
ghost use Rattle.statement.specs.Views.{said_by, tail_said};
ghost use Rattle.walking.specs.Stories.{told_by};
ghost use Rattle.listing.specs.Lines.{pair_text, at_text, tail_text, argument_text, line_of, end_line};

use crate::quote::put_string;
use crate::words::{header_text, indent_of, name_of};
use itoa::{Buffer, Integer};
use spelling::parts::Parts;
use statement::types::{Standing, Statement, Tail};
use std::alloc::AllocError;
use walking::walker::{End, Placed};

// Puts a number behind a text.
fn put_number<I: Integer>(out: &mut Vec<u8>, number: I) -> Result<(), AllocError>
    ensures { OnOk result (out.new.items ≡ out.old.items ++ I.text number) }
{
    out.extend_from_slice(Buffer::new().format(number).as_bytes())
}

// Puts two coordinates behind a text, each after a space.
fn put_pair(out: &mut Vec<u8>, x: i16, y: i16) -> Result<(), AllocError>
    ensures { OnOk result (out.new.items ≡ out.old.items ++ pair_text x y) }
{
    out.extend_from_slice(b" ")?;
    put_number(out, x)?;
    out.extend_from_slice(b" ")?;
    put_number(out, y)
}

// Puts a name behind a text, after a space.
fn put_name(out: &mut Vec<u8>, name: &[u8]) -> Result<(), AllocError>
    ensures { OnOk result (out.new.items ≡ out.old.items ++ (32 ∷ name.now)) }
{
    out.extend_from_slice(b" ")?;
    out.extend_from_slice(name)
}

// Puts a value behind a text, after a space.
fn put_value(out: &mut Vec<u8>, value: u8) -> Result<(), AllocError>
    ensures { OnOk result (out.new.items ≡ out.old.items ++ (32 ∷ decimal value)) }
{
    out.extend_from_slice(b" ")?;
    put_number(out, value)
}

// Puts the AT point of a tail behind a text.
fn put_at(out: &mut Vec<u8>, at: Option<(i16, i16)>) -> Result<(), AllocError>
    ensures { OnOk result (out.new.items ≡ out.old.items ++ at_text at) }
{
    let Some((x, y)) = at else {
        return Ok(());
    };
    out.extend_from_slice(b" AT")?;
    put_pair(out, x, y)
}

// Puts the tail of a call behind a text.
fn put_tail(out: &mut Vec<u8>, tail: Tail<'_>) -> Result<(), AllocError>
    ensures { OnOk result (out.new.items ≡ out.old.items ++ tail_text (tail_said tail.entry)) }
{
    let Tail::Coded { as_name, at } = tail else {
        return Ok(());
    };
    match (as_name, at) {
        (None, None) => out.extend_from_slice(b" CODE"),
        (None, Some(_)) => put_at(out, at),
        (Some(name), _) => {
            out.extend_from_slice(b" AS")?;
            put_string(out, name.bytes)?;
            put_at(out, at)
        }
    }
}

// Puts the arguments of a statement behind a text.
fn put_arguments(out: &mut Vec<u8>, statement: Statement<'_>) -> Result<(), AllocError>
    ensures { OnOk result (out.new.items ≡ out.old.items ++ argument_text (said_by statement.entry)) }
{
    match Parts::from(statement) {
        Parts::Bare(_) => Ok(()),
        Parts::Pair(_, _, x, y) => put_pair(out, x, y),
        Parts::Text(_, text) => put_string(out, text.bytes),
        Parts::Escape(value, text) => {
            put_value(out, value)?;
            put_string(out, text.bytes)
        }
        Parts::Value(_, value) => put_value(out, value),
        Parts::Heading(name, header) => {
            put_name(out, name.bytes)?;
            put_name(out, header_text(header).as_bytes())
        }
        Parts::Calling(name, tail) => {
            put_name(out, name.bytes)?;
            put_tail(out, tail)
        }
    }
}

// Puts the line of a statement behind a text.
pub(crate) fn put_line(
    out: &mut Vec<u8>,
    standing: Standing,
    placed: Placed<'_>,
) -> Result<(), AllocError>
    ensures { OnOk result (out.new.items ≡ out.old.items ++ (line_of standing (told_by placed.entry) ++ (10 ∷ []))) }
{
    put_number(out, placed.place)?;
    out.extend_from_slice(b" ")?;
    out.extend_from_slice(indent_of(standing, &placed.statement).as_bytes())?;
    out.extend_from_slice(name_of(&placed.statement).as_bytes())?;
    put_arguments(out, placed.statement)?;
    out.extend_from_slice(b"\n")
}

// Puts the line of a stream's end behind a text.
pub(crate) fn put_end(out: &mut Vec<u8>, end: End) -> Result<(), AllocError>
    ensures { OnOk result (out.new.items ≡ out.old.items ++ (end_line end ++ (10 ∷ []))) }
{
    let heap = *out.allocator();
    match end {
        End::Whole => out.extend_from_slice(b"whole\n"),
        End::Unfinished { place } => {
            let line = format!(in heap; "unfinished at {place}\n")?;
            out.extend_from_slice(line.as_bytes())
        }
        End::Refused { fault, place } => {
            let line = format!(in heap; "refused under {} at {place}\n", fault.number())?;
            out.extend_from_slice(line.as_bytes())
        }
    }
}
