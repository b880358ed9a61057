// The tails of calls, written into a buffer.
ghost use Rattle.std.specs.Prelude.{◌≡◌, ◌+◌, ◌≤◌, true, ◌∷◌, ◌++◌, length, nat_le};
ghost use Rattle.std.proofs.lemmas.List.Edits.{sets};
ghost use Rattle.std.specs.Option.{option_map};
ghost use Rattle.statement.specs.Views.{bytes_of, tail_said};
ghost use Rattle.spelling.specs.Spelling.{spell_as, spell_at, tail_byte, spell_tail, as_length, tail_fits};

use crate::put::{put, put_pair};
use spelling::extent::tail_extent;
use statement::types::{Part, Tail};

// The code byte of a tail.
fn tail_byte(as_name: Option<Part<'_>>, at: Option<(i16, i16)>) -> u8
    ensures { result ≡ tail_byte (option_map bytes_of as_name.entry) at }
{
    match (as_name, at) {
        (None, None) => 0x00,
        (None, Some(_)) => 0x40,
        (Some(_), None) => 0x80,
        (Some(_), Some(_)) => 0xC0,
    }
}

// Writes the AS name of a tail from a place on, and gives the place after it.
fn put_as(buffer: &mut [u8], place: usize, as_name: Option<Part<'_>>) -> usize
    requires short { nat_le (as_length (option_map bytes_of as_name)) 8 ≡ true }
    requires room { place + length (spell_as (option_map bytes_of as_name)) ≤ length buffer.old }
    ensures after { result ≡ place + length (spell_as (option_map bytes_of as_name.entry)) }
    ensures bytes { buffer.new ≡ sets buffer.old place (spell_as (option_map bytes_of as_name.entry)) }
{
    match as_name {
        None => place,
        Some(name) => {
            let next = put(buffer, place, &[name.bytes.len() as u8]);
            put(buffer, next, name.bytes)
        }
    }
}

// Writes the AT point of a tail from a place on, and gives the place after it.
fn put_at(buffer: &mut [u8], place: usize, at: Option<(i16, i16)>) -> usize
    requires { place + length (spell_at at) ≤ length buffer.old }
    ensures after { result ≡ place + length (spell_at at) }
    ensures bytes { buffer.new ≡ sets buffer.old place (spell_at at) }
{
    match at {
        None => place,
        Some((x, y)) => put_pair(buffer, place, x, y),
    }
}

// Writes a tail and its length from a place on, and gives the place after them.
pub fn put_tail(buffer: &mut [u8], place: usize, tail: Tail<'_>) -> usize
    requires fits { tail_fits (tail_said tail) ≡ true }
    requires room { place + (1 + length (spell_tail (tail_said tail))) ≤ length buffer.old }
    ensures after { result ≡ place + (1 + length (spell_tail (tail_said tail.entry))) }
    ensures bytes { buffer.new ≡ sets buffer.old place (length (spell_tail (tail_said tail.entry)) ∷ spell_tail (tail_said tail.entry)) }
{
    match tail {
        Tail::Empty => put(buffer, place, &[0]),
        Tail::Coded { as_name, at } => {
            let size = tail_extent(tail) as u8;
            let next = put(buffer, place, &[size, tail_byte(as_name, at)]);
            let next = put_as(buffer, next, as_name);
            put_at(buffer, next, at)
        }
    }
}
