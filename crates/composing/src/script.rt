// What is left of a description, read statement by statement.
ghost use Rattle.std.specs.Prelude.{◌≡◌, ℕ, ◌+◌, ◌^◌, ◌<◌, ◌≤◌, length, Some, None, IfSome, MatchResult};
ghost use Rattle.std.specs.Option.{option_map};
ghost use Rattle.statement.specs.Views.{said_by};
ghost use Rattle.wording.specs.Words.{worded};
ghost use Rattle.history.specs.Tales.{State};
ghost use Rattle.composing.specs.Lines.{lines_of, NextLine};
ghost use Rattle.composing.specs.Composed.{composing, worded_next};

use crate::lines::{bare, is_silent, line_end};
use crate::types::Failure;
use statement::types::Statement;
use wording::read_words;

// What is left of a description, how many lines were read, and memory for the texts of a line.
#[derive(Drop)]
pub(crate) struct Script<'a> {
    pub(crate) rest: &'a [u8],
    pub(crate) line: usize,
    pub(crate) scratch: &'a mut [u8],
    ghost few: { line + length rest.now < 2 ^ 64 },
    ghost room: { length rest.now ≤ length scratch.now },
}

impl<'a> Script<'a> {
    // A description that is to be read, with memory for its longest line.
    pub(crate) fn new(text: &'a [u8], scratch: &'a mut [u8]) -> Script<'a>
        requires { length text.now ≤ length scratch.old }
        ensures rest { result.rest.now ≡ text.now }
        ensures line { result.line ≡ 0 }
    {
        Script {
            rest: text,
            line: 0,
            scratch,
        }
    }

    // The next line, if there is one.
    fn next_line(&mut self) -> Option<&'a [u8]>
        ensures kept { length self.new.scratch.now ≡ length self.old.scratch.now }
        ensures next { NextLine (option_map (λ x. x.now) result) self.old.rest.now self.old.line self.new.rest.now self.new.line }
    {
        let rest = self.rest;
        if rest.is_empty() {
            return None;
        }
        let end = line_end(rest).unwrap_or(rest.len());
        let after = (end + 1).min(rest.len());
        self.rest = &rest[after..];
        self.line += 1;
        Some(&rest[..end])
    }

    // The words of the next line that says something, if there is one.
    pub(crate) fn next_words(&mut self) -> Option<&'a [u8]>
        ensures shorter { length self.new.rest.now ≤ length self.old.rest.now }
        ensures some { IfSome result (λ x. (length self.new.rest.now < length self.old.rest.now) × (length x.now ≤ length self.new.scratch.now)) }
        ensures next { (size : ℕ) (st : State) → composing size st self.old.line (lines_of self.old.rest.now) ≡ worded_next (option_map (λ x. x.now) result) size st self.new.line (lines_of self.new.rest.now) }
    {
        while let Some(line) = self.next_line() {
            let words = bare(line);
            if !is_silent(words) {
                return Some(words);
            }
        }
        None
    }
}

// The statement that a line's words say; no method of Script (tried): it is lent from the scratch, and the borrow would go into the result.
pub(crate) fn read<'a>(
    words: &'a [u8],
    line: usize,
    scratch: &'a mut [u8],
) -> Result<Statement<'a>, Failure>
    requires { length words.now ≤ length scratch.old }
    ensures { MatchResult result (λ s. worded words.now ≡ Some (said_by s)) (λ f. (worded words.now ≡ None) × (f ≡ Failure.Unreadable line)) }
{
    read_words(words, scratch).ok_or(Failure::Unreadable { line })
}
