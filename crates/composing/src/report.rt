// Failures as text.
ghost use Rattle.std.specs.Prelude.{◌≡◌, Some, IfOk, string_bytes};
ghost use Rattle.composing.specs.Reports.{failure_text};

use crate::types::Failure;
use std::alloc::{AllocError, Global};
use std::fmt;

impl fmt::Display for Failure {
    ghost output = { λ failure. Some (failure_text failure) };

    fn fmt<W: fmt::Write>(&self, f: &mut fmt::Formatter<W>) -> fmt::Result {
        match *self {
            Failure::Unreadable { line } => write!(f, "unreadable at line {line}"),
            Failure::Refused { refusal, line } => {
                let number = refusal.number();
                write!(f, "refused under {number} at line {line}")
            }
            Failure::Unfinished { line } => write!(f, "unfinished at line {line}"),
        }
    }
}

// The line that tells why a description is not composed.
pub fn report(heap: Global, failure: Failure) -> Result<String, AllocError>
    ensures { IfOk result (λ t. string_bytes t ≡ failure_text failure) }
{
    format!(in heap; "{failure}")
}
