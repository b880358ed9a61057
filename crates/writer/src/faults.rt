// What is wrong with what is to be written, and the size of what is not faulty.
ghost use Rattle.std.specs.Prelude.{◌≡◌, ◌≤◌, length, Some, None, MatchResult};
ghost use Rattle.statement.specs.Views.{said_by};
ghost use Rattle.spelling.specs.Spelling.{spell, fault_of, Lawful};
ghost use Rattle.writer.specs.Answers.{frames, writing_fault, heading, heading_fault};

use spelling::extent::extent;
use spelling::faults::check;
use statement::limits::LONGEST_NAME;
use statement::types::{Fault, Header, Part, Statement};

// Whether a statement opens or closes.
fn is_frame(statement: &Statement<'_>) -> bool
    ensures { result ≡ frames (said_by statement.now) }
{
    matches!(
        *statement,
        Statement::Erase | Statement::Endpic | Statement::Subhed(_, _) | Statement::Subend
    )
}

// How many bytes a lawful statement takes, or why it is not lawful.
fn lawful_size(statement: &Statement<'_>) -> Result<usize, Fault>
    ensures { MatchResult result
        (λ n. (n ≡ length (spell (said_by statement.now))) × (n ≤ 516) × Lawful (said_by statement.now))
        (λ f. fault_of (said_by statement.now) ≡ Some f) }
{
    check(statement)?;
    Ok(extent(statement))
}

// How many bytes a statement that is to be written takes, or what is wrong with it.
pub(crate) fn writing_size(statement: &Statement<'_>) -> Result<usize, Fault>
    ensures { MatchResult result
        (λ n. (n ≡ length (spell (said_by statement.now))) × (n ≤ 516) × (writing_fault (said_by statement.now) ≡ None))
        (λ f. writing_fault (said_by statement.now) ≡ Some f) }
{
    if is_frame(statement) {
        return Err(Fault::Misplaced);
    }
    lawful_size(statement)
}

// The statement that opens a definition, with the header of simple calls where the byte is none.
pub(crate) fn heading_of(name: &[u8], header: u8) -> Statement<'_>
    ensures { said_by result ≡ heading name.now header }
{
    let header = Header::try_from(header).unwrap_or(Header::Simple);
    Statement::Subhed(Part { at: 0, bytes: name }, header)
}

// How many bytes the statement that opens a definition takes, or what is wrong with the name and the header.
pub(crate) fn heading_size(name: &[u8], header: u8) -> Result<usize, Fault>
    ensures { MatchResult result
        (λ n. (n ≡ length (spell (heading name.now header))) × (heading_fault name.now header ≡ None))
        (λ f. heading_fault name.now header ≡ Some f) }
{
    if name.len() > LONGEST_NAME {
        return Err(Fault::TooLong);
    }
    Header::try_from(header)?;
    lawful_size(&heading_of(name, header))
}
