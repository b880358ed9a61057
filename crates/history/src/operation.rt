// The operations of a history.
use statement::types::Statement;

// What a writer may be asked to do.
#[derive(Clone, Copy, Debug, PartialEq, Eq)]
pub enum Operation<'a> {
    Picture,
    Definition { name: &'a [u8], header: u8 },
    Write(Statement<'a>),
    Close,
}
