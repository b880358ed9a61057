use encoding::spell::{spell, spelling_of};
use spelling::refusal::Unspelt;
use statement::types::{Header, Part, Statement, Tail};
use std::test::Fail;

// A text that is too long by one.
static LONG: [u8; 513] = [65; 513];

// A part of a statement that is made here.
fn part(bytes: &[u8]) -> Part<'_> {
    bytes.into()
}

// A statement is spelt so, by itself and into a buffer, and the bytes after it stay.
fn spells(statement: Statement<'_>, bytes: &[u8]) -> Result<(), Fail> {
    let mut buffer = [0xEEu8; 200];
    let n = spell(statement, &mut buffer)?;
    let spelling = spelling_of(statement)?;
    if spelling.as_slice() != bytes {
        return Err(Fail::new("another spelling"));
    }
    match buffer.split_at_checked(n) {
        Some((front, [0xEE, ..])) if front == bytes => Ok(()),
        _ => Err(Fail::new("other bytes")),
    }
}

// A statement is refused under a number, and no byte is altered.
fn refuses(statement: Statement<'_>, room: usize, number: u8) -> Result<(), Fail> {
    let mut buffer = [0xEEu8; 600];
    let Some(lent) = buffer.get_mut(..room) else {
        return Err(Fail::new("no such room"));
    };
    if spell(statement, lent).map_err(Unspelt::number) != Err(number) {
        return Err(Fail::new("another answer"));
    }
    if buffer.iter().any(|b| *b != 0xEE) {
        return Err(Fail::new("a byte is altered"));
    }
    Ok(())
}

#[test]
fn statements_are_spelt() -> Result<(), Fail> {
    spells(Statement::Null, &[0])?;
    spells(
        Statement::Movea(-16384, 16383),
        &[2, 0xC0, 0x00, 0x3F, 0xFF],
    )?;
    spells(Statement::Dotr(-1, -32767), &[7, 0xFF, 0xFF, 0x80, 0x01])?;
    spells(Statement::Textr(part(b"AB")), &[9, 2, 65, 66])?;
    spells(Statement::Escdev(7, part(&[200])), &[11, 7, 1, 200])?;
    spells(Statement::Setint(3), &[13, 3])?;
    spells(
        Statement::Subhed(part(b"A1"), Header::Both),
        &[15, 2, 65, 49, 1, 0xC0],
    )
}

#[test]
fn calls_are_spelt() -> Result<(), Fail> {
    let name = part(b"A");
    let bare = Tail::Coded {
        as_name: None,
        at: None,
    };
    let full = Tail::Coded {
        as_name: Some(part(b"")),
        at: Some((5, -6)),
    };
    spells(Statement::Insts(name, Tail::Empty), &[17, 1, 65, 0])?;
    spells(Statement::Insts(name, bare), &[17, 1, 65, 1, 0])?;
    spells(
        Statement::Insts(name, full),
        &[17, 1, 65, 6, 0xC0, 0, 0, 5, 0xFF, 0xFA],
    )
}

#[test]
fn faults_are_refused() -> Result<(), Fail> {
    let tail = Tail::Coded {
        as_name: Some(part(b"ABCDEFGHI")),
        at: Some((16384, 0)),
    };
    refuses(Statement::Text(part(&LONG)), 600, 4)?;
    refuses(Statement::Text(part(&[200])), 0, 5)?;
    refuses(Statement::Movea(16384, 0), 600, 6)?;
    refuses(Statement::Subhed(part(b""), Header::Full), 600, 5)?;
    refuses(Statement::Insts(part(b"ab"), tail), 600, 7)?;
    refuses(Statement::Movea(1, 2), 4, 21)
}
