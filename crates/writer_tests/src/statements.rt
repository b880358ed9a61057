// Which statements are refused, and under which number.
use crate::answers::{numbered, part};
use statement::types::{Statement, Tail};
use std::test::Fail;
use writer::opening::{ask, make};
use writer::types::Refusal;

// The answer to a picture's first statement.
fn answer_to(statement: Statement<'_>) -> Result<(), Refusal> {
    let mut buffer = [0; 1024];
    ask(&buffer)?;
    let writer = make(&mut buffer);
    writer.ask_picture()?;
    let mut picture = writer.open_picture();
    let answer = picture.write(statement);
    let _writer = picture.close();
    answer
}

// Each statement is answered as it says beside it.
fn check_cases(cases: &[(Statement<'_>, Result<(), u8>)]) -> Result<(), Fail> {
    for (statement, told) in cases {
        if numbered(answer_to(*statement)) != *told {
            return Err(Fail::new("answered otherwise"));
        }
    }
    Ok(())
}

#[test]
fn texts() -> Result<(), Fail> {
    let text = [65; 513];
    check_cases(&[
        (Statement::Text(part(&text[0..512])), Ok(())),
        (Statement::Text(part(&text)), Err(4)),
        (Statement::Escdev(255, part(&text)), Err(4)),
        (Statement::Texto(part(&[0, 127])), Ok(())),
        (Statement::Textr(part(&[128])), Err(5)),
        (Statement::Escdev(0, part(&[255])), Ok(())),
    ])
}

#[test]
fn points() -> Result<(), Fail> {
    check_cases(&[
        (Statement::Text(part(&[])), Ok(())),
        (Statement::Movea(-16384, 16383), Ok(())),
        (Statement::Drawa(0, 16384), Err(6)),
        (Statement::Dota(-16385, 0), Err(6)),
        (Statement::Mover(-32767, 32767), Ok(())),
        (Statement::Drawr(0, -32768), Err(6)),
        (Statement::Erase, Err(2)),
        (Statement::Endpic, Err(2)),
        (Statement::Subend, Err(2)),
    ])
}

#[test]
fn calls() -> Result<(), Fail> {
    let short = Tail::Coded {
        as_name: Some(part(b"ABCDEFGH")),
        at: None,
    };
    let long = Tail::Coded {
        as_name: Some(part(b"ABCDEFGHI")),
        at: Some((16384, 0)),
    };
    check_cases(&[
        (Statement::Insts(part(b"ABCDEF78"), short), Ok(())),
        (Statement::Insts(part(b"ABCDEF789"), long), Err(4)),
        (Statement::Insts(part(b"a"), long), Err(7)),
        (Statement::Insts(part(b"a"), short), Err(5)),
    ])
}
