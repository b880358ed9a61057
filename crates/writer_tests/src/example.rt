// A stream of one picture, as a user of the library writes it.
use crate::answers::part;
use statement::types::Statement;
use std::test::Fail;
use writer::opening::{ask, make};
use writer::state::Slip;
use writer::types::Refusal;

// Writes a line and a text.
fn draw(picture: &mut Slip<'_>) -> Result<(), Refusal> {
    picture.write(Statement::Movea(0, 0))?;
    picture.write(Statement::Drawa(100, 100))?;
    picture.write(Statement::Text(part(b"HELLO")))
}

// Writes a stream of one picture, and gives its length.
fn stream(buffer: &mut [u8]) -> Result<usize, Refusal> {
    ask(buffer)?;
    let writer = make(buffer);
    writer.ask_picture()?;
    let mut picture = writer.open_picture();
    let answer = draw(&mut picture);
    let writer = picture.close();
    answer?;
    Ok(writer.used())
}

#[test]
fn line_and_text(rt: HostRuntime) -> Result<(), Fail> {
    let mut buffer = [99; 20];
    assert_eq!(rt; stream(&mut buffer), Ok(19));
    let expected = [
        1, 2, 0, 0, 0, 0, 4, 0, 100, 0, 100, 8, 5, 72, 69, 76, 76, 79, 10, 99,
    ];
    assert_eq!(rt; buffer, expected);
    Ok(())
}
