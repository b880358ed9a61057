// Streams, and the openings of definitions.
use crate::answers::{numbered, part};
use history::operation::Operation;
use history::play::play;
use statement::types::{Statement, Tail};
use std::test::Fail;
use writer::opening::{ask, make};
use writer::types::Refusal;

#[test]
fn bytes(rt: HostRuntime) -> Result<(), Fail> {
    let operations = [
        Operation::Write(Statement::Mark),
        Operation::Definition {
            name: b"AB",
            header: 0x80,
        },
        Operation::Write(Statement::Drawr(1, -1)),
        Operation::Picture,
        Operation::Close,
        Operation::Picture,
        Operation::Write(Statement::Insts(part(b"AB"), Tail::Empty)),
    ];
    let mut buffer = [99; 20];
    assert_eq!(rt; play(&mut buffer, &operations), Ok(19));
    let expected = [
        15, 2, 65, 66, 1, 128, 5, 0, 1, 255, 255, 16, 1, 17, 2, 65, 66, 0, 10, 99,
    ];
    assert_eq!(rt; buffer, expected);
    Ok(())
}

// Asks for a definition.
fn heading(name: &[u8], header: u8) -> Result<(), Refusal> {
    let mut buffer = [0; 32];
    ask(&buffer)?;
    make(&mut buffer).ask_definition(name, header)
}

#[test]
fn headings(rt: HostRuntime) {
    assert_eq!(rt; numbered(heading(b"ABCDEF78", 0x40)), Ok(()));
    assert_eq!(rt; numbered(heading(b"abcdef789", 0x00)), Err(4));
    assert_eq!(rt; numbered(heading(b"a", 0x81)), Err(7));
    assert_eq!(rt; numbered(heading(b"", 0xC0)), Err(5));
}

// Asks for so many definitions of two-letter names, all different, and writes those accepted: the bytes written, and the last answer.
fn definitions(names: u8) -> Result<(usize, Result<(), u8>), Refusal> {
    let mut buffer = [0; 1024];
    ask(&buffer)?;
    let mut writer = make(&mut buffer);
    let mut last = Ok(());
    for i in 0..names {
        let name = [65 + i / 10, 48 + i % 10];
        last = writer.ask_definition(&name, 0x80);
        if last.is_ok() {
            writer = writer.open_definition(&name, 0x80).close();
        }
    }
    Ok((writer.used(), numbered(last)))
}

#[test]
fn names(rt: HostRuntime) {
    // each definition has seven bytes
    assert_eq!(rt; definitions(32), Ok((224, Ok(()))));
    assert_eq!(rt; definitions(33), Ok((224, Err(8))));
}
