// Buffers and bodies at their limits.
use crate::answers::{numbered, part};
use statement::types::Statement;
use std::test::Fail;
use writer::opening::{ask, make};
use writer::state::Slip;
use writer::types::Refusal;

// Writes a picture of one text of three codes.
fn picture(buffer: &mut [u8]) -> Result<(), Refusal> {
    ask(buffer)?;
    let writer = make(buffer);
    writer.ask_picture()?;
    let mut picture = writer.open_picture();
    let answer = picture.write(Statement::Text(part(b"ABC")));
    let _writer = picture.close();
    answer
}

#[test]
fn buffers(rt: HostRuntime) -> Result<(), Fail> {
    // ERASE, a text of five bytes, and ENDPIC
    assert_eq!(rt; numbered(picture(&mut [0; 7])), Ok(()));
    assert_eq!(rt; numbered(picture(&mut [0; 6])), Err(21));
    assert_eq!(rt; numbered(picture(&mut [0; 1])), Err(21));
    let memory = vec![in rt.alloc(); 0u8; 16777217]?;
    assert_eq!(rt; numbered(ask(&memory)), Err(19));
    assert!(rt; memory.len() >= 16777216);
    assert_eq!(rt; numbered(ask(&memory[0..16777216])), Ok(()));
    Ok(())
}

// Writes a statement of as many bytes as the string has, and three more, or four from 128 on.
fn escape(definition: &mut Slip<'_>, bytes: &[u8]) -> Result<(), u8> {
    numbered(definition.write(Statement::Escdev(0, part(bytes))))
}

// The answers to statements of 512 bytes, of these bytes and of three bytes.
fn body(second: &[u8]) -> Result<[Result<(), u8>; 3], Refusal> {
    let mut buffer = [0; 2048];
    ask(&buffer)?;
    let writer = make(&mut buffer);
    writer.ask_definition(b"A", 0x40)?;
    let mut definition = writer.open_definition(b"A", 0x40);
    let answers = [
        escape(&mut definition, &[0; 508]),
        escape(&mut definition, second),
        escape(&mut definition, &[]),
    ];
    let _writer = definition.close();
    Ok(answers)
}

#[test]
fn bodies(rt: HostRuntime) {
    let bytes = [0; 509];
    // 512 and 512 bytes are 1,024
    assert_eq!(rt; body(&bytes[0..508]), Ok([Ok(()), Ok(()), Err(8)]));
    // 512, 509 and 3 are 1,024; 512, 510 and 3 are 1,025
    assert_eq!(rt; body(&bytes[0..505]), Ok([Ok(()), Ok(()), Ok(())]));
    assert_eq!(rt; body(&bytes[0..506]), Ok([Ok(()), Ok(()), Err(8)]));
    // 512 and 513 are 1,025; 512 and 3 are fewer
    assert_eq!(rt; body(&bytes), Ok([Ok(()), Err(8), Ok(())]));
}
