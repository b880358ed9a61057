use crate::reading::is_unread;

#[test]
fn other_names_and_arguments_are_not_read(rt: HostRuntime) {
    assert!(rt; is_unread(b""));
    assert!(rt; is_unread(b"NUL"));
    assert!(rt; is_unread(b"erase"));
    assert!(rt; is_unread(b"ERASE "));
    assert!(rt; is_unread(b"MOVEA 1"));
    assert!(rt; is_unread(b"MOVEA 1  2"));
    assert!(rt; is_unread(b"MOVEA 1 2 3"));
    assert!(rt; is_unread(b"SUBHED A 20"));
    assert!(rt; is_unread(b"SUBHED A c0"));
    assert!(rt; is_unread(b"INSTS A CODE AT 1 2"));
    assert!(rt; is_unread(b"INSTS A AT 1 2 AS \"X\""));
}

#[test]
fn other_forms_of_numbers_are_not_read(rt: HostRuntime) {
    assert!(rt; is_unread(b"MOVEA 01 2"));
    assert!(rt; is_unread(b"MOVEA +5 2"));
    assert!(rt; is_unread(b"MOVEA -0 2"));
    assert!(rt; is_unread(b"MOVEA 1 32768"));
    assert!(rt; is_unread(b"MOVEA -32769 1"));
    assert!(rt; is_unread(b"MOVEA 65536 1"));
    assert!(rt; is_unread(b"LINMOD 256"));
    assert!(rt; is_unread(b"LINMOD "));
}

#[test]
fn other_forms_of_strings_are_not_read(rt: HostRuntime) {
    assert!(rt; is_unread(b"TEXT AB"));
    assert!(rt; is_unread(b"TEXT \"AB"));
    assert!(rt; is_unread(b"TEXT \"AB\" "));
    assert!(rt; is_unread(b"TEXT \"A\"B\""));
    assert!(rt; is_unread(b"TEXT \"\\x41\""));
    assert!(rt; is_unread(b"TEXT \"\\x0D\""));
    assert!(rt; is_unread(b"TEXT \"\\n\""));
    assert!(rt; is_unread(b"TEXT \"\\x0\""));
    assert!(rt; is_unread(b"TEXT \"\x07\""));
}
