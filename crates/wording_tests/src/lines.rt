use crate::reading::reads;

#[test]
fn codes_alone_are_read(rt: HostRuntime) {
    assert!(rt; reads(b"NULL", Ok(&[0])));
    assert!(rt; reads(b"ERASE", Ok(&[1])));
    assert!(rt; reads(b"ENDPIC", Ok(&[10])));
    assert!(rt; reads(b"SUBEND", Ok(&[16])));
    assert!(rt; reads(b"MARK", Ok(&[18])));
    assert!(rt; reads(b"MOVEMK", Ok(&[19])));
    assert!(rt; reads(b"DRAWMK", Ok(&[20])));
}

#[test]
fn coordinates_and_values_are_read(rt: HostRuntime) {
    assert!(rt; reads(b"MOVEA -16384 100", Ok(&[2, 0xC0, 0x00, 0x00, 0x64])));
    assert!(rt; reads(b"MOVER 0 -1", Ok(&[3, 0x00, 0x00, 0xFF, 0xFF])));
    assert!(rt; reads(b"DRAWA 1 2", Ok(&[4, 0, 1, 0, 2])));
    assert!(rt; reads(b"DRAWR -32767 32767", Ok(&[5, 0x80, 0x01, 0x7F, 0xFF])));
    assert!(rt; reads(b"DOTA 5 6", Ok(&[6, 0, 5, 0, 6])));
    assert!(rt; reads(b"DOTR 10 200", Ok(&[7, 0, 10, 0, 200])));
    assert!(rt; reads(b"LINMOD 3", Ok(&[12, 3])));
    assert!(rt; reads(b"SETINT 255", Ok(&[13, 255])));
}

#[test]
fn strings_are_read(rt: HostRuntime) {
    assert!(rt; reads(b"TEXT \"AB\\x0d\"", Ok(&[8, 3, 65, 66, 13])));
    assert!(rt; reads(b"TEXTR \"\"", Ok(&[9, 0])));
    assert!(rt; reads(b"TEXTO \" \\x5c\\x7f\"", Ok(&[14, 3, 32, 92, 127])));
    assert!(rt; reads(b"ESCDEV 7 \"\\x22\\x80\"", Ok(&[11, 7, 2, 34, 128])));
}

#[test]
fn names_are_read(rt: HostRuntime) {
    assert!(rt; reads(b"SUBHED A1 80", Ok(&[15, 2, 65, 49, 1, 0x80])));
    assert!(rt; reads(b"SUBHED A 40", Ok(&[15, 1, 65, 1, 0x40])));
    assert!(rt; reads(b"SUBHED A C0", Ok(&[15, 1, 65, 1, 0xC0])));
    assert!(rt; reads(b"INSTS A", Ok(&[17, 1, 65, 0])));
    assert!(rt; reads(b"INSTS A CODE", Ok(&[17, 1, 65, 1, 0])));
    assert!(rt; reads(b"INSTS A AS \"\"", Ok(&[17, 1, 65, 2, 0x80, 0])));
    assert!(rt;
        reads(
            b"INSTS A AT 5 -6",
            Ok(&[17, 1, 65, 5, 0x40, 0, 5, 0xFF, 0xFA])
        )
    );
    assert!(rt;
        reads(
            b"INSTS A AS \"X\" AT 5 6",
            Ok(&[17, 1, 65, 7, 0xC0, 1, 88, 0, 5, 0, 6])
        )
    );
}

#[test]
fn what_cannot_be_written_is_read(rt: HostRuntime) {
    assert!(rt; reads(b"MOVEA 16384 0", Err(6)));
    assert!(rt; reads(b"MOVER 0 -32768", Err(6)));
    assert!(rt; reads(b"TEXT \"\\x80\"", Err(5)));
    assert!(rt; reads(b"SUBHED a 80", Err(5)));
    assert!(rt; reads(b"INSTS ", Err(5)));
    assert!(rt; reads(b"INSTS ABCDEFGHI", Err(4)));
}
