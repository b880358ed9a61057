// A statement or more of each code, whole at its last byte.
use crate::fronts::is_wanting_to_its_end;
use parsing::read::read;
use statement::types::{Header, Home, Part, Standing, Statement, Tail};

const OUTSIDE: Standing = Standing::Outside;

const PICTURE: Standing = Standing::Picture;

const DEFINITION: Standing = Standing::Definition(Home::Outside);

const IN_PICTURE: Standing = Standing::Definition(Home::Picture);

// The bytes of a statement, what it says, and where one stands after it.
struct Sample {
    standing: Standing,
    bytes: &'static [u8],
    says: Statement<'static>,
    next: Standing,
}

#[rattlefmt::skip]
static SAMPLES: [Sample; 31] = [
    Sample { standing: PICTURE, bytes: &[0], says: Statement::Null, next: PICTURE },
    Sample { standing: DEFINITION, bytes: &[0], says: Statement::Null, next: DEFINITION },
    Sample { standing: OUTSIDE, bytes: &[1], says: Statement::Erase, next: PICTURE },
    Sample { standing: PICTURE, bytes: &[2, 0x00, 0x01, 0xFF, 0xFE], says: Statement::Movea(1, -2), next: PICTURE },
    Sample { standing: PICTURE, bytes: &[2, 0xC0, 0x00, 0x3F, 0xFF], says: Statement::Movea(-16384, 16383), next: PICTURE },
    Sample { standing: PICTURE, bytes: &[3, 0x80, 0x01, 0x7F, 0xFF], says: Statement::Mover(-32767, 32767), next: PICTURE },
    Sample { standing: PICTURE, bytes: &[4, 0x01, 0x00, 0x00, 0x02], says: Statement::Drawa(256, 2), next: PICTURE },
    Sample { standing: DEFINITION, bytes: &[5, 0xFF, 0xFF, 0x40, 0x00], says: Statement::Drawr(-1, 16384), next: DEFINITION },
    Sample { standing: PICTURE, bytes: &[6, 0, 0, 0, 0], says: Statement::Dota(0, 0), next: PICTURE },
    Sample { standing: PICTURE, bytes: &[7, 0xBF, 0xFF, 0x00, 0x05], says: Statement::Dotr(-16385, 5), next: PICTURE },
    Sample { standing: PICTURE, bytes: &[8, 2, b'a', 127], says: Statement::Text(Part { at: 2, bytes: &[97, 127] }), next: PICTURE },
    Sample { standing: PICTURE, bytes: &[9, 0], says: Statement::Textr(Part { at: 2, bytes: &[] }), next: PICTURE },
    Sample { standing: PICTURE, bytes: &[10], says: Statement::Endpic, next: OUTSIDE },
    Sample { standing: PICTURE, bytes: &[11, 9, 2, 0x80, 0xFF], says: Statement::Escdev(9, Part { at: 3, bytes: &[0x80, 0xFF] }), next: PICTURE },
    Sample { standing: PICTURE, bytes: &[12, 255], says: Statement::Linmod(255), next: PICTURE },
    Sample { standing: PICTURE, bytes: &[13, 0], says: Statement::Setint(0), next: PICTURE },
    Sample { standing: PICTURE, bytes: &[14, 1, 10], says: Statement::Texto(Part { at: 2, bytes: &[10] }), next: PICTURE },
    Sample { standing: OUTSIDE, bytes: &[15, 1, b'A', 1, 0x80], says: Statement::Subhed(Part { at: 2, bytes: &[65] }, Header::Simple), next: DEFINITION },
    Sample { standing: PICTURE, bytes: &[15, 8, b'A', b'B', b'M', b'Y', b'Z', b'0', b'5', b'9', 1, 0x40], says: Statement::Subhed(Part { at: 2, bytes: b"ABMYZ059" }, Header::Full), next: IN_PICTURE },
    Sample { standing: PICTURE, bytes: &[15, 1, b'9', 1, 0xC0], says: Statement::Subhed(Part { at: 2, bytes: &[57] }, Header::Both), next: IN_PICTURE },
    Sample { standing: DEFINITION, bytes: &[16], says: Statement::Subend, next: OUTSIDE },
    Sample { standing: IN_PICTURE, bytes: &[16], says: Statement::Subend, next: PICTURE },
    Sample { standing: PICTURE, bytes: &[17, 1, b'A', 0], says: Statement::Insts(Part { at: 2, bytes: &[65] }, Tail::Empty), next: PICTURE },
    Sample { standing: PICTURE, bytes: &[17, 1, b'A', 1, 0x00], says: Statement::Insts(Part { at: 2, bytes: &[65] }, Tail::Coded { as_name: None, at: None }), next: PICTURE },
    Sample { standing: IN_PICTURE, bytes: &[17, 1, b'A', 5, 0x40, 0, 1, 0, 2], says: Statement::Insts(Part { at: 2, bytes: &[65] }, Tail::Coded { as_name: None, at: Some((1, 2)) }), next: IN_PICTURE },
    Sample { standing: PICTURE, bytes: &[17, 2, b'A', b'B', 2, 0x80, 0], says: Statement::Insts(Part { at: 2, bytes: &[65, 66] }, Tail::Coded { as_name: Some(Part { at: 7, bytes: &[] }), at: None }), next: PICTURE },
    Sample { standing: PICTURE, bytes: &[17, 1, b'A', 6, 0xC0, 0, 0xC0, 0x00, 0x3F, 0xFF], says: Statement::Insts(Part { at: 2, bytes: &[65] }, Tail::Coded { as_name: Some(Part { at: 6, bytes: &[] }), at: Some((-16384, 16383)) }), next: PICTURE },
    Sample { standing: PICTURE, bytes: &[17, 1, b'A', 14, 0xC0, 8, b'A', b'B', b'C', b'D', b'E', b'F', b'G', b'1', 0xFF, 0xFF, 0, 7], says: Statement::Insts(Part { at: 2, bytes: &[65] }, Tail::Coded { as_name: Some(Part { at: 6, bytes: b"ABCDEFG1" }), at: Some((-1, 7)) }), next: PICTURE },
    Sample { standing: PICTURE, bytes: &[18], says: Statement::Mark, next: PICTURE },
    Sample { standing: DEFINITION, bytes: &[19], says: Statement::Movemk, next: DEFINITION },
    Sample { standing: PICTURE, bytes: &[20], says: Statement::Drawmk, next: PICTURE },
];

#[test]
fn whole_at_the_last_byte(rt: HostRuntime) {
    for row in &SAMPLES {
        assert!(rt; is_wanting_to_its_end(row.standing, row.bytes));
        assert_eq!(rt; read(row.standing, row.bytes), Ok(row.says));
        assert_eq!(rt; row.standing.after(&row.says), row.next);
    }
}
