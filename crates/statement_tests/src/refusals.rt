// Refusals, each at its exact byte.
use crate::fronts::is_wanting_to_its_end;
use parsing::read::read;
use statement::types::{Home, Standing, Stop};
use std::test::Fail;

const OUTSIDE: Standing = Standing::Outside;

const PICTURE: Standing = Standing::Picture;

const DEFINITION: Standing = Standing::Definition(Home::Outside);

// Bytes whose last one is refused under a number, and none before it.
struct Refusal {
    standing: Standing,
    bytes: &'static [u8],
    number: u8,
}

#[rattlefmt::skip]
static REFUSALS: [Refusal; 59] = [
    // 1: a code above 20, wherever it stands
    Refusal { standing: OUTSIDE, bytes: &[21], number: 1 },
    Refusal { standing: PICTURE, bytes: &[255], number: 1 },
    Refusal { standing: DEFINITION, bytes: &[21], number: 1 },
    // 2: a code that may not come here
    Refusal { standing: OUTSIDE, bytes: &[0], number: 2 },
    Refusal { standing: OUTSIDE, bytes: &[10], number: 2 },
    Refusal { standing: OUTSIDE, bytes: &[16], number: 2 },
    Refusal { standing: OUTSIDE, bytes: &[17], number: 2 },
    Refusal { standing: PICTURE, bytes: &[1], number: 2 },
    Refusal { standing: PICTURE, bytes: &[16], number: 2 },
    Refusal { standing: DEFINITION, bytes: &[1], number: 2 },
    Refusal { standing: DEFINITION, bytes: &[10], number: 2 },
    Refusal { standing: DEFINITION, bytes: &[15], number: 2 },
    // 3: a count of two bytes below 128, before 4
    Refusal { standing: PICTURE, bytes: &[8, 0x80, 0x7F], number: 3 },
    Refusal { standing: PICTURE, bytes: &[9, 0x80, 0x00], number: 3 },
    Refusal { standing: PICTURE, bytes: &[11, 0, 0x80, 0x7F], number: 3 },
    Refusal { standing: OUTSIDE, bytes: &[15, 0x80, 0x7F], number: 3 },
    Refusal { standing: PICTURE, bytes: &[17, 0x80, 0x01], number: 3 },
    // 4: a string over 512, a name over 8
    Refusal { standing: PICTURE, bytes: &[8, 0x82, 0x01], number: 4 },
    Refusal { standing: PICTURE, bytes: &[14, 0xFF, 0xFF], number: 4 },
    Refusal { standing: PICTURE, bytes: &[11, 0, 0x82, 0x01], number: 4 },
    Refusal { standing: OUTSIDE, bytes: &[15, 9], number: 4 },
    Refusal { standing: OUTSIDE, bytes: &[15, 0x80, 0x80], number: 4 },
    Refusal { standing: PICTURE, bytes: &[17, 9], number: 4 },
    Refusal { standing: PICTURE, bytes: &[17, 127], number: 4 },
    // 7 at once: the byte after the name of a definition, the length of a tail
    Refusal { standing: OUTSIDE, bytes: &[15, 1, b'A', 0], number: 7 },
    Refusal { standing: OUTSIDE, bytes: &[15, 1, b'a', 2], number: 7 },
    Refusal { standing: PICTURE, bytes: &[17, 1, b'A', 15], number: 7 },
    Refusal { standing: PICTURE, bytes: &[17, 0, 255], number: 7 },
    // 7 at the end: the header, before 5
    Refusal { standing: OUTSIDE, bytes: &[15, 1, b'A', 1, 0x00], number: 7 },
    Refusal { standing: PICTURE, bytes: &[15, 1, b'a', 1, 0x81], number: 7 },
    // 7 at the end: other bits, too short, too long, a long AS name, an AS name that leaves no room, before 6 and 5
    Refusal { standing: PICTURE, bytes: &[17, 1, b'A', 1, 0x20], number: 7 },
    Refusal { standing: PICTURE, bytes: &[17, 1, b'a', 1, 0x01], number: 7 },
    Refusal { standing: PICTURE, bytes: &[17, 1, b'A', 1, 0x40], number: 7 },
    Refusal { standing: PICTURE, bytes: &[17, 1, b'A', 4, 0x40, 0, 0, 0], number: 7 },
    Refusal { standing: PICTURE, bytes: &[17, 1, b'A', 6, 0x40, 0x40, 0, 0, 0, 0], number: 7 },
    Refusal { standing: PICTURE, bytes: &[17, 1, b'A', 2, 0x00, 0], number: 7 },
    Refusal { standing: PICTURE, bytes: &[17, 1, b'A', 1, 0x80], number: 7 },
    Refusal { standing: PICTURE, bytes: &[17, 1, b'A', 11, 0x80, 9, b'A', b'A', b'A', b'A', b'A', b'A', b'A', b'A', b'A'], number: 7 },
    Refusal { standing: PICTURE, bytes: &[17, 1, b'A', 2, 0x80, 1], number: 7 },
    Refusal { standing: PICTURE, bytes: &[17, 1, b'A', 3, 0x80, 0, b'A'], number: 7 },
    Refusal { standing: PICTURE, bytes: &[17, 1, b'A', 5, 0xC0, 0, 0, 0, 0], number: 7 },
    // 6: a coordinate, before 5
    Refusal { standing: PICTURE, bytes: &[2, 0x40, 0x00, 0, 0], number: 6 },
    Refusal { standing: PICTURE, bytes: &[4, 0, 0, 0xBF, 0xFF], number: 6 },
    Refusal { standing: PICTURE, bytes: &[6, 0x80, 0x00, 0, 0], number: 6 },
    Refusal { standing: PICTURE, bytes: &[3, 0x80, 0x00, 0, 0], number: 6 },
    Refusal { standing: DEFINITION, bytes: &[7, 0, 0, 0x80, 0x00], number: 6 },
    Refusal { standing: PICTURE, bytes: &[17, 1, b'A', 5, 0x40, 0, 0, 0x40, 0x00], number: 6 },
    Refusal { standing: PICTURE, bytes: &[17, 1, b'a', 6, 0xC0, 0, 0xBF, 0xFF, 0, 0], number: 6 },
    // 5: a text code above 127, a wrong or missing character of a name
    Refusal { standing: PICTURE, bytes: &[8, 2, 0x80, b'A'], number: 5 },
    Refusal { standing: PICTURE, bytes: &[9, 1, 0xFF], number: 5 },
    Refusal { standing: PICTURE, bytes: &[14, 3, b'A', b'B', 0x80], number: 5 },
    Refusal { standing: OUTSIDE, bytes: &[15, 0, 1, 0x80], number: 5 },
    Refusal { standing: OUTSIDE, bytes: &[15, 2, b'A', b'a', 1, 0x80], number: 5 },
    Refusal { standing: OUTSIDE, bytes: &[15, 1, b'/', 1, 0x40], number: 5 },
    Refusal { standing: OUTSIDE, bytes: &[15, 1, b':', 1, 0xC0], number: 5 },
    Refusal { standing: PICTURE, bytes: &[17, 0, 0], number: 5 },
    Refusal { standing: PICTURE, bytes: &[17, 1, b'@', 0], number: 5 },
    Refusal { standing: PICTURE, bytes: &[17, 1, b'[', 1, 0x00], number: 5 },
    Refusal { standing: PICTURE, bytes: &[17, 1, b'A', 3, 0x80, 1, b'z'], number: 5 },
];

#[test]
fn refused_at_the_last_byte(rt: HostRuntime) -> Result<(), Fail> {
    for row in &REFUSALS {
        assert!(rt; is_wanting_to_its_end(row.standing, row.bytes));
        let Err(Stop::Wrong(fault)) = read(row.standing, row.bytes) else {
            return Err(Fail::new("not refused"));
        };
        assert_eq!(rt; fault.number(), row.number);
    }
    Ok(())
}
