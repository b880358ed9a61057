// Counts at their bounds.
use crate::fronts::is_wanting_to_its_end;
use parsing::read::read;
use statement::types::{Part, Standing, Statement};

// The bytes of a count, and what it counts.
struct Count {
    bytes: &'static [u8],
    n: usize,
}

static COUNTS: [Count; 7] = [
    Count {
        bytes: &[0x00],
        n: 0,
    },
    Count {
        bytes: &[0x01],
        n: 1,
    },
    Count {
        bytes: &[0x7F],
        n: 127,
    },
    Count {
        bytes: &[0x80, 0x80],
        n: 128,
    },
    Count {
        bytes: &[0x81, 0x00],
        n: 256,
    },
    Count {
        bytes: &[0x81, 0xFF],
        n: 511,
    },
    Count {
        bytes: &[0x82, 0x00],
        n: 512,
    },
];

#[test]
fn texts_end_where_they_are_counted_to(rt: HostRuntime) {
    for row in &COUNTS {
        let at = row.bytes.len() + 1;
        assert!(rt; at <= 3);
        assert!(rt; row.n <= 512);
        let mut bytes = [b'A'; 515];
        bytes[0] = 8;
        bytes[1..at].copy_from_slice(row.bytes);
        let bytes = &bytes[..at + row.n];
        let text = Part {
            at,
            bytes: &bytes[at..],
        };
        assert!(rt; is_wanting_to_its_end(Standing::Picture, bytes));
        assert_eq!(rt; read(Standing::Picture, bytes), Ok(Statement::Text(text)));
    }
}
