// The lettering: for every code from 32 to 126 a glyph of eight rows, each row five dots as the bits of a number.
#![tactic(auto)]

ghost use Rattle.std.specs.Prelude.{◌≡◌, ◌<◌, true, slice_index};
ghost use Rattle.font.specs.Glyphs.{drawing, rows, glyph_row, Lawful};

const FIRST: u8 = 32;

const LAST: u8 = 126;

const HEIGHT: u8 = 8;

// One constant table, a number to a row: the project fixes this form.
#[rattlefmt::skip]
const FONT: [u8; 760] = [
    0, 0, 0, 0, 0, 0, 0, 0,        // space
    4, 4, 4, 4, 4, 0, 4, 0,        // !
    10, 10, 10, 0, 0, 0, 0, 0,     // "
    10, 10, 31, 10, 31, 10, 10, 0, // #
    4, 15, 20, 14, 5, 30, 4, 0,    // $
    24, 25, 2, 4, 8, 19, 3, 0,     // %
    12, 18, 20, 8, 21, 18, 13, 0,  // &
    4, 4, 4, 0, 0, 0, 0, 0,        // '
    2, 4, 8, 8, 8, 4, 2, 0,        // (
    8, 4, 2, 2, 2, 4, 8, 0,        // )
    0, 4, 21, 14, 21, 4, 0, 0,     // *
    0, 4, 4, 31, 4, 4, 0, 0,       // +
    0, 0, 0, 0, 12, 4, 8, 0,       // ,
    0, 0, 0, 14, 0, 0, 0, 0,       // -
    0, 0, 0, 0, 0, 12, 12, 0,      // .
    1, 1, 2, 4, 8, 16, 16, 0,      // /
    14, 17, 19, 21, 25, 17, 14, 0, // 0
    4, 12, 20, 4, 4, 4, 31, 0,     // 1
    14, 17, 1, 2, 4, 8, 31, 0,     // 2
    14, 17, 1, 6, 1, 17, 14, 0,    // 3
    2, 6, 10, 18, 31, 2, 2, 0,     // 4
    31, 16, 30, 1, 1, 17, 14, 0,   // 5
    6, 8, 16, 30, 17, 17, 14, 0,   // 6
    31, 1, 2, 4, 8, 8, 8, 0,       // 7
    14, 17, 17, 14, 17, 17, 14, 0, // 8
    14, 17, 17, 15, 1, 2, 12, 0,   // 9
    0, 0, 12, 12, 0, 12, 12, 0,    // :
    0, 12, 12, 0, 12, 4, 8, 0,     // ;
    2, 4, 8, 16, 8, 4, 2, 0,       // <
    0, 0, 31, 0, 31, 0, 0, 0,      // =
    8, 4, 2, 1, 2, 4, 8, 0,        // >
    14, 17, 1, 2, 4, 0, 4, 0,      // ?
    14, 17, 23, 21, 23, 16, 15, 0, // @
    4, 10, 17, 17, 31, 17, 17, 0,  // A
    30, 17, 17, 30, 17, 17, 30, 0, // B
    14, 17, 16, 16, 16, 17, 14, 0, // C
    28, 18, 17, 17, 17, 18, 28, 0, // D
    31, 16, 16, 30, 16, 16, 31, 0, // E
    31, 16, 16, 30, 16, 16, 16, 0, // F
    14, 17, 16, 23, 17, 17, 14, 0, // G
    17, 17, 17, 31, 17, 17, 17, 0, // H
    14, 4, 4, 4, 4, 4, 14, 0,      // I
    7, 2, 2, 2, 2, 18, 12, 0,      // J
    17, 18, 20, 24, 20, 18, 17, 0, // K
    16, 16, 16, 16, 16, 16, 31, 0, // L
    17, 27, 21, 21, 17, 17, 17, 0, // M
    17, 17, 25, 21, 19, 17, 17, 0, // N
    14, 17, 17, 17, 17, 17, 14, 0, // O
    30, 17, 17, 30, 16, 16, 16, 0, // P
    14, 17, 17, 17, 21, 18, 13, 0, // Q
    30, 17, 17, 30, 20, 18, 17, 0, // R
    15, 16, 16, 14, 1, 1, 30, 0,   // S
    31, 4, 4, 4, 4, 4, 4, 0,       // T
    17, 17, 17, 17, 17, 17, 14, 0, // U
    17, 17, 17, 17, 10, 10, 4, 0,  // V
    17, 17, 17, 21, 21, 21, 10, 0, // W
    17, 17, 10, 4, 10, 17, 17, 0,  // X
    17, 17, 10, 4, 4, 4, 4, 0,     // Y
    31, 1, 2, 4, 8, 16, 31, 0,     // Z
    14, 8, 8, 8, 8, 8, 14, 0,      // [
    16, 16, 8, 4, 2, 1, 1, 0,      // backslash
    14, 2, 2, 2, 2, 2, 14, 0,      // ]
    4, 10, 17, 0, 0, 0, 0, 0,      // ^
    0, 0, 0, 0, 0, 0, 31, 0,       // _
    8, 4, 2, 0, 0, 0, 0, 0,        // `
    0, 0, 14, 1, 15, 17, 15, 0,    // a
    16, 16, 22, 25, 17, 17, 30, 0, // b
    0, 0, 14, 17, 16, 17, 14, 0,   // c
    1, 1, 13, 19, 17, 17, 15, 0,   // d
    0, 0, 14, 17, 31, 16, 14, 0,   // e
    6, 8, 30, 8, 8, 8, 8, 0,       // f
    0, 0, 15, 17, 15, 1, 14, 0,    // g
    16, 16, 22, 25, 17, 17, 17, 0, // h
    4, 0, 12, 4, 4, 4, 14, 0,      // i
    2, 0, 6, 2, 2, 18, 12, 0,      // j
    16, 16, 18, 20, 24, 20, 18, 0, // k
    12, 4, 4, 4, 4, 4, 3, 0,       // l
    0, 0, 26, 21, 21, 21, 21, 0,   // m
    0, 0, 22, 25, 17, 17, 17, 0,   // n
    0, 0, 14, 17, 17, 17, 14, 0,   // o
    0, 0, 30, 17, 17, 30, 16, 0,   // p
    0, 0, 15, 17, 17, 15, 1, 0,    // q
    0, 0, 22, 25, 16, 16, 16, 0,   // r
    0, 0, 15, 16, 14, 1, 30, 0,    // s
    0, 8, 30, 8, 8, 9, 6, 0,       // t
    0, 0, 17, 17, 17, 19, 13, 0,   // u
    0, 0, 17, 17, 17, 10, 4, 0,    // v
    0, 0, 17, 17, 21, 21, 10, 0,   // w
    0, 0, 17, 10, 4, 10, 17, 0,    // x
    0, 0, 17, 17, 15, 1, 14, 0,    // y
    0, 0, 31, 2, 4, 8, 31, 0,      // z
    3, 4, 4, 8, 4, 4, 3, 0,        // {
    4, 4, 4, 4, 4, 4, 4, 0,        // |
    24, 4, 4, 2, 4, 4, 24, 0,      // }
    0, 0, 8, 21, 2, 0, 0, 0,       // ~
];

// The dots of a row of a code's glyph: the bit worth 16 is the leftmost. A code or a row that the font lacks has none.
pub fn glyph_row(code: u8, row: u8) -> u8
    ensures value { result ≡ glyph_row code row }
    ensures small { result < 32 }
{
    if !(FIRST..=LAST).contains(&code) || row >= HEIGHT {
        return 0;
    }
    table_row((code - FIRST) as usize * HEIGHT as usize + row as usize)
}

// The row at a place of the table: five dots at most.
#[tactic(auto, unfolding(crate::specs::Glyphs::rows))]
fn table_row(place: usize) -> u8
    requires { place < 760 }
    ensures value { result ≡ slice_index rows place }
    ensures small { result < 32 }
{
    FONT[place]
}

// Says that the lettering keeps its rules, which its contract states and the check proves.
pub fn lettering_is_lawful() -> bool
    ensures answer { result ≡ true }
    ensures rules { Lawful }
{
    true
}

#[cfg(test)]
mod tests {
    use super::*;

    #[test]
    fn rows_are_as_drawn(rt: HostRuntime) {
        let capital = [
            0b00100, 0b01010, 0b10001, 0b10001, 0b11111, 0b10001, 0b10001, 0,
        ];
        let tailed = [0, 0, 0b01111, 0b10001, 0b01111, 0b00001, 0b01110, 0];
        for (row, (upright, hung)) in capital.into_iter().zip(tailed).enumerate() {
            assert_eq!(rt; glyph_row(b'A', row as u8), upright);
            assert_eq!(rt; glyph_row(b'g', row as u8), hung);
            assert_eq!(rt; glyph_row(b' ', row as u8), 0);
        }
        assert!(rt; lettering_is_lawful());
    }

    #[test]
    fn no_dots_outside_the_font(rt: HostRuntime) {
        for (code, row) in [
            (0, 0),
            (31, 3),
            (127, 0),
            (255, 7),
            (b'A', 8),
            (b'~', 8),
            (b'g', 255),
        ] {
            assert_eq!(rt; glyph_row(code, row), 0);
        }
    }
}
