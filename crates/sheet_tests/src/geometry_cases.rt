// Places and lines, worked out by hand.
use geometry::{Line, Point, Side, pixel_of};
use mark::LineMode;
use std::test::Fail;

// A side, a coordinate, and how many pixels lie before it.
const PLACES: [(u16, i16, i32); 25] = [
    (8, -32768, -4),
    (8, -16385, -1),
    (8, -16384, 0),
    (8, -12289, 0),
    (8, -12288, 1),
    (8, 0, 4),
    (8, 16383, 7),
    (8, 16384, 8),
    (9, -16385, -1),
    (9, -16384, 0),
    (9, -12744, 0),
    (9, -12743, 1),
    (9, 0, 4),
    (9, 16383, 8),
    (512, -16385, -1),
    (512, -16384, 0),
    (512, -1, 255),
    (512, 0, 256),
    (512, 16383, 511),
    (2048, -16385, -1),
    (2048, -16369, 0),
    (2048, -16368, 1),
    (2048, 0, 1024),
    (2048, 16383, 2047),
    (2048, 32767, 3071),
];

#[test]
fn points_go_to_their_pixels(rt: HostRuntime) -> Result<(), Fail> {
    for (pixels, v, place) in PLACES {
        let side = Side::new(pixels).ok_or_else(|| Fail::new("no such side"))?;
        let row = pixels as i64 - 1 - place as i64;
        assert_eq!(rt; pixel_of(side, Point { x: v, y: 0 }).0, place);
        assert_eq!(rt; pixel_of(side, Point { x: 0, y: v }).1 as i64, row);
    }
    Ok(())
}

fn at(x: i16, y: i16) -> Point {
    Point { x, y }
}

// Lines at side 8: the ends, and the pixels of the points 0 to 4, of which those past the line's end are its end.
// The pixel of (-16384, 12288) is (0, 0), and pixels lie 4096 apart.
fn lines() -> [(Point, Point, [(i32, i32); 5]); 4] {
    [
        (
            at(-16384, 12288),
            at(0, 4096),
            [(0, 0), (1, 1), (2, 1), (3, 2), (4, 2)],
        ),
        (
            at(0, 4096),
            at(-16384, 12288),
            [(4, 2), (3, 2), (2, 1), (1, 1), (0, 0)],
        ),
        (
            at(-16384, 12288),
            at(-12288, 0),
            [(0, 0), (0, 1), (1, 2), (1, 3), (1, 3)],
        ),
        (
            at(-8192, 4096),
            at(-8192, 4096),
            [(2, 2), (2, 2), (2, 2), (2, 2), (2, 2)],
        ),
    ]
}

#[test]
fn lines_have_their_points(rt: HostRuntime) -> Result<(), Fail> {
    let side = Side::new(8).ok_or_else(|| Fail::new("no side 8"))?;
    for (from, to, points) in lines() {
        let line = Line::between(side, from, to);
        for (k, point) in points.into_iter().enumerate() {
            assert_eq!(rt; line.point(k as u32), point);
        }
    }
    Ok(())
}

// A point's number, and whether a dashed and a dotted line ink it.
const MODES: [(u32, bool, bool); 10] = [
    (0, true, true),
    (1, true, false),
    (3, true, false),
    (4, true, true),
    (7, true, false),
    (8, false, true),
    (11, false, false),
    (12, true, true),
    (19, true, false),
    (20, false, true),
];

#[test]
fn modes_ink_their_points(rt: HostRuntime) {
    for (k, dashed, dotted) in MODES {
        assert!(rt; LineMode::Solid.inks(k));
        assert_eq!(rt; LineMode::Dashed.inks(k), dashed);
        assert_eq!(rt; LineMode::Dotted.inks(k), dotted);
    }
}
