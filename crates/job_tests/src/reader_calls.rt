// Numbers that no job's stream shows, by the calls that do.
use geometry::Point;
use job::{Refusal, draw_job};
use mark::LineMode;
use printing::print;
use raster::BitSheet;
use reader::answers::Refused;
use reader::reader::Reader;
use sheet::Sheet;
use std::alloc::Global;
use std::test::Fail;
use strokes::{Kind, Stroke};

// The number under which a reader answers, if it refuses.
fn numbered(answer: Result<(), Refused>) -> Result<(), u8> {
    answer.map_err(Refused::number)
}

// The number and the place of a reader's refusal.
fn refusal(reader: &Reader) -> Option<(u8, usize)> {
    let refusal = reader.report().life.refusal()?;
    Some((refusal.fault.number(), refusal.place))
}

// An empty definition of six bytes.
const DEFINITION: [u8; 6] = [15, 1, b'A', 1, 0x40, 16];

// Feeds empty definitions until more than 16,777,216 bytes were fed.
fn feed_on(reader: &mut Reader, sheet: &mut BitSheet<'_>) {
    for _ in 0..2_796_204 {
        let _ = reader.feed(sheet, &DEFINITION);
    }
}

#[test]
fn streams_too_long(rt: HostRuntime) -> Result<(), Fail> {
    let mut memory = [0u8; 8];
    assert!(rt; raster::ask(8, &memory).is_ok());
    let mut sheet = raster::make(8, &mut memory);
    // 2,796,202 definitions are 16,777,212 bytes, so the next one's fifth byte is refused
    let mut reader = Reader::new(rt.alloc())?;
    feed_on(&mut reader, &mut sheet);
    assert_eq!(rt; refusal(&reader), Some((15, 16_777_212)));
    assert_eq!(rt; reader.report().read, 16_777_216);
    // after 28 bytes more a definition would begin at the place that is refused
    let mut reader = Reader::new(rt.alloc())?;
    for _ in 0..4 {
        assert_eq!(rt;
            numbered(reader.feed(&mut sheet, &[15, 2, b'A', b'B', 1, 0x40, 16])),
            Ok(())
        );
    }
    feed_on(&mut reader, &mut sheet);
    assert_eq!(rt; refusal(&reader), Some((15, 16_777_216)));
    assert_eq!(rt; reader.report().read, 16_777_216);
    Ok(())
}

// A record of the stroke table that is not used yet.
const FREE: Stroke = Stroke {
    kind: Kind::Dot,
    from: Point { x: 0, y: 0 },
    to: Point { x: 0, y: 0 },
    mode: LineMode::Solid,
    code: 0,
};

#[test]
fn sheets_that_are_full(rt: HostRuntime) -> Result<(), Fail> {
    let mut records = [FREE; 1];
    assert!(rt; strokes::ask(8, &records).is_ok());
    let mut table = strokes::make(8, &mut records);
    let mut reader = Reader::new(rt.alloc())?;
    // ERASE, DOTA 5 6, DOTA 7 8: the second dot finds no record
    assert_eq!(rt;
        numbered(reader.feed(&mut table, &[1, 6, 0, 5, 0, 6, 6, 0, 7, 0, 8, 10])),
        Err(17)
    );
    let mut out = [0u8; 300];
    let Ok(count) = print(&table, &reader.report(), &mut out) else {
        return Err(Fail::new("too short"));
    };
    let line = b"read 11 pictures 0 statements 2 beam 5 6 fault 17 at 6 in 0 0\n";
    assert!(rt; out.get(72..count) == Some(line.as_slice()));
    // the refusal is given again
    assert_eq!(rt; numbered(reader.feed(&mut table, &[1])), Err(17));
    assert_eq!(rt; numbered(reader.finish()), Err(17));
    assert_eq!(rt; reader.report().read, 11);
    Ok(())
}

#[test]
fn readers_that_are_closed(rt: HostRuntime) -> Result<(), Fail> {
    let mut memory = [0u8; 8];
    assert!(rt; raster::ask(8, &memory).is_ok());
    let mut sheet = raster::make(8, &mut memory);
    let mut reader = Reader::new(rt.alloc())?;
    assert_eq!(rt; numbered(reader.feed(&mut sheet, &[1, 10])), Ok(()));
    assert_eq!(rt; numbered(reader.finish()), Ok(()));
    assert_eq!(rt; numbered(reader.feed(&mut sheet, &[1])), Err(20));
    assert_eq!(rt; numbered(reader.finish()), Ok(()));
    assert_eq!(rt; reader.report().read, 2);
    assert_eq!(rt; reader.report().pictures, 1);
    Ok(())
}

// How many bytes a job prints into a buffer, or the number under which it is refused.
fn drawn(heap: Global, job: &[u8], out: &mut [u8]) -> Result<Result<usize, u8>, Fail> {
    let mut reader = Reader::new(heap)?;
    Ok(draw_job(&mut reader, job, out).map_err(Refusal::number))
}

#[test]
fn buffers_too_short(rt: HostRuntime) -> Result<(), Fail> {
    // an empty stream prints 72 bytes of page and 60 of report
    let mut short = [7u8; 131];
    assert_eq!(rt; drawn(rt.alloc(), &[0, 8], &mut short)?, Err(21));
    assert!(rt; short == [7; 131]);
    let mut fitting = [7u8; 132];
    assert_eq!(rt; drawn(rt.alloc(), &[0, 8], &mut fitting)?, Ok(132));
    assert_eq!(rt; fitting[131], 10);
    Ok(())
}

#[test]
fn jobs_that_are_refused(rt: HostRuntime) -> Result<(), Fail> {
    let heap = rt.alloc();
    let mut out = [7u8; 132];
    assert_eq!(rt; drawn(heap, &[0, 7], &mut out)?, Err(18));
    assert_eq!(rt; drawn(heap, &[2, 1], &mut out)?, Err(18));
    assert_eq!(rt; drawn(heap, &[2, 0], &mut out)?, Err(21));
    assert_eq!(rt; drawn(heap, &[], &mut out)?, Err(22));
    assert_eq!(rt; drawn(heap, &[0], &mut out)?, Err(22));
    let long = vec![in heap; 0u8; 65_539]?;
    assert_eq!(rt; drawn(heap, &long, &mut out)?, Err(22));
    assert!(rt; long.len() > 65_538);
    assert_eq!(rt; drawn(heap, &long[0..65_538], &mut out)?, Err(18));
    assert!(rt; out == [7; 132]);
    Ok(())
}
