// A definition and a picture, composed, listed and drawn.
use composing::compose::compose;
use job::draw_job;
use listing::listing::list;
use reader::reader::Reader;
use std::test::Fail;

const DESCRIPTION: &[u8] =
    b"SUBHED D 80\n  DOTR 4096 0\nSUBEND\n\nERASE\nMOVEA -16384 -16384\nDRAWA 16383 16383\nMOVEA -16384 0\nINSTS D\nENDPIC";

const LISTING: &[u8] =
    b"0 SUBHED D 80\n5   DOTR 4096 0\n10 SUBEND\n11 ERASE\n12 MOVEA -16384 -16384\n17 DRAWA 16383 16383\n22 MOVEA -16384 0\n27 INSTS D\n31 ENDPIC\nwhole\n";

const PAGE: &[u8] =
    b".......#\n......#.\n.....#..\n.#..#...\n...#....\n..#.....\n.#......\n#.......\nread 32 pictures 1 statements 5 beam -12288 0 fault 0 at 0 in 0 0\n";

// The stream of the description, worked out by hand, and one byte of the buffer that stays.
const STREAM: [u8; 33] = [
    15, 1, 68, 1, 128, 7, 16, 0, 0, 0, 16, 1, 2, 192, 0, 192, 0, 4, 63, 255, 63, 255, 2, 192, 0, 0,
    0, 17, 1, 68, 0, 10, 99,
];

#[test]
fn description_makes_the_stream(rt: HostRuntime) -> Result<(), Fail> {
    let mut out = [99; 33];
    let answer = compose(rt.alloc(), DESCRIPTION, &mut out)?;
    assert_eq!(rt; answer.ok(), Some(32));
    assert_eq!(rt; out, STREAM);
    Ok(())
}

#[test]
fn stream_lists_as_described(rt: HostRuntime) -> Result<(), Fail> {
    let text = list(rt.alloc(), &STREAM[0..32])?;
    assert_eq!(rt; text.as_slice(), LISTING);
    Ok(())
}

#[test]
fn listing_makes_the_stream_again(rt: HostRuntime) -> Result<(), Fail> {
    let mut out = [99; 33];
    let answer = compose(rt.alloc(), LISTING, &mut out)?;
    assert_eq!(rt; answer.ok(), Some(32));
    assert_eq!(rt; out, STREAM);
    Ok(())
}

#[test]
fn stream_draws_the_page(rt: HostRuntime) -> Result<(), Fail> {
    let mut job = Vec::new(rt.alloc());
    job.extend_from_slice(&[0, 8])?;
    job.extend_from_slice(&STREAM[0..32])?;
    let mut reader = Reader::new(rt.alloc())?;
    let mut page = vec![in rt.alloc(); 0u8; 400]?;
    let count = draw_job(&mut reader, job.as_slice(), page.as_mut_slice()).ok();
    assert_eq!(rt; count, Some(PAGE.len()));
    page.truncate(PAGE.len());
    assert_eq!(rt; page.as_slice(), PAGE);
    Ok(())
}

#[test]
fn lines_that_say_nothing_make_nothing(rt: HostRuntime) -> Result<(), Fail> {
    let mut out = [99; 2];
    let answer = compose(rt.alloc(), b" 12 \n\nwhole\n7 whole", &mut out)?;
    assert_eq!(rt; answer.ok(), Some(0));
    assert_eq!(rt; out, [99, 99]);
    Ok(())
}
