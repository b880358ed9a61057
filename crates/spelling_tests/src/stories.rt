use spelling::code::code_of;
use statement::limits::LONGEST_STREAM;
use statement::types::Fault;
use std::alloc::Global;
use std::test::Fail;
use walking::story::read_back;
use walking::walker::{End, Walker};

// A stream tells statements at these places and with these codes, and ends so.
fn tells(heap: Global, bytes: &[u8], told: &[(usize, u8)], end: End) -> Result<(), Fail> {
    let story = read_back(heap, bytes)?;
    let placed = story.told.iter();
    if !placed
        .map(|p| (p.place, code_of(&p.statement)))
        .eq(told.iter().copied())
    {
        Err(Fail::new("other statements, or places"))
    } else if story.end != end {
        Err(Fail::new("another end"))
    } else {
        Ok(())
    }
}

#[test]
fn streams_are_told(rt: HostRuntime) -> Result<(), Fail> {
    let heap = rt.alloc();
    tells(heap, &[], &[], End::Whole)?;
    tells(
        heap,
        &[1, 2, 0, 5, 0, 6, 8, 1, 65, 10],
        &[(0, 1), (1, 2), (6, 8), (9, 10)],
        End::Whole,
    )?;
    let unfinished = |place| End::Unfinished { place };
    tells(heap, &[1, 0, 8, 2, 65], &[(0, 1), (1, 0)], unfinished(5))?;
    tells(
        heap,
        &[15, 1, 65, 1, 0x80, 0],
        &[(0, 15), (5, 0)],
        unfinished(6),
    )?;
    let refused = |fault, place| End::Refused { fault, place };
    tells(
        heap,
        &[1, 0, 8, 1, 200, 0],
        &[(0, 1), (1, 0)],
        refused(Fault::WrongCharacter, 2),
    )?;
    tells(heap, &[1, 16], &[(0, 1)], refused(Fault::Misplaced, 1))
}

#[test]
fn the_longest_stream_ends(rt: HostRuntime) -> Result<(), Fail> {
    let mut bytes = vec![in rt.alloc(); 0u8; LONGEST_STREAM + 1]?;
    bytes[0] = 1;
    bytes[LONGEST_STREAM - 1] = 2;
    let mut walker = Walker::new(bytes.as_slice());
    let end = (0..LONGEST_STREAM).find_map(|_| walker.next().err());
    let place = LONGEST_STREAM - 1;
    let fault = Fault::StreamTooLong;
    assert_eq!(rt; end, Some(End::Refused { fault, place }));
    Ok(())
}
