// Each failure, at its line.
use composing::compose::compose;
use composing::report::report;
use std::alloc::Global;
use std::test::Fail;

// A text, the room that it is composed into, and how its failure is told.
#[derive(Clone, Copy)]
struct Case<'a> {
    what: &'a str,
    text: &'a [u8],
    room: usize,
    told: &'a str,
}

const CASES: [Case<'static>; 12] = [
    Case {
        what: "act outside",
        text: b"MOVEA 0 0\n",
        room: 9,
        told: "refused under 2 at line 1",
    },
    Case {
        what: "ERASE in a picture",
        text: b"ERASE\n\nERASE\n",
        room: 9,
        told: "refused under 2 at line 3",
    },
    Case {
        what: "ENDPIC in a definition",
        text: b"SUBHED A 80\nENDPIC\n",
        room: 9,
        told: "refused under 2 at line 2",
    },
    Case {
        what: "SUBHED in a picture",
        text: b"ERASE\nSUBHED A 80\n",
        room: 9,
        told: "refused under 2 at line 2",
    },
    Case {
        what: "long name",
        text: b"SUBHED ABCDEFGHI 80",
        room: 99,
        told: "refused under 4 at line 1",
    },
    Case {
        what: "name in small letters",
        text: b"SUBHED a 80",
        room: 9,
        told: "refused under 5 at line 1",
    },
    Case {
        what: "text above 127",
        text: b"ERASE\nTEXT \"\\x80\"",
        room: 9,
        told: "refused under 5 at line 2",
    },
    Case {
        what: "coordinate off the screen",
        text: b"ERASE\nMOVEA 16384 0",
        room: 9,
        told: "refused under 6 at line 2",
    },
    Case {
        what: "long AS name",
        text: b"ERASE\nINSTS A AS \"ABCDEFGHI\"",
        room: 99,
        told: "refused under 7 at line 2",
    },
    Case {
        what: "buffer too short",
        text: b"ERASE\nMARK\n",
        room: 2,
        told: "refused under 21 at line 2",
    },
    Case {
        what: "small letters",
        text: b"ERASE\nmark\n",
        room: 9,
        told: "unreadable at line 2",
    },
    Case {
        what: "open at the end",
        text: b"ERASE\nMARK\n",
        room: 9,
        told: "unfinished at line 2",
    },
];

// Fails unless a text fails as told.
fn check_case(heap: Global, case: Case<'_>) -> Result<(), Fail> {
    let mut out = vec![in heap; 0u8; case.room]?;
    let answer = compose(heap, case.text, out.as_mut_slice())?;
    let failure = answer.err().ok_or("composed")?;
    if report(heap, failure)?.as_str() == case.told {
        Ok(())
    } else {
        Err(Fail::new(case.what))
    }
}

#[test]
fn short_texts(rt: HostRuntime) -> Result<(), Fail> {
    for case in CASES {
        check_case(rt.alloc(), case)?;
    }
    Ok(())
}

// Adds a line of a text of these letters.
fn put_text(text: &mut Vec<u8>, letters: &[u8]) -> Result<(), Fail> {
    text.extend_from_slice(b"TEXT \"")?;
    text.extend_from_slice(letters)?;
    text.extend_from_slice(b"\"\n")?;
    Ok(())
}

#[test]
fn long_body(rt: HostRuntime) -> Result<(), Fail> {
    let mut text = Vec::new(rt.alloc());
    text.extend_from_slice(b"SUBHED A 80\n")?;
    put_text(&mut text, &[b'A'; 512])?;
    put_text(&mut text, &[b'A'; 512])?;
    check_case(
        rt.alloc(),
        Case {
            what: "long body",
            text: text.as_slice(),
            room: 2000,
            told: "refused under 8 at line 3",
        },
    )
}

#[test]
fn long_text(rt: HostRuntime) -> Result<(), Fail> {
    let mut text = Vec::new(rt.alloc());
    text.extend_from_slice(b"ERASE\n")?;
    put_text(&mut text, &[b'A'; 513])?;
    check_case(
        rt.alloc(),
        Case {
            what: "long text",
            text: text.as_slice(),
            room: 2000,
            told: "refused under 4 at line 2",
        },
    )
}
