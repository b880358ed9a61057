// Short jobs and their report lines.
use crate::lines::reports;
use std::test::Fail;

// A job of side 8 and the line that it ends with.
struct Job {
    bytes: &'static [u8],
    line: &'static [u8],
}

#[rattlefmt::skip]
static JOBS: [Job; 27] = [
    // 0: nothing at all, and a picture whose line ends where its beam is
    Job { bytes: &[0, 8], line: b"read 0 pictures 0 statements 0 beam 0 0 fault 0 at 0 in 0 0\n" },
    Job { bytes: &[0, 8, 1, 4, 0, 5, 255, 250, 10], line: b"read 7 pictures 1 statements 1 beam 5 -6 fault 0 at 0 in 0 0\n" },
    // 1: a code above 20
    Job { bytes: &[0, 8, 1, 21, 10], line: b"read 2 pictures 0 statements 0 beam 0 0 fault 1 at 1 in 0 0\n" },
    // 2: NULL outside; ERASE in a picture; ENDPIC in a definition
    Job { bytes: &[0, 8, 0], line: b"read 1 pictures 0 statements 0 beam 0 0 fault 2 at 0 in 0 0\n" },
    Job { bytes: &[0, 8, 1, 12, 1, 1], line: b"read 4 pictures 0 statements 1 beam 0 0 fault 2 at 3 in 0 0\n" },
    Job { bytes: &[0, 8, 15, 1, b'A', 1, 128, 10], line: b"read 6 pictures 0 statements 0 beam 0 0 fault 2 at 5 in 0 0\n" },
    // 3: a count of two bytes that says 127
    Job { bytes: &[0, 8, 1, 8, 0x80, 0x7F, 0], line: b"read 4 pictures 0 statements 0 beam 0 0 fault 3 at 1 in 0 0\n" },
    // 4: a string of 513 bytes, a name of 9
    Job { bytes: &[0, 8, 1, 8, 0x82, 0x01, 0], line: b"read 4 pictures 0 statements 0 beam 0 0 fault 4 at 1 in 0 0\n" },
    Job { bytes: &[0, 8, 15, 9], line: b"read 2 pictures 0 statements 0 beam 0 0 fault 4 at 0 in 0 0\n" },
    // 5: a text code above 127, at the text's end; a name without characters
    Job { bytes: &[0, 8, 1, 8, 2, 128, 65], line: b"read 5 pictures 0 statements 0 beam 0 0 fault 5 at 1 in 0 0\n" },
    Job { bytes: &[0, 8, 15, 0, 1, 128], line: b"read 4 pictures 0 statements 0 beam 0 0 fault 5 at 0 in 0 0\n" },
    // 6: an absolute 16384, a delta of -32768
    Job { bytes: &[0, 8, 1, 2, 0x40, 0, 0, 0], line: b"read 6 pictures 0 statements 0 beam 0 0 fault 6 at 1 in 0 0\n" },
    Job { bytes: &[0, 8, 1, 3, 0, 0, 0x80, 0], line: b"read 6 pictures 0 statements 0 beam 0 0 fault 6 at 1 in 0 0\n" },
    // 7: the byte after a name, a header, a tail of 15 bytes, a tail with another bit
    Job { bytes: &[0, 8, 15, 1, b'A', 2], line: b"read 4 pictures 0 statements 0 beam 0 0 fault 7 at 0 in 0 0\n" },
    Job { bytes: &[0, 8, 15, 1, b'A', 1, 0], line: b"read 5 pictures 0 statements 0 beam 0 0 fault 7 at 0 in 0 0\n" },
    Job { bytes: &[0, 8, 1, 17, 1, b'A', 15], line: b"read 5 pictures 0 statements 0 beam 0 0 fault 7 at 1 in 0 0\n" },
    Job { bytes: &[0, 8, 1, 17, 1, b'A', 1, 0x20], line: b"read 6 pictures 0 statements 0 beam 0 0 fault 7 at 1 in 0 0\n" },
    // 9: to the right edge of the field, and one more; a line feed below the field, in a text that puts the beam back
    Job { bytes: &[0, 8, 1, 3, 0x7F, 0xFF, 0, 0, 3, 0, 1, 0, 0], line: b"read 11 pictures 0 statements 2 beam 32767 0 fault 9 at 6 in 0 0\n" },
    Job { bytes: &[0, 8, 1, 3, 0, 0, 0x80, 0x01, 9, 2, b' ', 10], line: b"read 10 pictures 0 statements 2 beam 0 -32767 fault 9 at 6 in 0 0\n" },
    // 11: a call of a definition for turned calls only
    Job { bytes: &[0, 8, 15, 1, b'A', 1, 0x40, 16, 1, 17, 1, b'A', 0], line: b"read 11 pictures 0 statements 1 beam 0 0 fault 11 at 7 in 0 0\n" },
    // 11 after the move to AT, which stands
    Job { bytes: &[0, 8, 15, 1, b'A', 1, 0x40, 16, 1, 17, 1, b'A', 5, 0x40, 0, 7, 0, 9], line: b"read 16 pictures 0 statements 1 beam 7 9 fault 11 at 7 in 0 0\n" },
    // 12: a definition that calls itself, in its body's second statement
    Job { bytes: &[0, 8, 15, 1, b'A', 1, 0x80, 0, 17, 1, b'A', 0, 16, 1, 17, 1, b'A', 0], line: b"read 16 pictures 0 statements 3 beam 0 0 fault 12 at 12 in 1 1\n" },
    // a name without entry draws nothing, and its AT point is the beam
    Job { bytes: &[0, 8, 1, 17, 1, b'Z', 5, 0x40, 0, 5, 0, 6, 10], line: b"read 11 pictures 1 statements 1 beam 5 6 fault 0 at 0 in 0 0\n" },
    // 16: a finish in a picture, in a statement, in a definition
    Job { bytes: &[0, 8, 1], line: b"read 1 pictures 0 statements 0 beam 0 0 fault 16 at 1 in 0 0\n" },
    Job { bytes: &[0, 8, 1, 10, 1, 2, 0], line: b"read 5 pictures 1 statements 0 beam 0 0 fault 16 at 5 in 0 0\n" },
    Job { bytes: &[0, 8, 15, 1, b'A', 1, 128], line: b"read 5 pictures 0 statements 0 beam 0 0 fault 16 at 5 in 0 0\n" },
    // two pictures: the second ERASE begins anew
    Job { bytes: &[0, 8, 1, 2, 0, 9, 0, 9, 18, 10, 1, 19, 10], line: b"read 11 pictures 2 statements 1 beam 0 0 fault 0 at 0 in 0 0\n" },
];

#[test]
fn short_jobs(rt: HostRuntime) -> Result<(), Fail> {
    for job in &JOBS {
        reports(rt.alloc(), job.bytes, job.line)?;
    }
    Ok(())
}
