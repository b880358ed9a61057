// Jobs at the limits of names, bodies, marks, calls and statements.
use crate::lines::reports;
use std::alloc::{AllocError, Global};
use std::iter;
use std::test::Fail;

// A job of side 8 that begins with these bytes and goes on with a byte, so many times.
fn repeating(heap: Global, front: &[u8], byte: u8, times: usize) -> Result<Vec<u8>, AllocError> {
    let mut job = Vec::from_slice(heap, &[0, 8])?;
    job.extend_from_slice(front)?;
    job.extend(iter::repeat_n(byte, times))?;
    Ok(job)
}

// The opening of a definition of the name A, of five bytes.
const HEADING: [u8; 5] = [15, 1, b'A', 1, 0x80];

#[test]
fn bodies_of_1024_bytes(rt: HostRuntime) -> Result<(), Fail> {
    let heap = rt.alloc();
    let full = repeating(heap, &HEADING, 0, 1024)?;
    let line = b"read 1029 pictures 0 statements 0 beam 0 0 fault 16 at 1029 in 0 0\n";
    reports(heap, &full, line)?;
    let over = repeating(heap, &HEADING, 0, 1025)?;
    let line = b"read 1030 pictures 0 statements 0 beam 0 0 fault 8 at 1029 in 0 0\n";
    reports(heap, &over, line)
}

// A job of side 8 with so many empty definitions, each of seven bytes.
fn defining(heap: Global, names: u8) -> Result<Vec<u8>, AllocError> {
    let mut job = Vec::from_slice(heap, &[0, 8])?;
    for k in 0..names {
        job.extend_from_slice(&[15, 2, b'A' + k / 10 % 10, b'0' + k % 10, 1, 0x80, 16])?;
    }
    Ok(job)
}

#[test]
fn names_of_32(rt: HostRuntime) -> Result<(), Fail> {
    let heap = rt.alloc();
    let mut full = defining(heap, 32)?;
    let line = b"read 224 pictures 0 statements 0 beam 0 0 fault 0 at 0 in 0 0\n";
    reports(heap, &full, line)?;
    // a known name may be defined again
    full.extend_from_slice(&[15, 2, b'A', b'0', 1, 0x40, 16])?;
    let line = b"read 231 pictures 0 statements 0 beam 0 0 fault 0 at 0 in 0 0\n";
    reports(heap, &full, line)?;
    let over = defining(heap, 33)?;
    let line = b"read 230 pictures 0 statements 0 beam 0 0 fault 8 at 224 in 0 0\n";
    reports(heap, &over, line)
}

#[test]
fn marks_of_64(rt: HostRuntime) -> Result<(), Fail> {
    let heap = rt.alloc();
    let full = repeating(heap, &[1], 18, 64)?;
    let line = b"read 65 pictures 0 statements 64 beam 0 0 fault 16 at 65 in 0 0\n";
    reports(heap, &full, line)?;
    let over = repeating(heap, &[1], 18, 65)?;
    let line = b"read 66 pictures 0 statements 65 beam 0 0 fault 10 at 65 in 0 0\n";
    reports(heap, &over, line)
}

// A job of side 8 in which each of so many definitions, of eleven bytes, has NULL and a call of the next name, and the first is called.
fn calling(heap: Global, definitions: u8) -> Result<Vec<u8>, AllocError> {
    let mut job = Vec::from_slice(heap, &[0, 8])?;
    for k in 0..definitions {
        let name = b'A' + k % 16;
        job.extend_from_slice(&[15, 1, name, 1, 0x80, 0, 17, 1, name + 1, 0, 16])?;
    }
    job.extend_from_slice(&[1, 17, 1, b'A', 0, 10])?;
    Ok(job)
}

#[test]
fn calls_of_eight(rt: HostRuntime) -> Result<(), Fail> {
    let heap = rt.alloc();
    // eight are open, and the ninth name has no entry
    let deep = calling(heap, 8)?;
    let line = b"read 94 pictures 1 statements 17 beam 0 0 fault 0 at 0 in 0 0\n";
    reports(heap, &deep, line)?;
    let over = calling(heap, 9)?;
    let line = b"read 104 pictures 0 statements 17 beam 0 0 fault 13 at 100 in 8 1\n";
    reports(heap, &over, line)
}

#[test]
fn statements_of_65536(rt: HostRuntime) -> Result<(), Fail> {
    let heap = rt.alloc();
    // a body of 1,024 NULLs, and calls of it: each counts 1,025 statements
    let mut job = repeating(heap, &HEADING, 0, 1024)?;
    job.extend_from_slice(&[16, 1])?;
    for _ in 0..64 {
        job.extend_from_slice(&[17, 1, b'A', 0])?;
    }
    // 63 calls are 64,575 statements, the call is one more, and 960 of its body are 65,536
    let line = b"read 1287 pictures 0 statements 65536 beam 0 0 fault 14 at 1283 in 1 960\n";
    reports(heap, &job, line)
}
