// Reads a description of a stream from standard input, and writes the stream, or a line that tells why there is none.
#![tactic(auto)]

use composing::compose::compose;
use composing::report::report;
use statement::limits::LONGEST_STREAM;
use std::io::{Read, Write};

fn main(rt: HostRuntime) -> anyhow::Result<()> {
    let heap = rt.alloc();
    let mut text = Vec::new(heap);
    rt.stdin().read_to_end(&mut text)?;
    // no statement's spelling is longer than its words, and one byte stays free
    let room = text.len().saturating_add(1).min(LONGEST_STREAM);
    let mut out = vec![in heap; 0u8; room]?;
    match compose(heap, text.as_slice(), out.as_mut_slice())? {
        Ok(n) => {
            out.truncate(n);
            rt.stdout().write_all(out.as_slice())?;
        }
        Err(failure) => println!(rt; "{}", report(heap, failure)?)?,
    }
    Ok(())
}
