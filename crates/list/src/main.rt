// Lists the statements of a stream that comes on standard input, and how it ends.
#![tactic(auto)]

use listing::listing::list;
use std::io;
use std::io::{Read, Write};

fn main(rt: HostRuntime) -> io::Result<()> {
    let heap = rt.alloc();
    let mut bytes = Vec::new(heap);
    rt.stdin().read_to_end(&mut bytes)?;
    let text = list(heap, bytes.as_slice())?;
    rt.stdout().write_all(text.as_slice())
}
