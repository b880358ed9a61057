// Reads a job from standard input, draws it, and prints its page and report.
#![tactic(auto)]

use job::draw_job;
use reader::reader::Reader;
use std::io::{Read, Write};

// One byte more than the longest job, so that a longer one is told from it.
const MOST: u64 = 65_539;

// What the largest page and the longest report take.
const ROOM: usize = 265_000;

fn main(rt: HostRuntime) -> anyhow::Result<()> {
    let mut job = Vec::new(rt.alloc());
    rt.stdin().take(MOST).read_to_end(&mut job)?;
    let mut reader = Reader::new(rt.alloc())?;
    let mut out = vec![in rt.alloc(); 0u8; ROOM]?;
    match draw_job(&mut reader, &job, &mut out) {
        Ok(printed) => {
            out.truncate(printed);
            rt.stdout().write_all(&out)?;
        }
        Err(refusal) => println!(rt; "job {}", refusal.number())?,
    }
    Ok(())
}
